// A valid game.

ghost use Rattle.std.specs.Prelude.{◌≡◌, Some, IfOk, IfErr, OnOk, OnErr};
ghost use Rattle.paw_game.specs.Valid.{Valid};
ghost use Rattle.paw_game.specs.inner.Fault.{game_fault};

use crate::check::check;
use crate::cursor::CondactCursor;
use crate::lookup;
use crate::parts::{GameFault, GamePart, GameParts};
use crate::tables::Tables;
use paw_base::limits::WORD_LENGTH;
use paw_base::parts::{Condact, Counts, ObjectFacts};
use std::marker::Model;

/// A valid game: seven lists that follow the rules. Contracts see them as `GameLists`.
#[derive(Drop)]
pub struct Game {
    parts: GameParts,
}

impl Model for Game {
    ghost use Rattle.paw_game.specs.Game.{GameLists};
    ghost use Rattle.paw_game.specs.Valid.{Valid};

    ghost Value = { GameLists };

    ghost view = { λ g. g.parts };

    ghost invariant = { λ g. Valid g.parts };
}

impl Game {
    /// The game of these lists. Takes no memory, and hands nothing back with a refusal.
    ///
    /// # Errors
    /// A GameFault exactly where the lists break a rule: the first part in the order of `GamePart` that does, with its
    /// limit where it has too many rows, its length where it has too few, and otherwise its first bad row.
    pub fn new(parts: GameParts) -> Result<Game, GameFault>
        ensures game { IfOk result (λ game. game ≡ parts) }
        ensures valid { OnOk result (Valid parts) }
        ensures fault { IfErr result (λ fault. game_fault parts ≡ Some fault) }
        ensures refused { OnErr result (¬ Valid parts) }
    {
        check(&parts)?;
        Ok(Game { parts })
    }

    /// The game of lists that follow the rules, which aren't checked again.
    pub fn from_valid(parts: GameParts) -> Game
        requires valid { Valid parts }
        ensures value { result ≡ parts }
    {
        Game { parts }
    }

    /// The seven lists.
    pub fn parts(&self) -> &GameParts
        ensures value { result.now ≡ self.now }
        ensures valid { Valid self.now }
    {
        &self.parts
    }
}

impl Tables for Game {
    ghost game = { λ g. g };

    ghost stands = { λ _ _. Unit {0} };

    fn counts(&self) -> Counts {
        let parts = &self.parts;
        Counts {
            words: parts.words.len() as u16,
            system: parts.system.len() as u16,
            messages: parts.messages.len() as u16,
            objects: parts.objects.len() as u16,
            locations: parts.locations.len() as u16,
            tables: parts.tables.len() as u16,
        }
    }

    fn facts(&self, object: u8) -> Option<ObjectFacts> {
        lookup::facts_at(&self.parts, object)
    }

    fn text(&self, part: GamePart, number: u8) -> Option<&[u8]> {
        lookup::text_at(&self.parts, part, number)
    }

    fn exit(&self, location: u8, verb: u8) -> Option<u8> {
        lookup::exit_at(&self.parts, location, verb)
    }

    fn head(&self, table: u8, entry: u16) -> Option<(u8, u8)> {
        lookup::head_at(&self.parts, table, entry)
    }

    fn condact(&self, table: u8, entry: u16, at: u8) -> Option<Condact> {
        lookup::condact_at(&self.parts, table, entry, at)
    }

    fn cursor(&self, table: u8, entry: u16, at: u8) -> CondactCursor {
        // A game in lists finds a condact by its numbers, so it has no use for what is left and for an offset.
        CondactCursor {
            table,
            entry,
            at,
            left: 0,
            offset: 0,
        }
    }

    fn next_condact(&self, cursor: &mut CondactCursor) -> Option<Condact> {
        let condact = lookup::condact_at(&self.parts, cursor.table, cursor.entry, cursor.at)?;
        cursor.at += 1;
        Some(condact)
    }

    fn next_match(&self, table: u8, from: u16, verb: u8, noun: u8) -> Option<u16> {
        let entry = lookup::match_at(&self.parts, table, from, verb, noun)?;
        Some(entry as u16)
    }

    fn match_cursor(&self, table: u8, from: u16, verb: u8, noun: u8) -> Option<CondactCursor> {
        let entry = self.next_match(table, from, verb, noun)?;
        Some(self.cursor(table, entry, 0))
    }

    fn word(&self, letters: &[u8; WORD_LENGTH]) -> Option<(u8, u8)> {
        lookup::word_at(&self.parts, letters)
    }
}
