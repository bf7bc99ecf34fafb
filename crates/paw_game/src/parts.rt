// The parts of a game, which contracts see as lists.

ghost use Rattle.std.specs.Prelude.{◌≡◌, IfOk, map};
ghost use Rattle.paw_game.specs.inner.Parts.{condact_of};

use paw_base::limits::WORD_LENGTH;
use paw_base::lists::Rows;
use paw_base::parts::{Condact, ObjectFacts};
use std::alloc::{AllocError, Global};
use std::marker::Model;

/// A word: five letters (capitals and digits, filled up with spaces), its value, and its class from 0 to 6: verb,
/// adverb, noun, adjective, preposition, conjunction, pronoun.
#[derive(Clone, Copy, Drop, PartialEq, Eq, Debug)]
pub struct Word {
    pub letters: [u8; WORD_LENGTH],
    pub value: u8,
    pub class: u8,
}

impl Word {
    /// The word of these parts, whatever rules they follow.
    pub fn new(letters: [u8; WORD_LENGTH], value: u8, class: u8) -> Word
        ensures value { result ≡ record { letters = letters; value = value; class = class } }
    {
        Word {
            letters,
            value,
            class,
        }
    }
}

/// A text: its bytes.
pub type Text = Rows<u8>;

/// An object: its text, and its facts.
#[derive(Drop)]
pub struct ObjectRow {
    pub text: Text,
    pub facts: ObjectFacts,
}

/// A way out of a location: the verb that takes it, and where it leads.
#[derive(Clone, Copy, Drop, PartialEq, Eq, Debug)]
pub struct Exit {
    pub verb: u8,
    pub to: u8,
}

/// The exits of one location.
pub type Exits = Rows<Exit>;

/// The condacts of one entry.
pub type Condacts = Rows<Condact>;

/// An entry of a table: the verb and the noun that it is for (1 and 255 match any), and its condacts.
#[derive(Drop)]
pub struct Entry {
    pub verb: u8,
    pub noun: u8,
    pub condacts: Condacts,
}

impl Entry {
    /// The entry for this verb and noun of these condacts, each a code and its two parameters.
    ///
    /// # Errors
    /// AllocError where there is no memory.
    pub fn from_codes(
        alloc: Global,
        verb: u8,
        noun: u8,
        codes: &[(u8, u8, u8)],
    ) -> Result<Entry, AllocError>
        ensures value { IfOk result
            (λ entry. entry ≡ record { verb = verb; noun = noun; condacts = map condact_of codes.now }) }
    {
        let condacts = condacts_from_codes(alloc, codes)?;
        Ok(Entry {
            verb,
            noun,
            condacts,
        })
    }
}

// The condacts of these codes, each with its two parameters.
fn condacts_from_codes(alloc: Global, codes: &[(u8, u8, u8)]) -> Result<Condacts, AllocError>
    ensures value { IfOk result (λ condacts. condacts ≡ map condact_of codes.now) }
{
    let rows = codes
        .iter()
        .map(|&(code, a, b)| Condact { code, a, b })
        .collect(alloc)?;
    Ok(Condacts { rows })
}

/// A table: its entries.
pub type Table = Rows<Entry>;

/// The seven lists of a game, whatever rules they follow; contracts see them as `GameLists`. The list of exits has one
/// row for each location.
#[derive(Drop)]
pub struct GameParts {
    pub words: Vec<Word>,
    pub system: Vec<Text>,
    pub messages: Vec<Text>,
    pub objects: Vec<ObjectRow>,
    pub locations: Vec<Text>,
    pub exits: Vec<Exits>,
    pub tables: Vec<Table>,
}

impl Model for GameParts {
    ghost use Rattle.paw_game.specs.Game.{GameLists};

    ghost Value = { GameLists };

    ghost view = { λ g. record {
      words = g.words.items;
      system = g.system.items;
      messages = g.messages.items;
      objects = g.objects.items;
      locations = g.locations.items;
      exits = g.exits.items;
      tables = g.tables.items;
    } };
}

/// The seven lists of a game.
#[derive(Clone, Copy, Drop, PartialEq, Eq, Debug)]
pub enum GamePart {
    Words,
    System,
    Messages,
    Objects,
    Locations,
    Exits,
    Tables,
}

/// The first part of a game, in the order of `GamePart`, that breaks a rule. The row is the part's limit where it has
/// too many rows, its length where it has too few, and otherwise its first row that breaks a rule.
#[derive(Clone, Copy, Drop, PartialEq, Eq, Debug)]
pub struct GameFault {
    pub part: GamePart,
    pub row: u32,
}
