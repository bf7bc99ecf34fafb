// How a player reads a game: each part by its number.

use crate::cursor::CondactCursor;
use crate::parts::GamePart;
use paw_base::limits::WORD_LENGTH;
use paw_base::parts::{Condact, Counts, ObjectFacts};

/// A valid game that answers what its lists hold, by number. No call takes memory.
pub trait Tables {
    ghost use Rattle.std.specs.Prelude.{◌≡◌, ◌≤◌, ◌<◌, length, IsTrue, IfSome, OnSome};
    ghost use Rattle.std.specs.Option.{option_copied, option_map};
    ghost use Rattle.paw_base.specs.declared.limits.TheConstants.{CONDACT_LIMIT, ENTRY_LIMIT, TEXT_LIMIT, WEIGHT_LIMIT};
    ghost use Rattle.paw_base.specs.declared.words.TheConstants.{GREATEST_WORD, LEAST_WORD, PRONOUN_CLASS};
    ghost use Rattle.paw_game.specs.Game.{GameLists, counts_of};
    ghost use Rattle.paw_game.specs.Valid.{Valid, is_condact, is_place};
    ghost use Rattle.paw_game.specs.Tables.{facts_at, exit_at, head_at, condact_at, word_at};
    ghost use Rattle.paw_game.specs.inner.Tables.{text_at, match_at, matches_at, MovesPast};
    ghost use Rattle.paw_game.specs.declared.cursor.CondactCursor.{CondactCursor};

    /// The game.
    ghost game: { Self → GameLists };

    /// What a cursor keeps for reading on is that of its condact.
    ghost stands: { Self → CondactCursor → Type 0 };

    /// How many rows each list has.
    fn counts(&self) -> Counts
        ensures value { result ≡ counts_of (game self.now) }
        ensures valid { Valid (game self.now) };

    /// The facts of an object; None exactly where there is no such object.
    fn facts(&self, object: u8) -> Option<ObjectFacts>
        ensures value { result ≡ facts_at (game self.now) object }
        ensures weight { IfSome result (λ f. f.weight ≤ WEIGHT_LIMIT) }
        ensures start { IfSome result (λ f. IsTrue (is_place (length (game self.now).locations) f.start)) };

    /// A text of the system messages, messages, objects or locations; None exactly where there is none.
    fn text(&self, part: GamePart, number: u8) -> Option<&[u8]>
        ensures value { option_copied result ≡ text_at (game self.now) part number }
        ensures short { IfSome result (λ text. length text.now ≤ TEXT_LIMIT) };

    /// The location to which a location's exit for a verb leads; None exactly where it has no such exit.
    fn exit(&self, location: u8, verb: u8) -> Option<u8>
        ensures value { result ≡ exit_at (game self.now) location verb }
        ensures leads { IfSome result (λ to. to < length (game self.now).locations) };

    /// An entry's verb and noun; None exactly where there is no such entry.
    fn head(&self, table: u8, entry: u16) -> Option<(u8, u8)>
        ensures value { result ≡ head_at (game self.now) table entry }
        ensures small { OnSome result (entry < ENTRY_LIMIT) };

    /// A condact of an entry; None exactly where there is no such condact.
    fn condact(&self, table: u8, entry: u16, at: u8) -> Option<Condact>
        ensures value { result ≡ condact_at (game self.now) table entry at }
        ensures small { OnSome result (entry < ENTRY_LIMIT) }
        ensures early { OnSome result (at < CONDACT_LIMIT) }
        ensures right { IfSome result (λ c. IsTrue (is_condact (game self.now) c)) };

    /// The cursor at a condact of an entry, whether or not there is such a condact. Reading on from a cursor looks up
    /// neither the table nor the entry again, as `condact` does each time.
    fn cursor(&self, table: u8, entry: u16, at: u8) -> CondactCursor
        ensures stands { stands self.now result }
        ensures table { result.table ≡ table }
        ensures entry { result.entry ≡ entry }
        ensures at { result.at ≡ at };

    /// The condact at a cursor, which moves on to the next one; None exactly where there is no such condact, and then
    /// the cursor stays.
    fn next_condact(&self, cursor: &mut CondactCursor) -> Option<Condact>
        requires stands { stands self.now cursor.old }
        ensures stands { stands self.now cursor.new }
        ensures moves { MovesPast result cursor.old cursor.new }
        ensures value { result ≡ condact_at (game self.now) cursor.old.table cursor.old.entry cursor.old.at }
        ensures small { OnSome result (cursor.old.entry < ENTRY_LIMIT) }
        ensures early { OnSome result (cursor.old.at < CONDACT_LIMIT) }
        ensures right { IfSome result (λ c. IsTrue (is_condact (game self.now) c)) };

    /// The least entry not below `from` that matches this verb and noun; None exactly where there is none.
    fn next_match(&self, table: u8, from: u16, verb: u8, noun: u8) -> Option<u16>
        ensures value { result ≡ match_at (game self.now) table from verb noun }
        ensures reached { IfSome result (λ entry. from ≤ entry) }
        ensures small { IfSome result (λ entry. entry < ENTRY_LIMIT) }
        ensures matching { IfSome result (λ entry. IsTrue (matches_at (game self.now) table entry verb noun)) };

    /// The cursor at the first condact of the entry that `next_match` gives; None exactly where it gives none. So the
    /// entry that was found isn't looked up a second time.
    fn match_cursor(&self, table: u8, from: u16, verb: u8, noun: u8) -> Option<CondactCursor>
        ensures value { option_map (λ c. c.entry) result ≡ match_at (game self.now) table from verb noun }
        ensures table { IfSome result (λ c. c.table ≡ table) }
        ensures start { IfSome result (λ c. c.at ≡ 0) }
        ensures stands { IfSome result (λ c. stands self.now c) }
        ensures reached { IfSome result (λ c. from ≤ c.entry) }
        ensures small { IfSome result (λ c. c.entry < ENTRY_LIMIT) };

    /// The value and the class of the word with these letters; None exactly where there is no such word.
    fn word(&self, letters: &[u8; WORD_LENGTH]) -> Option<(u8, u8)>
        ensures value { result ≡ word_at (game self.now) letters.now }
        ensures low { IfSome result (λ w. LEAST_WORD ≤ w.0) }
        ensures high { IfSome result (λ w. w.0 ≤ GREATEST_WORD) }
        ensures class { IfSome result (λ w. w.1 ≤ PRONOUN_CLASS) };
}
