// The spot, a table and an entry, where a condact of a kind stands first, and condacts that matter to the bounds.

ghost use Rattle.std.specs.Prelude.{◌≡◌, ◌≤◌, [], IfSome, All, length, slice_get};
ghost use Rattle.std.specs.List.{list_any};
ghost use Rattle.std.specs.Option.{unwrap_or};
ghost use Rattle.paw_base.specs.declared.limits.TheConstants.{ENTRY_LIMIT};
ghost use Rattle.paw_check.specs.Verbs.{may_write_verb};
ghost use Rattle.paw_check.specs.Verdicts.{redescribes};
ghost use Rattle.paw_check.specs.inner.Spots.{is_sought, entry_sought, spot_sought, any_in_entries, any_in_table};

use crate::prints::{is_indirect, plain_code};
use crate::sets::entries_of;
use paw_base::codes;
use paw_base::flags::VERB_FLAG;
use paw_base::parts::Condact;
use paw_game::parts::{Entry, Table};

/// The codes that write the flag which their first parameter names.
static WRITES_FIRST: [u8; 8] = [
    codes::MOVE,
    codes::SET,
    codes::CLEAR,
    codes::PLUS,
    codes::MINUS,
    codes::LET,
    codes::RANDOM,
    codes::WEIGHT,
];

/// The codes that write the flag which their second parameter names.
static WRITES_SECOND: [u8; 6] = [
    codes::ADD,
    codes::SUB,
    codes::COPYOF,
    codes::COPYFF,
    codes::WEIGH,
    codes::EXTERN,
];

// Whether a condact may give the verb's flag another value and go on reading the table.
fn may_write_verb(condact: &Condact) -> bool
    ensures value { result ≡ may_write_verb condact.now }
{
    let code = plain_code(condact.code);
    let indirect = is_indirect(condact.code);
    code == codes::PARSE
        || (code == codes::RAMLOAD && (indirect || condact.a >= VERB_FLAG))
        || (WRITES_FIRST.contains(&code) && (indirect || condact.a == VERB_FLAG))
        || (WRITES_SECOND.contains(&code) && condact.b == VERB_FLAG)
}

// Whether a condact leads to a description of the location.
fn redescribes(condact: &Condact) -> bool
    ensures value { result ≡ redescribes condact.now }
{
    let code = plain_code(condact.code);
    code == codes::DESC || code == codes::SAVE || code == codes::LOAD || code == codes::RESET
}

/// A kind of condact that is looked for.
#[derive(Clone, Copy, Drop, PartialEq, Eq, Debug)]
pub(crate) enum Sought {
    Call,
    Description,
    VerbWriter,
}

impl Sought {
    // Whether a condact is of this kind.
    fn is(self, condact: &Condact) -> bool
        ensures value { result ≡ is_sought self condact.now }
    {
        match self {
            Sought::Call => condact.code == codes::PROCESS,
            Sought::Description => redescribes(condact),
            Sought::VerbWriter => may_write_verb(condact),
        }
    }

    // Whether one of these condacts is of this kind.
    fn is_one_of(self, condacts: &[Condact]) -> bool
        ensures value { result ≡ list_any (is_sought self) condacts.now }
    {
        condacts.iter().any(|condact| self.is(condact))
    }

    // The first entry with a condact of this kind.
    fn entry(self, entries: &[Entry]) -> Option<usize>
        ensures value { result ≡ entry_sought self entries.now }
        ensures within { IfSome result (λ entry. entry ≤ length entries.now) }
    {
        entries
            .iter()
            .position(|entry| self.is_one_of(entry.condacts.rows.as_slice()))
    }

    // The first entry with a condact of this kind of the table with this number.
    fn entry_of(self, tables: &[Table], number: u8) -> Option<usize>
        requires short { All (λ table. length table ≤ ENTRY_LIMIT) tables.now }
        ensures value { result ≡ entry_sought self (unwrap_or (slice_get tables.now number) []) }
        ensures within { IfSome result (λ entry. entry ≤ ENTRY_LIMIT) }
    {
        self.entry(entries_of(tables, number))
    }

    /// The first of the tables with these numbers that has a condact of this kind, and its first entry with one.
    pub(crate) fn spot(self, tables: &[Table], numbers: &[u8]) -> Option<(u8, u16)>
        requires short { All (λ table. length table ≤ ENTRY_LIMIT) tables.now }
        ensures value { result ≡ spot_sought self tables.now numbers.now }
    {
        for number in numbers {
            if let Some(entry) = self.entry_of(tables, *number) {
                return Some((*number, entry as u16));
            }
        }
        None
    }

    // Whether one of these entries has a condact of this kind.
    fn is_in_entries(self, entries: &[Entry]) -> bool
        ensures value { result ≡ any_in_entries (is_sought self) entries.now }
    {
        entries
            .iter()
            .any(|entry| self.is_one_of(entry.condacts.rows.as_slice()))
    }

    // Whether the table with this number has a condact of this kind.
    fn is_in_table(self, tables: &[Table], number: u8) -> bool
        ensures value { result ≡ any_in_table (is_sought self) tables.now number }
    {
        self.is_in_entries(entries_of(tables, number))
    }

    /// Whether one of the tables with these numbers has a condact of this kind.
    pub(crate) fn is_in(self, tables: &[Table], numbers: &[u8]) -> bool
        ensures value { result ≡ list_any (any_in_table (is_sought self) tables.now) numbers.now }
    {
        numbers
            .iter()
            .any(|number| self.is_in_table(tables, *number))
    }
}
