// The table of condacts: the name and the parameters of each code.

ghost use Rattle.std.specs.Prelude.{◌≡◌, ◌+◌, ℕ, true, SomeIff, IfSome, is_some, bytes_eq, ◌==◌};
ghost use Rattle.std.specs.List.{position};
ghost use Rattle.paw_base.specs.Condacts.{param_count, name_of, capitals, code_named, may_be_indirect, plain_code};
ghost use Rattle.paw_base.specs.Condacts.{plain_line, indirect_line, first_kind, second_kind};
ghost use Rattle.paw_base.specs.inner.Condacts.{IsCode, IsPlainCode, HasName, is_plain, before_space};
ghost use Rattle.paw_base.specs.inner.Condacts.{condact_row_of, row_of_line};
ghost use Rattle.paw_base.specs.inner.Condacts.{filled_up};

use crate::codes::{DOALL, INDIRECT, PROCESS};
use ParamKind::{
    Absent, Adjective, Adverb, Flag, Location, Message, Noun, Number, Object, Place, Preposition,
    System, Table,
};

/// What a parameter of a condact names, which says what values it may have. Absent stands for no parameter.
#[derive(Clone, Copy, Drop, PartialEq, Eq, Debug)]
pub enum ParamKind {
    Absent,
    Location,
    Place,
    Object,
    Flag,
    Number,
    Message,
    System,
    Table,
    Adverb,
    Noun,
    Adjective,
    Preposition,
}

/// What the table of condacts says of one code: its name in capitals, filled up with spaces, the kinds of its two
/// parameters, and whether it acts (true) or tests (false).
#[derive(Clone, Copy, Drop, PartialEq, Eq, Debug)]
pub struct CondactRow {
    pub name: [u8; 8],
    pub first: ParamKind,
    pub second: ParamKind,
    pub acts: bool,
}

impl CondactRow {
    /// How many parameters the condact has: 0 to 2.
    pub fn params(&self) -> usize
        ensures value { result ≡ param_count self.now.first + param_count self.now.second }
    {
        usize::from(self.first != Absent) + usize::from(self.second != Absent)
    }

    /// The name without the spaces that fill it up.
    pub fn trimmed_name(&self) -> &[u8]
        ensures value { result.now ≡ before_space self.now.name }
        ensures of_code { (code : ℕ) → IsCode code → self.now ≡ condact_row_of code → result.now ≡ name_of code }
    {
        up_to_space(&self.name)
    }
}

// What stands before the first space.
fn up_to_space(name: &[u8]) -> &[u8]
    ensures value { result.now ≡ before_space name.now }
{
    match first_space(name) {
        Some(end) => &name[..end],
        None => name,
    }
}

fn first_space(name: &[u8]) -> Option<usize>
    ensures value { result ≡ position (λ byte. byte == 32) name.now }
{
    name.iter().position(|byte| *byte == b' ')
}

/// The name, the kinds of the two parameters, and whether it acts, by code.
static CONDACTS: [([u8; 8], ParamKind, ParamKind, bool); 108] = [
    (*b"AT      ", Location, Absent, false),
    (*b"NOTAT   ", Location, Absent, false),
    (*b"ATGT    ", Number, Absent, false),
    (*b"ATLT    ", Number, Absent, false),
    (*b"PRESENT ", Object, Absent, false),
    (*b"ABSENT  ", Object, Absent, false),
    (*b"WORN    ", Object, Absent, false),
    (*b"NOTWORN ", Object, Absent, false),
    (*b"CARRIED ", Object, Absent, false),
    (*b"NOTCARR ", Object, Absent, false),
    (*b"CHANCE  ", Number, Absent, false),
    (*b"ZERO    ", Flag, Absent, false),
    (*b"NOTZERO ", Flag, Absent, false),
    (*b"EQ      ", Flag, Number, false),
    (*b"NOTEQ   ", Flag, Number, false),
    (*b"GT      ", Flag, Number, false),
    (*b"LT      ", Flag, Number, false),
    (*b"SAME    ", Flag, Flag, false),
    (*b"NOTSAME ", Flag, Flag, false),
    (*b"ADJECT1 ", Adjective, Absent, false),
    (*b"ADVERB  ", Adverb, Absent, false),
    (*b"PREP    ", Preposition, Absent, false),
    (*b"NOUN2   ", Noun, Absent, false),
    (*b"ADJECT2 ", Adjective, Absent, false),
    (*b"ISAT    ", Object, Place, false),
    (*b"ISNOTAT ", Object, Place, false),
    (*b"TIMEOUT ", Absent, Absent, false),
    (*b"QUIT    ", Absent, Absent, false),
    (*b"MOVE    ", Flag, Absent, false),
    (*b"INVEN   ", Absent, Absent, true),
    (*b"DESC    ", Absent, Absent, true),
    (*b"END     ", Absent, Absent, true),
    (*b"DONE    ", Absent, Absent, true),
    (*b"NOTDONE ", Absent, Absent, true),
    (*b"OK      ", Absent, Absent, true),
    (*b"ANYKEY  ", Absent, Absent, true),
    (*b"SAVE    ", Absent, Absent, true),
    (*b"LOAD    ", Absent, Absent, true),
    (*b"RAMSAVE ", Absent, Absent, true),
    (*b"RAMLOAD ", Number, Absent, true),
    (*b"TURNS   ", Absent, Absent, true),
    (*b"SCORE   ", Absent, Absent, true),
    (*b"DROPALL ", Absent, Absent, true),
    (*b"AUTOG   ", Absent, Absent, true),
    (*b"AUTOD   ", Absent, Absent, true),
    (*b"AUTOW   ", Absent, Absent, true),
    (*b"AUTOR   ", Absent, Absent, true),
    (*b"AUTOP   ", Location, Absent, true),
    (*b"AUTOT   ", Location, Absent, true),
    (*b"GOTO    ", Location, Absent, true),
    (*b"MES     ", Message, Absent, true),
    (*b"MESSAGE ", Message, Absent, true),
    (*b"SYSMESS ", System, Absent, true),
    (*b"NEWLINE ", Absent, Absent, true),
    (*b"PRINT   ", Flag, Absent, true),
    (*b"GET     ", Object, Absent, true),
    (*b"DROP    ", Object, Absent, true),
    (*b"WEAR    ", Object, Absent, true),
    (*b"REMOVE  ", Object, Absent, true),
    (*b"PUTIN   ", Object, Location, true),
    (*b"TAKEOUT ", Object, Location, true),
    (*b"CREATE  ", Object, Absent, true),
    (*b"DESTROY ", Object, Absent, true),
    (*b"SWAP    ", Object, Object, true),
    (*b"PLACE   ", Object, Place, true),
    (*b"PUTO    ", Place, Absent, true),
    (*b"SET     ", Flag, Absent, true),
    (*b"CLEAR   ", Flag, Absent, true),
    (*b"PLUS    ", Flag, Number, true),
    (*b"MINUS   ", Flag, Number, true),
    (*b"LET     ", Flag, Number, true),
    (*b"ADD     ", Flag, Flag, true),
    (*b"SUB     ", Flag, Flag, true),
    (*b"RANDOM  ", Flag, Absent, true),
    (*b"COPYOO  ", Object, Object, true),
    (*b"COPYOF  ", Object, Flag, true),
    (*b"COPYFO  ", Flag, Object, true),
    (*b"COPYFF  ", Flag, Flag, true),
    (*b"LISTOBJ ", Absent, Absent, true),
    (*b"LISTAT  ", Place, Absent, true),
    (*b"WHATO   ", Absent, Absent, true),
    (*b"WEIGH   ", Object, Flag, true),
    (*b"WEIGHT  ", Flag, Absent, true),
    (*b"ABILITY ", Number, Number, true),
    (*b"PARSE   ", Absent, Absent, true),
    (*b"PROCESS ", Table, Absent, true),
    (*b"DOALL   ", Place, Absent, true),
    (*b"PROMPT  ", Number, Absent, true),
    (*b"TIME    ", Number, Number, true),
    (*b"NEWTEXT ", Absent, Absent, true),
    (*b"RESET   ", Location, Absent, true),
    (*b"EXTERN  ", Number, Flag, true),
    (*b"PICTURE ", Number, Absent, true),
    (*b"GRAPHIC ", Number, Absent, true),
    (*b"BEEP    ", Number, Number, true),
    (*b"CLS     ", Absent, Absent, true),
    (*b"PAPER   ", Number, Absent, true),
    (*b"INK     ", Number, Absent, true),
    (*b"BORDER  ", Number, Absent, true),
    (*b"CHARSET ", Number, Absent, true),
    (*b"PROTECT ", Absent, Absent, true),
    (*b"SAVEAT  ", Absent, Absent, true),
    (*b"BACKAT  ", Absent, Absent, true),
    (*b"PRINTAT ", Number, Number, true),
    (*b"PAUSE   ", Number, Absent, true),
    (*b"MODE    ", Number, Number, true),
    (*b"LINE    ", Number, Absent, true),
    (*b"INPUT   ", Number, Absent, true),
];

/// What the table says of a code; None where it isn't the code of a condact.
pub fn condact_row(code: u8) -> Option<CondactRow>
    ensures value { SomeIff result (IsCode code) (condact_row_of code) }
{
    if code < INDIRECT {
        plain_row(code)
    } else {
        indirect_row(code - INDIRECT)
    }
}

// The row of a plain code.
fn plain_row(code: u8) -> Option<CondactRow>
    ensures value { SomeIff result (IsPlainCode code) (row_of_line (plain_line code)) }
{
    let (name, first, second, acts) = *CONDACTS.get(code as usize)?;
    Some(CondactRow {
        name,
        first,
        second,
        acts,
    })
}

// The row of the indirect condact of a plain code: its first parameter is a flag. None where it can't be indirect.
fn indirect_row(code: u8) -> Option<CondactRow>
    ensures value { SomeIff result (may_be_indirect code ≡ true) (row_of_line (indirect_line code)) }
{
    let row = plain_row(code)?;
    if row.first == Absent || code == PROCESS || code == DOALL {
        return None;
    }
    Some(CondactRow { first: Flag, ..row })
}

/// Whether the condact of a plain code may take its first parameter from a flag.
pub fn may_be_indirect(code: u8) -> bool
    ensures value { result ≡ may_be_indirect code }
{
    indirect_row(code).is_some()
}

/// The code of the plain condact that a condact is, or that an indirect one stands for.
pub fn plain_code(code: u8) -> u8
    requires code { IsCode code }
    ensures value { result ≡ plain_code code }
    ensures plain { IsPlainCode result }
{
    if code < INDIRECT {
        code
    } else {
        code - INDIRECT
    }
}

/// What the parameters of a condact name, as its plain code has them. An indirect one has as many parameters: all but
/// the first name the same, and in the place of the first is a flag.
pub fn plain_kinds(code: u8) -> (ParamKind, ParamKind)
    requires code { IsCode code }
    ensures first { result.0 ≡ first_kind (plain_code code) }
    ensures second { result.1 ≡ second_kind (plain_code code) }
{
    // The plain code is what is left over 128: so nothing asks whether the code is indirect, or has a row.
    let plain = (code % INDIRECT) as usize;
    prove!(plain < CONDACTS.len());
    let row = CONDACTS[plain];
    (row.1, row.2)
}

/// The code of the condact with this name, in any case of letters; None where there is none.
pub fn condact_named(name: &[u8]) -> Option<u8>
    ensures value { result ≡ code_named name.now }
    ensures found { IfSome result (λ code. HasName code name.now) }
    ensures only { (code : ℕ) → HasName code name.now → result ≡ Some code }
{
    let code = code_of(name)?;
    Some(code as u8)
}

// The code of the condact with this name, in any case of letters.
fn code_of(name: &[u8]) -> Option<usize>
    ensures value { result ≡ code_named name.now }
{
    let wanted = filled_up_capitals(name)?;
    index_of_name(wanted)
}

// The index in the table of the condact with this name in capitals, filled up with spaces.
fn index_of_name(name: [u8; 8]) -> Option<usize>
    ensures value { result ≡ position (λ row. bytes_eq row.0 name) CONDACTS }
{
    CONDACTS.iter().position(|row| row.0 == name)
}

// The name in capitals, filled up with spaces; None where it has a space or more than eight bytes.
fn filled_up_capitals(name: &[u8]) -> Option<[u8; 8]>
    ensures plain { is_plain name.now ≡ is_some result }
    ensures value { IfSome result (λ filled. filled ≡ filled_up (capitals name.now)) }
{
    if name.len() > 8 || name.contains(&b' ') {
        return None;
    }
    let mut filled = *b"        ";
    filled[..name.len()].copy_from_slice(name);
    filled.make_ascii_uppercase();
    Some(filled)
}
