// The rows of `/NAMES`: a name, a number, and what it is the name of. A flag may have no number.

ghost use Rattle.std.specs.Prelude.{◌≡◌, ◌++◌, ◌-◌, ◌&&◌, [], ◌∷◌, IfOk, Ok, if◌then◌else◌, option_to_list};
ghost use Rattle.std.specs.List.{list_any, flat_map};
ghost use Rattle.paw_read_error.specs.inner.Gives.{Gives};
ghost use Rattle.paw_author.specs.Hooks.{first_line};
ghost use Rattle.paw_author.specs.Known.{name_for};
ghost use Rattle.paw_author.specs.Tokens.{token_origin};
ghost use Rattle.paw_author.specs.NameRows.{kind_of_word, is_flag, is_location, is_reserved_name, may_name, is_naming};
ghost use Rattle.paw_author.specs.NameRows.{nth_word, word_count, gives_flag_number, flag_in_word, flag_in_part, flags_in_line, flags_in_entry};
ghost use Rattle.paw_author.specs.NameRows.{flags_in_unit, flags_written, name_the_same, naming_numbered, naming_given, naming_valued};
ghost use Rattle.paw_author.specs.NameRows.{naming_of_kind, naming_known, namings_known, names_known};

use crate::fragment::{Fragment, LineInParts, Origin};
use crate::hooks::first_line;
use crate::known::{Known, NameKind, Numbers, given_once, kind_index, may_be_name, name_for};
use crate::mistake::{AuthorError, wrong_line};
use crate::named_lines::{is_table_entry, pass_part, two_words};
use crate::sections::{NAMES, written_number};
use crate::tokens::{
    is_same, starts_with_byte, token_at, token_count, token_origin, without_first,
};
use crate::units::{Unit, UnitKind};
use paw_base::fault::SourceKind;
use paw_base::rows::ParamKind;
use paw_read_error::read_error::ReadError;
use std::alloc::{AllocError, Global};
use std::collections::VecDeque;

/// The least flag that is given.
const FIRST_FLAG: u16 = 60;

/// How many flags may be given.
const FLAGS_GIVEN: u16 = 196;

/// How many numbers a name may stand for.
const NUMBERS: u16 = 256;

// ---- kinds ----

// What a word says that a name is the name of.
fn kind_of_word(word: &[u8]) -> Option<NameKind>
    ensures value { result ≡ kind_of_word word.now }
{
    if is_same(word, b"flag") {
        Some(NameKind::Flag)
    } else if is_same(word, b"number") {
        Some(NameKind::Number)
    } else if is_same(word, b"location") {
        Some(NameKind::Location)
    } else if is_same(word, b"object") {
        Some(NameKind::Object)
    } else if is_same(word, b"message") {
        Some(NameKind::Message)
    } else if is_same(word, b"sysmess") {
        Some(NameKind::System)
    } else if is_same(word, b"table") {
        Some(NameKind::Table)
    } else {
        None
    }
}

// Whether a name is that of a flag.
fn is_flag(kind: NameKind) -> bool
    ensures value { result ≡ is_flag kind }
{
    kind_index(kind) == kind_index(NameKind::Flag)
}

// Whether a name is that of a location.
fn is_location(kind: NameKind) -> bool
    ensures value { result ≡ is_location kind }
{
    kind_index(kind) == kind_index(NameKind::Location)
}

// Whether a word is the name of a place.
fn is_reserved_name(word: &[u8]) -> bool
    ensures value { result ≡ is_reserved_name word.now }
{
    is_same(word, b"HERE")
        || is_same(word, b"WORN")
        || is_same(word, b"CARRIED")
        || is_same(word, b"NOTCREATED")
}

// Whether a word may be a name of this kind.
fn may_name(kind: NameKind, word: &[u8]) -> bool
    ensures value { result ≡ may_name kind word.now }
{
    may_be_name(word) && !(is_location(kind) && is_reserved_name(word))
}

// ---- written numbers ----

// Whether a unit is a row of `/NAMES`.
fn is_naming(u: &Unit) -> bool
    ensures value { result ≡ is_naming u.now }
{
    u.section == NAMES && matches!(u.kind, UnitKind::Row)
}

// The token of a row with this index.
fn nth_word(index: usize, u: &Unit) -> &[u8]
    ensures value { result.now ≡ nth_word index u.now }
{
    token_at(index, first_line(u))
}

// How many tokens a row has.
fn word_count(u: &Unit) -> usize
    ensures value { result ≡ word_count u.now }
{
    token_count(first_line(u))
}

// Whether a row gives a flag a number.
fn gives_flag_number(u: &Unit) -> bool
    ensures value { result ≡ gives_flag_number u.now }
{
    word_count(u) == 3 && is_same(nth_word(2, u), b"flag")
}

// The flag that a word writes, where these parameters are still to come.
fn flag_in_word(kinds: &VecDeque<ParamKind>, word: &[u8]) -> Option<u16>
    ensures value { result ≡ flag_in_word kinds.now.items word.now }
{
    match kinds.front() {
        Some(ParamKind::Flag) => written_number(word),
        _ => None,
    }
}

// The flag that a part of an entry writes.
fn flag_in_part(kinds: &VecDeque<ParamKind>, part: &[u8]) -> Option<u16>
    ensures value { result ≡ flag_in_part kinds.now.items part.now }
{
    if starts_with_byte(b'@', part) {
        written_number(without_first(part))
    } else {
        flag_in_word(kinds, part)
    }
}

// Adds a number, where there is one.
fn add_flag(number: Option<u16>, flags: &mut Vec<u16>) -> Result<(), AllocError>
    ensures value { IfOk result (λ _. flags.new.items ≡ flags.old.items ++ option_to_list number) }
{
    if let Some(number) = number {
        flags.push(number)?;
    }
    Ok(())
}

// Adds the flags that a line of an entry writes.
#[tactic(auto, unfolding(crate::specs::NameRows::flags_in_line))]
fn add_line_flags(
    kinds: VecDeque<ParamKind>,
    line: &[Fragment],
    flags: &mut Vec<u16>,
) -> Result<(), AllocError>
    ensures value { IfOk result (λ _. flags.new.items ≡ flags.old.items ++ flags_in_line kinds.items line.now) }
{
    let mut to_come = kinds;
    let mut left = line;
    while let Some((part, parts)) = left.split_first() {
        let bytes = part.bytes.as_slice();
        add_flag(flag_in_part(&to_come, bytes), flags)?;
        pass_part(bytes, &mut to_come)?;
        left = parts;
    }
    Ok(())
}

// Adds the flags that lines of an entry write below its first one.
fn add_more_flags(
    alloc: Global,
    lines: &[LineInParts],
    flags: &mut Vec<u16>,
) -> Result<(), AllocError>
    ensures value { IfOk result (λ _. flags.new.items ≡ flags.old.items ++ flat_map (λ more. flags_in_line [] more) lines.now) }
{
    for line in lines {
        add_line_flags(VecDeque::new(alloc), line.parts.as_slice(), flags)?;
    }
    Ok(())
}

// Adds the flags that an entry writes.
fn add_entry_flags(
    alloc: Global,
    lines: &[LineInParts],
    flags: &mut Vec<u16>,
) -> Result<(), AllocError>
    ensures value { IfOk result (λ _. flags.new.items ≡ flags.old.items ++ flags_in_entry lines.now) }
{
    match lines {
        [] => Ok(()),
        [line, more @ ..] => {
            add_line_flags(two_words(alloc)?, line.parts.as_slice(), flags)?;
            add_more_flags(alloc, more, flags)
        }
    }
}

// Whether a unit is a row that gives a flag a number.
fn is_flag_naming(u: &Unit) -> bool
    ensures value { result ≡ (is_naming u.now && gives_flag_number u.now) }
{
    is_naming(u) && gives_flag_number(u)
}

// Adds the flags that a unit writes.
fn add_unit_flags(alloc: Global, u: &Unit, flags: &mut Vec<u16>) -> Result<(), AllocError>
    ensures value { IfOk result (λ _. flags.new.items ≡ flags.old.items ++ flags_in_unit u.now) }
{
    if is_flag_naming(u) {
        add_flag(written_number(nth_word(1, u)), flags)
    } else if is_table_entry(u) {
        add_entry_flags(alloc, u.lines.as_slice(), flags)
    } else {
        Ok(())
    }
}

// The flags that all units write.
fn flags_written(alloc: Global, all: &[Unit]) -> Result<Vec<u16>, AllocError>
    ensures value { IfOk result (λ flags. flags.items ≡ flags_written all.now) }
{
    let mut flags = Vec::new(alloc);
    for u in all {
        add_unit_flags(alloc, u, &mut flags)?;
    }
    Ok(flags)
}

// ---- rows ----

// The token of a row that says what its name is the name of.
fn kind_word(u: &Unit) -> &[u8]
    ensures value { result.now ≡ nth_word (word_count u.now - 1) u.now }
{
    nth_word(word_count(u).saturating_sub(1), u)
}

// Whether two rows of a file are of one name and kind.
fn name_the_same(u: &Unit, v: &Unit) -> bool
    ensures value { result ≡ name_the_same u.now v.now }
{
    is_naming(v)
        && u.file == v.file
        && is_same(nth_word(0, u), nth_word(0, v))
        && is_same(kind_word(u), kind_word(v))
}

// Whether one of the units before is a row of the same name and kind.
fn is_written(before: &[Unit], u: &Unit) -> bool
    ensures value { result ≡ list_any (λ v. name_the_same u.now v) before.now }
{
    before.iter().any(|v| name_the_same(u, v))
}

// The names so far with one more.
fn with_name(
    alloc: Global,
    kind: NameKind,
    name: &[u8],
    number: u16,
    s: Numbers,
) -> Result<Numbers, AllocError>
    ensures value { IfOk result (λ next. next ≡ record s { known = s.known ++ name_for kind name.now number ∷ [] }) }
{
    let Numbers { mut known, taken } = s;
    known.push(name_for(alloc, kind, name, number)?)?;
    Ok(Numbers { known, taken })
}

// The names with that of a row that has a number.
fn naming_numbered(
    alloc: Global,
    number: Option<u16>,
    kind: NameKind,
    u: &Unit,
    s: Numbers,
) -> Result<Numbers, AuthorError>
    ensures gives { Gives (λ next. next) result (naming_numbered number kind u.now s) }
{
    let origin = token_origin(1, first_line(u));
    match number {
        None => Err(ReadError::Fault(wrong_line(origin, SourceKind::Number))),
        Some(n) => {
            if n >= NUMBERS {
                return Err(ReadError::Fault(wrong_line(origin, SourceKind::Range)));
            }
            Ok(with_name(alloc, kind, nth_word(0, u), n, s)?)
        }
    }
}

// The names with that of a row that has none.
fn naming_given(alloc: Global, kind: NameKind, u: &Unit, s: Numbers) -> Result<Numbers, AuthorError>
    ensures gives { Gives (λ next. next) result (naming_given kind u.now s) }
{
    if !is_flag(kind) {
        return Err(ReadError::Fault(wrong_line(
            token_origin(1, first_line(u)),
            SourceKind::Missing,
        )));
    }
    let origin = token_origin(0, first_line(u));
    given_once(
        alloc,
        FIRST_FLAG,
        FLAGS_GIVEN,
        NameKind::Flag,
        origin,
        nth_word(0, u),
        s,
    )
}

// The names with that of a row, which has two tokens or three.
fn naming_valued(
    alloc: Global,
    kind: NameKind,
    u: &Unit,
    s: Numbers,
) -> Result<Numbers, AuthorError>
    ensures gives { Gives (λ next. next) result (naming_valued kind u.now s) }
{
    if word_count(u) == 2 {
        naming_given(alloc, kind, u, s)
    } else {
        naming_numbered(alloc, written_number(nth_word(1, u)), kind, u, s)
    }
}

// The place of the token of a row that says what its name is the name of.
fn kind_origin(u: &Unit) -> Origin
    ensures value { result ≡ token_origin (word_count u.now - 1) (first_line u.now) }
{
    token_origin(word_count(u).saturating_sub(1), first_line(u))
}

// The names with that of a row of this kind.
fn naming_of_kind(
    alloc: Global,
    before: &[Unit],
    kind: Option<NameKind>,
    u: &Unit,
    s: Numbers,
) -> Result<Numbers, AuthorError>
    ensures gives { Gives (λ next. next) result (naming_of_kind before.now kind u.now s) }
{
    match kind {
        None => Err(ReadError::Fault(wrong_line(kind_origin(u), SourceKind::Word))),
        Some(kind) => {
            let origin = token_origin(0, first_line(u));
            if !may_name(kind, nth_word(0, u)) {
                return Err(ReadError::Fault(wrong_line(origin, SourceKind::Word)));
            }
            if is_written(before, u) {
                return Err(ReadError::Fault(wrong_line(origin, SourceKind::Duplicate)));
            }
            naming_valued(alloc, kind, u, s)
        }
    }
}

// The names with that of a row.
fn naming_known(
    alloc: Global,
    before: &[Unit],
    u: &Unit,
    s: Numbers,
) -> Result<Numbers, AuthorError>
    ensures gives { Gives (λ next. next) result (naming_known before.now u.now s) }
{
    let count = word_count(u);
    if 3 < count {
        return Err(ReadError::Fault(wrong_line(token_origin(3, first_line(u)), SourceKind::Extra)));
    }
    if count < 2 {
        return Err(ReadError::Fault(wrong_line(token_origin(0, first_line(u)), SourceKind::Word)));
    }
    naming_of_kind(alloc, before, kind_of_word(kind_word(u)), u, s)
}

// The names with that of a unit, where it is a row.
fn unit_known(alloc: Global, before: &[Unit], u: &Unit, s: Numbers) -> Result<Numbers, AuthorError>
    ensures gives { Gives (λ next. next) result (if is_naming u.now then naming_known before.now u.now s else Ok s) }
{
    if is_naming(u) {
        naming_known(alloc, before, u, s)
    } else {
        Ok(s)
    }
}

// The names with those of all rows.
fn namings_known(alloc: Global, all: &[Unit], s: Numbers) -> Result<Numbers, AuthorError>
    ensures gives { Gives (λ next. next) result (namings_known [] s all.now) }
{
    let mut next = s;
    for (i, u) in all.iter().enumerate() {
        next = unit_known(alloc, &all[..i], u, next)?;
    }
    Ok(next)
}

/// The names of all rows.
///
/// # Errors
/// The first fault, or lack of memory.
pub(crate) fn names_known(alloc: Global, all: &[Unit]) -> Result<Vec<Known>, AuthorError>
    ensures gives { Gives (λ known. known.items) result (names_known all.now) }
{
    let taken = flags_written(alloc, all)?;
    let none = Numbers {
        known: Vec::new(alloc),
        taken,
    };
    let Numbers { known, .. } = namings_known(alloc, all, none)?;
    Ok(known)
}
