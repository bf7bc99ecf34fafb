// Names, and the numbers that they stand for.

ghost use Rattle.std.specs.Prelude.{◌≡◌, ◌+◌, ◌<◌, ◌^◌, ◌==◌, IfOk};
ghost use Rattle.std.specs.List.{list_all, list_any};
ghost use Rattle.paw_author.specs.Tokens.{is_same};
ghost use Rattle.paw_author.specs.Known.{KnownName, kind_index, is_known_as, number_for, number_of_any, may_be_in_name, may_be_name};
ghost use Rattle.paw_author.specs.Known.{is_in_use, least_free, name_for, with_given, given_unless, given_once};
ghost use Rattle.paw_read_error.specs.inner.Gives.{Gives};

use crate::fragment::Origin;
use crate::mistake::{AuthorError, wrong_line};
use crate::tokens::is_same;
use paw_base::fault::SourceKind;
use paw_read_error::read_error::ReadError;
use std::alloc::{AllocError, Global};
use std::marker::Model;

/// What a name is the name of.
#[derive(Clone, Copy, Drop, PartialEq, Eq, Debug)]
pub(crate) enum NameKind {
    Flag,
    Number,
    Location,
    Object,
    Message,
    System,
    Table,
}

/// A name: what it is the name of, and the number of that.
#[derive(Drop)]
pub(crate) struct Known {
    pub(crate) kind: NameKind,
    pub(crate) name: Vec<u8>,
    pub(crate) number: u16,
}

impl Model for Known {
    ghost use Rattle.paw_author.specs.Known.{KnownName};

    ghost Value = { KnownName };

    ghost view = { λ k. record { kind = k.kind; name = k.name.items; number = k.number } };
}

/// The number of a kind.
pub(crate) fn kind_index(kind: NameKind) -> u8
    ensures value { result ≡ kind_index kind }
{
    match kind {
        NameKind::Flag => 0,
        NameKind::Number => 1,
        NameKind::Location => 2,
        NameKind::Object => 3,
        NameKind::Message => 4,
        NameKind::System => 5,
        NameKind::Table => 6,
    }
}

// Whether a name is this word, whatever its kind.
fn is_known(word: &[u8], known: &Known) -> bool
    ensures value { result ≡ is_same known.now.name word.now }
{
    is_same(known.name.as_slice(), word)
}

// Whether a name is this word, of this kind.
fn is_known_as(kind: NameKind, word: &[u8], known: &Known) -> bool
    ensures value { result ≡ is_known_as kind word.now known.now }
{
    kind_index(known.kind) == kind_index(kind) && is_known(word, known)
}

/// The number that a word stands for as a name of this kind.
pub(crate) fn number_for(kind: NameKind, word: &[u8], known: &[Known]) -> Option<u16>
    ensures value { result ≡ number_for kind word.now known.now }
{
    match known.iter().find(|k| is_known_as(kind, word, *k)) {
        Some(k) => Some(k.number),
        None => None,
    }
}

/// The number that a word stands for as a name of any kind.
pub(crate) fn number_of_any(word: &[u8], known: &[Known]) -> Option<u16>
    ensures value { result ≡ number_of_any word.now known.now }
{
    match known.iter().find(|k| is_known(word, *k)) {
        Some(k) => Some(k.number),
        None => None,
    }
}

// Whether a byte may stand in a name after its first letter.
fn may_be_in_name(byte: u8) -> bool
    ensures value { result ≡ may_be_in_name byte }
{
    byte.is_ascii_alphanumeric() || byte == b'_'
}

// Whether all of these bytes may stand in a name after its first letter.
fn are_name_bytes(bytes: &[u8]) -> bool
    ensures value { result ≡ list_all may_be_in_name bytes.now }
{
    bytes.iter().all(|byte| may_be_in_name(*byte))
}

/// Whether a word may be a name.
pub(crate) fn may_be_name(word: &[u8]) -> bool
    ensures value { result ≡ may_be_name word.now }
{
    match word {
        [first, rest @ ..] => first.is_ascii_alphabetic() && are_name_bytes(rest),
        [] => false,
    }
}

// Whether a number is one of these.
fn is_in_use(numbers: &[u16], number: u16) -> bool
    ensures value { result ≡ is_in_use numbers.now number }
{
    numbers.iter().any(|other| *other == number)
}

/// The least number from this one on that isn't taken, of this count.
pub(crate) fn least_free(from: u16, count: u16, taken: &[u16]) -> Option<u16>
    requires within { from + count < 2 ^ 16 }
    ensures value { result ≡ least_free from count taken.now }
{
    for number in from..from + count {
        if !is_in_use(taken, number) {
            return Some(number);
        }
    }
    None
}

/// A name of this kind for a number.
///
/// # Errors
/// Where there is no memory.
pub(crate) fn name_for(
    alloc: Global,
    kind: NameKind,
    name: &[u8],
    number: u16,
) -> Result<Known, AllocError>
    ensures value { IfOk result (λ known. known ≡ name_for kind name.now number) }
{
    Ok(Known {
        kind,
        name: Vec::from_slice(alloc, name)?,
        number,
    })
}

// ---- numbers that are given ----

/// The names so far, and the numbers that are taken.
#[derive(Drop)]
pub(crate) struct Numbers {
    pub(crate) known: Vec<Known>,
    pub(crate) taken: Vec<u16>,
}

impl Model for Numbers {
    ghost use Rattle.paw_author.specs.Known.{NumbersGiven};

    ghost Value = { NumbersGiven };

    ghost view = { λ s. record { known = s.known.items; taken = s.taken.items } };
}

// A number for a name, if there is one left.
fn make_given(
    alloc: Global,
    number: Option<u16>,
    kind: NameKind,
    origin: Origin,
    name: &[u8],
    s: Numbers,
) -> Result<Numbers, AuthorError>
    ensures gives { Gives (λ next. next) result (with_given number kind origin name.now s) }
{
    match number {
        None => Err(ReadError::Fault(wrong_line(origin, SourceKind::TooBig))),
        Some(n) => {
            let Numbers {
                mut known,
                mut taken,
            } = s;
            known.push(name_for(alloc, kind, name, n)?)?;
            taken.push(n)?;
            Ok(Numbers { known, taken })
        }
    }
}

// The number of a name: the one that it has, or else a new one.
fn given_unless(
    alloc: Global,
    before: Option<u16>,
    free: Option<u16>,
    kind: NameKind,
    origin: Origin,
    name: &[u8],
    s: Numbers,
) -> Result<Numbers, AuthorError>
    ensures gives { Gives (λ next. next) result (given_unless before free kind origin name.now s) }
{
    match before {
        Some(_) => Ok(s),
        None => make_given(alloc, free, kind, origin, name, s),
    }
}

// The number that a word stands for among the names so far.
fn number_so_far(kind: NameKind, name: &[u8], s: &Numbers) -> Option<u16>
    ensures value { result ≡ number_for kind name.now s.now.known }
{
    number_for(kind, name, s.known.as_slice())
}

// The least number from this one on that isn't taken so far, of this count.
fn free_so_far(from: u16, count: u16, s: &Numbers) -> Option<u16>
    requires within { from + count < 2 ^ 16 }
    ensures value { result ≡ least_free from count s.now.taken }
{
    least_free(from, count, s.taken.as_slice())
}

/// The number of a name: the one that it has, or the least from `from` on that isn't taken, of this count.
///
/// # Errors
/// Fault where none is left, or lack of memory.
pub(crate) fn given_once(
    alloc: Global,
    from: u16,
    count: u16,
    kind: NameKind,
    origin: Origin,
    name: &[u8],
    s: Numbers,
) -> Result<Numbers, AuthorError>
    requires within { from + count < 2 ^ 16 }
    ensures gives { Gives (λ next. next) result (given_once from count kind origin name.now s) }
{
    let before = number_so_far(kind, name, &s);
    let free = free_so_far(from, count, &s);
    given_unless(alloc, before, free, kind, origin, name, s)
}
