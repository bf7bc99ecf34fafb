// The versions of images.

ghost use Rattle.std.specs.Prelude.{◌≡◌, SomeIff, true};
ghost use Rattle.std.specs.List.{list_any};
ghost use Rattle.paw_base.specs.Condacts.{is_indirect};
ghost use Rattle.paw_base.specs.inner.Condacts.{IsPlainCode, condact_row_of};
ghost use Rattle.paw_game.specs.Image.{any_indirect, has_indirect, version_of};
ghost use Rattle.paw_image.specs.Damage.{may_stand};
ghost use Rattle.paw_image.specs.inner.Reading.{version_byte};

use paw_base::codes::INDIRECT;
use paw_base::parts::Condact;
use paw_base::rows::{CondactRow, condact_row, may_be_indirect};
use paw_game::parts::{Entry, GameParts, Table};

/// The version of an image, which says what codes may stand in it.
#[derive(Clone, Copy, Drop, PartialEq, Eq, Debug)]
pub enum Version {
    /// The codes of plain condacts.
    One,
    /// The codes of indirect condacts too.
    Two,
}

impl Version {
    /// The byte that stands for the version.
    pub fn byte(self) -> u8
        ensures value { result ≡ version_byte self }
    {
        match self {
            Version::One => 1,
            Version::Two => 2,
        }
    }

    /// What the table of condacts says of a code; None where it may not stand in an image of this version.
    pub fn row_of(self, code: u8) -> Option<CondactRow>
        ensures value { SomeIff result (may_stand self code ≡ true) (condact_row_of code) }
    {
        match self {
            Version::One => plain_row(code),
            Version::Two => condact_row(code),
        }
    }
}

// What the table of condacts says of a plain code.
fn plain_row(code: u8) -> Option<CondactRow>
    ensures value { SomeIff result (IsPlainCode code) (condact_row_of code) }
{
    if code < INDIRECT {
        condact_row(code)
    } else {
        None
    }
}

/// The version of the image of these lists.
#[tactic(auto, unfolding(paw_game::specs::Image::version_of))]
pub fn version_of(parts: &GameParts) -> Version
    ensures value { version_byte result ≡ version_of parts.now }
{
    if has_indirect(&parts.tables) {
        Version::Two
    } else {
        Version::One
    }
}

// Whether an entry has an indirect condact.
#[tactic(auto, unfolding(paw_game::specs::Image::has_indirect))]
fn has_indirect(tables: &[Table]) -> bool
    ensures value { result ≡ has_indirect tables.now }
{
    tables
        .iter()
        .any(|table| any_entry_indirect(table.rows.as_slice()))
}

// Whether one of the entries has an indirect condact.
fn any_entry_indirect(entries: &[Entry]) -> bool
    ensures value { result ≡ list_any (λ e. any_indirect e.condacts) entries.now }
{
    entries
        .iter()
        .any(|entry| any_indirect(entry.condacts.rows.as_slice()))
}

// Whether one of the condacts is indirect.
fn any_indirect(condacts: &[Condact]) -> bool
    ensures value { result ≡ any_indirect condacts.now }
{
    condacts.iter().any(|condact| is_indirect(condact.code))
}

#[tactic(auto, unfolding(paw_base::specs::Condacts::is_indirect))]
fn is_indirect(code: u8) -> bool
    ensures value { result ≡ is_indirect code }
{
    code >= INDIRECT && may_be_indirect(code - INDIRECT)
}
