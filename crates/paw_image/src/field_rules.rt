// The rules of the fields after the words.

ghost use Rattle.std.specs.Prelude.{◌≡◌};
ghost use Rattle.paw_image.specs.inner.Offsets.{preface_of};
ghost use Rattle.paw_image.specs.Damage.{as_version_1};

use crate::head::Front;
use crate::version::Version;
use paw_game::rules::{Lengths, Rules};
use std::marker::Model;

/// Which codes may stand, and the rules of bytes that name words and rows. Contracts see the front that sets them.
#[derive(Drop)]
pub struct FieldRules<'a> {
    pub version: Version,
    pub game: Rules<'a>,
}

impl<'a> Model for FieldRules<'a> {
    ghost use Rattle.paw_image.specs.Damage.{ImagePreface};

    ghost Value = { ImagePreface };

    ghost view = { λ r. record { version = r.version; counts = r.game.counts; words = r.game.words } };
}

impl<'a> FieldRules<'a> {
    /// The rules that a front sets.
    pub fn new(front: &'a Front) -> FieldRules<'a>
        ensures value { result ≡ preface_of front.now }
    {
        FieldRules {
            version: front.version,
            game: Rules::new(Lengths::from_counts(front.counts), &front.words),
        }
    }

    /// The same rules in version 1.
    pub fn as_version_1(self) -> FieldRules<'a>
        ensures value { result ≡ as_version_1 self.entry }
    {
        FieldRules {
            version: Version::One,
            ..self
        }
    }
}
