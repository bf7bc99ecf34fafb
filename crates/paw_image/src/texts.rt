// Texts, as rows of an image.

ghost use Rattle.std.specs.Prelude.{OnErr};
ghost use Rattle.paw_game.specs.Image.{text_image};
ghost use Rattle.paw_image.specs.Damage.{after_text};
ghost use Rattle.paw_read_error.specs.inner.Gives.{Gives};
ghost use Rattle.paw_image.specs.inner.Reading.{IsFault, sized_text_at};
ghost use Rattle.paw_image.specs.inner.Sizes.{FitsText};

use crate::fault::ReadFault;
use crate::field_rules::FieldRules;
use crate::fields::{fault_at, read_bytes, read_number, read_within, write_number};
use crate::in_place::InPlace;
use crate::rows::{ReadRow, Row};
use paw_base::limits::TEXT_LIMIT;
use paw_game::parts::Text;
use paw_game::texts::is_printed;
use std::alloc::{AllocError, Global};

/// The text at the front, lent.
#[tactic(auto, using(crate::proofs::Faults::fault_steps), unfolding(crate::specs::inner::Reading::sized_text_at))]
pub fn read_text(bytes: &[u8]) -> Result<(&[u8], &[u8]), ReadFault>
    ensures gives { Gives (λ x. (x.0.now, x.1.now)) result (sized_text_at bytes.now) }
    ensures fails { OnErr result (IsFault (sized_text_at bytes.now)) }
{
    let (length, rest) = read_number(bytes)?;
    read_bytes(length as usize, rest)
}

impl ReadRow for Text {
    ghost reading = { sized_text_at };

    fn read(alloc: Global, bytes: &[u8]) -> Result<(Text, &[u8]), ReadFault> {
        let (text, rest) = read_text(bytes)?;
        let rows = Vec::from_slice(alloc, text)?;
        Ok((Text { rows }, rest))
    }
}

impl Row for Text {
    ghost spelling = { text_image };

    ghost fits = { FitsText };

    fn length(&self) -> usize {
        2 + self.rows.len()
    }

    fn write(&self, out: &mut Vec<u8>) -> Result<(), AllocError> {
        write_number(self.rows.len(), out)?;
        out.extend_from_slice(&self.rows)
    }
}

impl InPlace for Text {
    ghost passing = { λ _. after_text };

    #[tactic(auto, unfolding(crate::specs::Damage::after_text))]
    fn pass<'a>(_: &FieldRules, bytes: &'a [u8]) -> Result<&'a [u8], ReadFault> {
        let (length, rest) = read_within(0, TEXT_LIMIT, bytes)?;
        let (text, after) = read_bytes(length as usize, rest)?;
        if !is_printed(text) {
            return Err(fault_at(rest));
        }
        Ok(after)
    }
}
