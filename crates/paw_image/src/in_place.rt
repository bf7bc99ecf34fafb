// The rows of an image, passed over where they stand: each field is tested by its rule.

ghost use Rattle.std.specs.Prelude.{◌≡◌, ◌≤◌, ◌<◌, ◌^◌, IfOk, length};
ghost use Rattle.paw_image.specs.Damage.{each};
ghost use Rattle.paw_image.specs.inner.Offsets.{begins};
ghost use Rattle.paw_read_error.specs.inner.Gives.{Gives};

use crate::fault::ReadFault;
use crate::field_rules::FieldRules;
use std::alloc::Global;

/// Something of which an image has a list, passed over in place.
pub trait InPlace {
    ghost use Rattle.paw_base.specs.Bytes.{Bytes};
    ghost use Rattle.paw_image.specs.Damage.{Passing, ImagePreface};
    ghost use Rattle.paw_read_error.specs.inner.Gives.{Gives};

    /// The bytes after the row at the front, or its first fault.
    ghost passing: { ImagePreface → Bytes → Passing };

    /// The bytes after the row at the front, where each of its fields follows its rule.
    fn pass<'a>(rules: &FieldRules, bytes: &'a [u8]) -> Result<&'a [u8], ReadFault>
        ensures gives { Gives (λ x. x.now) result (passing rules.now bytes.now) };
}

/// The bytes after this number of rows.
#[tactic(auto, unfolding(crate::specs::Damage::each))]
pub fn pass_each<'a, R: InPlace>(
    rules: &FieldRules,
    count: usize,
    bytes: &'a [u8],
) -> Result<&'a [u8], ReadFault>
    ensures gives { Gives (λ x. x.now) result (each (R.passing rules.now) count bytes.now) }
{
    let mut rest = bytes;
    for _ in 0..count {
        rest = R::pass(rules, rest)?;
    }
    Ok(rest)
}

/// Passes over `count` rows at the front of the last of `total` bytes: where each begins, and the bytes after them.
pub fn pass_rows<'a, R: InPlace>(
    alloc: Global,
    rules: &FieldRules,
    count: usize,
    total: usize,
    bytes: &'a [u8],
) -> Result<(Vec<u32>, &'a [u8]), ReadFault>
    requires small { total < 2 ^ 32 }
    ensures gives { Gives (λ x. x.1.now) result (each (R.passing rules.now) count bytes.now) }
    ensures offsets { IfOk result (λ x. x.0.items ≡ begins (R.passing rules.now) total count bytes.now) }
    ensures many { IfOk result (λ x. length x.0.items ≤ count) }
{
    let mut offsets = Vec::new(alloc);
    let mut rest = bytes;
    for _ in 0..count {
        // What is left is a part of all bytes: saturating says so without a proof.
        offsets.push(total.saturating_sub(rest.len()) as u32)?;
        rest = R::pass(rules, rest)?;
    }
    Ok((offsets, rest))
}
