// The first rule of an image that bytes break.

ghost use Rattle.std.specs.Prelude.{◌≡◌, ◌≤◌, ◌<◌, ◌^◌, length, IfOk, OnOk, Some, None, Ok};
ghost use Rattle.paw_game.specs.Game.{GameLists};
ghost use Rattle.paw_image.specs.Damage.{after_all, after_lists, as_version_1, bad, front, is_end, is_needless};
ghost use Rattle.paw_image.specs.Images.{IsImage};
ghost use Rattle.paw_image.specs.inner.Images.{AtDamage, IfDamaged};
ghost use Rattle.paw_image.specs.inner.Offsets.{IsPassed, preface_of};
ghost use Rattle.paw_read_error.specs.inner.Gives.{Gives};
ghost use Rattle.paw_base.specs.declared.limits.TheConstants.{IMAGE_LIMIT};

use crate::fault::ReadFault;
use crate::field_rules::FieldRules;
use crate::head::{Front, read_front};
use crate::offsets::{Offsets, pass_lists};
use crate::refusal::ImageRefusal;
use crate::version::Version;
use paw_read_error::read_error::ReadError;
use std::alloc::{AllocError, Global};

/// Where the version stands.
const VERSION_AT: u64 = 4;

/// The front of an image, the bytes after it, and where its other rows begin.
#[derive(Drop)]
pub struct Passed<'a> {
    pub front: Front,
    pub lists: &'a [u8],
    pub offsets: Offsets,
}

// Passes over all fields of an image: its front, its offsets, and the bytes after the last field.
#[tactic(auto, unfolding(crate::specs::Damage::after_all))]
fn pass_all<'a>(alloc: Global, bytes: &'a [u8]) -> Result<(Passed<'a>, &'a [u8]), ReadFault>
    requires small { length bytes.now < 2 ^ 32 }
    ensures gives { Gives (λ x. x.1.now) result (after_all bytes.now) }
    ensures passed { IfOk result (λ x. IsPassed bytes.now x.0.front x.0.lists.now x.0.offsets) }
{
    let (front, lists) = read_front(alloc, bytes)?;
    let rules = FieldRules::new(&front);
    let (offsets, rest) = pass_lists(alloc, &rules, bytes, lists)?;
    let passed = Passed {
        front,
        lists,
        offsets,
    };
    Ok((passed, rest))
}

// Whether the lists pass with the codes of version 1 too.
fn pass_as_version_1(alloc: Global, bytes: &[u8], passed: &Passed) -> Result<bool, AllocError>
    requires small { length bytes.now < 2 ^ 32 }
    ensures value { IfOk result (λ passes. passes
        ≡ is_end (after_lists (as_version_1 (preface_of passed.now.front)) passed.now.lists.now)) }
{
    let rules = FieldRules::new(&passed.front).as_version_1();
    match pass_lists(alloc, &rules, bytes, passed.lists) {
        Ok((_, rest)) => Ok(rest.is_empty()),
        Err(ReadError::Fault(_)) => Ok(false),
        Err(ReadError::Memory) => Err(AllocError),
    }
}

// Whether the version is 2, and no code needs it. The lists are passed a second time only in version 2, and there only
// up to the first indirect condact.
#[tactic(auto, unfolding(crate::specs::Damage::is_needless))]
fn is_needless(alloc: Global, bytes: &[u8], passed: &Passed) -> Result<bool, AllocError>
    requires small { length bytes.now < 2 ^ 32 }
    requires front { front bytes.now ≡ Ok (preface_of passed.now.front, passed.now.lists.now) }
    ensures value { IfOk result (λ needless. needless ≡ is_needless bytes.now) }
{
    match passed.front.version {
        Version::One => Ok(false),
        Version::Two => pass_as_version_1(alloc, bytes, passed),
    }
}

/// Passes over bytes that should be an image: their front and offsets, or the offset of the first broken rule.
#[tactic(auto, unfolding(crate::specs::Damage::bad))]
pub fn pass_whole<'a>(alloc: Global, bytes: &'a [u8]) -> Result<Passed<'a>, ImageRefusal>
    requires short { length bytes.now ≤ IMAGE_LIMIT }
    ensures whole { OnOk result (bad bytes.now ≡ None) }
    ensures passed { IfOk result (λ p. IsPassed bytes.now p.front p.lists.now p.offsets) }
    ensures at { IfDamaged result (λ at. bad bytes.now ≡ Some at) }
{
    let left = match pass_all(alloc, bytes) {
        Ok((passed, [])) => {
            if is_needless(alloc, bytes, &passed)? {
                return Err(ImageRefusal::Damaged { at: VERSION_AT });
            }
            return Ok(passed);
        }
        Ok((_, rest)) => rest.len(),
        Err(ReadError::Fault(left)) => left,
        Err(ReadError::Memory) => return Err(ImageRefusal::Memory),
    };
    // What is left is no more than all bytes, so nothing is cut off here; saturating says so without a proof.
    let at = bytes.len().saturating_sub(left) as u64;
    Err(ImageRefusal::Damaged { at })
}

/// The refusal of bytes that aren't an image.
pub fn damage(alloc: Global, bytes: &[u8]) -> ImageRefusal
    requires short { length bytes.now ≤ IMAGE_LIMIT }
    requires none { (g : GameLists) → ¬ IsImage bytes.now g }
    ensures at { AtDamage result (λ at. bad bytes.now ≡ Some at) }
{
    match pass_whole(alloc, bytes) {
        Ok(_) => unreachable!(), // These bytes are the image of no game.
        Err(refusal) => refusal,
    }
}
