// One row of an image, read where it stands.

ghost use Rattle.std.specs.Prelude.{◌≡◌, ◌+◌, ◌*◌, ◌/◌, ◌<◌, ◌≤◌, drop, length, Ok, None, Some, slice_get};
ghost use Rattle.std.specs.Prelude.{OnErr, IfSome};
ghost use Rattle.std.specs.Option.{option_copied, option_map};
ghost use Rattle.paw_image.specs.inner.Milestones.{AreMilestones, AreFrom, AreNth, IsEnd, EntryMilestones};
ghost use Rattle.paw_image.specs.inner.Milestones.{milestones_of};
ghost use Rattle.paw_image.specs.Damage.{each};
ghost use Rattle.paw_read_error.specs.inner.Gives.{Gives};
ghost use Rattle.paw_image.specs.inner.Reading.{IsFault, leading_condact, parameter_at, sized_text_at};
ghost use Rattle.paw_image.specs.inner.Rows.{entry_here, exit_here, exit_in, exits_here, facts_here, head_here};
ghost use Rattle.paw_image.specs.inner.Rows.{past_condact, up_to, value_of};

use crate::fault::ReadFault;
use crate::milestones::Milestones;
use crate::objects::read_after_text;
use crate::tables::read_condact;
use paw_base::parts::{Condact, ObjectFacts};
use paw_base::rows::{ParamKind, plain_kinds};
use paw_game::parts::Exit;

// The bytes from an offset on; none past the end.
fn from_offset(bytes: &[u8], offset: usize) -> &[u8]
    ensures value { result.now ≡ drop offset bytes.now }
{
    if offset > bytes.len() {
        return &[];
    }
    &bytes[offset..]
}

/// The text at an offset, where first its length stands and then its bytes.
pub fn text_in(bytes: &[u8], offset: u32) -> &[u8]
    requires there { ¬ (value_of (sized_text_at (drop offset bytes.now)) ≡ None) }
    ensures value { value_of (sized_text_at (drop offset bytes.now)) ≡ Some result.now }
{
    let offset = offset as usize;
    // A text stands here, so nothing asks where the bytes end, as `read_text` has to.
    prove!(offset + 2 <= bytes.len());
    let length = u16::from_le_bytes([bytes[offset], bytes[offset + 1]]) as usize;
    let rest = &bytes[offset + 2..];
    prove!(length <= rest.len());
    &rest[..length]
}

/// The facts of the object that begins at an offset.
#[tactic(auto, using(crate::proofs::Faults::no_value), unfolding(crate::specs::inner::Rows::facts_here))]
pub fn facts_in(bytes: &[u8], offset: u32) -> Option<ObjectFacts>
    ensures value { result ≡ facts_here (drop offset bytes.now) }
{
    match read_after_text(from_offset(bytes, offset as usize)) {
        Ok((facts, _)) => Some(facts),
        Err(_) => None,
    }
}

// The exit at the front, and the bytes after it; None where none stands there. The row's own reader would need an
// allocator.
fn exit_here(bytes: &[u8]) -> Option<(Exit, &[u8])>
    ensures value { option_map (λ x. (x.0, x.1.now)) result ≡ exit_here bytes.now }
{
    match bytes {
        [verb, to, rest @ ..] => {
            let exit = Exit {
                verb: *verb,
                to: *to,
            };
            Some((exit, rest))
        }
        _ => None,
    }
}

// Where the first of `count` exits with this verb leads.
#[tactic(auto, using(crate::proofs::ExitLoop::exit_none, crate::proofs::ExitLoop::exit_past))]
fn exit_of(verb: u8, count: u8, bytes: &[u8]) -> Option<u8>
    ensures value { result ≡ exit_in verb count bytes.now }
{
    let mut rest = bytes;
    for _ in 0..count {
        let (exit, after) = exit_here(rest)?;
        if exit.verb == verb {
            return Some(exit.to);
        }
        rest = after;
    }
    None
}

/// Where the exit for a verb leads, among the exits that begin at an offset.
#[tactic(auto, unfolding(crate::specs::inner::Rows::exits_here))]
pub fn exit_at(bytes: &[u8], offset: u32, verb: u8) -> Option<u8>
    ensures value { result ≡ exits_here verb (drop offset bytes.now) }
{
    match from_offset(bytes, offset as usize) {
        [count, rest @ ..] => exit_of(verb, *count, rest),
        [] => None,
    }
}

/// The verb and the noun of the entry that begins at an offset, and how many condacts it has. An entry stands there, so
/// nothing asks where the bytes end.
pub fn head_in(bytes: &[u8], offset: u32) -> ((u8, u8), u8)
    requires there { ¬ (head_here (drop offset bytes.now) ≡ None) }
    ensures value { head_here (drop offset bytes.now) ≡ Some result }
{
    let offset = offset as usize;
    prove!(offset + 2 < bytes.len());
    ((bytes[offset], bytes[offset + 1]), bytes[offset + 2])
}

// The bytes after this number of condacts.
fn past_condacts(count: u8, bytes: &[u8]) -> Result<&[u8], ReadFault>
    ensures gives { Gives (λ x. x.now) result (each past_condact count bytes.now) }
    ensures fails { OnErr result (IsFault (each past_condact count bytes.now)) }
{
    let mut rest = bytes;
    for _ in 0..count {
        let (_, after) = read_condact(rest)?;
        rest = after;
    }
    Ok(rest)
}

// The bytes of an entry's `count` condacts from the last milestone on that isn't past condact `at`.
fn from_milestone<'a>(
    milestones: &Milestones,
    entry: u16,
    at: u8,
    count: u8,
    condacts: &'a [u8],
) -> &'a [u8]
    requires milestones { AreMilestones (milestones_of milestones.now entry) count condacts.now }
    requires within { at < count }
    ensures value { each past_condact (at / 8 * 8) condacts.now ≡ Ok result.now }
{
    let eights = at as usize / 8;
    if eights == 0 {
        return condacts;
    }
    let milestones = milestones.from_entry(entry);
    from_offset(condacts, milestones[eights - 1] as usize)
}

// The bytes of an entry's condacts from one of them on, and how many there are from it on.
fn from_condact<'a>(
    milestones: &Milestones,
    entry: u16,
    at: u8,
    count: u8,
    condacts: &'a [u8],
) -> (u8, &'a [u8])
    requires milestones { AreMilestones (milestones_of milestones.now entry) count condacts.now }
    ensures value { AreFrom at count condacts.now result.0 result.1.now }
    ensures few { 0 < result.0 → at + result.0 ≤ count }
    ensures end { IsEnd condacts.now result.1.now }
{
    if at >= count {
        return (0, condacts);
    }
    match past_condacts(
        at % 8,
        from_milestone(milestones, entry, at, count, condacts),
    ) {
        Ok(rest) => (count - at, rest),
        Err(_) => (0, condacts),
    }
}

/// Of the entry that begins at an offset: how many condacts it has from one of them on, and where that one begins.
#[tactic(auto, unfolding(crate::specs::inner::Rows::nth_condact))]
pub fn condacts_in(
    bytes: &[u8],
    offset: u32,
    milestones: &Milestones,
    entry: u16,
    at: u8,
) -> (u8, usize)
    requires milestones { EntryMilestones (milestones_of milestones.now entry) (drop offset bytes.now) }
    ensures value { AreNth at (drop offset bytes.now) result.0 (drop result.1 bytes.now) }
    ensures few { 0 < result.0 → IfSome (head_here (drop offset bytes.now)) (λ x. at + result.0 ≤ x.1) }
{
    match from_offset(bytes, offset as usize) {
        [_, _, count, condacts @ ..] => {
            let (left, rest) = from_condact(milestones, entry, at, *count, condacts);
            // What is left is a part of all bytes: saturating says so without a proof.
            (left, bytes.len().saturating_sub(rest.len()))
        }
        _ => (0, 0),
    }
}

// The byte at an offset, and the offset after it.
fn byte_from(bytes: &[u8], offset: usize) -> (u8, usize)
    requires there { offset < length bytes.now }
    ensures value { slice_get bytes.now offset ≡ Some result.0 }
    ensures next { result.1 ≡ offset + 1 }
{
    prove!(offset < bytes.len());
    (bytes[offset], offset + 1)
}

// The parameter of this kind at an offset, and where the bytes after it begin; 0 where the kind has none.
fn parameter_in(kind: ParamKind, bytes: &[u8], offset: usize) -> (u8, usize)
    requires there { ¬ IsFault (parameter_at kind (drop offset bytes.now)) }
    ensures value { parameter_at kind (drop offset bytes.now) ≡ Ok (result.0, drop result.1 bytes.now) }
{
    match kind {
        ParamKind::Absent => (0, offset),
        _ => byte_from(bytes, offset),
    }
}

/// The condact that begins at an offset, and where the next one begins. A condact stands there, so nothing asks where
/// the bytes end, as the reader of images has to.
pub fn condact_at(bytes: &[u8], offset: usize) -> (Condact, usize)
    requires there { ¬ (value_of (leading_condact (drop offset bytes.now)) ≡ None) }
    ensures value { leading_condact (drop offset bytes.now) ≡ Ok (result.0, drop result.1 bytes.now) }
{
    let (code, offset) = byte_from(bytes, offset);
    let (first, second) = plain_kinds(code);
    let (a, offset) = parameter_in(first, bytes, offset);
    let (b, offset) = parameter_in(second, bytes, offset);
    (Condact { code, a, b }, offset)
}

// A row up to this number of condacts, and with them.
fn up_to<'a>(row: &'a [u8], count: u8, condacts: &[u8]) -> Option<&'a [u8]>
    ensures value { option_copied result ≡ up_to row.now (each past_condact count condacts.now) }
{
    match past_condacts(count, condacts) {
        // What comes after is a part of the row: saturating says so without a proof.
        Ok(after) => Some(&row[..row.len().saturating_sub(after.len())]),
        Err(_) => None,
    }
}

/// The bytes of the entry that begins at an offset.
#[tactic(auto, unfolding(crate::specs::inner::Rows::entry_here))]
pub fn entry_in(bytes: &[u8], offset: u32) -> Option<&[u8]>
    ensures value { option_copied result ≡ entry_here (drop offset bytes.now) }
{
    let row = from_offset(bytes, offset as usize);
    match row {
        [_, _, count, condacts @ ..] => up_to(row, *count, condacts),
        _ => None,
    }
}
