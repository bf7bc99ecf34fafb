// The seven lists of a game, as an image has them.

ghost use Rattle.std.specs.Prelude.{◌≡◌, ◌<◌, ◌^◌, ◌++◌, length, OnOk};
ghost use Rattle.paw_game.specs.Image.{head_image, image};
ghost use Rattle.paw_image.specs.inner.Sizes.{FitsCounts, FitsGame};
ghost use Rattle.paw_image.specs.inner.Offsets.{preface_of};
ghost use Rattle.paw_read_error.specs.inner.Gives.{Gives};
ghost use Rattle.paw_image.specs.inner.Reading.{lists_at, all_of};

use crate::fault::ReadFault;
use crate::fields::{fault_at, write_number};
use crate::head::{Front, SIGNATURE, read_front};
use crate::rows::{length_of_rows, read_rows, write_rows};
use crate::version::version_of;
use paw_game::parts::GameParts;
use std::alloc::{AllocError, Global};

/// The bytes of the signature, the version and the six counts.
const HEAD_LENGTH: usize = 17;

// The lists after this front.
#[tactic(auto, unfolding(crate::specs::inner::Reading::lists_at))]
fn read_lists(alloc: Global, front: Front, bytes: &[u8]) -> Result<(GameParts, &[u8]), ReadFault>
    ensures gives { Gives (λ x. (x.0, x.1.now)) result (lists_at (preface_of front) bytes.now) }
{
    let counts = front.counts;
    let (system, rest) = read_rows(alloc, counts.system as usize, bytes)?;
    let (messages, rest) = read_rows(alloc, counts.messages as usize, rest)?;
    let (objects, rest) = read_rows(alloc, counts.objects as usize, rest)?;
    let (locations, rest) = read_rows(alloc, counts.locations as usize, rest)?;
    let (exits, rest) = read_rows(alloc, counts.locations as usize, rest)?;
    let (tables, rest) = read_rows(alloc, counts.tables as usize, rest)?;
    let parts = GameParts {
        words: front.words,
        system,
        messages,
        objects,
        locations,
        exits,
        tables,
    };
    Ok((parts, rest))
}

/// The lists that all of the bytes are the image of.
#[tactic(auto, unfolding(crate::specs::inner::Reading::all_of))]
pub fn read_parts(alloc: Global, bytes: &[u8]) -> Result<GameParts, ReadFault>
    ensures gives { Gives (λ x. x) result (all_of bytes.now) }
{
    let (front, rest) = read_front(alloc, bytes)?;
    let version = front.version;
    let (parts, rest) = read_lists(alloc, front, rest)?;
    if !rest.is_empty() || version.byte() != version_of(&parts).byte() {
        return Err(fault_at(rest));
    }
    Ok(parts)
}

/// How many bytes the image of the lists has.
pub fn length_of_parts(parts: &GameParts) -> usize
    requires fits { FitsGame parts.now }
    requires short { length (image parts.now) < 2 ^ 32 }
    ensures value { result ≡ length (image parts.now) }
{
    HEAD_LENGTH
        + length_of_rows(&parts.words)
        + length_of_rows(&parts.system)
        + length_of_rows(&parts.messages)
        + length_of_rows(&parts.objects)
        + length_of_rows(&parts.locations)
        + length_of_rows(&parts.exits)
        + length_of_rows(&parts.tables)
}

// Writes the signature, the version and the counts at the end.
fn write_head(parts: &GameParts, out: &mut Vec<u8>) -> Result<(), AllocError>
    requires fits { FitsCounts parts.now }
    ensures writes { OnOk result (out.new.items ≡ out.old.items ++ head_image parts.now) }
{
    out.extend_from_slice(&SIGNATURE)?;
    out.push(version_of(parts).byte())?;
    write_number(parts.words.len(), out)?;
    write_number(parts.system.len(), out)?;
    write_number(parts.messages.len(), out)?;
    write_number(parts.objects.len(), out)?;
    write_number(parts.locations.len(), out)?;
    write_number(parts.tables.len(), out)
}

/// Writes the image of the lists at the end.
pub fn write_parts(parts: &GameParts, out: &mut Vec<u8>) -> Result<(), AllocError>
    requires fits { FitsGame parts.now }
    ensures writes { OnOk result (out.new.items ≡ out.old.items ++ image parts.now) }
{
    write_head(parts, out)?;
    write_rows(&parts.words, out)?;
    write_rows(&parts.system, out)?;
    write_rows(&parts.messages, out)?;
    write_rows(&parts.objects, out)?;
    write_rows(&parts.locations, out)?;
    write_rows(&parts.exits, out)?;
    write_rows(&parts.tables, out)
}
