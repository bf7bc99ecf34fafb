// The fields at the front of an image, up to its words, each tested by its rule.

ghost use Rattle.paw_image.specs.Damage.{checked_version, checked_counts, front};
ghost use Rattle.paw_image.specs.inner.Offsets.{preface_of};
ghost use Rattle.paw_read_error.specs.inner.Gives.{Gives};

use crate::fault::ReadFault;
use crate::fields::{fault_at, read_array, read_byte, read_within};
use crate::version::Version;
use crate::words::read_words;
use paw_base::limits::{
    LOCATION_LEAST, LOCATION_LIMIT, MESSAGE_LIMIT, OBJECT_LIMIT, SYSTEM_LIMIT, TABLE_LEAST,
    TABLE_LIMIT, WORD_LIMIT,
};
use paw_base::parts::Counts;
use paw_game::parts::Word;
use std::alloc::Global;

/// The first bytes of every image.
pub const SIGNATURE: [u8; 4] = *b"PAWI";

/// The front of an image: its version, how many rows each list has, and the words.
#[derive(Drop)]
pub struct Front {
    pub version: Version,
    pub counts: Counts,
    pub words: Vec<Word>,
}

// The version after the signature.
#[tactic(auto, unfolding(crate::specs::Damage::checked_version))]
fn read_version(bytes: &[u8]) -> Result<(Version, &[u8]), ReadFault>
    ensures gives { Gives (λ x. (x.0, x.1.now)) result (checked_version bytes.now) }
{
    let (signature, versions) = read_array(bytes)?;
    if signature != SIGNATURE {
        return Err(fault_at(bytes));
    }
    let (byte, rest) = read_byte(versions)?;
    match byte {
        1 => Ok((Version::One, rest)),
        2 => Ok((Version::Two, rest)),
        _ => Err(fault_at(versions)),
    }
}

// How many rows each list has.
#[tactic(auto, unfolding(crate::specs::Damage::checked_counts))]
fn read_counts(bytes: &[u8]) -> Result<(Counts, &[u8]), ReadFault>
    ensures gives { Gives (λ x. (x.0, x.1.now)) result (checked_counts bytes.now) }
{
    let (words, rest) = read_within(0, WORD_LIMIT, bytes)?;
    let (system, rest) = read_within(0, SYSTEM_LIMIT, rest)?;
    let (messages, rest) = read_within(0, MESSAGE_LIMIT, rest)?;
    let (objects, rest) = read_within(0, OBJECT_LIMIT, rest)?;
    let (locations, rest) = read_within(LOCATION_LEAST, LOCATION_LIMIT, rest)?;
    let (tables, rest) = read_within(TABLE_LEAST, TABLE_LIMIT, rest)?;
    let counts = Counts {
        words,
        system,
        messages,
        objects,
        locations,
        tables,
    };
    Ok((counts, rest))
}

/// The version, the counts and the words.
#[tactic(auto, unfolding(crate::specs::Damage::front))]
pub fn read_front(alloc: Global, bytes: &[u8]) -> Result<(Front, &[u8]), ReadFault>
    ensures gives { Gives (λ x. (preface_of x.0, x.1.now)) result (front bytes.now) }
{
    let (version, rest) = read_version(bytes)?;
    let (counts, rest) = read_counts(rest)?;
    let (words, rest) = read_words(alloc, counts.words as usize, rest)?;
    let front = Front {
        version,
        counts,
        words,
    };
    Ok((front, rest))
}
