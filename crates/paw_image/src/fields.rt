// The fields of an image: bytes, numbers of two bytes, and runs of bytes.

ghost use Rattle.std.specs.Prelude.{◌≡◌, ◌^◌, ◌<◌, ◌++◌, length, OnErr, OnOk};
ghost use Rattle.paw_game.specs.Image.{two_bytes};
ghost use Rattle.paw_image.specs.Damage.{checked_number};
ghost use Rattle.paw_image.specs.Reading.{byte_at, bytes_at, number_at};
ghost use Rattle.paw_read_error.specs.inner.Gives.{Gives};
ghost use Rattle.paw_image.specs.inner.Reading.{IsFault, pair_at};
ghost use Rattle.paw_read_error.specs.declared.read_error.ReadError.TheVariants as unread;

use crate::fault::ReadFault;
use paw_read_error::read_error::ReadError;
use std::alloc::AllocError;

/// The byte at the front.
pub fn read_byte(bytes: &[u8]) -> Result<(u8, &[u8]), ReadFault>
    ensures gives { Gives (λ x. (x.0, x.1.now)) result (byte_at bytes.now) }
    ensures fails { OnErr result (IsFault (byte_at bytes.now)) }
{
    match bytes {
        [] => Err(ReadError::Fault(0)),
        [byte, rest @ ..] => Ok((*byte, rest)),
    }
}

/// The two bytes at the front.
#[tactic(auto, unfolding(crate::specs::inner::Reading::pair_at))]
pub fn read_pair(bytes: &[u8]) -> Result<((u8, u8), &[u8]), ReadFault>
    ensures gives { Gives (λ x. (x.0, x.1.now)) result (pair_at bytes.now) }
{
    let (first, rest) = read_byte(bytes)?;
    let (second, rest) = read_byte(rest)?;
    Ok(((first, second), rest))
}

/// The first `count` bytes.
pub fn read_bytes(count: usize, bytes: &[u8]) -> Result<(&[u8], &[u8]), ReadFault>
    ensures gives { Gives (λ x. (x.0.now, x.1.now)) result (bytes_at count bytes.now) }
    ensures fails { OnErr result (IsFault (bytes_at count bytes.now)) }
{
    if bytes.len() < count {
        return Err(ReadError::Fault(bytes.len()));
    }
    Ok(bytes.split_at(count))
}

/// The first N bytes.
pub fn read_array<const N: usize>(bytes: &[u8]) -> Result<([u8; N], &[u8]), ReadFault>
    ensures gives { Gives (λ x. (x.0, x.1.now)) result (bytes_at N bytes.now) }
    ensures fails { OnErr result (IsFault (bytes_at N bytes.now)) }
{
    match bytes.split_first_chunk::<N>() {
        Some((front, rest)) => Ok((*front, rest)),
        None => Err(ReadError::Fault(bytes.len())),
    }
}

/// The number in the first two bytes, the low one first.
#[tactic(auto, using(crate::proofs::Faults::fault_first), unfolding(crate::specs::Reading::number_at))]
pub fn read_number(bytes: &[u8]) -> Result<(u16, &[u8]), ReadFault>
    ensures gives { Gives (λ x. (x.0, x.1.now)) result (number_at bytes.now) }
    ensures fails { OnErr result (IsFault (number_at bytes.now)) }
{
    let (two, rest) = read_array(bytes)?;
    Ok((u16::from_le_bytes(two), rest))
}

/// The number at the front, which lies between two others, both included.
pub fn read_within(least: usize, most: usize, bytes: &[u8]) -> Result<(u16, &[u8]), ReadFault>
    ensures gives { Gives (λ x. (x.0, x.1.now)) result (checked_number least most bytes.now) }
{
    let (number, rest) = read_number(bytes)?;
    if (number as usize) < least || number as usize > most {
        return Err(fault_at(bytes));
    }
    Ok((number, rest))
}

/// A fault in the field that these bytes begin with.
pub fn fault_at(bytes: &[u8]) -> ReadFault
    ensures value { result ≡ unread.Fault (length bytes.now) }
{
    ReadError::Fault(bytes.len())
}

/// Writes a number as two bytes at the end, the low one first.
pub fn write_number(number: usize, out: &mut Vec<u8>) -> Result<(), AllocError>
    requires fits { number < 2 ^ 16 }
    ensures writes { OnOk result (out.new.items ≡ out.old.items ++ two_bytes number) }
{
    out.extend_from_slice(&(number as u16).to_le_bytes())
}
