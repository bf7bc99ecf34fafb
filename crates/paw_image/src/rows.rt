// The rows of an image, one after another.

ghost use Rattle.std.specs.Prelude.{◌≡◌, ◌<◌, ◌^◌, ◌∷◌, ◌++◌, length, OnOk, flat_map};
ghost use Rattle.std.specs.List.{AllByRecursion};
ghost use Rattle.paw_read_error.specs.inner.Gives.{Gives};
ghost use Rattle.paw_image.specs.inner.Reading.{few_at, leading_rows};

use crate::fault::ReadFault;
use crate::fields::read_byte;
use std::alloc::{AllocError, Global};

/// Something of which an image has a list: a row is spelled by some bytes.
pub trait Row {
    ghost use Rattle.std.specs.Prelude.{◌≡◌, ◌<◌, ◌^◌, ◌++◌, length, OnOk};
    ghost use Rattle.paw_base.specs.Bytes.{Bytes};

    /// The bytes that spell a row.
    ghost spelling: { Self → Bytes };

    /// What a row must be to be spelled: no number in it is too large for its bytes.
    ghost fits: { Self → Type 0 };

    /// How many bytes spell the row.
    fn length(&self) -> usize
        requires fits { fits self.now }
        requires short { length (spelling self.now) < 2 ^ 32 }
        ensures value { result ≡ length (spelling self.now) };

    /// Writes the row at the end.
    fn write(&self, out: &mut Vec<u8>) -> Result<(), AllocError>
        requires fits { fits self.now }
        ensures writes { OnOk result (out.new.items ≡ out.old.items ++ spelling self.now) };
}

/// Something of which an image has a list, read where it stands at the front of bytes.
pub trait ReadRow: Drop {
    ghost use Rattle.paw_base.specs.Bytes.{Bytes};
    ghost use Rattle.paw_image.specs.Reading.{Reading};
    ghost use Rattle.paw_read_error.specs.inner.Gives.{Gives};

    /// The row at the front of these bytes, and the bytes after it.
    ghost reading: { Bytes → Reading Self };

    /// Reads the row at the front of the bytes, and gives the bytes after it.
    fn read(alloc: Global, bytes: &[u8]) -> Result<(Self, &[u8]), ReadFault>
        ensures gives { Gives (λ x. (x.0, x.1.now)) result (reading bytes.now) };
}

/// Reads the first `count` rows.
pub fn read_rows<R: ReadRow>(
    alloc: Global,
    count: usize,
    bytes: &[u8],
) -> Result<(Vec<R>, &[u8]), ReadFault>
    ensures gives { Gives (λ x. (x.0.items, x.1.now)) result (leading_rows R.reading count bytes.now) }
{
    let mut rows = Vec::new(alloc);
    let mut rest = bytes;
    for _ in 0..count {
        let (row, after) = R::read(alloc, rest)?;
        rows.push(row)?;
        rest = after;
    }
    Ok((rows, rest))
}

/// Reads rows after a count of one byte.
#[tactic(auto, unfolding(crate::specs::inner::Reading::few_at))]
pub fn read_few<R: ReadRow>(alloc: Global, bytes: &[u8]) -> Result<(Vec<R>, &[u8]), ReadFault>
    ensures gives { Gives (λ x. (x.0.items, x.1.now)) result (few_at R.reading bytes.now) }
{
    let (count, rest) = read_byte(bytes)?;
    read_rows(alloc, count as usize, rest)
}

/// How many bytes spell the rows.
pub fn length_of_rows<R: Row>(rows: &[R]) -> usize
    requires fits { AllByRecursion R.fits rows.now }
    requires short { length (flat_map R.spelling rows.now) < 2 ^ 32 }
    ensures value { result ≡ length (flat_map R.spelling rows.now) }
{
    let mut total = 0;
    for row in rows {
        total += row.length();
    }
    total
}

/// Writes the rows at the end, one after another.
pub fn write_rows<R: Row>(rows: &[R], out: &mut Vec<u8>) -> Result<(), AllocError>
    requires fits { AllByRecursion R.fits rows.now }
    ensures writes { OnOk result (out.new.items ≡ out.old.items ++ flat_map R.spelling rows.now) }
{
    for row in rows {
        row.write(out)?;
    }
    Ok(())
}

/// How many bytes spell the rows and a count of one byte before them.
pub fn length_of_few<R: Row>(rows: &[R]) -> usize
    requires fits { AllByRecursion R.fits rows.now }
    requires short { length (length rows.now ∷ flat_map R.spelling rows.now) < 2 ^ 32 }
    ensures value { result ≡ length (length rows.now ∷ flat_map R.spelling rows.now) }
{
    1 + length_of_rows(rows)
}

/// Writes the rows at the end, after a count of one byte.
pub fn write_few<R: Row>(rows: &[R], out: &mut Vec<u8>) -> Result<(), AllocError>
    requires few { length rows.now < 256 }
    requires fits { AllByRecursion R.fits rows.now }
    ensures writes { OnOk result (out.new.items ≡ out.old.items ++ (length rows.now ∷ flat_map R.spelling rows.now)) }
{
    out.push(rows.len() as u8)?;
    write_rows(rows, out)
}
