// The lines of a file.

ghost use Rattle.std.specs.Prelude.{◌≡◌, ◌<◌, ◌≤◌, ◌==◌, ◌∷◌, length, take, drop, IfOk};
ghost use Rattle.std.specs.List.{position_or_len};
ghost use Rattle.paw_author.specs.FileLines.{whole_lines, file_lines};

use crate::fragment::LineInParts;
use crate::parts::line_parts;
use std::alloc::{AllocError, Global};

/// The byte before which a file ends.
const END_MARK: u8 = 0x1A;

// How many bytes stand before the first one with this value.
fn len_before(byte: u8, bytes: &[u8]) -> usize
    ensures value { result ≡ position_or_len (λ b. b == byte) bytes.now }
    ensures within { result ≤ length bytes.now }
{
    bytes.iter().take_while(|b| **b != byte).count()
}

// How many bytes the first line has, with its line end.
fn first_line_len(bytes: &[u8]) -> usize
    requires some { 0 < length bytes.now }
    ensures lines { whole_lines bytes.now ≡ take result bytes.now ∷ whole_lines (drop result bytes.now) }
    ensures some { 0 < result }
    ensures within { result ≤ length bytes.now }
{
    let before = len_before(b'\n', bytes);
    if before < bytes.len() {
        before + 1
    } else {
        before
    }
}

/// The lines of a file, each in its parts.
///
/// # Errors
/// Where there is no memory.
pub(crate) fn file_lines(
    alloc: Global,
    file: usize,
    bytes: &[u8],
) -> Result<Vec<LineInParts>, AllocError>
    ensures value { IfOk result (λ lines. lines.items ≡ file_lines file bytes.now) }
{
    let mut lines = Vec::new(alloc);
    let mut left = &bytes[..len_before(END_MARK, bytes)];
    let mut number: usize = 0;
    while !left.is_empty() {
        let (line, rest) = left.split_at(first_line_len(left));
        number += 1;
        lines.push(line_parts(alloc, file, number, line)?)?;
        left = rest;
    }
    Ok(lines)
}
