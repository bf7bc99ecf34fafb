// How a line is cut into parts: its tokens, and what stands before, between and after them.

ghost use Rattle.std.specs.Prelude.{◌≡◌, ◌<◌, ◌≤◌, ◌+◌, ◌∷◌, true, length, IfOk};
ghost use Rattle.std.specs.List.{prefix_len, position_or_len};
ghost use Rattle.paw_author.specs.Parts.{is_gap, stops_token, quoted_len, part_len, line_parts};

use crate::fragment::{Fragment, LineInParts, Origin};
use std::alloc::{AllocError, Global};

/// Whether a byte stands between tokens: it is a blank, a tab, or a byte of a line end.
pub(crate) fn is_gap(byte: u8) -> bool
    ensures value { result ≡ is_gap byte }
{
    byte == b' ' || byte == b'\t' || byte == b'\n' || byte == b'\r'
}

// Whether a byte ends a token.
fn stops_token(byte: u8) -> bool
    ensures value { result ≡ stops_token byte }
{
    is_gap(byte) || byte == b';' || byte == b'+'
}

// How many bytes stand first that stand between tokens.
fn gap_len(line: &[u8]) -> usize
    ensures value { result ≡ prefix_len is_gap line.now }
    ensures within { result ≤ length line.now }
{
    line.iter().take_while(|byte| is_gap(**byte)).count()
}

// How many bytes stand before the first that ends a token.
fn token_len(line: &[u8]) -> usize
    ensures value { result ≡ position_or_len stops_token line.now }
    ensures within { result ≤ length line.now }
{
    line.iter().take_while(|byte| !stops_token(**byte)).count()
}

// How many bytes a text goes on for after its first quote.
#[tactic(auto, using(crate::proofs::Quoted::one_quoted, crate::proofs::Quoted::none_quoted))]
fn quoted_len(text: &[u8]) -> usize
    ensures value { result ≡ quoted_len true text.now }
    ensures within { result ≤ length text.now }
{
    let mut inside = true;
    let mut len: usize = 0;
    for byte in text {
        if *byte == b'"' {
            inside = !inside;
        } else if !inside {
            return len;
        }
        len += 1;
    }
    len
}

// How many bytes the first part has of a line that begins with `first`.
fn first_part_len(first: u8, rest: &[u8]) -> usize
    ensures value { result ≡ part_len (first ∷ rest.now) }
    ensures some { 0 < result }
    ensures within { result ≤ length rest.now + 1 }
{
    if is_gap(first) {
        1 + gap_len(rest)
    } else if first == b';' {
        1 + rest.len()
    } else if first == b'+' {
        1
    } else if first == b'"' {
        1 + quoted_len(rest)
    } else {
        1 + token_len(rest)
    }
}

// How many bytes the first part of a line has.
fn part_len(line: &[u8]) -> usize
    ensures value { result ≡ part_len line.now }
    ensures some { 0 < length line.now → 0 < result }
    ensures within { result ≤ length line.now }
{
    match line {
        [first, rest @ ..] => first_part_len(*first, rest),
        [] => 0,
    }
}

// Some bytes of a line as a part of it.
fn part(alloc: Global, origin: Origin, bytes: &[u8]) -> Result<Fragment, AllocError>
    ensures value { IfOk result (λ fragment. fragment ≡ record { origin = origin; bytes = bytes.now }) }
{
    Ok(Fragment {
        origin,
        bytes: Vec::from_slice(alloc, bytes)?,
    })
}

/// A line of a file in its parts.
///
/// # Errors
/// Where there is no memory.
pub(crate) fn line_parts(
    alloc: Global,
    file: usize,
    number: usize,
    bytes: &[u8],
) -> Result<LineInParts, AllocError>
    ensures value { IfOk result (λ line. line ≡ line_parts file number bytes.now) }
{
    let mut parts = Vec::new(alloc);
    let mut left = bytes;
    let mut column: usize = 1;
    while !left.is_empty() {
        let (first, rest) = left.split_at(part_len(left));
        let origin = Origin {
            file,
            line: number,
            column,
        };
        parts.push(part(alloc, origin, first)?)?;
        column += first.len();
        left = rest;
    }
    Ok(LineInParts { parts })
}
