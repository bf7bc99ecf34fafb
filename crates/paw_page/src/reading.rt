// The request that bytes are.

ghost use Rattle.std.specs.Prelude.{◌≡◌, ◌<◌, ◌++◌, [], length, IfSome, IfNone, IfOk, IfErr, map, string_bytes, ℕ};
ghost use Rattle.std.specs.Str.{IsUtf8};
ghost use Rattle.paw_base.specs.Bytes.{Bytes};
ghost use Rattle.paw_page.specs.Request.{number_bytes, part_bytes, IsNumber, IsPart, IsTextPart};
ghost use Rattle.paw_page.specs.Request.{list_bytes, entry_bytes, IsEntry, IsListed, IsRequest, PageRequest};
ghost use Rattle.paw_page.specs.inner.Heads.{HasAtHead, HasNoneAtHead};
ghost use Rattle.paw_page.specs.inner.Read.{asked_by, entry_of};
ghost use Rattle.paw_page.specs.declared.request.NoAnswer.TheVariants as no_answer;

use crate::request::{HeldRequest, NoAnswer, PageFile};
use paw_base::lists::Rows;
use std::alloc::Global;

// The number at the head of some bytes, and the bytes after it.
fn number(bytes: &[u8]) -> Option<(u32, &[u8])>
    ensures some { IfSome result (λ p. HasAtHead number_bytes IsNumber bytes.now p.0 p.1.now) }
    ensures none { IfNone result (length bytes.now < 4) }
{
    if bytes.len() < 4 {
        return None;
    }
    let n = u32::from_le_bytes([bytes[0], bytes[1], bytes[2], bytes[3]]);
    Some((n, &bytes[4..]))
}

// The part at the head of some bytes, and the bytes after it.
fn part(bytes: &[u8]) -> Option<(&[u8], &[u8])>
    ensures some { IfSome result (λ p. HasAtHead part_bytes IsPart bytes.now p.0.now p.1.now) }
    ensures none { IfNone result (HasNoneAtHead part_bytes IsPart bytes.now) }
{
    let (n, rest) = number(bytes)?;
    let n = n as usize;
    if rest.len() < n {
        return None;
    }
    Some((&rest[..n], &rest[n..]))
}

// The text that these bytes are.
fn text_of(alloc: Global, bytes: &[u8]) -> Result<String, NoAnswer>
    ensures text { IfOk result (λ t. (string_bytes t ≡ bytes.now) × IsUtf8 bytes.now) }
    ensures none { IfErr result (λ e. e ≡ no_answer.NoRequest → ¬ (IsUtf8 bytes.now)) }
{
    match std::str::from_utf8(bytes) {
        Ok(text) => String::from_str(alloc, text).map_err(|_| NoAnswer::Memory),
        Err(_) => Err(NoAnswer::NoRequest),
    }
}

// The text at the head of some bytes, and the bytes after it.
fn text(alloc: Global, bytes: &[u8]) -> Result<(String, &[u8]), NoAnswer>
    ensures some { IfOk result (λ p. HasAtHead part_bytes IsTextPart bytes.now (string_bytes p.0) p.1.now) }
    ensures none { IfErr result (λ e. e ≡ no_answer.NoRequest → HasNoneAtHead part_bytes IsTextPart bytes.now) }
{
    let Some((head, rest)) = part(bytes) else {
        return Err(NoAnswer::NoRequest);
    };
    match text_of(alloc, head) {
        Ok(text) => Ok((text, rest)),
        Err(e) => Err(e),
    }
}

// The line at the head of some bytes, and the bytes after it.
fn line(alloc: Global, bytes: &[u8]) -> Result<(Rows<u8>, &[u8]), NoAnswer>
    ensures some { IfOk result (λ p. HasAtHead part_bytes IsPart bytes.now p.0 p.1.now) }
    ensures none { IfErr result (λ e. e ≡ no_answer.NoRequest → HasNoneAtHead part_bytes IsPart bytes.now) }
{
    let Some((head, rest)) = part(bytes) else {
        return Err(NoAnswer::NoRequest);
    };
    match Rows::from_slice(alloc, head) {
        Ok(line) => Ok((line, rest)),
        Err(_) => Err(NoAnswer::Memory),
    }
}

// The file at the head of some bytes, and the bytes after it.
fn file(alloc: Global, bytes: &[u8]) -> Result<(PageFile, &[u8]), NoAnswer>
    ensures some { IfOk result (λ p. HasAtHead entry_bytes IsEntry bytes.now (entry_of p.0) p.1.now) }
    ensures none { IfErr result (λ e. e ≡ no_answer.NoRequest → HasNoneAtHead entry_bytes IsEntry bytes.now) }
{
    match text(alloc, bytes) {
        Ok((name, after)) => match line(alloc, after) {
            Ok((bytes, rest)) => Ok((PageFile { name, bytes }, rest)),
            Err(e) => Err(e),
        },
        Err(e) => Err(e),
    }
}

// Reads the words at the head of some bytes; the bytes after them.
fn read_words<'a>(
    alloc: Global,
    bytes: &'a [u8],
    words: &mut Vec<String>,
) -> Result<&'a [u8], NoAnswer>
    requires empty { words.old.items ≡ [] }
    ensures some { IfOk result (λ rest.
        HasAtHead (list_bytes part_bytes) (IsListed IsTextPart) bytes.now (map string_bytes words.new.items) rest.now) }
    ensures none { IfErr result (λ e. e ≡ no_answer.NoRequest → HasNoneAtHead (list_bytes part_bytes) (IsListed IsTextPart) bytes.now) }
{
    let Some((count, body)) = number(bytes) else {
        return Err(NoAnswer::NoRequest);
    };
    let mut rest = body;
    for _taken in 0..count {
        match text(alloc, rest) {
            Ok((word, after)) => match words.push(word) {
                Ok(()) => rest = after,
                Err(_) => return Err(NoAnswer::Memory),
            },
            Err(e) => return Err(e),
        }
    }
    Ok(rest)
}

// Reads the files at the head of some bytes; the bytes after them.
fn read_files<'a>(
    alloc: Global,
    bytes: &'a [u8],
    files: &mut Vec<PageFile>,
) -> Result<&'a [u8], NoAnswer>
    requires empty { files.old.items ≡ [] }
    ensures some { IfOk result (λ rest.
        HasAtHead (list_bytes entry_bytes) (IsListed IsEntry) bytes.now (map entry_of files.new.items) rest.now) }
    ensures none { IfErr result (λ e. e ≡ no_answer.NoRequest → HasNoneAtHead (list_bytes entry_bytes) (IsListed IsEntry) bytes.now) }
{
    let Some((count, body)) = number(bytes) else {
        return Err(NoAnswer::NoRequest);
    };
    let mut rest = body;
    for _taken in 0..count {
        match file(alloc, rest) {
            Ok((file, after)) => match files.push(file) {
                Ok(()) => rest = after,
                Err(_) => return Err(NoAnswer::Memory),
            },
            Err(e) => return Err(e),
        }
    }
    Ok(rest)
}

// Reads the lines at the head of some bytes; the bytes after them.
fn read_lines<'a>(
    alloc: Global,
    bytes: &'a [u8],
    lines: &mut Vec<Rows<u8>>,
) -> Result<&'a [u8], NoAnswer>
    requires empty { lines.old.items ≡ [] }
    ensures some { IfOk result (λ rest.
        HasAtHead (list_bytes part_bytes) (IsListed IsPart) bytes.now lines.new.items rest.now) }
    ensures none { IfErr result (λ e. e ≡ no_answer.NoRequest → HasNoneAtHead (list_bytes part_bytes) (IsListed IsPart) bytes.now) }
{
    let Some((count, body)) = number(bytes) else {
        return Err(NoAnswer::NoRequest);
    };
    let mut rest = body;
    for _taken in 0..count {
        match line(alloc, rest) {
            Ok((line, after)) => match lines.push(line) {
                Ok(()) => rest = after,
                Err(_) => return Err(NoAnswer::Memory),
            },
            Err(e) => return Err(e),
        }
    }
    Ok(rest)
}

/// The request that these bytes are. They are none exactly where the answer is so, or memory is lacking.
pub fn read_request(alloc: Global, bytes: &[u8]) -> Result<HeldRequest, NoAnswer>
    ensures some { IfOk result (λ r. IsRequest (asked_by r) bytes.now) }
    ensures none { IfErr result (λ e. e ≡ no_answer.NoRequest → (r : PageRequest) → ¬ (IsRequest r bytes.now)) }
{
    let mut words = Vec::new(alloc);
    let mut files = Vec::new(alloc);
    let mut lines = Vec::new(alloc);
    let after_words = match read_words(alloc, bytes, &mut words) {
        Ok(rest) => rest,
        Err(e) => return Err(e),
    };
    let after_files = match read_files(alloc, after_words, &mut files) {
        Ok(rest) => rest,
        Err(e) => return Err(e),
    };
    let after_lines = match read_lines(alloc, after_files, &mut lines) {
        Ok(rest) => rest,
        Err(e) => return Err(e),
    };
    if after_lines.len() > 0 {
        return Err(NoAnswer::NoRequest);
    }
    Ok(HeldRequest {
        words,
        files,
        lines,
    })
}
