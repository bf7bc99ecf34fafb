// The lines of a reader.

ghost use Rattle.std.specs.Prelude.{◌≡◌, ◌<◌, ◌≤◌, ◌+◌, ◌-◌, ◌==◌, ◌++◌, ◌↔◌, nat_lt, if◌then◌else◌, [], length, take};
ghost use Rattle.std.specs.Prelude.{slice_index, Option, IsFalse, IsSome, IsNone};
ghost use Rattle.std.specs.List.{position, position_or_len};
ghost use Rattle.std.specs.Io.KnownBytes.{prepend_known};
ghost use Rattle.paw_base.specs.Bytes.{Bytes};
ghost use Rattle.paw_base.specs.declared.limits.TheConstants.{LINE_LIMIT};
ghost use Rattle.paw_stage.specs.declared.Asked.TheVariants as asked;
ghost use Rattle.paw_stage.specs.inner.LineParts.{Gathers, HasNoEnd, CopiesPart, line_end};

use crate::ahead::Ahead;
use crate::{Asked, Failed};
use paw_base::limits::LINE_LIMIT;
use std::io::Read;

/// The greatest length of a line that is taken, in bytes, without its line end.
const LONGEST_LINE: u32 = 1_048_576;

/// Why no more lines are taken: one was too long, or the reader failed.
#[derive(Clone, Copy, Drop, PartialEq, Eq, Debug)]
pub enum LineFailure {
    TooLong,
    Reader,
}

/// What was taken of the line that is being read: how many bytes, and whether the last of them is a CR.
#[derive(Clone, Copy, Drop)]
struct LineBegun {
    len: u32,
    ends_with_return: bool,
}

/// The lines of a reader, which it reads through a buffer.
///
/// A line ends with LF or CR LF, and a last line that has no end is a line where it isn't empty. Once an ask has failed
/// each later one fails, so that no rest of a line is taken for a line.
#[derive(Drop)]
pub struct LineReader<R: Drop> {
    reader: R,
    ahead: Ahead,
    broken: Option<LineFailure>,
}

impl<R: Read + Drop> LineReader<R> {
    ghost use Rattle.paw_stage.specs.inner.Input.{bytes_unread, AsksOf, GathersOf, GathersFrom};
    ghost use Rattle.paw_stage.specs.inner.Input.{IsLong, longest_line};
    ghost use Rattle.paw_stage.specs.declared.input.LineFailure.TheVariants as failure;

    /// The lines of a reader, of which nothing was read yet.
    pub fn new(reader: R) -> LineReader<R>
        ensures unread { bytes_unread R.remaining result ≡ R.remaining reader }
    {
        LineReader {
            reader,
            ahead: Ahead::new(),
            broken: None,
        }
    }

    /// Takes the next line and gives its first 255 bytes, without its line end. A line of more than 1,048,576 bytes,
    /// its end not counted, is Failed, and so is a failure of the reader.
    pub fn next_line(&mut self, into: &mut [u8; LINE_LIMIT]) -> Asked
        ensures line { AsksOf R.remaining self.old self.new result into.new }
        ensures long { IsNone self.old.broken → self.new.broken ≡ Some failure.TooLong →
            IsLong (bytes_unread R.remaining self.old) }
        ensures breaks { (result ≡ asked.Failed) ↔ IsSome self.new.broken }
        ensures stays { IsSome self.old.broken → result ≡ asked.Failed }
    {
        if self.broken.is_some() {
            return Asked::Failed;
        }
        match self.gather(into) {
            Ok(None) => Asked::End,
            Ok(Some(len)) if len <= LONGEST_LINE => Asked::Line(len.min(LINE_LIMIT as u32) as u8),
            Ok(Some(_)) => self.fail(LineFailure::TooLong),
            Err(_) => self.fail(LineFailure::Reader),
        }
    }

    // Takes no more lines from now on.
    fn fail(&mut self, why: LineFailure) -> Asked
        ensures failed { result ≡ asked.Failed }
        ensures broken { self.new ≡ record self.old { broken = Some why } }
    {
        self.broken = Some(why);
        Asked::Failed
    }

    // Takes the next line, keeps its first 255 bytes, and gives its length, or nothing where no byte is left. Of a line
    // that is too long it may take only a part, and gives any length that is too great.
    fn gather(&mut self, into: &mut [u8; LINE_LIMIT]) -> Result<Option<u32>, Failed>
        ensures line { GathersOf R.remaining self.old self.new result into.new }
        ensures rest { self.new.broken ≡ self.old.broken }
    {
        let mut begun = LineBegun {
            len: 0,
            ends_with_return: false,
        };
        if self.take_part(into, &mut begun) {
            return Ok(Some(without_return(begun.len, begun.ends_with_return)));
        }
        self.read_on(into, begun)
    }

    // Goes on with the line that is being read, of which nothing may have been taken yet, by reading until its end
    // comes. It stands apart, and is cold, because one read of a file gives many lines; at a terminal each comes
    // through here, after a wait for the player.
    #[cold]
    fn read_on(
        &mut self,
        into: &mut [u8; LINE_LIMIT],
        mut begun: LineBegun,
    ) -> Result<Option<u32>, Failed>
        requires empty { self.old.ahead ≡ [] }
        ensures line { (first : Option Bytes) →
            Gathers first (bytes_unread R.remaining self.old) into.old begun.len begun.ends_with_return →
            GathersFrom R.remaining first self.new result into.new }
        ensures rest { self.new.broken ≡ self.old.broken }
    {
        // Two more than the longest line: its CR and one byte that is too many.
        while begun.len < LONGEST_LINE + 2 {
            self.ahead.fill(&mut self.reader)?;
            if self.ahead.bytes().is_empty() {
                return Ok(if begun.len == 0 {
                    None
                } else {
                    Some(begun.len)
                });
            }
            if self.take_part(into, &mut begun) {
                return Ok(Some(without_return(begun.len, begun.ends_with_return)));
            }
        }
        Ok(Some(begun.len))
    }

    // Takes the bytes of the line being read that were read ahead, and its LF where that is among them. Gives whether
    // it is.
    fn take_part(&mut self, into: &mut [u8; LINE_LIMIT], begun: &mut LineBegun) -> bool
        requires short { begun.old.len < longest_line + 2 }
        ensures line { (first : Option Bytes) →
            Gathers first (bytes_unread R.remaining self.old) into.old begun.old.len begun.old.ends_with_return →
            Gathers first (prepend_known (line_end result) (bytes_unread R.remaining self.new))
            into.new begun.new.len begun.new.ends_with_return }
        ensures all { IsFalse result → self.new.ahead ≡ [] }
        ensures grows { IsFalse result → begun.new.len ≡ begun.old.len + length self.old.ahead }
        ensures rest { self.new.broken ≡ self.old.broken }
    {
        let ahead = self.ahead.bytes();
        let count = copy_to_line_end(ahead, into, begun.len);
        let ended = count < ahead.len();
        begun.ends_with_return = ends_with_return(ahead, count, begun.ends_with_return);
        begun.len += count as u32;
        self.ahead.take(if ended { count + 1 } else { count });
        ended
    }
}

// Copies the bytes before the first LF, or all where there is none, to those that were taken of the line being read, as
// far as they are among its first 255. Gives how many they are. It looks for the LF while it copies, so that most lines
// are gone over once.
fn copy_to_line_end(bytes: &[u8], into: &mut [u8; LINE_LIMIT], taken: u32) -> usize
    ensures within { result ≤ length bytes.now }
    ensures plain { HasNoEnd (take result bytes.now) }
    ensures end { result < length bytes.now → slice_index bytes.now result ≡ 10 }
    ensures copied { CopiesPart into.old into.new taken result bytes.now }
{
    let copied = copy_line(bytes, into, taken.min(LINE_LIMIT as u32) as usize);
    copied + line_length(&bytes[copied..])
}

// Copies bytes to an offset on, up to the first LF or as many as there is room for, and gives how many.
fn copy_line(bytes: &[u8], into: &mut [u8; LINE_LIMIT], to: usize) -> usize
    requires room { to ≤ LINE_LIMIT }
    ensures within { result ≤ length bytes.now }
    ensures room { to + result ≤ LINE_LIMIT }
    ensures copied { take (to + result) into.new ≡ take to into.old ++ take result bytes.now }
    ensures plain { HasNoEnd (take result bytes.now) }
    ensures stops { result < length bytes.now → to + result < LINE_LIMIT → slice_index bytes.now result ≡ 10 }
{
    let most = bytes.len().min(LINE_LIMIT - to);
    for at in 0..most {
        let byte = bytes[at];
        if byte == b'\n' {
            return at;
        }
        into[to + at] = byte;
    }
    most
}

// Where the first LF stands.
fn first_line_feed(bytes: &[u8]) -> Option<usize>
    ensures value { result ≡ position (λ byte. byte == 10) bytes.now }
{
    bytes.iter().position(|byte| *byte == b'\n')
}

// How many bytes stand before the first LF, or how many there are where there is none.
fn line_length(bytes: &[u8]) -> usize
    ensures value { result ≡ position_or_len (λ byte. byte == 10) bytes.now }
    ensures within { result ≤ length bytes.now }
{
    first_line_feed(bytes).unwrap_or(bytes.len())
}

// Whether the last of the first bytes is a CR; where there is none of them, what was so before.
fn ends_with_return(bytes: &[u8], count: usize, before: bool) -> bool
    requires within { count ≤ length bytes.now }
    ensures value { result ≡ (if nat_lt 0 count then slice_index bytes.now (count - 1) == 13 else before) }
{
    if count == 0 {
        return before;
    }
    bytes[count - 1] == b'\r'
}

// The length of a line without the CR before its LF. A CR is a byte, so nothing saturates: it says so without a proof.
fn without_return(len: u32, ends_with_return: bool) -> u32
    ensures value { result ≡ (if ends_with_return then len - 1 else len) }
{
    if ends_with_return {
        len.saturating_sub(1)
    } else {
        len
    }
}
