// The lines of a source, one after another.

ghost use Rattle.std.specs.Prelude.{◌≡◌, ◌<◌, ◌≤◌, ◌+◌, ◌==◌, ◌⊎◌, [], ◌∷◌, length, take};
ghost use Rattle.std.specs.Prelude.{drop, slice_index, slice_range, MatchOption, IfSome, IfNone};
ghost use Rattle.std.specs.List.{position_or_len};
ghost use Rattle.std.specs.Str.Lines.{lines, strip_carriage_return};
ghost use Rattle.paw_base.specs.declared.limits.TheConstants.{SOURCE_LIMIT};
ghost use Rattle.paw_lex.specs.Lines.{lines_of};
ghost use Rattle.paw_lex.specs.inner.Lines.{line_bytes, LiesIn, IsLineEnd};

use memchr::memchr;
use std::marker::Model;

/// The byte before which a source ends.
const END_MARK: u8 = 0x1A;

/// A line of a source: its number, counted from 1, the offset of its first byte, and the offset after its last one. The
/// line end isn't part of it.
#[derive(Clone, Copy, Drop, PartialEq, Eq, Debug)]
pub struct Line {
    pub number: u32,
    pub from: usize,
    pub to: usize,
}

/// How many bytes the first line of a text has, without and with its line end.
#[derive(Clone, Copy, Drop)]
struct Cut {
    line: usize,
    whole: usize,
}

// The offset of the first byte with this value, or the length where there is none. It is found by `memchr`, which looks
// at many bytes at once.
fn offset_of_first(bytes: &[u8], byte: u8) -> usize
    ensures value { result ≡ position_or_len (λ b. b == byte) bytes.now }
    ensures within { result ≤ length bytes.now }
{
    memchr(byte, bytes).unwrap_or(bytes.len())
}

// How many bytes a line has without the CR at its end.
fn len_without_return(line: &[u8]) -> usize
    ensures value { take result line.now ≡ strip_carriage_return line.now }
    ensures cut { (result ≡ length line.now)
        ⊎ ((result + 1 ≡ length line.now) × (slice_index line.now result ≡ 13)) }
{
    match line {
        [rest @ .., b'\r'] => rest.len(),
        _ => line.len(),
    }
}

// The first line of a text, where it has one.
fn first_line(text: &[u8]) -> Option<Cut>
    ensures lines { MatchOption result (lines text.now ≡ [])
        (λ cut. lines text.now ≡ take cut.line text.now ∷ lines (drop cut.whole text.now)) }
    ensures offsets { IfSome result (λ cut.
        (cut.line ≤ cut.whole) × (0 < cut.whole) × (cut.whole ≤ length text.now)) }
    ensures line_end { IfSome result (λ cut. IsLineEnd (slice_range text.now cut.line cut.whole)
        ⊎ ((cut.line ≡ cut.whole) × (cut.whole ≡ length text.now))) }
{
    if text.is_empty() {
        return None;
    }
    let end = offset_of_first(text, b'\n');
    if end == text.len() {
        return Some(Cut {
            line: end,
            whole: end,
        });
    }
    Some(Cut {
        line: len_without_return(&text[..end]),
        whole: end + 1,
    })
}

/// A walk over the lines of a source.
#[derive(Drop)]
pub struct Lines<'a> {
    source: &'a [u8],
    // The offset before which the source ends. It is kept here so that the mark of the end is looked for once.
    end: usize,
    // The offset where the next line begins.
    at: usize,
    // How many lines were given.
    given: u32,
}

impl<'a> Model for Lines<'a> {
    ghost use Rattle.std.specs.Prelude.{◌≡◌, ◌≤◌, ◌==◌, length, drop};
    ghost use Rattle.std.specs.List.{position_or_len};
    ghost use Rattle.paw_base.specs.declared.limits.TheConstants.{SOURCE_LIMIT};
    ghost use Rattle.paw_lex.specs.Lines.{lines_of};
    ghost use Rattle.paw_lex.specs.inner.Lines.{Walk};

    ghost Value = { Walk };

    ghost view = { λ l. record {
      source = l.source.now;
      given = l.given;
      at = l.at;
      left = lines_of (drop l.at l.source.now);
    } };

    ghost invariant = { λ l. record {
      ends_at_mark : l.end ≡ position_or_len (λ b. b == 0x1A) l.source.now;
      ends_inside : l.end ≤ length l.source.now;
      is_inside : l.at ≤ l.end;
      few : l.given ≤ l.at;
      short : length l.source.now ≤ SOURCE_LIMIT;
    } };
}

impl<'a> Lines<'a> {
    /// A walk that stands before the first line. The source has at most 8,388,608 bytes.
    pub fn new(source: &'a [u8]) -> Lines<'a>
        requires short { length source.now ≤ SOURCE_LIMIT }
        ensures value { result ≡ record { source = source.now; given = 0; at = 0; left = lines_of source.now } }
    {
        Lines {
            source,
            end: offset_of_first(source, END_MARK),
            at: 0,
            given: 0,
        }
    }

    /// The next line, or `None` exactly where none is left. The source ends before its first byte 0x1A. An LF ends a
    /// line, and a CR right before it belongs to the line end. A last line without LF is a line too; after a last LF
    /// there is none. Lines are numbered from 1, and there are no more of them than bytes.
    pub fn next(&mut self) -> Option<Line>
        ensures lines { MatchOption result (self.old.left ≡ [])
            (λ line. self.old.left ≡ line_bytes self.old.source line ∷ self.new.left) }
        ensures numbers { IfSome result (λ line. (line.number ≡ self.old.given + 1)
            × (line.number ≡ self.new.given) × (line.number ≤ length self.old.source)) }

        // A line begins where the walk stands, and the walk goes on after its line end.
        ensures spans { IfSome result (λ line. LiesIn self.old.source line
            × (line.from ≡ self.old.at) × (line.from < self.new.at) × (line.to ≤ self.new.at)) }
        ensures line_end { IfSome result (λ line.
            IsLineEnd (slice_range self.old.source line.to self.new.at)
            ⊎ ((line.to ≡ self.new.at) × (self.new.left ≡ []))) }

        ensures source { self.new.source ≡ self.old.source }
        ensures end { IfNone result (self.new ≡ self.old) }
    {
        match first_line(&self.source[self.at..self.end]) {
            None => None,
            Some(cut) => {
                let from = self.at;
                self.at += cut.whole;
                self.given += 1;
                Some(Line {
                    number: self.given,
                    from,
                    to: from + cut.line,
                })
            }
        }
    }
}
