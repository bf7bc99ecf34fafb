// Breaking lines at spaces by first fit.

ghost use Rattle.std.specs.Prelude.{◌≡◌, ◌<◌, ◌≤◌, length, IfOk};
ghost use Rattle.paw_wrap.specs.FirstFit.{space, word_length, breaks_from, with_byte, first_fit, FitsLines, AreFewest};

use paw_base::fault::NoRoom;
use std::alloc::Global;
use std::marker::Model;

/// How many bytes a text that is wrapped may have.
pub const WRAP_LIMIT: usize = 4_194_304;

const SPACE: u8 = b' ';

const LINE_FEED: u8 = b'\n';

/// A wrapped text: its bytes, with an LF in place of each space at which a line was broken, and the offsets of these
/// spaces in rising order.
#[derive(Drop)]
pub struct Wrapped {
    pub bytes: Vec<u8>,
    pub breaks: Vec<u32>,
}

impl Model for Wrapped {
    ghost use Rattle.paw_wrap.specs.FirstFit.{WrappedText};

    ghost Value = { WrappedText };

    ghost view = { λ w. record { bytes = w.bytes.items; breaks = w.breaks.items } };
}

// How many bytes stand before the first space or LF, or before the end where there is none.
fn word_length(text: &[u8]) -> usize
    ensures value { result ≡ word_length text.now }
    ensures within { result ≤ length text.now }
{
    text.iter()
        .take_while(|byte| **byte != SPACE && **byte != LINE_FEED)
        .count()
}

// The offsets at which first fit breaks the text, in rising order.
fn first_fit_breaks(alloc: Global, width: u8, text: &[u8]) -> Result<Vec<u32>, NoRoom>
    requires fits { length text.now ≤ WRAP_LIMIT }
    ensures value { IfOk result (λ breaks. breaks.items ≡ breaks_from width 0 0 text.now) }
{
    let mut breaks = Vec::new(alloc);
    // Where the line begins, and where a word of it ends.
    let mut line = 0;
    let mut at = word_length(text);
    while at < text.len() {
        let end = at + 1 + word_length(&text[at + 1..]);
        if text[at] == LINE_FEED {
            line = at + 1;
        } else if end - line > usize::from(width) {
            breaks.push(at as u32)?;
            line = at + 1;
        }
        at = end;
    }
    Ok(breaks)
}

/// Wraps a text: its lines are broken at spaces by first fit. A space is a break exactly where the line up to it, the
/// space and the next word are together longer than the width, in bytes. An LF ends a line; CR and tab are bytes of a
/// line. No word is cut, so a line of one long word may be longer than the width. The width is at least 1, and the text
/// has at most 4,194,304 bytes.
///
/// # Errors
/// Only where there is no memory.
pub fn wrap(alloc: Global, width: u8, text: &[u8]) -> Result<Wrapped, NoRoom>
    requires wide { 0 < width }
    requires fits { length text.now ≤ WRAP_LIMIT }
    ensures value { IfOk result (λ wrapped. wrapped ≡ first_fit width text.now) }
    ensures undone { IfOk result (λ wrapped. with_byte space wrapped.breaks wrapped.bytes ≡ text.now) }
    ensures lines_fit { IfOk result (λ wrapped. FitsLines width wrapped.bytes) }
    ensures fewest { IfOk result (λ wrapped. AreFewest width text.now wrapped.breaks) }
{
    let breaks = first_fit_breaks(alloc, width, text)?;
    let mut bytes = Vec::from_slice(alloc, text)?;
    for at in &breaks {
        bytes[*at as usize] = LINE_FEED;
    }
    Ok(Wrapped { bytes, breaks })
}
