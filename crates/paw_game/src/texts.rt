// The rules of texts.

ghost use Rattle.std.specs.Prelude.{◌≡◌, ◌<◌, ◌^◌, ◌&&◌, IfSome, length, not, true};
ghost use Rattle.paw_game.specs.inner.Fault.{first_bad, texts_fault};
ghost use Rattle.paw_game.specs.Valid.{begins_no_line, is_printed, is_text, is_text_byte};

use crate::parts::Text;
use crate::rows::row_fault;
use paw_base::limits::TEXT_LIMIT;

/// The row to name of these texts, where one breaks a rule or there are too few or too many.
#[tactic(auto, unfolding(crate::specs::inner::Fault::texts_fault))]
pub(crate) fn texts_fault(least: usize, most: usize, texts: &[Text]) -> Option<u32>
    requires limit { most < 2 ^ 32 }
    ensures value { result ≡ texts_fault least most texts.now }
{
    row_fault(least, most, texts.len(), bad_text(texts))
}

// The first of these texts that breaks the rules.
fn bad_text(texts: &[Text]) -> Option<usize>
    ensures value { result ≡ first_bad is_text texts.now }
    ensures within { IfSome result (λ row. row < length texts.now) }
{
    texts.iter().position(|text| !is_text(text))
}

/// Whether a text follows the rules of its length and its bytes.
pub(crate) fn is_text(text: &Text) -> bool
    ensures value { result ≡ is_text text.now }
{
    text.rows.len() <= TEXT_LIMIT && is_printed(text.rows.as_slice())
}

/// Whether bytes print or end a line, where no line begins with '/' or ';'.
pub fn is_printed(bytes: &[u8]) -> bool
    ensures value { result ≡ is_printed true bytes.now }
{
    // There is no way out at a bad byte: without one, the compiler has many bytes tested at once.
    let mut printed = true;
    let mut line_begins = true;
    for byte in bytes {
        printed = printed & may_stand(line_begins, *byte);
        line_begins = *byte == b'\n';
    }
    printed
}

// Whether a byte may stand in a text, where `line_begins` says whether a line begins with it.
fn may_stand(line_begins: bool, byte: u8) -> bool
    ensures value { result ≡ (is_text_byte byte && not (line_begins && begins_no_line byte)) }
{
    is_text_byte(byte) & !(line_begins & begins_no_line(byte))
}

fn is_text_byte(byte: u8) -> bool
    ensures value { result ≡ is_text_byte byte }
{
    matches!(byte, b' '..=b'~' | b'\n')
}

fn begins_no_line(byte: u8) -> bool
    ensures value { result ≡ begins_no_line byte }
{
    matches!(byte, b'/' | b';')
}
