// The bytes that a line may hold.

ghost use Rattle.std.specs.Prelude.{◌≡◌, not, true, false, MatchOption};
ghost use Rattle.std.specs.List.{list_any};
ghost use Rattle.paw_lex.specs.inner.Lines.{line_bytes, LiesIn};
ghost use Rattle.paw_lex.specs.Bytes.{is_comment, is_allowed, has_forbidden_byte};

use crate::lines::Line;
use paw_base::fault::SourceKind;

/// A forbidden byte: the number of its line, and the kind of the fault.
#[derive(Clone, Copy, Drop, PartialEq, Eq, Debug)]
pub struct LexFault {
    pub line: u32,
    pub kind: SourceKind,
}

/// Whether a line is a comment: it begins with `;`.
pub fn is_comment(line: &[u8]) -> bool
    ensures value { result ≡ is_comment line.now }
{
    line.first() == Some(&b';')
}

// Whether a byte may stand in a source: in the line of a text a tab may not.
fn is_allowed(text: bool, byte: u8) -> bool
    ensures value { result ≡ is_allowed text byte }
{
    matches!(byte, b' '..=b'~') || !text && byte == b'\t'
}

// Whether a byte of the line isn't allowed in it.
fn any_is_forbidden(text: bool, line: &[u8]) -> bool
    ensures value { result ≡ list_any (λ b. not (is_allowed text b)) line.now }
{
    // There is no way out at a bad byte: without one, the compiler has many bytes tested at once.
    let mut any = false;
    for byte in line {
        any = any | !is_allowed(text, *byte);
    }
    any
}

// Whether a line has a byte that may not stand in it; `text` says whether the line is one of a text.
fn has_forbidden_byte(text: bool, line: &[u8]) -> bool
    ensures value { result ≡ has_forbidden_byte text line.now }
{
    !is_comment(line) && any_is_forbidden(text, line)
}

/// The fault of a line that holds a forbidden byte. A comment may hold any byte, a text line the bytes from the space
/// to `~`, and any other line tabs too. `text` says whether it is a text line.
pub fn byte_fault(source: &[u8], line: &Line, text: bool) -> Option<LexFault>
    requires span { LiesIn source.now line.now }
    ensures value { let forbidden = has_forbidden_byte text (line_bytes source.now line.now) in
        MatchOption result (forbidden ≡ false)
        (λ fault. (forbidden ≡ true)
        × (fault ≡ record { line = line.now.number; kind = SourceKind.Text })) }
{
    if has_forbidden_byte(text, &source[line.from..line.to]) {
        Some(LexFault {
            line: line.number,
            kind: SourceKind::Text,
        })
    } else {
        None
    }
}
