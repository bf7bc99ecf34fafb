// Tests of the bytes of a line.

ghost use Rattle.std.specs.Prelude.{◌≡◌};
ghost use Rattle.paw_lex.specs.Bytes.{has_forbidden_byte};
ghost use Rattle.paw_lex.specs.inner.Lines.{line_bytes, LiesIn};
ghost use Rattle.paw_grammar.specs.Spells.{begins_with_blank, begins_with_slash};

use paw_lex::{Line, byte_fault};

pub(crate) fn begins_with_slash(line: &[u8]) -> bool
    ensures value { result ≡ begins_with_slash line.now }
{
    line.first() == Some(&b'/')
}

pub(crate) fn begins_with_blank(line: &[u8]) -> bool
    ensures value { result ≡ begins_with_blank line.now }
{
    matches!(line, [b' ' | b'\t', ..])
}

pub(crate) fn has_forbidden_byte(source: &[u8], line: &Line, text: bool) -> bool
    requires span { LiesIn source.now line.now }
    ensures value { result ≡ has_forbidden_byte text (line_bytes source.now line.now) }
{
    byte_fault(source, line, text).is_some()
}
