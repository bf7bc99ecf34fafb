// The tokens of a line, one after another.

ghost use Rattle.std.specs.Prelude.{◌≡◌, ◌<◌, ◌≤◌, [], ◌∷◌, length, take, drop, slice_range, MatchOption, IfSome};
ghost use Rattle.std.specs.List.{prefix_len, position_or_len};
ghost use Rattle.paw_lex.specs.inner.Lines.{LiesIn};
ghost use Rattle.paw_lex.specs.Tokens.{is_blank, tokens_of};
ghost use Rattle.paw_lex.specs.inner.Tokens.{AreBlanks, ends_token, tokens_from};

use crate::lines::Line;

/// A token of a line: the offset of its first byte in the source, and the offset after its last one.
#[derive(Clone, Copy, Drop, PartialEq, Eq, Debug)]
pub struct Token {
    pub from: usize,
    pub to: usize,
}

fn is_blank(byte: u8) -> bool
    ensures value { result ≡ is_blank byte }
{
    byte == b' ' || byte == b'\t'
}

// How many blanks stand first.
fn blanks(bytes: &[u8]) -> usize
    ensures value { result ≡ prefix_len is_blank bytes.now }
    ensures within { result ≤ length bytes.now }
{
    bytes.iter().take_while(|byte| is_blank(**byte)).count()
}

// How many bytes stand before the first blank or `;`.
fn token_len(bytes: &[u8]) -> usize
    ensures value { result ≡ position_or_len ends_token bytes.now }
    ensures within { result ≤ length bytes.now }
{
    bytes
        .iter()
        .take_while(|byte| !is_blank(**byte) && **byte != b';')
        .count()
}

// The first token of some bytes, with its offsets in them.
fn first_token(bytes: &[u8]) -> Option<Token>
    ensures tokens { MatchOption result (tokens_of bytes.now ≡ [])
        (λ token. tokens_of bytes.now
        ≡ slice_range bytes.now token.from token.to ∷ tokens_of (drop token.to bytes.now)) }
    ensures offsets { IfSome result (λ token.
        (token.from < token.to) × (token.to ≤ length bytes.now)) }
    ensures blanks { IfSome result (λ token. AreBlanks (take token.from bytes.now)) }
{
    let from = blanks(bytes);
    let len = token_len(&bytes[from..]);
    if len == 0 {
        return None;
    }
    Some(Token {
        from,
        to: from + len,
    })
}

/// The next token of a line from the offset `from` on, with only blanks in between, or `None` exactly where none is
/// left. `from` is the line's first offset, or the offset after the token before; what stands before it isn't looked
/// at. A line is cut into tokens at spaces and tabs, up to its first `;`.
pub fn next_token(source: &[u8], line: &Line, from: usize) -> Option<Token>
    requires span { LiesIn source.now line.now }
    requires within { (line.now.from ≤ from) × (from ≤ line.now.to) }
    ensures tokens { let left = tokens_from source.now line.now in
        MatchOption result (left from ≡ [])
        (λ token. left from ≡ slice_range source.now token.from token.to ∷ left token.to) }
    ensures offsets { IfSome result (λ token.
        (from ≤ token.from) × (token.from < token.to) × (token.to ≤ line.now.to)) }
    ensures blanks { IfSome result (λ token. AreBlanks (slice_range source.now from token.from)) }
{
    match first_token(&source[from..line.to]) {
        None => None,
        Some(token) => Some(Token {
            from: from + token.from,
            to: from + token.to,
        }),
    }
}
