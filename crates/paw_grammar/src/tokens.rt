// The tokens of a line, taken from left to right.

ghost use Rattle.std.specs.Prelude.{◌≡◌, ◌∷◌, [], MatchOption, drop};
ghost use Rattle.paw_lex.specs.inner.Lines.{line_bytes, LiesIn};
ghost use Rattle.paw_lex.specs.Tokens.{tokens_of};
ghost use Rattle.paw_lex.specs.inner.Tokens.{tokens_from};
ghost use Rattle.paw_read_error.specs.inner.Gives.{Gives};
ghost use Rattle.paw_grammar.specs.Tokens.{token, end_of_line, is_named, at_is_next, begins_with_at};

use crate::refusal::LineError;
use paw_base::fault::SourceKind;
use paw_lex::{Line, next_token};
use paw_read_error::read_error::ReadError;
use std::marker::Model;

/// The tokens of a line that are left; contracts see their list.
#[derive(Drop)]
pub struct Tokens<'a> {
    source: &'a [u8],
    line: Line,
    // The offset where the line begins, or the one after the token that was taken last.
    at: usize,
}

impl<'a> Model for Tokens<'a> {
    ghost use Rattle.std.specs.Prelude.{◌≤◌};
    ghost use Rattle.paw_base.specs.Bytes.{Tokens as TokensOf};
    ghost use Rattle.paw_lex.specs.inner.Lines.{LiesIn};
    ghost use Rattle.paw_lex.specs.inner.Tokens.{tokens_from};

    ghost Value = { TokensOf };

    ghost view = { λ t. tokens_from t.source.now t.line t.at };

    ghost invariant = { λ t. record {
      span : LiesIn t.source.now t.line;
      begun : t.line.from ≤ t.at;
      inside : t.at ≤ t.line.to;
    } };
}

impl<'a> Tokens<'a> {
    /// All tokens of a line of the source.
    pub fn new(source: &'a [u8], line: &Line) -> Tokens<'a>
        requires span { LiesIn source.now line.now }
        ensures value { result ≡ tokens_of (line_bytes source.now line.now) }
    {
        Tokens {
            source,
            line: *line,
            at: line.from,
        }
    }

    /// Takes the next token, or answers `None` exactly where none is left.
    pub fn next(&mut self) -> Option<&'a [u8]>
        ensures value { MatchOption result ((self.old ≡ []) × (self.new ≡ [])) (λ t. self.old ≡ t.now ∷ self.new) }
    {
        match next_token(self.source, &self.line, self.at) {
            None => None,
            Some(token) => {
                self.at = token.to;
                Some(&self.source[token.from..token.to])
            }
        }
    }

    /// Whether the next token begins with `@`. It isn't taken.
    pub(crate) fn at_is_next(&self) -> bool
        ensures value { result ≡ at_is_next self.now }
    {
        match next_token(self.source, &self.line, self.at) {
            None => false,
            Some(token) => begins_with_at(&self.source[token.from..token.to]),
        }
    }

    /// Takes the next token.
    ///
    /// # Errors
    /// Missing exactly where none is left.
    pub fn token(&mut self) -> Result<&'a [u8], LineError>
        ensures gives { Gives (λ t. (t.now, self.new)) result (token self.old) }
    {
        match self.next() {
            None => Err(ReadError::Fault(SourceKind::Missing)),
            Some(token) => Ok(token),
        }
    }

    /// Ends the line.
    ///
    /// # Errors
    /// Extra exactly where a token is left.
    pub fn end_line(&mut self) -> Result<(), LineError>
        ensures gives { Gives (λ _. tt) result (end_of_line self.old) }
    {
        match self.next() {
            None => Ok(()),
            Some(_) => Err(ReadError::Fault(SourceKind::Extra)),
        }
    }
}

// Whether a token begins with `@`.
fn begins_with_at(token: &[u8]) -> bool
    ensures value { result ≡ begins_with_at token.now }
{
    token.first() == Some(&b'@')
}

/// A token without its first byte.
pub fn without_first(token: &[u8]) -> &[u8]
    ensures value { result.now ≡ drop 1 token.now }
{
    match token {
        [_, rest @ ..] => rest,
        [] => token,
    }
}

/// Whether a token is this name, in any case of letters.
pub fn is_named(token: &[u8], name: &[u8]) -> bool
    ensures value { result ≡ is_named token.now name.now }
{
    token.eq_ignore_ascii_case(name)
}
