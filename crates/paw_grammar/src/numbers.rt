// Numbers.

ghost use Rattle.std.specs.Prelude.{◌≡◌, ◌<◌, ◌≤◌, OnOk};
ghost use Rattle.paw_read_error.specs.inner.Gives.{Gives};
ghost use Rattle.paw_grammar.specs.Numbers.{number, number_within, number_below, row_number};
ghost use Rattle.paw_grammar.specs.inner.Numbers.{capped_value, capped_number};

use crate::refusal::LineError;
use crate::tokens::Tokens;
use paw_base::fault::SourceKind;
use paw_read_error::read_error::ReadError;

/// The number that a token of decimal digits is, or 4,294,967,295 where it is above that; None for any other token.
pub fn number(token: &[u8]) -> Option<u32>
    ensures value { result ≡ capped_value (number token.now) }
{
    if token.is_empty() {
        return None;
    }
    let mut number: u32 = 0;
    for byte in token {
        if !byte.is_ascii_digit() {
            return None;
        }
        number = number
            .saturating_mul(10)
            .saturating_add(u32::from(*byte - b'0'));
    }
    Some(number)
}

// Takes a number, or 4,294,967,295 for one that is above that.
fn next_number(tokens: &mut Tokens) -> Result<u32, LineError>
    ensures gives { Gives (λ n. (n, tokens.new)) result (capped_number tokens.old) }
{
    let token = tokens.token()?;
    match number(token) {
        None => Err(ReadError::Fault(SourceKind::Number)),
        Some(number) => Ok(number),
    }
}

/// Takes a number from `low` to `high`.
///
/// # Errors
/// Missing, Number or Range, in this order, exactly where the line ends, the token isn't a number, or it is another
/// number.
pub fn number_within(tokens: &mut Tokens, low: u8, high: u8) -> Result<u8, LineError>
    ensures gives { Gives (λ n. (n, tokens.new)) result (number_within low high tokens.old) }
{
    let number = next_number(tokens)?;
    if u32::from(low) <= number && number <= u32::from(high) {
        Ok(number as u8)
    } else {
        Err(ReadError::Fault(SourceKind::Range))
    }
}

/// Takes a number below a limit.
///
/// # Errors
/// As `number_within`.
pub fn number_below(tokens: &mut Tokens, limit: u32) -> Result<u32, LineError>
    ensures gives { Gives (λ n. (n, tokens.new)) result (number_below limit tokens.old) }
{
    let number = next_number(tokens)?;
    if number < limit {
        Ok(number)
    } else {
        Err(ReadError::Fault(SourceKind::Range))
    }
}

/// Takes a number below a limit that a byte holds.
///
/// # Errors
/// As `number_within`.
pub fn byte_below(tokens: &mut Tokens, limit: u16) -> Result<u8, LineError>
    requires limit { limit ≤ 256 }
    ensures gives { Gives (λ n. (n, tokens.new)) result (number_below limit tokens.old) }
{
    let number = number_below(tokens, u32::from(limit))?;
    Ok(number as u8)
}

/// Takes the number of a row, with `number` rows before it, where at most `count` rows may come.
///
/// # Errors
/// As `number_within`; a number other than the row's own is Range, and so is any where all rows were there before.
pub fn row_number(tokens: &mut Tokens, number: u16, count: u16) -> Result<(), LineError>
    ensures value { Gives (λ _. (number, tokens.new)) result (row_number number count tokens.old) }
    ensures room { OnOk result (number < count) }
{
    let found = next_number(tokens)?;
    if found == u32::from(number) && number < count {
        Ok(())
    } else {
        Err(ReadError::Fault(SourceKind::Range))
    }
}
