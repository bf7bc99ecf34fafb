// Places, by number or by name.

ghost use Rattle.std.specs.Prelude.{◌≡◌, ◌<◌, ◌≤◌, ◌+◌, ◌-◌, length};
ghost use Rattle.std.specs.List.{position};
ghost use Rattle.std.specs.Option.{option_map, option_or};
ghost use Rattle.paw_base.specs.declared.places.TheConstants.{NOT_CREATED_PLACE};
ghost use Rattle.paw_read_error.specs.inner.Gives.{Gives};
ghost use Rattle.paw_grammar.specs.Tokens.{is_named};
ghost use Rattle.paw_grammar.specs.Numbers.{number};
ghost use Rattle.paw_grammar.specs.inner.Numbers.{capped_value};
ghost use Rattle.paw_grammar.specs.Condacts.{first_place, any_place, place_up_to};

use crate::numbers::number;
use crate::refusal::LineError;
use crate::tokens::Tokens;
use crate::words::index_among;
use paw_base::fault::SourceKind;
use paw_base::places::NOT_CREATED_PLACE;
use paw_read_error::read_error::ReadError;

/// The names of the places 252 to 255.
static PLACE_NAMES: [&[u8]; 4] = [b"NOTCREATED", b"WORN", b"CARRIED", b"HERE"];

/// The names of the places 252 to 254, where an object may begin.
static FIRST_PLACE_NAMES: [&[u8]; 3] = [b"NOTCREATED", b"WORN", b"CARRIED"];

/// The place with the first of the names.
const FIRST_NAMED: u32 = NOT_CREATED_PLACE as u32;

// The number that a token is, or the place with the name that it is.
fn place_by(names: &[&[u8]], token: &[u8]) -> Option<u32>
    requires names { length names.now ≤ 4 }
    ensures value { let named = position (λ name. is_named token.now name.now) names.now in
        result ≡ capped_value (option_or (number token.now) (option_map (λ i. NOT_CREATED_PLACE + i) named)) }
{
    match number(token) {
        Some(number) => Some(number),
        None => {
            let name = index_among(names, token)?;
            Some(FIRST_NAMED + name as u32)
        }
    }
}

// Takes a place: a location, or one from 252 on that has one of these names, by number or by name.
fn named_place(tokens: &mut Tokens, names: &[&[u8]], locations: u16) -> Result<u8, LineError>
    requires locations { locations ≤ 256 }
    requires names { length names.now ≤ 4 }
    requires some { 0 < length names.now }
    ensures gives { Gives (λ place. (place, tokens.new)) result
        (place_up_to (NOT_CREATED_PLACE + length names.now - 1)
        (λ t. position (λ name. is_named t name.now) names.now) locations tokens.old) }
{
    let token = tokens.token()?;
    match place_by(names, token) {
        None => Err(ReadError::Fault(SourceKind::Number)),
        Some(place) => {
            if place < u32::from(locations)
                || FIRST_NAMED <= place && place < FIRST_NAMED + names.len() as u32
            {
                Ok(place as u8)
            } else {
                Err(ReadError::Fault(SourceKind::Range))
            }
        }
    }
}

/// Takes the place where an object begins: a location, or 252 to 254, which may be `NOTCREATED`, `WORN` or `CARRIED`.
///
/// # Errors
/// Missing, Number or Range, in this order, exactly where the line ends, the token is neither a number nor such a name,
/// or it is a number but not of such a place.
pub fn first_place(tokens: &mut Tokens, locations: u16) -> Result<u8, LineError>
    requires locations { locations ≤ 256 }
    ensures gives { Gives (λ place. (place, tokens.new)) result (first_place locations tokens.old) }
{
    named_place(tokens, &FIRST_PLACE_NAMES, locations)
}

/// Takes a place that is a parameter: as a first place, or 255, which may be written `HERE`.
///
/// # Errors
/// As `first_place`.
pub fn place(tokens: &mut Tokens, locations: u16) -> Result<u8, LineError>
    requires locations { locations ≤ 256 }
    ensures gives { Gives (λ place. (place, tokens.new)) result (any_place locations tokens.old) }
{
    named_place(tokens, &PLACE_NAMES, locations)
}
