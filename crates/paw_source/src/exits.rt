// The exits of locations.

ghost use Rattle.std.specs.Prelude.{◌≡◌, ◌-◌, ◌++◌, ◌==◌, ◌≤◌, [], length, replicate, OnOk};
ghost use Rattle.std.specs.List.{list_any};
ghost use Rattle.paw_read_error.specs.inner.Gives.{Gives};
ghost use Rattle.paw_grammar.specs.GrammarRows.{exit_row};

use paw_base::fault::SourceKind;
use paw_game::parts::{Exit, Exits};
use paw_grammar::numbers::byte_below;
use paw_grammar::refusal::LineError;
use paw_grammar::tokens::Tokens;
use paw_grammar::vocabulary::Vocabulary;
use paw_read_error::read_error::ReadError;
use std::alloc::{AllocError, Global};

/// Adds locations without exits, up to this number of locations.
#[tactic(auto, using(crate::proofs::Made::one_filled, crate::proofs::Made::all_filled))]
pub(crate) fn fill(alloc: Global, exits: &mut Vec<Exits>, count: usize) -> Result<(), AllocError>
    ensures value { OnOk result (exits.new.items ≡ exits.old.items ++ replicate (count - length exits.old.items) []) }
{
    while exits.len() < count {
        exits.push(Exits {
            rows: Vec::new(alloc),
        })?;
    }
    Ok(())
}

fn has_exit(exits: &[Exit], verb: u8) -> bool
    ensures value { result ≡ list_any (λ x. x.verb == verb) exits.now }
{
    exits.iter().any(|exit| exit.verb == verb)
}

/// Adds the exit of a row of `/CON` to those of its location.
///
/// # Errors
/// The first fault of the row: those of its two tokens, Extra, and Duplicate where the location has an exit for this
/// verb.
#[tactic(auto, unfolding(paw_grammar::specs::GrammarRows::exit_row))]
pub(crate) fn exit_row(
    words: &Vocabulary,
    locations: u16,
    exits: &mut Exits,
    tokens: &mut Tokens,
) -> Result<(), LineError>
    requires locations { locations ≤ 256 }
    ensures gives { Gives (λ _. exits.new) result (exit_row words.now locations exits.old tokens.old) }
{
    let verb = words.verb_word(tokens)?;
    let to = byte_below(tokens, locations)?;
    tokens.end_line()?;
    if has_exit(&exits.rows, verb) {
        return Err(ReadError::Fault(SourceKind::Duplicate));
    }
    exits.rows.push(Exit { verb, to })?;
    Ok(())
}
