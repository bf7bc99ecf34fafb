// The lines of a table.

ghost use Rattle.std.specs.Prelude.{◌<◌};
ghost use Rattle.paw_read_error.specs.inner.Gives.{Gives};
ghost use Rattle.paw_grammar.specs.Condacts.{more_condacts};
ghost use Rattle.paw_grammar.specs.GrammarRows.{entry_row, more_row};

use paw_base::fault::SourceKind;
use paw_base::limits::ENTRY_LIMIT;
use paw_game::parts::{Condacts, Entry, Table};
use paw_grammar::condacts::Scope;
use paw_grammar::refusal::LineError;
use paw_grammar::tokens::Tokens;
use paw_read_error::read_error::ReadError;
use std::alloc::Global;

/// Adds the entry of a line to a table.
///
/// # Errors
/// The first fault of the line: those of its tokens, and TooBig where it has more than 255 condacts or the table has
/// 4,000 entries.
#[tactic(auto, unfolding(paw_grammar::specs::GrammarRows::entry_row))]
pub(crate) fn entry_row(
    alloc: Global,
    scope: &Scope,
    table: &mut Table,
    tokens: &mut Tokens,
) -> Result<(), LineError>
    ensures gives { Gives (λ _. table.new) result (entry_row scope.now.bounds scope.now.words table.old tokens.old) }
{
    let verb = scope.words.entry_verb(tokens)?;
    let noun = scope.words.entry_noun(tokens)?;
    let mut rows = Vec::new(alloc);
    scope.more_condacts(tokens, &mut rows)?;
    if table.rows.len() >= ENTRY_LIMIT {
        return Err(ReadError::Fault(SourceKind::TooBig));
    }
    table.rows.push(Entry {
        verb,
        noun,
        condacts: Condacts { rows },
    })?;
    Ok(())
}

/// Adds the condacts of a line to the last entry of a table.
///
/// # Errors
/// Section where the table has no entry; otherwise the first fault of the line, TooBig among them where the entry would
/// have more than 255 condacts.
#[tactic(auto, unfolding(paw_grammar::specs::GrammarRows::more_row))]
pub(crate) fn more_row(
    scope: &Scope,
    table: &mut Table,
    tokens: &mut Tokens,
) -> Result<(), LineError>
    ensures gives { Gives (λ _. table.new) result (more_row scope.now.bounds scope.now.words table.old tokens.old) }
{
    if table.rows.is_empty() {
        return Err(ReadError::Fault(SourceKind::Section));
    }
    let last = table.rows.len() - 1;
    let entry = &mut table.rows[last];
    add_condacts(scope, &mut entry.condacts, tokens)
}

// Adds the condacts of a line to those of an entry.
fn add_condacts(
    scope: &Scope,
    condacts: &mut Condacts,
    tokens: &mut Tokens,
) -> Result<(), LineError>
    ensures gives { Gives (λ _. condacts.new) result
        (more_condacts scope.now.bounds scope.now.words condacts.old tokens.old) }
{
    scope.more_condacts(tokens, &mut condacts.rows)
}
