// The texts of a section: items and text lines.

ghost use Rattle.std.specs.Prelude.{◌≡◌, ◌<◌, ◌≤◌, ◌+◌, length, nat_le, suc, if◌then◌else◌};
ghost use Rattle.paw_base.specs.declared.limits.TheConstants.{TEXT_LIMIT};
ghost use Rattle.paw_read_error.specs.inner.Gives.{Gives};
ghost use Rattle.paw_grammar.specs.Tokens.{at_most};
ghost use Rattle.paw_grammar.specs.GrammarTexts.{text_item, text_line, with_line};

use paw_base::fault::SourceKind;
use paw_base::limits::TEXT_LIMIT;
use paw_game::parts::Text;
use paw_grammar::refusal::LineError;
use paw_read_error::read_error::ReadError;
use std::alloc::Global;

/// Begins a text after the others of its section, which may have `limit` texts.
///
/// # Errors
/// Range where this isn't the number of the next text, and otherwise TooBig where the section is full.
pub(crate) fn text_item(
    alloc: Global,
    texts: &mut Vec<Text>,
    limit: usize,
    number: u32,
) -> Result<(), LineError>
    ensures meaning { Gives (λ _. texts.new.items) result (text_item limit number texts.old.items) }
    ensures few { length texts.old.items ≤ limit → length texts.new.items ≤ limit }
{
    if number as usize != texts.len() {
        return Err(ReadError::Fault(SourceKind::Range));
    }
    if texts.len() >= limit {
        return Err(ReadError::Fault(SourceKind::TooBig));
    }
    texts.push(Text {
        rows: Vec::new(alloc),
    })?;
    Ok(())
}

/// Adds a line to the last text of a section; `begun` says whether the text has a line.
///
/// # Errors
/// TooBig where the text would pass 4,095 bytes.
pub(crate) fn text_line(texts: &mut Vec<Text>, begun: bool, line: &[u8]) -> Result<(), LineError>
    requires some { 0 < length texts.old.items }
    ensures meaning { Gives (λ _. texts.new.items) result (text_line begun line.now texts.old.items) }
    ensures same_count { length texts.new.items ≡ length texts.old.items }
{
    let last = texts.len() - 1;
    let text = &mut texts[last];
    join(text, begun, line)
}

// Adds a line to a text.
fn join(text: &mut Text, begun: bool, line: &[u8]) -> Result<(), LineError>
    ensures gives { Gives (λ _. text.new) result (at_most TEXT_LIMIT (with_line begun text.old line.now)) }
{
    if !has_room(text.rows.len(), begun, line.len()) {
        return Err(ReadError::Fault(SourceKind::TooBig));
    }
    if begun {
        text.rows.push(b'\n')?;
    }
    text.rows.extend_from_slice(line)?;
    Ok(())
}

// Whether a line of this length fits after a text of this length.
fn has_room(text: usize, begun: bool, line: usize) -> bool
    ensures value { result ≡ nat_le (text + (if begun then suc line else line)) TEXT_LIMIT }
{
    // The lengths and the newline are compared with the limit apart: their sum may overflow.
    let room = TEXT_LIMIT.saturating_sub(text);
    text <= TEXT_LIMIT && line <= room && (!begun || line < room)
}
