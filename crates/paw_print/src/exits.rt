// The connections of a source.

ghost use Rattle.std.specs.Prelude.{◌≡◌, ◌++◌, ◌∷◌, [], OnOk, decimal};
ghost use Rattle.paw_print.specs.Lines.{tokens_spaced, verb_token};
ghost use Rattle.paw_print.specs.Canonical.{with_line_end, exits_lines, location_lines, with_line_ends};

use crate::rows::{Written, end_line, write_header, write_number};
use crate::texts::write_item;
use crate::vocabulary::WordsByValue;
use paw_game::parts::{Exit, Exits};

// Writes the line of an exit.
fn write_exit(vocabulary: &WordsByValue, exit: &Exit, out: &mut Vec<u8>) -> Written
    ensures writes { OnOk result
        (out.new.items ≡ out.old.items
        ++ with_line_end (tokens_spaced (verb_token vocabulary.now exit.now.verb ∷ decimal exit.now.to ∷ []))) }
{
    vocabulary.write_verb(exit.verb, out)?;
    write_number(exit.to as usize, out)?;
    end_line(out)
}

// Writes the exits of a location; nothing where it has none.
fn write_location(
    vocabulary: &WordsByValue,
    number: usize,
    exits: &[Exit],
    out: &mut Vec<u8>,
) -> Written
    ensures writes { OnOk result
        (out.new.items ≡ out.old.items ++ with_line_ends (location_lines vocabulary.now number exits.now)) }
{
    if exits.is_empty() {
        return Ok(());
    }
    write_item(number, out)?;
    for exit in exits {
        write_exit(vocabulary, exit, out)?;
    }
    Ok(())
}

/// Writes the section of the connections.
pub(crate) fn write_exits(vocabulary: &WordsByValue, exits: &[Exits], out: &mut Vec<u8>) -> Written
    ensures writes { OnOk result (out.new.items
        ≡ out.old.items ++ with_line_ends (exits_lines vocabulary.now exits.now)) }
{
    write_header(b"/CON", out)?;
    for (number, row) in exits.iter().enumerate() {
        write_location(vocabulary, number, &row.rows, out)?;
    }
    Ok(())
}
