// From a game to its canonical source.

ghost use Rattle.std.specs.Prelude.{◌≡◌, ◌++◌, IfOk, OnOk};
ghost use Rattle.std.specs.List.{AllByRecursion};
ghost use Rattle.paw_print.specs.Canonical.{canonical_lines, canonical_of, with_line_ends};
ghost use Rattle.paw_print.specs.inner.Known.{IsKnownTable};

use crate::entries::write_tables;
use crate::exits::write_exits;
use crate::objects::write_objects;
use crate::rows::Written;
use crate::texts::{write_object_texts, write_texts};
use crate::vocabulary::WordsByValue;
use paw_base::fault::NoRoom;
use paw_game::game::Game;
use paw_game::parts::GameParts;
use std::alloc::Global;

// Writes the lines of a canonical source.
fn write_game(parts: &GameParts, out: &mut Vec<u8>) -> Written
    requires known { AllByRecursion IsKnownTable parts.now.tables }
    ensures writes { OnOk result (out.new.items ≡ out.old.items ++ with_line_ends (canonical_lines parts.now)) }
{
    let vocabulary = WordsByValue::new(&parts.words);
    vocabulary.write_words(out)?;
    write_texts(b"/STX", &parts.system, out)?;
    write_texts(b"/MTX", &parts.messages, out)?;
    write_object_texts(&parts.objects, out)?;
    write_texts(b"/LTX", &parts.locations, out)?;
    write_exits(&vocabulary, &parts.exits, out)?;
    write_objects(&vocabulary, &parts.objects, out)?;
    write_tables(&vocabulary, &parts.tables, out)
}

/// The canonical source of a game: all sections, a line for each word, text line, exit, object, entry and condact. Two
/// calls with the same game give the same text.
///
/// # Errors
/// Only where there is no memory.
pub fn canonical(alloc: Global, game: &Game) -> Result<Vec<u8>, NoRoom>
    ensures value { IfOk result (λ text. text.items ≡ canonical_of game.now) }
{
    let mut out = Vec::new(alloc);
    write_game(game.parts(), &mut out)?;
    Ok(out)
}
