// Objects: their texts and their rows.

ghost use Rattle.std.specs.Prelude.{◌≡◌, IfOk};
ghost use Rattle.paw_grammar.specs.GrammarState.{objects_of};

use paw_base::parts::ObjectFacts;
use paw_game::parts::{ObjectRow, Text};
use std::alloc::{AllocError, Global};

/// Each text with the facts of its row.
pub(crate) fn objects_of(
    alloc: Global,
    texts: Vec<Text>,
    facts: &[ObjectFacts],
) -> Result<Vec<ObjectRow>, AllocError>
    ensures value { IfOk result (λ objects. objects.items ≡ objects_of texts.items facts.now) }
{
    let mut objects = Vec::with_capacity(alloc, texts.len())?;
    let mut rest = facts;
    for text in texts {
        match rest.split_first() {
            None => return Ok(objects),
            Some((facts, after)) => {
                objects.push(ObjectRow {
                    text,
                    facts: *facts,
                })?;
                rest = after;
            }
        }
    }
    Ok(objects)
}
