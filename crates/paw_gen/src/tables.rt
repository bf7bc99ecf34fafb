// The tables of the game.

ghost use Rattle.std.specs.Prelude.{◌≡◌, ◌∷◌, [], ◌++◌, map, IfOk, OnOk};
ghost use Rattle.paw_game.specs.inner.Parts.{condact_of};
ghost use Rattle.paw_gen.specs.Trial.{answer_entries, listing};

use crate::vocabulary::{ALL_WORD, DROP_WORD, GET_WORD, INVEN_WORD, LOOK_WORD};
use paw_base::codes::{AUTOD, AUTOG, DESC, DOALL, DONE, INVEN, LISTOBJ};
use paw_base::fault::NoRoom;
use paw_base::places::{CARRIED_PLACE, HERE_PLACE};
use paw_base::words::NO_WORD;
use paw_game::parts::{Entry, Table};
use std::alloc::Global;

// Adds an entry with these condacts, each a code and its two parameters.
fn add_entry(
    alloc: Global,
    rows: &mut Vec<Entry>,
    verb: u8,
    noun: u8,
    codes: &[(u8, u8, u8)],
) -> Result<(), NoRoom>
    ensures value { OnOk result (rows.new.items ≡ rows.old.items
        ++ record { verb = verb; noun = noun; condacts = map condact_of codes.now } ∷ []) }
{
    rows.push(Entry::from_codes(alloc, verb, noun, codes)?)?;
    Ok(())
}

// The table that answers lines.
fn answers(alloc: Global) -> Result<Table, NoRoom>
    ensures value { IfOk result (λ table. table ≡ answer_entries) }
{
    let mut rows = Vec::new(alloc);
    add_entry(
        alloc,
        &mut rows,
        GET_WORD,
        ALL_WORD,
        &[(DOALL, HERE_PLACE, 0)],
    )?;
    add_entry(
        alloc,
        &mut rows,
        GET_WORD,
        NO_WORD,
        &[(AUTOG, 0, 0), (DONE, 0, 0)],
    )?;
    add_entry(
        alloc,
        &mut rows,
        DROP_WORD,
        ALL_WORD,
        &[(DOALL, CARRIED_PLACE, 0)],
    )?;
    add_entry(
        alloc,
        &mut rows,
        DROP_WORD,
        NO_WORD,
        &[(AUTOD, 0, 0), (DONE, 0, 0)],
    )?;
    add_entry(alloc, &mut rows, LOOK_WORD, NO_WORD, &[(DESC, 0, 0)])?;
    add_entry(
        alloc,
        &mut rows,
        INVEN_WORD,
        NO_WORD,
        &[(INVEN, 0, 0), (DONE, 0, 0)],
    )?;
    Ok(Table { rows })
}

// The table that lists the objects at a location after its text.
fn listing(alloc: Global) -> Result<Table, NoRoom>
    ensures value { IfOk result (λ table. table ≡ listing) }
{
    let lists = Entry::from_codes(alloc, NO_WORD, NO_WORD, &[(LISTOBJ, 0, 0)])?;
    let entries = vec![in alloc; lists]?;
    Ok(Table { rows: entries })
}

/// The three tables; the last has no entries.
pub(crate) fn tables(alloc: Global) -> Result<Vec<Table>, NoRoom>
    ensures value { IfOk result (λ tables. tables.items ≡ answer_entries ∷ listing ∷ [] ∷ []) }
{
    Ok(vec![in alloc; answers(alloc)?, listing(alloc)?, Table::new(alloc)]?)
}
