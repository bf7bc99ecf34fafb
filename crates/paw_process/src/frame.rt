// Frames: where reading stands in a table.

ghost use Rattle.std.specs.Prelude.{◌≡◌, ◌+◌, ◌<◌, false, true, Some};
ghost use Rattle.paw_base.specs.declared.limits.TheConstants.{ENTRY_LIMIT};
ghost use Rattle.paw_process.specs.inner.AfterCondact.{frame_of};
ghost use Rattle.paw_process.specs.inner.Moves.{after_quit, after_key, after_found};
ghost use Rattle.paw_effects.specs.declared.act.Prompt.TheVariants as prompt;

use paw_base::limits::ENTRY_LIMIT;
use paw_effects::act::Prompt;
use paw_game::cursor::CondactCursor;
use paw_phrase::Found;
use paw_reading::frames::Frame;

/// The number just past the last entry that a table may have.
pub const PAST_ENTRIES: u16 = ENTRY_LIMIT as u16;

/// The frame at the start of a table.
pub fn start_of(table: u8) -> Frame
    ensures value { result ≡ record { table = table; entry = 0; at = 0; acted = false } }
{
    Frame {
        table,
        entry: 0,
        at: 0,
        acted: false,
    }
}

/// The frame of a cursor, with an action carried out or not.
pub fn frame_at(cursor: CondactCursor, acted: bool) -> Frame
    ensures value { result ≡ frame_of cursor acted }
{
    Frame {
        table: cursor.table,
        entry: cursor.entry,
        at: cursor.at,
        acted,
    }
}

/// The frame at the next condact of its entry.
pub fn past(f: Frame, acted: bool) -> Frame
    requires at { f.at < 255 }
    ensures value { result ≡ record { table = f.table; entry = f.entry; at = f.at + 1; acted = acted } }
{
    Frame {
        table: f.table,
        entry: f.entry,
        at: f.at + 1,
        acted,
    }
}

/// The frame at the next entry of its table.
pub fn next_entry(f: Frame) -> Frame
    requires entry { f.entry < ENTRY_LIMIT }
    ensures value { result ≡ record { table = f.table; entry = f.entry + 1; at = 0; acted = f.acted } }
{
    Frame {
        table: f.table,
        entry: f.entry + 1,
        at: 0,
        acted: f.acted,
    }
}

/// The frame past its table's last entry, with an action carried out: as DONE leaves the table.
pub fn past_table(f: Frame) -> Frame
    ensures value { result ≡ record { table = f.table; entry = ENTRY_LIMIT; at = 0; acted = true } }
{
    Frame {
        table: f.table,
        entry: PAST_ENTRIES,
        at: 0,
        acted: true,
    }
}

/// Where reading goes on after an answer at this prompt: for QUIT, at the next condact after yes, and past the table
/// after no; for a key, at the next condact, with an action carried out.
pub fn frame_after_answer(waiting: Option<Prompt>, f: Frame, yes: bool) -> Frame
    requires at { f.at < 255 }
    ensures quit { waiting ≡ Some prompt.Quit → result ≡ after_quit yes f }
    ensures key { waiting ≡ Some prompt.Key → result ≡ after_key f }
    ensures in_table { 0 < result.at → result.entry ≡ f.entry }
{
    match waiting {
        Some(Prompt::Quit) if yes => past(f, f.acted),
        Some(Prompt::Quit) => past_table(f),
        _ => past(f, true),
    }
}

/// Where reading goes on after PARSE: at the next entry after a sentence, otherwise at the next condact.
pub fn after_found(found: Found, f: Frame) -> Frame
    requires at { f.at < 255 }
    requires entry { f.entry < ENTRY_LIMIT }
    ensures value { result ≡ after_found found f }
    ensures in_table { 0 < result.at → result.entry ≡ f.entry }
{
    match found {
        Found::Sentence => next_entry(f),
        Found::Nothing | Found::Empty => past(f, f.acted),
    }
}
