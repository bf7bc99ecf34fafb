// What is kept of a machine that waits.

ghost use Rattle.std.specs.Prelude.{◌≡◌, ◌+◌, ◌<◌, ◌-◌, ◌==◌, length, slice_get};
ghost use Rattle.std.specs.Option.{option_map};
ghost use Rattle.paw_game.specs.Valid.{is_place};
ghost use Rattle.paw_process.specs.Kept.{waiting_code, may_open, has_code, parameter_of};
ghost use Rattle.paw_process.specs.inner.Kept.{is_unused};
ghost use Rattle.paw_process.specs.inner.Kept.{is_that_table};
ghost use Rattle.paw_process.specs.inner.Kept.{frame_stands, first_frame_fault, loop_stands};
ghost use Rattle.paw_process.specs.Kept.{count_fits};
ghost use Rattle.paw_process.specs.inner.Kept.{loop_fault, frames_fault};
ghost use Rattle.paw_process.specs.inner.Kept.{waiting_at};

use crate::machine::MOST_FRAMES;
use paw_base::codes::{ANYKEY, DOALL, END, PROCESS, QUIT};
use paw_base::parts::Condact;
use paw_base::places::{CARRIED_PLACE, NOT_CREATED_PLACE};
use paw_base::tables::FRAME_TABLE;
use paw_effects::act::Prompt;
use paw_game::tables::Tables;
use paw_reading::frames::{Frame, OpenLoop};

/// The number of tables that may be open at once, as a byte; it is also the depth that stands for the open loop.
const MOST_OPEN: u8 = MOST_FRAMES as u8;

/// Frames and loop of a machine that waits, as they are kept: the number of open tables, their frames, the outermost
/// first, with unused frames after them, and the open loop.
#[derive(Clone, Copy, Drop, PartialEq, Eq, Debug)]
pub struct Frames {
    pub count: u8,
    pub rows: [Frame; MOST_FRAMES],
    pub turning: Option<OpenLoop>,
}

/// The least depth at which kept frames break a rule: that of a frame, counted from 0, or 11 for the open loop. A wrong
/// number of frames is a fault at depth 0.
#[derive(Clone, Copy, Drop, PartialEq, Eq, Debug)]
pub struct FrameFault {
    pub depth: u8,
}

/// The condact at which a machine waits for a prompt inside tables; None for the other prompts.
pub fn waiting_code(prompt: Prompt) -> Option<u8>
    ensures value { result ≡ waiting_code prompt }
{
    match prompt {
        Prompt::Quit => Some(QUIT),
        Prompt::Again => Some(END),
        Prompt::Key => Some(ANYKEY),
        Prompt::Main | Prompt::Over => None,
    }
}

/// The prompt, if it is one inside tables.
pub(crate) fn waiting_at(prompt: Prompt) -> Option<Prompt>
    ensures value { result ≡ waiting_at prompt }
{
    match prompt {
        Prompt::Quit | Prompt::Again | Prompt::Key => Some(prompt),
        Prompt::Main | Prompt::Over => None,
    }
}

/// Whether this table may be open: the outermost is 0, 1 or 2, and any other is the one that is called.
pub fn may_open(caller: Option<u8>, table: u8) -> bool
    ensures value { result ≡ may_open caller table }
{
    match caller {
        None => table <= FRAME_TABLE,
        Some(called) => table == called,
    }
}

/// Whether a condact is there and has this code.
pub fn has_code(code: u8, condact: Option<Condact>) -> bool
    ensures value { result ≡ has_code code condact }
{
    match condact {
        None => false,
        Some(c) => c.code == code,
    }
}

/// A condact's first parameter.
pub fn parameter_of(condact: Option<Condact>) -> u8
    ensures value { result ≡ parameter_of condact }
{
    match condact {
        None => 0,
        Some(c) => c.a,
    }
}

// Whether a frame is unused.
fn is_unused(f: &Frame) -> bool
    ensures value { result ≡ is_unused f.now }
{
    f.table == 0 && f.entry == 0 && f.at == 0 && !f.acted
}

// Whether a frame follows its rules, where this many frames are used from it on: the last of these waits at this
// condact.
fn frame_stands<T: Tables>(tables: &T, code: u8, caller: Option<u8>, used: u8, f: &Frame) -> bool
    ensures value { result ≡ frame_stands (T.game tables.now) code caller used f.now }
{
    if used == 0 {
        return is_unused(f);
    }
    let wanted = if used == 1 { code } else { PROCESS };
    may_open(caller, f.table) && has_code(wanted, tables.condact(f.table, f.entry, f.at))
}

// The depth of the first frame that breaks a rule, counted from `depth` on.
fn first_frame_fault<T: Tables>(
    tables: &T,
    code: u8,
    caller: Option<u8>,
    used: u8,
    depth: u8,
    rows: &[Frame],
) -> Option<u8>
    requires depth { depth + length rows.now < 256 }
    ensures value { result ≡ first_frame_fault (T.game tables.now) code caller used depth rows.now }
{
    match rows.split_first() {
        None => None,
        Some((f, rest)) => {
            if !frame_stands(tables, code, caller, used, f) {
                return Some(depth);
            }
            let called = parameter_of(tables.condact(f.table, f.entry, f.at));
            let left = used.saturating_sub(1);
            first_frame_fault(tables, code, Some(called), left, depth + 1, rest)
        }
    }
}

/// Whether an object may stand at this place.
pub fn is_place(locations: u16, place: u8) -> bool
    ensures value { result ≡ is_place locations place }
{
    u16::from(place) < locations || (NOT_CREATED_PLACE <= place && place <= CARRIED_PLACE)
}

// Whether the frame of this level belongs to this table.
fn is_table(rows: &[Frame], level: u8, table: u8) -> bool
    ensures value { result ≡ is_that_table (option_map (λ f. f.table) (slice_get rows.now level)) table }
{
    match rows.get(level as usize) {
        None => false,
        Some(f) => table == f.table,
    }
}

// Whether an open loop follows its rules.
fn loop_stands<T: Tables>(tables: &T, kept: &Frames, l: OpenLoop) -> bool
    ensures value { result ≡ loop_stands (T.game tables.now) kept.now l }
{
    let counts = tables.counts();
    l.level < kept.count
        && is_table(&kept.rows, l.level, l.table)
        && has_code(DOALL, tables.condact(l.table, l.entry, l.at))
        && is_place(counts.locations, l.place)
        && u16::from(l.last) < counts.objects
}

// The depth of an open loop that breaks a rule: 11.
fn loop_fault<T: Tables>(tables: &T, kept: &Frames) -> Option<u8>
    ensures value { result ≡ loop_fault (T.game tables.now) kept.now kept.now.turning }
{
    match kept.turning {
        Some(l) if !loop_stands(tables, kept, l) => Some(MOST_OPEN),
        _ => None,
    }
}

/// Whether this number of tables may be open where a machine waits at this condact, or at none.
pub fn count_fits(code: Option<u8>, count: u8) -> bool
    ensures value { result ≡ count_fits code count }
{
    match code {
        None => count == 0,
        Some(_) => 0 < count && count <= MOST_OPEN,
    }
}

/// The least depth at which kept frames break a rule, where the machine waits at this prompt.
pub(crate) fn frames_fault<T: Tables>(tables: &T, prompt: Prompt, kept: &Frames) -> Option<u8>
    ensures value { result ≡ frames_fault (T.game tables.now) prompt kept.now }
{
    let code = waiting_code(prompt);
    if !count_fits(code, kept.count) {
        return Some(0);
    }
    match first_frame_fault(tables, code.unwrap_or(0), None, kept.count, 0, &kept.rows) {
        Some(depth) => Some(depth),
        None => loop_fault(tables, kept),
    }
}
