// The parts of a game that is played, read from the bytes of a state.

ghost use Rattle.std.specs.Prelude.{◌+◌, ◌-◌, ◌*◌, slice_index, ◌≡◌, ◌≢◌, ◌<◌, ◌≤◌, ◌↔◌, Some, None};
ghost use Rattle.std.specs.Prelude.{length, map, replicate, slice_set, IsOk, IfOk, IfErr};
ghost use Rattle.paw_base.specs.declared.limits.TheConstants.{POSITION_COUNT};
ghost use Rattle.paw_process.specs.inner.Kept.{machine_kept};
ghost use Rattle.paw_process.specs.inner.Kept.{frames_fault};
ghost use Rattle.paw_process.specs.inner.Kept.{machine_restored, waiting_at, WaitsAtPrompt};
ghost use Rattle.paw_world.specs.World.{kept_position};
ghost use Rattle.paw_state.specs.declared.fields.TheConstants.{PIECE, STATE_ROOM};
ghost use Rattle.paw_state.specs.Fit.{Fit, Unfit};
ghost use Rattle.paw_state.specs.inner.Fields.{parts_fault};
ghost use Rattle.paw_state.specs.inner.Parts.{SetsSaved, position_in, world_in, frame_in, frames_in};
ghost use Rattle.paw_state.specs.inner.State.{state_in};
ghost use Rattle.paw_state.specs.inner.Fit.{state_read, IsRead};

use crate::StateFault;
use crate::checks::{check, prompt_of};
use crate::fields::{Fields, FrameField, STATE_ROOM};
use crate::position_field::PositionField;
use paw_base::limits::POSITION_COUNT;
use paw_effects::act::Prompt;
use paw_effects::opening::opening_world;
use paw_game::tables::Tables;
use paw_phrase::Pending;
use paw_process::{Frames, MOST_FRAMES, Machine};
use paw_reading::frames::Frame;
use paw_world::world::World;

/// What is read back from a state's bytes: the parts with which a player goes on, the number of lines taken (at most
/// 1,000,000,000), and the length of the last piece.
#[derive(Drop)]
pub struct Restored {
    pub world: World,
    pub machine: Machine,
    pub pending: Pending,
    pub prompt: Prompt,
    pub events: u64,
    pub piece: u16,
}

// ---- reading ----

/// What the bytes of a state hold: the parts with which a player of this game goes on. The bytes after the state aren't
/// read. Takes no memory.
///
/// # Errors
/// The offset of the first field that breaks its rule, exactly where the bytes are no state of this game.
pub fn read_state<T: Tables>(tables: &T, bytes: &[u8; STATE_ROOM]) -> Result<Restored, StateFault>
    ensures read { IfOk result (IsRead (T.game tables.now) bytes.now) }
    ensures fit { IsOk result ↔ Fit (T.game tables.now) bytes.now }
    ensures fault { IfErr result (λ e. Unfit (T.game tables.now) bytes.now e.at) }
    ensures piece { IfOk result (λ r. slice_index bytes.now PIECE + 256 * slice_index bytes.now (PIECE + 1) ≡ r.piece) }
{
    let fields = Fields::at(bytes);
    check(tables, &fields)?;
    Ok(restore_fields(tables, &fields))
}

// Makes this the saved position, if it is there.
fn put_saved(world: &mut World, position: &PositionField)
    requires few { length world.old.places ≤ 255 }
    ensures none { position.now.there ≡ 0 → world.new ≡ world.old }
    ensures saved { position.now.there ≢ 0 → SetsSaved position.now world.old world.new }
{
    if position.there == 0 {
        return;
    }
    let objects = world.objects() as usize;
    world.set_position(&position.flags, &position.places[..objects]);
    world.ramsave();
}

// Makes this the kept position of this number, which had none.
fn put_kept(world: &mut World, n: u8, position: &PositionField)
    requires few { n < POSITION_COUNT }
    requires none { kept_position world.old n ≡ None }
    ensures value { world.new ≡ record world.old {
      kept = slice_set world.old.kept n (position_in (length world.old.places) position.now);
    } }
{
    if position.there == 0 {
        return;
    }
    let objects = world.objects() as usize;
    world.set_kept(n, &position.flags, &position.places[..objects]);
}

// Makes these the kept positions, none of which was kept before.
fn put_all_kept(world: &mut World, kept: &[PositionField; POSITION_COUNT])
    requires none { world.old.kept ≡ replicate POSITION_COUNT None }
    ensures value { world.new ≡ record world.old { kept = map (position_in (length world.old.places)) kept.now } }
{
    for n in 0..POSITION_COUNT {
        put_kept(world, n as u8, &kept[n]);
    }
}

// The world of a game that these fields describe.
fn world_in<T: Tables>(tables: &T, fields: &Fields) -> World
    ensures value { result ≡ world_in (T.game tables.now) fields.now }
{
    let mut world = opening_world(tables, fields.seed);
    let objects = world.objects() as usize;
    put_saved(&mut world, &fields.saved);
    put_all_kept(&mut world, &fields.kept);
    world.set_position(&fields.flags, &fields.places[..objects]);
    world.skip(fields.draws);
    world
}

// The frames of the open tables that these fields describe.
fn frames_in(fields: &Fields) -> Frames
    ensures value { result ≡ frames_in fields.now }
{
    Frames {
        count: fields.count,
        rows: frames_of_fields(&fields.rows),
        turning: if fields.looping == 0 {
            None
        } else {
            Some(fields.turning)
        },
    }
}

// The frames that these fields say.
fn frames_of_fields(rows: &[FrameField; MOST_FRAMES]) -> [Frame; MOST_FRAMES]
    ensures value { result ≡ map frame_in rows.now }
{
    let mut frames = [rows[0].frame(); MOST_FRAMES];
    for i in 0..MOST_FRAMES {
        frames[i] = rows[i].frame();
    }
    frames
}

// The parts of a game that these fields describe, which follow their rules.
fn restore_fields<T: Tables>(tables: &T, fields: &Fields) -> Restored
    requires sound { parts_fault (T.game tables.now) fields.now ≡ None }
    ensures state { state_read result ≡ state_in (T.game tables.now) fields.now }
    ensures machine { result.machine ≡ machine_restored (machine_kept result.machine) (waiting_at result.prompt) }
    ensures stands { WaitsAtPrompt result.prompt result.machine }
{
    let prompt = prompt_of(fields.prompt);
    let pending = fields.pending as usize;
    Restored {
        world: world_in(tables, fields),
        machine: machine_in(tables, fields, prompt),
        pending: Pending::of(&fields.line[..pending], fields.earlier),
        prompt,
        events: fields.events,
        piece: fields.piece,
    }
}

// The machine that waits at this prompt in the tables that these fields describe.
fn machine_in<T: Tables>(tables: &T, fields: &Fields, prompt: Prompt) -> Machine
    requires sound { frames_fault (T.game tables.now) prompt (frames_in fields.now) ≡ None }
    ensures value { result ≡ machine_restored (machine_kept result) (waiting_at prompt) }
    ensures kept { machine_kept result ≡ frames_in fields.now }
    ensures stands { WaitsAtPrompt prompt result }
{
    match Machine::restore(tables, &frames_in(fields), prompt) {
        Ok(machine) => machine,
        Err(_) => unreachable!(), // The frames have no fault.
    }
}
