// Writing the state of a game that is played: each part goes to where it stands, and is laid out once.

ghost use Rattle.std.specs.Prelude.{◌+◌, ◌-◌, ◌*◌, slice_index, ◌≡◌, ◌<◌, ◌≤◌, ◌^◌, ◌++◌, ◌∷◌, [], Some};
ghost use Rattle.std.specs.Prelude.{length, map, flat_map, All, is_some, if◌then◌else◌};
ghost use Rattle.std.specs.Int.{w64, to_le_bytes};
ghost use Rattle.paw_base.specs.declared.layout.TheConstants.{STATE_LENGTH};
ghost use Rattle.paw_base.specs.declared.limits.TheConstants.{POSITION_COUNT, OBJECT_LIMIT, LINE_LIMIT};
ghost use Rattle.paw_game.specs.Image.{two_bytes};
ghost use Rattle.paw_world.specs.World.{kept_position, IsWorld};
ghost use Rattle.paw_state.specs.declared.fields.TheConstants.{PIECE, STATE_ROOM, SEED, PROMPT, FRAMES, FRAME_LENGTH, LOOPING};
ghost use Rattle.paw_state.specs.declared.fields.TheConstants.{LOOP_LEVEL, EARLIER, KEPT, POSITION_LENGTH};
ghost use Rattle.paw_state.specs.State.{AreBytes, HoldsBytes, FitsFields};
ghost use Rattle.paw_state.specs.State.{zeros, filled_with_zeros, position_field_of, prompt_code};
ghost use Rattle.paw_state.specs.State.{state_bytes};
ghost use Rattle.paw_state.specs.inner.Fields.{loop_shape, position_shape};
ghost use Rattle.paw_state.specs.inner.State.{state_of, loop_or_zeros, frame_bytes};
ghost use Rattle.paw_state.specs.inner.Writer.{WritesField};

use crate::fields::{POSITION_LENGTH, STATE_ROOM};
use crate::writer::Writer;
use paw_base::limits::{FLAG_COUNT, LINE_LIMIT, OBJECT_LIMIT};
use paw_effects::act::Prompt;
use paw_phrase::Pending;
use paw_process::{Frames, MOST_FRAMES, Machine};
use paw_reading::frames::{Frame, OpenLoop};
use paw_world::world::World;

/// The state of a game that waits at a prompt, or is over, with these parts: the number of lines that were taken, and
/// the length of the last piece. The bytes after the state are 0. Takes no memory.
pub fn write_state(
    world: &World,
    machine: &Machine,
    pending: &Pending,
    prompt: Prompt,
    events: u64,
    piece: u16,
) -> [u8; STATE_ROOM]
    ensures value { result ≡
        state_bytes (state_of world.now machine.now pending.now prompt events piece)
        ++ zeros (STATE_ROOM - STATE_LENGTH) }
    ensures fits { FitsFields (state_of world.now machine.now pending.now prompt events piece) }
    ensures length { length (state_bytes (state_of world.now machine.now pending.now prompt events piece))
        ≡ STATE_LENGTH }
    ensures piece { slice_index result PIECE + 256 * slice_index result (PIECE + 1) ≡ piece }
{
    // The clause of this call says that a world has at most 255 objects. The compiler leaves the call out.
    let _objects = world.objects();
    let mut writer = Writer::new();
    put_world(&mut writer, world);
    put_numbers(&mut writer, world, events);
    put_tables(&mut writer, &machine.frames(), prompt);
    put_pending(&mut writer, pending, piece);
    put_kept(&mut writer, world);
    writer.finish()
}

// Writes these bytes, and zeros after them up to this length.
fn put_filled(writer: &mut Writer, bytes: &[u8], long: usize)
    requires few { length bytes.now ≤ long }
    requires room { length writer.old + long ≤ STATE_ROOM }
    ensures writes { WritesField (filled_with_zeros long bytes.now) long writer.old writer.new }
    ensures bytes { AreBytes bytes.now }
{
    writer.put(bytes);
    writer.skip(long - bytes.len());
}

// ---- the world ----

// Writes flags and places, now and in the saved position.
fn put_world(writer: &mut Writer, world: &World)
    requires few { IsWorld world.now }
    requires room { length writer.old + SEED ≤ STATE_ROOM }
    ensures writes { WritesField
        (world.now.flags ++ (filled_with_zeros OBJECT_LIMIT world.now.places
        ++ position_shape.bytes (position_field_of world.now.saved)))
        SEED writer.old writer.new }
    ensures bytes { AreBytes world.now.flags × (AreBytes world.now.places × HoldsBytes world.now.saved) }
{
    put_filled(writer, world.flags(), FLAG_COUNT);
    put_filled(writer, world.places(), OBJECT_LIMIT);
    put_saved(writer, world);
}

// Writes the saved position, or zeros where there is none.
fn put_saved(writer: &mut Writer, world: &World)
    requires few { IsWorld world.now }
    requires room { length writer.old + POSITION_LENGTH ≤ STATE_ROOM }
    ensures writes { WritesField (position_shape.bytes (position_field_of world.now.saved)) POSITION_LENGTH
        writer.old writer.new }
    ensures bytes { HoldsBytes world.now.saved }
{
    match world.saved_position() {
        None => writer.skip(POSITION_LENGTH),
        Some((flags, places)) => put_position(writer, flags, places),
    }
}

// Writes the kept positions.
fn put_kept(writer: &mut Writer, world: &World)
    requires few { IsWorld world.now }
    requires room { length writer.old + (STATE_LENGTH - KEPT) ≤ STATE_ROOM }
    ensures writes { WritesField (flat_map position_shape.bytes (map position_field_of world.now.kept))
        (STATE_LENGTH - KEPT) writer.old writer.new }
    ensures bytes { All HoldsBytes world.now.kept }
{
    put_kept_one(writer, world, 0);
    put_kept_one(writer, world, 1);
    put_kept_one(writer, world, 2);
    put_kept_one(writer, world, 3);
}

// Writes the kept position of this number, or zeros where it wasn't kept.
fn put_kept_one(writer: &mut Writer, world: &World, n: u8)
    requires few { IsWorld world.now }
    requires known { n < POSITION_COUNT }
    requires room { length writer.old + POSITION_LENGTH ≤ STATE_ROOM }
    ensures writes { WritesField (position_shape.bytes (position_field_of (kept_position world.now n))) POSITION_LENGTH
        writer.old writer.new }
    ensures bytes { HoldsBytes (kept_position world.now n) }
{
    match world.kept_position(n) {
        None => writer.skip(POSITION_LENGTH),
        Some((flags, places)) => put_position(writer, flags, places),
    }
}

// Writes a position that is there.
fn put_position(writer: &mut Writer, flags: &[u8; FLAG_COUNT], places: &[u8])
    requires few { length places.now ≤ OBJECT_LIMIT }
    requires room { length writer.old + POSITION_LENGTH ≤ STATE_ROOM }
    ensures writes { WritesField
        (position_shape.bytes (position_field_of (Some (record { flags = flags.now; places = places.now }))))
        POSITION_LENGTH writer.old writer.new }
    ensures bytes { HoldsBytes (Some (record { flags = flags.now; places = places.now })) }
{
    writer.put(&[1]);
    put_filled(writer, flags, FLAG_COUNT);
    put_filled(writer, places, OBJECT_LIMIT);
}

// ---- numbers, tables, what is pending ----

// Writes the seed, the draws and the lines.
fn put_numbers(writer: &mut Writer, world: &World, events: u64)
    requires room { length writer.old + (PROMPT - SEED) ≤ STATE_ROOM }
    ensures writes { WritesField
        (to_le_bytes w64 world.now.seed ++ (to_le_bytes w64 world.now.draws ++ to_le_bytes w64 events))
        (PROMPT - SEED) writer.old writer.new }
    ensures fits { (world.now.seed < 2 ^ 64) × ((world.now.draws < 2 ^ 64) × (events < 2 ^ 64)) }
{
    writer.put(&world.seed().to_le_bytes());
    writer.put(&world.draws().to_le_bytes());
    writer.put(&events.to_le_bytes());
}

// Writes the prompt, the frames of the open tables, and the open loop.
fn put_tables(writer: &mut Writer, frames: &Frames, prompt: Prompt)
    requires room { length writer.old + (EARLIER - PROMPT) ≤ STATE_ROOM }
    ensures writes { WritesField
        ((prompt_code prompt ∷ frames.now.count ∷ [])
        ++ (flat_map frame_bytes frames.now.rows
        ++ ((if is_some frames.now.turning then 1 else 0) ∷ loop_shape.bytes (loop_or_zeros frames.now.turning))))
        (EARLIER - PROMPT) writer.old writer.new }
{
    writer.put(&[prompt_code(prompt), frames.count]);
    put_frames(writer, &frames.rows);
    writer.put(&[u8::from(frames.turning.is_some())]);
    put_loop(writer, &loop_or_zeros(frames.turning));
}

// The code of a prompt.
fn prompt_code(prompt: Prompt) -> u8
    ensures value { result ≡ prompt_code prompt }
{
    match prompt {
        Prompt::Main => 0,
        Prompt::Quit => 1,
        Prompt::Again => 2,
        Prompt::Key => 3,
        Prompt::Over => 4,
    }
}

// Writes the frames of the open tables.
fn put_frames(writer: &mut Writer, rows: &[Frame; MOST_FRAMES])
    requires room { length writer.old + (LOOPING - FRAMES) ≤ STATE_ROOM }
    ensures writes { WritesField (flat_map frame_bytes rows.now) (LOOPING - FRAMES) writer.old writer.new }
{
    for row in rows {
        put_frame(writer, row);
    }
}

// Writes a frame: a byte says whether an action was carried out.
fn put_frame(writer: &mut Writer, frame: &Frame)
    requires room { length writer.old + FRAME_LENGTH ≤ STATE_ROOM }
    ensures writes { WritesField (frame_bytes frame.now) FRAME_LENGTH writer.old writer.new }
{
    let [low, high] = frame.entry.to_le_bytes();
    writer.put(&[frame.table, low, high, frame.at, u8::from(frame.acted)]);
}

// The open loop, or zeros where none is open.
fn loop_or_zeros(turning: Option<OpenLoop>) -> OpenLoop
    ensures value { result ≡ loop_or_zeros turning }
{
    match turning {
        Some(found) => found,
        None => OpenLoop {
            level: 0,
            table: 0,
            entry: 0,
            at: 0,
            place: 0,
            last: 0,
        },
    }
}

// Writes the open loop.
fn put_loop(writer: &mut Writer, turning: &OpenLoop)
    requires room { length writer.old + (EARLIER - LOOP_LEVEL) ≤ STATE_ROOM }
    ensures writes { WritesField (loop_shape.bytes turning.now) (EARLIER - LOOP_LEVEL) writer.old writer.new }
{
    writer.put(&[turning.level, turning.table]);
    writer.put(&turning.entry.to_le_bytes());
    writer.put(&[turning.at, turning.place, turning.last]);
}

// Writes what is pending, and the length of the last piece.
fn put_pending(writer: &mut Writer, pending: &Pending, piece: u16)
    requires room { length writer.old + (KEPT - EARLIER) ≤ STATE_ROOM }
    ensures writes { WritesField
        ((pending.now.earlier ∷ length pending.now.bytes ∷ filled_with_zeros LINE_LIMIT pending.now.bytes)
        ++ two_bytes piece)
        (KEPT - EARLIER) writer.old writer.new }
    ensures fits { (pending.now.earlier < 256) × AreBytes pending.now.bytes }
{
    let line = pending.bytes();
    writer.put(&[pending.earlier(), line.len() as u8]);
    put_filled(writer, line, LINE_LIMIT);
    writer.put(&piece.to_le_bytes());
}
