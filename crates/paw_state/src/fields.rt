// The fields of a state, as they stand in its bytes, and where each stands, from the first byte on: after the field
// before.

ghost use Rattle.std.specs.Prelude.{◌≡◌, ◌+◌, ◌-◌, ◌≤◌, length, slice_range};
ghost use Rattle.paw_base.specs.declared.layout.TheConstants.{STATE_LENGTH};
ghost use Rattle.paw_process.specs.declared.machine.TheConstants.{MOST_FRAMES};
ghost use Rattle.paw_state.specs.declared.fields.TheConstants.{SEED, PROMPT, FRAMES, FRAME_LENGTH, LOOPING};
ghost use Rattle.paw_state.specs.declared.fields.TheConstants.{LOOP_LEVEL, EARLIER, KEPT, STATE_ROOM};
ghost use Rattle.paw_state.specs.inner.Parts.{frame_in};
ghost use Rattle.paw_state.specs.State.{AreBytes};
ghost use Rattle.paw_state.specs.inner.Shapes.{two_at, eight_at, values_at};
ghost use Rattle.paw_state.specs.inner.Fields.{frame_shape};
ghost use Rattle.paw_state.specs.inner.Fields.{fields_at};

use crate::position_field::PositionField;
use paw_base::layout::{FIRST_LENGTH, PIECE_LENGTH_AT};
use paw_base::limits::{FLAG_COUNT, OBJECT_LIMIT, POSITION_COUNT};
use paw_process::MOST_FRAMES;
use paw_reading::frames::{Frame, OpenLoop};

/// The length of the room in which a state is kept. The bytes after the state are 0.
pub const STATE_ROOM: usize = 4096;

/// 256 flags.
pub const FLAGS: usize = 0;

/// 255 places of objects.
pub const PLACES: usize = FLAGS + FLAG_COUNT;

/// The saved position: 512 bytes, as for each kept one.
pub const SAVED: usize = PLACES + OBJECT_LIMIT;

/// From the start of such a position, whose first byte is 1 where it is there and else 0, to its 256 flags.
pub const POSITION_FLAGS: usize = 1;

/// From its start to its 255 places.
pub const POSITION_PLACES: usize = POSITION_FLAGS + FLAG_COUNT;

/// The length of such a position.
pub const POSITION_LENGTH: usize = POSITION_PLACES + OBJECT_LIMIT;

/// The seed of the random words: eight bytes, as for the next two.
pub const SEED: usize = SAVED + POSITION_LENGTH;

/// The number of words that were drawn.
pub const DRAWS: usize = SEED + 8;

/// The number of lines that were taken.
pub const EVENTS: usize = DRAWS + 8;

/// The prompt: 0 to 4.
pub const PROMPT: usize = EVENTS + 8;

/// The number of open tables: 0 to 11.
pub const COUNT: usize = PROMPT + 1;

/// Eleven frames of five bytes: table, entry (two bytes), condact, and whether an action was carried out.
pub const FRAMES: usize = COUNT + 1;

/// From the start of a frame to its entry, its condact, and whether an action was carried out.
pub const FRAME_ENTRY: usize = 1;

pub const FRAME_AT: usize = FRAME_ENTRY + 2;

pub const FRAME_ACTED: usize = FRAME_AT + 1;

/// The length of a frame.
pub const FRAME_LENGTH: usize = FRAME_ACTED + 1;

/// Whether a loop is open: 0 or 1.
pub const LOOPING: usize = FRAMES + MOST_FRAMES * FRAME_LENGTH;

/// The open loop's level, table, entry (two bytes), condact, place and last object.
pub const LOOP_LEVEL: usize = LOOPING + 1;

pub const LOOP_TABLE: usize = LOOP_LEVEL + 1;

pub const LOOP_ENTRY: usize = LOOP_TABLE + 1;

pub const LOOP_AT: usize = LOOP_ENTRY + 2;

pub const LOOP_PLACE: usize = LOOP_AT + 1;

pub const LOOP_LAST: usize = LOOP_PLACE + 1;

/// The verb of the sentence before.
pub const EARLIER: usize = LOOP_LAST + 1;

/// The number of pending bytes.
pub const PENDING: usize = EARLIER + 1;

/// These bytes, with room for 255.
pub const LINE: usize = PENDING + 1;

/// The length of the last piece: two bytes.
pub const PIECE: usize = PIECE_LENGTH_AT;

/// The kept positions, one after the other.
pub const KEPT: usize = FIRST_LENGTH;

/// A frame, as it is kept: a byte says whether an action was carried out.
#[derive(Clone, Copy, Drop)]
pub(crate) struct FrameField {
    pub(crate) table: u8,
    pub(crate) entry: u16,
    pub(crate) at: u8,
    pub(crate) acted: u8,
}

impl FrameField {
    /// A frame that isn't used.
    pub(crate) const EMPTY: FrameField = FrameField {
        table: 0,
        entry: 0,
        at: 0,
        acted: 0,
    };

    /// The frame that these fields say.
    pub(crate) fn frame(&self) -> Frame
        ensures value { result ≡ frame_in self.now }
    {
        Frame {
            table: self.table,
            entry: self.entry,
            at: self.at,
            acted: self.acted == 1,
        }
    }
}

/// The fields of a state in the order of their bytes. Their rules aren't checked here.
#[derive(Drop)]
pub(crate) struct Fields {
    pub(crate) flags: [u8; 256],
    pub(crate) places: [u8; 255],
    pub(crate) saved: PositionField,
    pub(crate) seed: u64,
    pub(crate) draws: u64,
    pub(crate) events: u64,
    pub(crate) prompt: u8,
    pub(crate) count: u8,
    pub(crate) rows: [FrameField; MOST_FRAMES],
    pub(crate) looping: u8,
    pub(crate) turning: OpenLoop,
    pub(crate) earlier: u8,
    pub(crate) pending: u8,
    pub(crate) line: [u8; 255],
    pub(crate) piece: u16,
    pub(crate) kept: [PositionField; POSITION_COUNT],
}

/// The N bytes from an offset on.
pub(crate) fn array_at<const N: usize>(bytes: &[u8; STATE_ROOM], at: usize) -> [u8; N]
    requires inside { at + N ≤ STATE_ROOM }
    ensures value { result ≡ slice_range bytes.now at (at + N) }
{
    let mut array = [0; N];
    array.copy_from_slice(&bytes[at..at + N]);
    array
}

// The number of two bytes at an offset.
fn two_at(bytes: &[u8; STATE_ROOM], at: usize) -> u16
    requires inside { at + 2 ≤ STATE_ROOM }
    ensures value { result ≡ two_at bytes.now at }
{
    u16::from_le_bytes(array_at(bytes, at))
}

// The number of eight bytes at an offset.
fn eight_at(bytes: &[u8; STATE_ROOM], at: usize) -> u64
    requires inside { at + 8 ≤ STATE_ROOM }
    ensures value { result ≡ eight_at bytes.now at }
{
    u64::from_le_bytes(array_at(bytes, at))
}

// The kept positions.
fn kept_at(bytes: &[u8; STATE_ROOM]) -> [PositionField; POSITION_COUNT]
    ensures value { result ≡ (fields_at bytes.now).kept }
{
    [
        PositionField::at(bytes, KEPT),
        PositionField::at(bytes, KEPT + POSITION_LENGTH),
        PositionField::at(bytes, KEPT + 2 * POSITION_LENGTH),
        PositionField::at(bytes, KEPT + 3 * POSITION_LENGTH),
    ]
}

// The frame at an offset.
fn frame_at(bytes: &[u8; STATE_ROOM], at: usize) -> FrameField
    requires inside { at + FRAME_LENGTH ≤ STATE_ROOM }
    ensures value { result ≡ frame_shape.value bytes.now at }
{
    FrameField {
        table: bytes[at],
        entry: two_at(bytes, at + FRAME_ENTRY),
        at: bytes[at + FRAME_AT],
        acted: bytes[at + FRAME_ACTED],
    }
}

// All frames.
fn frames_at(bytes: &[u8; STATE_ROOM]) -> [FrameField; MOST_FRAMES]
    ensures value { result ≡ values_at frame_shape MOST_FRAMES bytes.now FRAMES }
{
    let mut rows = [FrameField::EMPTY; MOST_FRAMES];
    for i in 0..MOST_FRAMES {
        rows[i] = frame_at(bytes, FRAMES + FRAME_LENGTH * i);
    }
    rows
}

// The bytes of the open loop.
fn loop_at(bytes: &[u8; STATE_ROOM]) -> OpenLoop
    ensures value { result ≡ (fields_at bytes.now).turning }
{
    OpenLoop {
        level: bytes[LOOP_LEVEL],
        table: bytes[LOOP_TABLE],
        entry: two_at(bytes, LOOP_ENTRY),
        at: bytes[LOOP_AT],
        place: bytes[LOOP_PLACE],
        last: bytes[LOOP_LAST],
    }
}

impl Fields {
    /// The fields that stand in these bytes.
    pub(crate) fn at(bytes: &[u8; STATE_ROOM]) -> Fields
        ensures value { result ≡ fields_at bytes.now }
        ensures bytes { AreBytes bytes.now }
        ensures room { STATE_LENGTH ≤ length bytes.now }
    {
        Fields {
            flags: array_at(bytes, FLAGS),
            places: array_at(bytes, PLACES),
            saved: PositionField::at(bytes, SAVED),
            seed: eight_at(bytes, SEED),
            draws: eight_at(bytes, DRAWS),
            events: eight_at(bytes, EVENTS),
            prompt: bytes[PROMPT],
            count: bytes[COUNT],
            rows: frames_at(bytes),
            looping: bytes[LOOPING],
            turning: loop_at(bytes),
            earlier: bytes[EARLIER],
            pending: bytes[PENDING],
            line: array_at(bytes, LINE),
            piece: two_at(bytes, PIECE),
            kept: kept_at(bytes),
        }
    }
}
