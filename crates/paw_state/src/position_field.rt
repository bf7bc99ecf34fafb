// A position that may be there, as it stands in the bytes of a state.

ghost use Rattle.std.specs.Prelude.{◌≡◌, ◌+◌, ◌≤◌};
ghost use Rattle.paw_state.specs.declared.fields.TheConstants.{POSITION_LENGTH, STATE_ROOM};
ghost use Rattle.paw_state.specs.inner.Fields.{position_shape};

use crate::fields::{POSITION_FLAGS, POSITION_PLACES, STATE_ROOM, array_at};

/// A position, or its absence: whether it is there, its flags and its places.
#[derive(Clone, Copy, Drop)]
pub(crate) struct PositionField {
    pub(crate) there: u8,
    pub(crate) flags: [u8; 256],
    pub(crate) places: [u8; 255],
}

impl PositionField {
    /// The position whose bytes begin at an offset.
    pub(crate) fn at(bytes: &[u8; STATE_ROOM], start: usize) -> PositionField
        requires inside { start + POSITION_LENGTH ≤ STATE_ROOM }
        ensures value { result ≡ position_shape.value bytes.now start }
    {
        PositionField {
            there: bytes[start],
            flags: array_at(bytes, start + POSITION_FLAGS),
            places: array_at(bytes, start + POSITION_PLACES),
        }
    }
}
