// What a session has to know of the bytes of a state: how many they are in each version of a session, and where the
// length of the piece stands.

/// The first version of a session and of a slot.
pub const FIRST_VERSION: u8 = 1;

/// The version that is written.
pub const VERSION: u8 = 2;

/// The bytes of a state.
pub const STATE_LENGTH: usize = 3_419;

/// The bytes of a state in version 1 of a session. The kept positions stand after them.
pub const FIRST_LENGTH: usize = 1_371;

/// The bytes of a state in each version, from the first on.
pub const FORM_LENGTHS: [usize; 2] = [FIRST_LENGTH, STATE_LENGTH];

/// The offset of the length of the state's piece, which has two bytes. They are the last ones of version 1.
pub const PIECE_LENGTH_AT: usize = 1_369;
