// Where things stand in a session, in bytes.

ghost use Rattle.std.specs.Prelude.{◌≡◌, ◌+◌, ◌-◌, ◌*◌, ◌%◌, ◌<◌, ◌≤◌, length};
ghost use Rattle.paw_journal.specs.Session.{two_byte_number, header_length, slot_length};
ghost use Rattle.paw_journal.specs.inner.Room.{slot_number};

/// The length of a session: a header and two slots.
pub(crate) const SESSION_LENGTH: u64 = 172_288;

/// The length of the header of a session.
pub(crate) const HEADER_LENGTH: usize = 128;

/// The length of a slot: its head, its base, its piece and its change records.
pub(crate) const SLOT_LENGTH: usize = 86_080;

/// The offset in the header of the mark of a session that is made.
pub(crate) const MARK_AT: u64 = 0;

pub(crate) const SELECTOR_AT: u64 = 1;

pub(crate) const VERSION_AT: u64 = 2;

pub(crate) const GAME_AT: usize = 32;

pub(crate) const ROUTINES_AT: usize = 64;

pub(crate) const DIGEST_LENGTH: usize = 32;

pub(crate) const MADE: u8 = 0x50;

/// The offset of the version in a slot, after the number of its change records.
pub(crate) const SLOT_VERSION_AT: usize = 2;

/// The offset of the base in a slot.
pub(crate) const BASE_AT: usize = 64;

/// The offset of the piece in a slot.
pub(crate) const PIECE_AT: usize = 4_160;

/// The offset of the change records in a slot.
pub(crate) const CHANGES_AT: usize = 69_696;

/// The length of the base of a slot: a state, and room for more after it.
pub(crate) const BASE_LENGTH: usize = 4_096;

/// The most change records of a slot.
pub(crate) const MOST_CHANGES: usize = 4_096;

pub(crate) const CHANGE_LENGTH: usize = 4;

/// The number of 16 bits at an offset, its low byte first.
pub(crate) fn number_at(bytes: &[u8], at: usize) -> usize
    requires within { at + 1 < length bytes.now }
    ensures value { result ≡ two_byte_number at bytes.now }
    ensures small { result ≤ 65535 }
{
    usize::from(bytes[at]) + 256 * usize::from(bytes[at + 1])
}

/// One of the two slots.
#[derive(Clone, Copy, Drop, PartialEq, Eq, Debug)]
pub enum Slot {
    First,
    Second,
}

impl Slot {
    /// The slot that a selector chooses, by its low bit alone.
    pub(crate) fn chosen_by(selector: u8) -> Slot
        ensures value { slot_number result ≡ selector % 2 }
    {
        if selector % 2 == 0 {
            Slot::First
        } else {
            Slot::Second
        }
    }

    /// The selector that chooses it: 0 or 1.
    pub(crate) fn selector(self) -> u8
        ensures value { result ≡ slot_number self }
    {
        match self {
            Slot::First => 0,
            Slot::Second => 1,
        }
    }

    /// The other slot.
    pub(crate) fn other(self) -> Slot
        ensures value { slot_number result ≡ 1 - slot_number self }
    {
        match self {
            Slot::First => Slot::Second,
            Slot::Second => Slot::First,
        }
    }

    /// Its first byte in the session.
    pub(crate) fn start(self) -> u64
        ensures value { result ≡ header_length + slot_length * slot_number self }
    {
        HEADER_LENGTH as u64 + SLOT_LENGTH as u64 * u64::from(self.selector())
    }
}
