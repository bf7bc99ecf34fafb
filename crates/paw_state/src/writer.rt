// Writing one field after the other.

ghost use Rattle.std.specs.Prelude.{◌≡◌, ◌+◌, ◌-◌, ◌≤◌, [], ◌++◌, length};
ghost use Rattle.paw_state.specs.declared.fields.TheConstants.{STATE_ROOM};
ghost use Rattle.paw_state.specs.State.{zeros};
ghost use Rattle.paw_state.specs.inner.Writer.{WritesField};

use crate::fields::STATE_ROOM;
use std::marker::Model;

/// The room of a state, of which a first part is written. Contracts see the bytes of that part.
#[derive(Drop)]
pub(crate) struct Writer {
    bytes: [u8; STATE_ROOM],
    count: usize,
}

impl Model for Writer {
    ghost use Rattle.std.specs.Prelude.{◌≡◌, ◌-◌, ◌≤◌, take, drop};
    ghost use Rattle.paw_base.specs.Bytes.{Bytes};
    ghost use Rattle.paw_state.specs.declared.fields.TheConstants.{STATE_ROOM};
    ghost use Rattle.paw_state.specs.State.{zeros};

    ghost Value = { Bytes };

    ghost view = { λ w. take w.count w.bytes };

    ghost invariant = { λ w. (w.count ≤ STATE_ROOM) × (drop w.count w.bytes ≡ zeros (STATE_ROOM - w.count)) };
}

impl Writer {
    /// A room of which nothing is written.
    pub(crate) fn new() -> Writer
        ensures value { result ≡ [] }
    {
        Writer {
            bytes: [0; STATE_ROOM],
            count: 0,
        }
    }

    /// Writes a field after the others.
    pub(crate) fn put(&mut self, field: &[u8])
        requires room { length self.old + length field.now ≤ STATE_ROOM }
        ensures writes { WritesField field.now (length field.now) self.old self.new }
    {
        let end = self.count + field.len();
        self.bytes[self.count..end].copy_from_slice(field);
        self.count = end;
    }

    /// Leaves this number of zeros after the others.
    pub(crate) fn skip(&mut self, count: usize)
        requires room { length self.old + count ≤ STATE_ROOM }
        ensures writes { WritesField (zeros count) count self.old self.new }
    {
        self.count += count;
    }

    /// What was written, and zeros after it.
    pub(crate) fn finish(self) -> [u8; STATE_ROOM]
        ensures value { result ≡ self ++ zeros (STATE_ROOM - length self) }
        ensures room { length result ≡ STATE_ROOM }
    {
        self.bytes
    }
}
