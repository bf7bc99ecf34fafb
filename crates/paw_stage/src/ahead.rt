// Bytes that were read ahead of what was taken.

ghost use Rattle.std.specs.Prelude.{◌≡◌, ◌≤◌, [], length, drop, OnOk, OnErr};
ghost use Rattle.std.specs.Io.{ReadsAtMost};
ghost use Rattle.std.specs.Io.KnownBytes.{Keeps, Consumes, IsAtEnd, ReadConsumes};

use crate::Failed;
use std::io::{ErrorKind, Read};
use std::marker::Model;

/// Bytes that a reader gave and that weren't taken yet, at most 4,096.
#[derive(Drop)]
pub struct Ahead {
    buffer: [u8; 4096],
    from: usize,
    to: usize,
}

impl Model for Ahead {
    ghost use Rattle.std.specs.Prelude.{◌≤◌, slice_range};
    ghost use Rattle.paw_base.specs.Bytes.{Bytes};

    ghost Value = { Bytes };

    ghost view = { λ a. slice_range a.buffer a.from a.to };

    ghost invariant = { λ a. (a.from ≤ a.to) × (a.to ≤ 4096) };
}

impl Ahead {
    /// No bytes yet.
    pub fn new() -> Ahead
        ensures empty { result ≡ [] }
    {
        Ahead {
            buffer: [0; 4096],
            from: 0,
            to: 0,
        }
    }

    /// The bytes that weren't taken yet.
    pub fn bytes(&self) -> &[u8]
        ensures value { result.now ≡ self.now }
        ensures few { length result.now ≤ 4096 }
    {
        &self.buffer[self.from..self.to]
    }

    /// Takes the first bytes.
    pub fn take(&mut self, count: usize)
        requires within { count ≤ length self.old }
        ensures rest { self.new ≡ drop count self.old }
    {
        self.from += count;
    }

    /// Reads more bytes, which are none only at the reader's end. Nothing is taken from the reader where it fails.
    pub fn fill<R: Read>(&mut self, reader: &mut R) -> Result<(), Failed>
        requires empty { self.old ≡ [] }
        ensures filled { OnOk result (Consumes (R.remaining reader.old) (R.remaining reader.new) self.new) }
        ensures end { OnOk result (self.new ≡ [] → IsAtEnd (R.remaining reader.new)) }
        ensures same { OnErr result (self.new ≡ []) }
        ensures untaken { OnErr result (Keeps (R.remaining reader.old) (R.remaining reader.new)) }
    {
        self.from = 0;
        self.to = 0;
        let n = read_some(reader, &mut self.buffer)?;
        self.to = n;
        Ok(())
    }
}

// Reads once, and again where a signal interrupted the read.
fn read_some<R: Read>(reader: &mut R, into: &mut [u8; 4096]) -> Result<usize, Failed>
    ensures bound { ReadsAtMost result into.new }
    ensures bytes { ReadConsumes (R.remaining reader.old) (R.remaining reader.new) result into.new }
{
    // A bound that no one reaches, so that this is seen to end.
    for _ in 0..u64::MAX {
        match reader.read(into) {
            Ok(n) => return Ok(n),
            Err(e) if e.kind() == ErrorKind::Interrupted => {}
            Err(_) => return Err(Failed),
        }
    }
    Err(Failed)
}
