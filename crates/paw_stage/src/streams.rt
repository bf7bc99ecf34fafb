// Whole texts through readers and writers.

ghost use Rattle.std.specs.Prelude.{◌≢◌, ◌<◌, ◌≤◌, ◌+◌, ◌-◌, ◌^◌, ℕ, length, min, take, IfOk, OnOk, OnErr};
ghost use Rattle.std.specs.Io.KnownBytes.{Appends, WriteAppends};
ghost use Rattle.paw_stage.specs.declared.LoadRefusal.TheVariants as refusal;
ghost use Rattle.paw_stage.specs.inner.Files.{GivesFirst};

use crate::{Failed, LoadRefusal};
use std::alloc::Global;
use std::io::{ErrorKind, Read, Write};

/// The first `most + 1` bytes of a reader, or all where they are fewer. No more than that are read.
pub fn read_first<R: Read + Drop>(
    alloc: Global,
    reader: R,
    most: usize,
) -> Result<Vec<u8>, LoadRefusal>
    ensures first { IfOk result (λ v. GivesFirst (R.remaining reader) (min (most + 1) (2 ^ 64 - 1)) v.items) }
    ensures there { result ≢ Err refusal.Absent }
{
    let mut bytes = Vec::new(alloc);
    let limit = (most as u64).saturating_add(1);
    match reader.take(limit).read_to_end(&mut bytes) {
        Ok(_) => Ok(bytes),
        Err(e) if e.kind() == ErrorKind::OutOfMemory => Err(LoadRefusal::Memory),
        Err(_) => Err(LoadRefusal::Failed),
    }
}

/// Writes a text whole, with one write, and more only for what a short write left. Where it fails a first part of the
/// text was written.
pub fn write_whole<W: Write>(out: &mut W, text: &[u8]) -> Result<(), Failed>
    ensures whole { OnOk result (Appends (W.contents out.old) (W.contents out.new) text.now) }
    ensures part { OnErr result ((n : ℕ) × Appends (W.contents out.old) (W.contents out.new) (take n text.now)) }
{
    let mut done = 0;
    while done < text.len() {
        done += write_some(out, &text[done..])?;
    }
    out.flush().map_err(|_| Failed)
}

// Writes some of a text, and tries again where a signal interrupted the write.
fn write_some<W: Write>(out: &mut W, text: &[u8]) -> Result<usize, Failed>
    ensures bound { IfOk result (λ n. (0 < n) × (n ≤ length text.now)) }
    ensures bytes { WriteAppends (W.contents out.old) (W.contents out.new) result text.now }
{
    // A bound that no one reaches, so that this is seen to end.
    for _ in 0..u64::MAX {
        match out.write(text) {
            Ok(0) => return Err(Failed),
            Ok(n) => return Ok(n),
            Err(e) if e.kind() == ErrorKind::Interrupted => {}
            Err(_) => return Err(Failed),
        }
    }
    Err(Failed)
}
