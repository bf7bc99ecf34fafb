// Real files, whole and in parts.

ghost use Rattle.std.specs.Prelude.{◌≡◌, OnOk};
ghost use Rattle.std.specs.Path.{path_bytes};
ghost use Rattle.paw_stage.specs.inner.Files.{StaysWhereItWas, GivesAt, TakesAt, folder_of};

use crate::Failed;
use crate::streams::write_whole;
use std::alloc::Alloc;
use std::fs::{self, OpenFile};
use std::io::{self, ErrorKind, Read, Seek, SeekFrom, Write};
use std::path::{Path, PathBuf};
use std::rt::Files;

// Where Linux lists the limits of a program, and room for the first lines of that.
const LIMITS: &str = "/proc/self/limits";

const LIMITS_ROOM: usize = 1024;

/// The path of the file that a name leads to: the name itself, or where it is a link, what it leads to in the end.
pub fn path_of<R: Files + Alloc>(rt: &R, name: &str) -> io::Result<PathBuf<R::A>> {
    if fs::symlink_metadata(rt, name)?.is_symlink() {
        fs::canonicalize(rt, name)
    } else {
        Ok(PathBuf::from_str(rt.alloc(), name)?)
    }
}

/// Syncs the folder in which the file of this path lies, so that the file is there after a crash.
///
/// A folder whose file system has no such call passes: nothing more can be done for it there.
pub fn sync_folder<R: Files>(rt: &R, path: &str) -> io::Result<()> {
    unless_no_such_call(fs::open(rt, folder_of(path))?.sync_all())
}

/// The outcome of a call, where what was called on has such a call; otherwise nothing more can be done, and that passes.
pub fn unless_no_such_call(outcome: io::Result<()>) -> io::Result<()> {
    match outcome {
        Err(e) if has_no_such_call(&e) => Ok(()),
        outcome => outcome,
    }
}

/// Whether an error says that there is no such call (of a file system, a pipe or a device), rather than that the call
/// failed.
pub fn has_no_such_call(error: &io::Error) -> bool {
    matches!(
        error.kind(),
        ErrorKind::InvalidInput | ErrorKind::Unsupported
    )
}

/// The folder that the file of a name lies in.
pub fn folder_of(name: &str) -> Path<'_>
    ensures value { path_bytes result ≡ folder_of name.now }
{
    match Path::new(name).parent() {
        Some(folder) if !folder.as_str().is_empty() => folder,
        _ => Path::new("."),
    }
}

/// Reads as many bytes as `into` has, from an offset on. It fails where the file ends before that.
pub fn read_part<F: Read + Seek>(file: &mut F, at: u64, into: &mut [u8]) -> Result<(), Failed>
    ensures read { OnOk result (GivesAt F.stream_position F.remaining file.old file.new at into.new) }
{
    seek_to(file, at)?;
    file.read_exact(into).map_err(|_| Failed)
}

/// Writes bytes from an offset on. What lies between the end of the file and an offset past it becomes zeros.
pub fn write_part<F: Write + Seek>(file: &mut F, at: u64, bytes: &[u8]) -> Result<(), Failed>
    ensures written { OnOk result (TakesAt F.stream_position F.contents file.old file.new at bytes.now) }
{
    seek_to(file, at)?;
    write_whole(file, bytes)
}

/// The greatest size that the system lets a file of this program have, in bytes (`ulimit -f` of a shell): a write past
/// it would end the program by a signal, and nothing could be answered. Where there is no limit, or the system doesn't
/// give it, that is the greatest number.
pub fn longest_file<R: Files>(rt: &R) -> u64 {
    let mut limits = [0; LIMITS_ROOM];
    match fs::open(rt, LIMITS).and_then(|mut file| file.read(&mut limits)) {
        Ok(length) => file_size_in(&limits[..length]).unwrap_or(u64::MAX),
        Err(_) => u64::MAX,
    }
}

// The limit on a file's size, in a list of limits as Linux writes them: a line for each, with its name and two numbers,
// of which the first holds.
fn file_size_in(limits: &[u8]) -> Option<u64> {
    let limits = str::from_utf8(limits).ok()?;
    for line in limits.lines() {
        if let Some(numbers) = line.strip_prefix("Max file size") {
            return numbers.split_ascii_whitespace().next()?.parse().ok();
        }
    }
    None
}

// Goes to an offset of a file.
fn seek_to<F: Seek>(file: &mut F, at: u64) -> Result<(), Failed>
    ensures stands { OnOk result (StaysWhereItWas (F.stream_position file.old) (F.stream_position file.new) at) }
{
    match file.seek(SeekFrom::Start(at)) {
        Ok(_) => Ok(()),
        Err(_) => Err(Failed),
    }
}

/// Makes the bytes of a file and its length last.
pub fn sync_bytes<F: OpenFile>(file: &F) -> Result<(), Failed> {
    file.sync_data().map_err(|_| Failed)
}
