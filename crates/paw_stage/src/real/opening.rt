// A real file that is opened alone: as a store, or to be replaced.
//
// No clause says what the system does, so nothing here has one: tests try it.

use crate::files::{has_no_such_call, path_of, sync_folder};
use crate::real::identity::{FileIdentity, is_named};
use std::alloc::Alloc;
use std::fs::{self, File, OpenOptions, TryLockError};
use std::io::{self, ErrorKind};
use std::rt::Files;

// Linux's number of the error that says that no locks are available, as on a network file system without them.
const NO_LOCKS: i32 = 37;

// The standard streams, as Linux names what is open.
const STREAMS: [&str; 3] = ["/proc/self/fd/0", "/proc/self/fd/1", "/proc/self/fd/2"];

/// A plain file that is open to be read and written, and locked.
#[derive(Drop)]
pub struct OpenedAlone {
    pub file: File,
    pub identity: FileIdentity,

    /// In bytes.
    pub length: u64,

    // Whether it was missing, and was made by opening it.
    is_new: bool,
}

/// Opens a file to be read and written, and locks it before anything else is done with it. A missing file is made empty.
///
/// It fails where the file isn't a plain one, before a byte of it changes; where another holds its lock; and where the
/// name leads to another file by then, since that one may be in use. A file that it made is gone again where it fails.
pub fn open_alone<R: Files<File = File> + Alloc>(rt: &R, name: &str) -> io::Result<OpenedAlone> {
    refuse_unless_plain(rt, name)?;
    let (first, is_new) = open_or_make(rt, name)?;
    match claim(rt, name, &first, is_new) {
        Ok(opened) => Ok(opened),
        Err(e) => {
            // One that another has locked is the other's by now.
            if is_new && e.kind() != ErrorKind::WouldBlock {
                take_away(rt, name, &first);
            }
            Err(e)
        }
    }
}

/// Opens a file as a store, as `open_alone` does.
///
/// It is none of the standard streams, where the system says what they are, and its descriptor is none of theirs. The
/// file and its folder are synced, so that a crash leaves just what a read gives.
pub fn open_store<R: Files<File = File> + Alloc>(rt: &R, name: &str) -> io::Result<OpenedAlone> {
    let opened = open_alone(rt, name)?;
    match settle(rt, name, &opened) {
        Ok(()) => Ok(opened),
        Err(e) => {
            opened.let_go(rt, name);
            Err(e)
        }
    }
}

impl OpenedAlone {
    /// Takes the file away again if it was made by opening it, and closes it.
    pub fn let_go<R: Files + Alloc>(self, rt: &R, name: &str) {
        if self.is_new {
            take_away(rt, name, &self.file);
        }
    }
}

// Refuses what is there and isn't a plain file, such as a folder, a pipe or a device: opening some of these does
// something already. A file that is missing may be made.
fn refuse_unless_plain<R: Files>(rt: &R, name: &str) -> io::Result<()> {
    match fs::metadata(rt, name) {
        Ok(told) if !told.is_file() => Err(io::Error::from(ErrorKind::InvalidInput)),
        Err(e) if e.kind() != ErrorKind::NotFound => Err(e),
        _ => Ok(()),
    }
}

// Opens a file, or makes it where it is missing; gives whether it did.
fn open_or_make<R: Files<File = File>>(rt: &R, name: &str) -> io::Result<(File, bool)> {
    match to_read_and_write().open(rt, name) {
        Err(e) if e.kind() == ErrorKind::NotFound => make(rt, name),
        opened => Ok((opened?, false)),
    }
}

// Makes a file that was missing. Where it is there by now, another has made it. A link that leads nowhere is never made
// by itself: what it leads to is.
fn make<R: Files<File = File>>(rt: &R, name: &str) -> io::Result<(File, bool)> {
    match to_read_and_write().create_new(true).open(rt, name) {
        Ok(file) => Ok((file, true)),
        Err(e) if e.kind() == ErrorKind::AlreadyExists => {
            let is_link = fs::symlink_metadata(rt, name)?.is_symlink();
            Ok((to_read_and_write().create(is_link).open(rt, name)?, is_link))
        }
        Err(e) => Err(e),
    }
}

fn to_read_and_write() -> OpenOptions {
    let mut options = File::options();
    options.read(true).write(true);
    options
}

// Locks a file that was opened by this name, and looks whether it is what it should be.
//
// A file that is opened takes the lowest free descriptor. Where the program was started with a standard stream closed,
// that is the stream's, and what is shown would be written to the file. A copy has a descriptor above those three.
fn claim<R: Files>(rt: &R, name: &str, first: &File, is_new: bool) -> io::Result<OpenedAlone> {
    let file = first.try_clone()?;
    lock(&file)?;
    let told = file.metadata()?;
    let identity = FileIdentity::of(&told);
    if !told.is_file() || !is_named(rt, name, identity) {
        return Err(io::Error::from(ErrorKind::InvalidInput));
    }
    Ok(OpenedAlone {
        file,
        identity,
        length: told.len(),
        is_new,
    })
}

// Locks a file, without waiting, until it is closed, which the system does too where the program ends in any way. It
// fails where another holds the lock. It keeps away only those who ask for it, as every program of this stage does.
//
// Where the file system has no locks the game is played without: nothing shows whether another has it, and most often
// none has.
fn lock(file: &File) -> io::Result<()> {
    match file.try_lock() {
        Ok(()) => Ok(()),
        Err(TryLockError::Error(e)) if has_no_such_call(&e) => Ok(()),
        Err(TryLockError::Error(e)) if e.raw_os_error() == Some(NO_LOCKS) => Ok(()),
        Err(e) => Err(io::Error::from(e)),
    }
}

// Takes away a file that was made by opening it, where the name still leads to it and nobody wrote to it. What can't be
// taken away stays, empty.
fn take_away<R: Files + Alloc>(rt: &R, name: &str, file: &File) {
    if let Ok(told) = file.metadata()
        && told.len() == 0
        && is_named(rt, name, FileIdentity::of(&told))
        && let Ok(path) = path_of(rt, name)
    {
        let _ = fs::remove_file(rt, path.as_str());
    }
}

// Makes a store that was opened by this name ready to be used.
fn settle<R: Files + Alloc>(rt: &R, name: &str, opened: &OpenedAlone) -> io::Result<()> {
    refuse_streams(rt, opened.identity)?;
    opened.file.sync_all()?;
    sync_folder(rt, path_of(rt, name)?.as_str())
}

// Refuses a file that is a standard stream too: what is shown would be written into it. Where the system doesn't say
// what the streams are, nothing is refused.
fn refuse_streams<R: Files>(rt: &R, file: FileIdentity) -> io::Result<()> {
    for stream in STREAMS {
        if is_named(rt, stream, file) {
            return Err(io::Error::from(ErrorKind::InvalidInput));
        }
    }
    Ok(())
}
