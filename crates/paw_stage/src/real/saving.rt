// A real file that gets new bytes.
//
// No clause says what the system does, so nothing here has one: tests try it.

use crate::Failed;
use crate::files::{folder_of, path_of, read_part, sync_folder, unless_no_such_call};
use crate::real::identity::{FileIdentity, is_named};
use crate::real::opening::{OpenedAlone, open_alone};
use crate::streams::write_whole;
use std::alloc::Alloc;
use std::fs::{self, File};
use std::io::{self, ErrorKind};
use std::path::{Path, PathBuf};
use std::rt::Files;

// What a session begins with: its mark, then its selector, which may be any byte, and then one of its versions.
const SESSION_MARK: u8 = 80;

const SESSION_VERSIONS: [u8; 2] = [1, 2];

/// Makes a file hold these bytes.
///
/// A plain file, and one that is missing, is replaced in one step: the bytes are written to a file beside it, synced, and
/// that gets its name, so whatever stops this, the file is as it was or has all of the bytes. It keeps who may read and
/// write it. Where the name is a link, the file is replaced that it leads to. It isn't replaced where another program has
/// it locked, where it is one of the files that this program has loaded, where it holds a session, or where it would
/// have more than `longest` bytes.
///
/// Anything else, such as a pipe or a device, takes the bytes as they come. It is synced where it has such a call.
pub fn write_file<R: Files<File = File> + Alloc>(
    rt: &R,
    name: &str,
    bytes: &[u8],
    longest: u64,
    loaded: &[FileIdentity],
) -> Result<(), Failed> {
    if let Ok(told) = fs::metadata(rt, name)
        && !told.is_file()
    {
        return write_stream(rt, name, bytes);
    }
    if bytes.len() as u64 > longest {
        return Err(Failed);
    }
    replace(rt, name, bytes, loaded).map_err(|_| Failed)
}

// Writes bytes to a pipe or a device.
fn write_stream<R: Files<File = File>>(rt: &R, name: &str, bytes: &[u8]) -> Result<(), Failed> {
    let mut options = File::options();
    let opened = options.write(true).open(rt, name);
    let mut file = opened.map_err(|_| Failed)?;
    write_whole(&mut file, bytes)?;
    unless_no_such_call(file.sync_all()).map_err(|_| Failed)
}

// Replaces a plain file, which is made empty first where it is missing: so there is a file to be locked. Where this fails
// such a file is gone again.
fn replace<R: Files<File = File> + Alloc>(
    rt: &R,
    name: &str,
    bytes: &[u8],
    loaded: &[FileIdentity],
) -> io::Result<()> {
    let mut old = open_alone(rt, name)?;
    let replaced = replace_opened(rt, name, bytes, loaded, &mut old);
    if replaced.is_err() {
        old.let_go(rt, name);
    }
    replaced
}

// Replaces a file that is locked. Its folder is synced, so that it is there after a crash.
fn replace_opened<R: Files<File = File> + Alloc>(
    rt: &R,
    name: &str,
    bytes: &[u8],
    loaded: &[FileIdentity],
    old: &mut OpenedAlone,
) -> io::Result<()> {
    if loaded.contains(&old.identity) || holds_session(old) {
        return Err(io::Error::from(ErrorKind::PermissionDenied));
    }
    let path = path_of(rt, name)?;
    let beside = beside(rt, path.as_path())?;
    let replaced = write_beside(rt, beside.as_str(), bytes, &old.file).and_then(|()| take_name(
        rt,
        beside.as_str(),
        name,
        path.as_str(),
        old.identity,
    ));
    if replaced.is_err() {
        let _ = fs::remove_file(rt, beside.as_str());
    }
    replaced?;
    sync_folder(rt, path.as_str())
}

// Whether a file holds a session.
fn holds_session(old: &mut OpenedAlone) -> bool {
    let mut head = [0; 3];
    read_part(&mut old.file, 0, &mut head).is_ok()
        && head[0] == SESSION_MARK
        && SESSION_VERSIONS.contains(&head[2])
}

// The path of the file that is written beside one of this path: hidden, in the same folder.
fn beside<R: Files + Alloc>(rt: &R, path: Path<'_>) -> io::Result<PathBuf<R::A>> {
    let file_name = path.file_name().unwrap_or("");
    let hidden = format!(in rt.alloc(); ".{file_name}.saving")?;
    Ok(folder_of(path.as_str()).join(rt.alloc(), hidden.as_str())?)
}

// Writes bytes to a file of their own, which gets the permissions of the old one, and syncs it. One that is there was
// left by a program that was killed, since the old file is locked.
fn write_beside<R: Files<File = File>>(
    rt: &R,
    beside: &str,
    bytes: &[u8],
    old: &File,
) -> io::Result<()> {
    let mut file = make_anew(rt, beside)?;
    write_whole(&mut file, bytes).map_err(|_| io::Error::from(ErrorKind::WriteZero))?;
    let wanted = old.metadata()?.permissions();
    if file.metadata()?.permissions() != wanted {
        file.set_permissions(wanted)?;
    }
    file.sync_all()
}

// Makes a file that is to be written; what has its name goes before.
fn make_anew<R: Files<File = File>>(rt: &R, name: &str) -> io::Result<File> {
    let mut options = File::options();
    options.write(true).create_new(true);
    match options.open(rt, name) {
        Err(e) if e.kind() == ErrorKind::AlreadyExists => {
            fs::remove_file(rt, name)?;
            options.open(rt, name)
        }
        made => made,
    }
}

// Gives the file beside the old one its name, if the name still leads to the old one.
fn take_name<R: Files>(
    rt: &R,
    beside: &str,
    name: &str,
    path: &str,
    old: FileIdentity,
) -> io::Result<()> {
    if !is_named(rt, name, old) {
        return Err(io::Error::from(ErrorKind::InvalidInput));
    }
    fs::rename(rt, beside, path)
}
