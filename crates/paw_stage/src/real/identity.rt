// Which file of the system something is.

use std::fs::{self, Metadata};
use std::os::unix::fs::MetadataExt;
use std::rt::Files;

/// Which file something is, by whatever name: the device that it lies on, and its number there. No other file has both
/// while the file is open.
#[derive(Clone, Copy, Drop, PartialEq, Eq)]
pub struct FileIdentity {
    device: u64,
    number: u64,
}

impl FileIdentity {
    /// The file that the system says this of.
    pub fn of(told: &Metadata) -> FileIdentity {
        FileIdentity {
            device: told.dev(),
            number: told.ino(),
        }
    }
}

/// Whether a name leads to this file.
pub fn is_named<R: Files>(rt: &R, name: &str, file: FileIdentity) -> bool {
    match fs::metadata(rt, name) {
        Ok(told) => FileIdentity::of(&told) == file,
        Err(_) => false,
    }
}
