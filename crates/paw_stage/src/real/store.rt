// The attached store of real files.
//
// No clause says what the system does, so nothing here has one: tests try it.

use crate::Failed;
use crate::files::{read_part, sync_bytes, write_part};
use crate::real::identity::FileIdentity;
use crate::real::opening::open_store;
use std::alloc::{Alloc, Allocator};
use std::fs::{self, File};
use std::io::{self, Seek, SeekFrom};
use std::rt::Files;

/// A file that is open as a store.
#[derive(Drop)]
pub struct RealStore<A: Allocator + Drop> {
    file: File,
    name: String<A>,
    identity: FileIdentity,

    // How many bytes the file has, in as far as this store made it so.
    length: u64,

    // Whether the file was looked at since the last sync.
    is_seen: bool,

    // Whether the last look was by the file's name.
    was_by_name: bool,
}

impl<A: Allocator + Drop> RealStore<A> {
    /// Opens the file of a name, and gives its length in bytes.
    pub fn open<R: Files<File = File> + Alloc<A = A>>(
        rt: &R,
        name: &str,
    ) -> io::Result<(RealStore<A>, u64)> {
        let name = name.to_string(rt.alloc())?;
        let opened = open_store(rt, name.as_str())?;
        let store = RealStore {
            file: opened.file,
            name,
            identity: opened.identity,
            length: opened.length,
            is_seen: false,
            was_by_name: false,
        };
        Ok((store, opened.length))
    }

    /// Reads as many bytes as `into` has, from an offset on.
    pub fn read(&mut self, at: u64, into: &mut [u8]) -> Result<(), Failed> {
        read_part(&mut self.file, at, into)
    }

    /// Writes bytes from an offset on. The first write after each sync looks before whether the store is as it was left:
    /// where it was taken away, replaced or cut, nothing would be kept of what is written to it.
    pub fn write<R: Files>(&mut self, rt: &R, at: u64, bytes: &[u8]) -> Result<(), Failed> {
        if !self.is_seen {
            self.look(rt)?;
        }
        write_part(&mut self.file, at, bytes)?;
        self.length = self.length.max(at.saturating_add(bytes.len() as u64));
        Ok(())
    }

    /// Makes the bytes of the store and its length last.
    pub fn sync(&mut self) -> Result<(), Failed> {
        self.is_seen = false;
        sync_bytes(&self.file)
    }

    // Looks whether the file is still as long as it was left, and at every other look whether the name still leads to it.
    fn look<R: Files>(&mut self, rt: &R) -> Result<(), Failed> {
        let by_name = !self.was_by_name;
        let length = if by_name {
            self.length_by_name(rt)
        } else {
            self.file.seek(SeekFrom::End(0)).ok()
        };
        if length != Some(self.length) {
            return Err(Failed);
        }
        self.was_by_name = by_name;
        self.is_seen = true;
        Ok(())
    }

    // The length of the file that the name leads to, where that is still this file.
    fn length_by_name<R: Files>(&self, rt: &R) -> Option<u64> {
        let found = fs::metadata(rt, self.name.as_str()).ok()?;
        (FileIdentity::of(&found) == self.identity).then_some(found.len())
    }
}
