// Real files and the standard streams as a stage.

ghost use Rattle.std.specs.Prelude.{◌≡◌};
ghost use Rattle.paw_stage.specs.declared.StageCall.TheVariants as call;
ghost use Rattle.paw_stage.specs.Stage.{CountsFailure, failed_in, failed_load, failed_ask};
ghost use Rattle.paw_stage.specs.inner.Failures.{count_of, no_failures, counts_after};
ghost use Rattle.paw_stage.specs.inner.Done.{fresh};

use crate::files::longest_file;
use crate::input::LineReader;
use crate::streams::{read_first, write_whole};
use crate::{Asked, Failed, FailureCounts, LoadRefusal, Stage, StageCall};
use identity::FileIdentity;
use paw_base::limits::LINE_LIMIT;
use saving::write_file;
use std::alloc::{Alloc, Global};
use std::fs::{self, File};
use std::io::{self, ErrorKind};
use std::marker::Model;
use std::rt::Files;
use store::RealStore;

mod identity;
mod opening;
mod saving;
mod store;

// Standard output, as Linux names what is open.
const OUTPUT: &str = "/proc/self/fd/1";

/// Real files, standard input and standard output, which report nothing but how often each call has failed.
///
/// Standard input is read ahead through a buffer, so nothing else may read it. A line ends with LF or CR LF. One of
/// more than 1,048,576 bytes, its end not counted, fails, and so does a failure of the system; once an ask has failed
/// each later one fails, so that no rest of a line is taken for a line.
///
/// The attached store is a plain file that is kept open; an attach of anything else fails before a byte of it changes. Its
/// descriptor is none of those of the standard streams, though one of them was closed when the program started, and it
/// isn't a file that a standard stream is too. While it is open it is locked, where its file system has locks, and an
/// attach fails where another open of the file holds the lock: so one program at a time has it. An attach syncs the file
/// and its folder, so that what it answers is there after a crash too; the store held before is let go first, so that
/// the same file can be attached again. An attach that fails leaves no file that it made.
///
/// The first write after each sync fails where the store was cut or lengthened, and at every other sync also where it isn't
/// the file of its name any more. A turn syncs twice, so it fails before its text is shown where its session was taken away.
///
/// A save replaces a plain file in one step. It fails where the file is locked, where this stage has loaded it, and where
/// it holds a session. A program that is killed in it may leave a hidden file beside that one, which the next save takes
/// away, and the file itself, empty, where it was missing.
///
/// No write, no save and no show reaches past the greatest size that the system lets a file have: it fails.
///
/// Once a write or a sync has failed the store is let go, since a system may drop what it failed to write and still
/// answer that a later sync succeeded: every call to the store fails until one is attached again.
#[derive(Drop)]
pub struct RealStage<R: Files<File = File> + Input + Print + Alloc + Drop> {
    rt: R,
    input: LineReader<R::Reader>,
    store: Option<RealStore<R::A>>,
    loaded: Vec<FileIdentity, R::A>,
    longest: u64,
    counts: FailureCounts,
}

impl<R: Files<File = File> + Input + Print + Alloc + Drop> Model for RealStage<R> {
    ghost use Rattle.paw_stage.specs.declared.failures.FailureCounts.{FailureCounts};

    ghost Value = { FailureCounts };

    ghost view = { λ s. s.counts };
}

impl<R: Files<File = File> + Input + Print + Alloc + Drop> RealStage<R> {
    /// The files and standard streams of this runtime. No call has failed yet.
    pub fn new(rt: R) -> RealStage<R>
        ensures value { result ≡ no_failures }
    {
        let input = LineReader::new(rt.reader());
        let longest = longest_file(&rt);
        let loaded = Vec::new(rt.alloc());
        RealStage {
            rt,
            input,
            store: None,
            loaded,
            longest,
            counts: FailureCounts::none(),
        }
    }

    // The first `most + 1` bytes of a file, which is remembered as one that was loaded.
    fn read_file(&mut self, alloc: Global, name: &str, most: usize) -> Result<Vec<u8>, LoadRefusal>
        ensures counts { self.new ≡ self.old }
    {
        let file = match fs::open(&self.rt, name) {
            Ok(file) => file,
            Err(e) if e.kind() == ErrorKind::NotFound => return Err(LoadRefusal::Absent),
            Err(_) => return Err(LoadRefusal::Failed),
        };
        let told = file.metadata().map_err(|_| LoadRefusal::Failed)?;
        let remembered = self.loaded.push(FileIdentity::of(&told));
        remembered.map_err(|_| LoadRefusal::Memory)?;
        read_first(alloc, file, most)
    }

    // Whether this number of bytes more can be shown: standard output may be a plain file, which has a greatest size. A write
    // past that would end the program by a signal.
    fn has_room_to_show(&self, count: usize) -> bool {
        if self.longest == u64::MAX {
            return true;
        }
        match fs::metadata(&self.rt, OUTPUT) {
            Ok(told) if told.is_file() => {
                told.len().saturating_add(count as u64) <= self.longest
            }
            _ => true,
        }
    }
}

impl<R: Files<File = File> + Input + Print + Alloc + Drop> Stage for RealStage<R> {
    ghost Tells = { λ _. ⊥ };

    ghost standing = { λ _. fresh };

    ghost failures = { count_of };

    ghost clock = { λ _. 0 };

    ghost since = { λ _ _ _. ⊥ };

    // Only a name that is missing is Absent: a folder, or a file that may not be read, is Failed.
    fn load(&mut self, alloc: Global, name: &str, most: usize) -> Result<Vec<u8>, LoadRefusal>
        ensures counts_failure { CountsFailure (failed_load result) (count_of self.old) (count_of self.new) }

        // A count rises exactly at a failure.
        ensures counted { self.new ≡ counts_after (failed_load result) self.old }
    {
        let loaded = self.read_file(alloc, name, most);
        match loaded {
            Ok(_) => {}
            Err(LoadRefusal::Absent) => self.counts.raise(StageCall::LoadAbsent),
            Err(LoadRefusal::Failed) => self.counts.raise(StageCall::Load),
            Err(LoadRefusal::Memory) => {}
        }
        loaded
    }

    fn save(&mut self, name: &str, bytes: &[u8]) -> Result<(), Failed>
        ensures counts_failure { CountsFailure (failed_in call.Save result) (count_of self.old) (count_of self.new) }

        // A count rises exactly at a failure.
        ensures counted { self.new ≡ counts_after (failed_in call.Save result) self.old }
    {
        let saved = write_file(&self.rt, name, bytes, self.longest, &self.loaded);
        self.counts.count_answer(StageCall::Save, saved)
    }

    fn attach(&mut self, name: &str) -> Result<u64, Failed>
        ensures counts_failure { CountsFailure (failed_in call.Attach result) (count_of self.old) (count_of self.new) }

        // A count rises exactly at a failure.
        ensures counted { self.new ≡ counts_after (failed_in call.Attach result) self.old }
    {
        self.store = None;
        let opened = RealStore::open(&self.rt, name).map_err(|_| Failed);
        let (store, length) = self.counts.count_answer(StageCall::Attach, opened)?;
        self.store = Some(store);
        Ok(length)
    }

    fn read_at(&mut self, at: u64, into: &mut [u8]) -> Result<(), Failed>
        ensures counts_failure { CountsFailure (failed_in call.Read result) (count_of self.old) (count_of self.new) }

        // A count rises exactly at a failure.
        ensures counted { self.new ≡ counts_after (failed_in call.Read result) self.old }
    {
        let store = self.store.as_mut();
        let read = store.map_or(Err(Failed), |store| store.read(at, into));
        self.counts.count_answer(StageCall::Read, read)
    }

    fn write_at(&mut self, at: u64, bytes: &[u8]) -> Result<(), Failed>
        ensures counts_failure { CountsFailure (failed_in call.Write result) (count_of self.old) (count_of self.new) }

        // A count rises exactly at a failure.
        ensures counted { self.new ≡ counts_after (failed_in call.Write result) self.old }
    {
        if at.saturating_add(bytes.len() as u64) > self.longest {
            return self.counts.count_answer(StageCall::Write, Err(Failed));
        }
        let rt = &self.rt;
        let store = self.store.as_mut();
        let written = store.map_or(Err(Failed), |store| store.write(rt, at, bytes));
        if written.is_err() {
            self.store = None;
        }
        self.counts.count_answer(StageCall::Write, written)
    }

    fn sync(&mut self) -> Result<(), Failed>
        ensures counts_failure { CountsFailure (failed_in call.Sync result) (count_of self.old) (count_of self.new) }

        // A count rises exactly at a failure.
        ensures counted { self.new ≡ counts_after (failed_in call.Sync result) self.old }
    {
        let store = self.store.as_mut();
        let synced = store.map_or(Err(Failed), |store| store.sync());
        if synced.is_err() {
            self.store = None;
        }
        self.counts.count_answer(StageCall::Sync, synced)
    }

    fn ask(&mut self, into: &mut [u8; LINE_LIMIT]) -> Asked
        ensures counts_failure { CountsFailure (failed_ask result) (count_of self.old) (count_of self.new) }

        // A count rises exactly at a failure.
        ensures counted { self.new ≡ counts_after (failed_ask result) self.old }
    {
        let asked = self.input.next_line(into);
        if asked == Asked::Failed {
            self.counts.raise(StageCall::Ask);
        }
        asked
    }

    fn show(&mut self, text: &[u8]) -> Result<(), Failed>
        ensures counts_failure { CountsFailure (failed_in call.Show result) (count_of self.old) (count_of self.new) }

        // A count rises exactly at a failure.
        ensures counted { self.new ≡ counts_after (failed_in call.Show result) self.old }
    {
        let shown = if self.has_room_to_show(text.len()) {
            write_whole(&mut io::writer(&self.rt), text)
        } else {
            Err(Failed)
        };
        self.counts.count_answer(StageCall::Show, shown)
    }

    ghost only_now = { λ s m no. absurd no };

    ghost counts_now = { λ s t no. absurd no };

    ghost may_stay = { λ s t m no. absurd no };

    ghost files_hold = { λ s name no. absurd no };
}
