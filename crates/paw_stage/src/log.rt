// A record of calls, kept in memory that was taken beforehand.

ghost use Rattle.std.specs.Prelude.{◌≡◌, ◌↔◌, ◌≤◌, ◌<◌, ◌+◌, ◌++◌, ◌∷◌, [], IsTrue, IsFalse, IfOk, IfSome, IfNone};
ghost use Rattle.std.specs.Prelude.{IsSome};
ghost use Rattle.std.specs.Prelude.{None, OnOk, OnErr, length, take, drop, vec_len, vec_capacity};
ghost use Rattle.std.specs.Option.{option_map};
ghost use Rattle.paw_base.specs.Bytes.{Name};
ghost use Rattle.paw_stage.specs.Stage.{Standing, bytes_or_none};
ghost use Rattle.paw_stage.specs.inner.Stage.{IfAttached};
ghost use Rattle.paw_stage.specs.inner.Done.{call_of, call_at, added_file, fresh, after_call_of, after, calls_made};
ghost use Rattle.paw_stage.specs.inner.Done.{right_after};
ghost use Rattle.paw_stage.specs.inner.Crash.{bytes_after_crash, HasNoStore};
ghost use Rattle.paw_stage.specs.inner.Log.{has_room, logged_in_spare_room, call_logged, all_done, AreLaid};
ghost use Rattle.paw_stage.specs.inner.Log.{IsTextOfCall};
ghost use Rattle.paw_stage.specs.inner.Seen.{HasLength};

use crate::replay::{
    call_at, calls_made, crash, crash_after, file_len, first_bytes, read_store, store_len,
};
use paw_base::fault::NoRoom;
use std::alloc::Global;
use std::marker::Model;

/// What was done: a file was put there between the calls, or a call loaded, saved, attached a store, read it, wrote to
/// it from an offset on, synced it, took a line, found no line left, or showed a text.
#[derive(Clone, Copy, Drop, PartialEq, Eq, Debug)]
pub enum CallKind {
    Add,
    Load,
    Save,
    Attach,
    Read,
    Write(u64),
    Sync,
    Take,
    End,
    Show,
}

/// One call. The name handed to it stands in the room from `from` to `mid`, and the bytes from there to `to`.
#[derive(Clone, Copy, Drop, PartialEq, Eq, Debug)]
pub struct Call {
    pub kind: CallKind,
    pub from: usize,
    pub mid: usize,
    pub to: usize,
}

/// The calls so far with the bytes handed to them, the text shown, the number of bytes written to stores, and spare
/// room for more calls and bytes. Text and number follow from the calls, and are kept so that asking for them goes over
/// no calls.
#[derive(Drop)]
pub struct Log {
    calls: Vec<Call>,
    room: Vec<u8>,
    text: Vec<u8>,
    written: usize,
    calls_left: usize,
    bytes_left: usize,
}

impl Model for Log {
    ghost use Rattle.paw_stage.specs.inner.Log.{Logged};

    ghost Value = { Logged };

    ghost use Rattle.paw_stage.specs.inner.LogInside.{logged_in, IsLogSound};

    ghost view = { logged_in };

    ghost invariant = { IsLogSound };
}

impl Log {
    /// No calls yet, and room for these numbers of calls and bytes.
    pub fn new(alloc: Global, calls: usize, bytes: usize) -> Result<Log, NoRoom>
        ensures value { IfOk result (λ l. l ≡ record { calls = []; calls_left = calls; bytes_left = bytes }) }
    {
        Ok(Log {
            calls: Vec::with_capacity(alloc, calls)?,
            room: Vec::with_capacity(alloc, bytes)?,
            text: Vec::with_capacity(alloc, bytes)?,
            written: 0,
            calls_left: calls,
            bytes_left: bytes,
        })
    }

    /// Records a call, and answers whether there was room for it.
    pub fn add(&mut self, kind: CallKind, name: &[u8], bytes: &[u8]) -> bool
        ensures exact { result ≡ has_room self.old (length name.now + length bytes.now) }
        ensures kept { IsTrue result → self.new ≡ logged_in_spare_room (call_of kind name.now bytes.now) self.old }
        ensures full { IsFalse result → self.new ≡ self.old }
    {
        let n = name.len() + bytes.len();
        if self.calls_left == 0 || n > self.bytes_left {
            return false;
        }
        record_call(&mut self.calls, &mut self.room, kind, name, bytes);
        show_text(&mut self.text, kind, bytes);
        self.written += bytes_written(kind, bytes);
        self.calls_left -= 1;
        self.bytes_left -= n;
        true
    }

    /// Records that a file was put there, for which new room is taken. The spare room stays.
    pub fn add_file(&mut self, name: &[u8], bytes: &[u8]) -> Result<(), NoRoom>
        ensures ok { OnOk result (self.new ≡ call_logged (added_file name.now bytes.now) self.old) }
        ensures err { OnErr result (self.new ≡ self.old) }
    {
        let n = name.len() + bytes.len();
        reserve_beside(&mut self.calls, self.calls_left, 1)?;
        reserve_beside(&mut self.room, self.bytes_left, n)?;
        record_call(&mut self.calls, &mut self.room, CallKind::Add, name, bytes);
        Ok(())
    }

    /// The kind of the call of this number, counted from 0, and the name handed to it.
    pub fn call(&self, number: usize) -> Option<(CallKind, &[u8])>
        ensures value { option_map (λ c. (c.0, c.1.now)) result ≡ call_at self.now.calls number }
    {
        call_at(self.calls.as_slice(), self.room.as_slice(), number)
    }

    /// How many calls of the stage these are; a file that was put there between them isn't counted.
    pub fn calls_made(&self) -> usize
        ensures value { result ≡ calls_made self.now.calls }
    {
        calls_made(self.calls.as_slice())
    }

    /// The text shown.
    pub fn text_shown(&self) -> &[u8]
        ensures value { result.now ≡ (after fresh self.now.calls).shown }
    {
        self.text.as_slice()
    }

    /// The number of bytes that were written to stores.
    pub fn bytes_sent(&self) -> usize
        ensures value { result ≡ (after fresh self.now.calls).written }
    {
        self.written
    }

    /// The length of a file, where it is there.
    pub fn file_len(&self, name: &[u8]) -> Option<usize>
        ensures some { IfSome result (HasLength ((after fresh self.now.calls).files name.now)) }
        ensures none { IfNone result ((after fresh self.now.calls).files name.now ≡ None) }
    {
        file_len(self.calls.as_slice(), self.room.as_slice(), name)
    }

    /// The first n bytes of a file, which has at least that number.
    pub fn first_bytes(&self, alloc: Global, name: &[u8], n: usize) -> Result<Vec<u8>, NoRoom>
        requires within { n ≤ length (bytes_or_none ((after fresh self.now.calls).files name.now)) }
        ensures value { IfOk result
            (λ v. v.items ≡ take n (bytes_or_none ((after fresh self.now.calls).files name.now))) }
    {
        first_bytes(self.calls.as_slice(), self.room.as_slice(), alloc, name, n)
    }

    /// The length of the attached store.
    pub fn store_len(&self) -> usize
        requires attached { IsSome (after fresh self.now.calls).attached }
        ensures value { result ≡ length (after fresh self.now.calls).disk.bytes }
    {
        store_len(self.calls.as_slice(), self.room.as_slice())
    }

    /// Fills a slice with bytes of the attached store from an offset on.
    pub fn read_store(&self, at: usize, into: &mut [u8])
        requires attached { IsSome (after fresh self.now.calls).attached }
        requires within { at + length into.old ≤ length (after fresh self.now.calls).disk.bytes }
        ensures read { into.new ≡ take (length into.old) (drop at (after fresh self.now.calls).disk.bytes) }
    {
        read_store(self.calls.as_slice(), self.room.as_slice(), at, into)
    }

    /// The attached store as a crash may leave it, by a pick, and no bytes where none is attached.
    pub fn crash(&self, alloc: Global, pick: u8) -> Result<Vec<u8>, NoRoom>
        ensures made { IfAttached (after fresh self.now.calls)
            (λ d. IfOk result (λ v. v.items ≡ bytes_after_crash d pick)) }
        ensures none { (after fresh self.now.calls).attached ≡ None → IfOk result (λ v. v.items ≡ []) }
    {
        crash(self.calls.as_slice(), self.room.as_slice(), alloc, pick)
    }

    /// The attached store as a crash right after the call of this number may leave it, by a pick. None where fewer
    /// calls were made, or where no store was attached by then.
    pub fn crash_after(
        &self,
        alloc: Global,
        number: u64,
        pick: u8,
    ) -> Result<Option<Vec<u8>>, NoRoom>
        ensures made { IfOk result (λ left. IfSome left (λ v.
            v.items ≡ bytes_after_crash (right_after number self.now.calls).disk pick)) }
        ensures none { IfOk result (λ left. (left ≡ None) ↔ HasNoStore number self.now.calls) }
    {
        crash_after(
            self.calls.as_slice(),
            self.room.as_slice(),
            alloc,
            number,
            pick,
        )
    }
}

// Makes room for `more` elements besides the spare ones.
fn reserve_beside<T>(v: &mut Vec<T>, spare: usize, more: usize) -> Result<(), NoRoom>
    ensures items { v.new.items ≡ v.old.items }
    ensures len { vec_len v.new ≡ vec_len v.old }
    ensures ok { OnOk result (vec_len v.new + spare + more ≤ vec_capacity v.new) }
    ensures capacity { vec_capacity v.old ≤ vec_capacity v.new }
{
    let n = spare.checked_add(more).ok_or(NoRoom)?;
    v.reserve(n)?;
    Ok(())
}

// Adds bytes for which there is room.
fn append(v: &mut Vec<u8>, bytes: &[u8])
    requires fits { vec_len v.old + length bytes.now ≤ vec_capacity v.old }
    ensures items { v.new.items ≡ v.old.items ++ bytes.now }
    ensures len { vec_len v.new ≡ vec_len v.old + length bytes.now }
    ensures capacity { vec_capacity v.old ≤ vec_capacity v.new }
{
    let _ = v.extend_from_slice(bytes);
}

// Adds a call for which there is room.
fn append_call(calls: &mut Vec<Call>, call: Call)
    requires fits { vec_len calls.old < vec_capacity calls.old }
    ensures items { calls.new.items ≡ calls.old.items ++ call ∷ [] }
    ensures len { vec_len calls.new ≡ vec_len calls.old + 1 }
    ensures capacity { vec_capacity calls.old ≤ vec_capacity calls.new }
{
    let _ = calls.push(call);
}

// Adds a call and its bytes, for which there is room.
fn record_call(calls: &mut Vec<Call>, room: &mut Vec<u8>, kind: CallKind, name: &[u8], bytes: &[u8])
    requires call_fits { vec_len calls.old < vec_capacity calls.old }
    requires bytes_fit { vec_len room.old + length name.now + length bytes.now ≤ vec_capacity room.old }
    requires laid { AreLaid calls.old.items 0 (length room.old.items) }
    ensures laid { AreLaid calls.new.items 0 (length room.new.items) }
    ensures done { all_done room.new.items calls.new.items
        ≡ all_done room.old.items calls.old.items ++ call_of kind name.now bytes.now ∷ [] }
    ensures calls_len { vec_len calls.new ≡ vec_len calls.old + 1 }
    ensures room_len { vec_len room.new ≡ vec_len room.old + length name.now + length bytes.now }
    ensures calls_capacity { vec_capacity calls.old ≤ vec_capacity calls.new }
    ensures room_capacity { vec_capacity room.old ≤ vec_capacity room.new }
{
    let from = room.len();
    append(room, name);
    let mid = room.len();
    append(room, bytes);
    let to = room.len();
    append_call(
        calls,
        Call {
            kind,
            from,
            mid,
            to,
        },
    );
}

// Adds to the text what a call showed.
fn show_text(text: &mut Vec<u8>, kind: CallKind, bytes: &[u8])
    requires fits { vec_len text.old + length bytes.now ≤ vec_capacity text.old }
    ensures shown { IsTextOfCall kind bytes.now text.old.items text.new.items }
    ensures len { vec_len text.new ≤ vec_len text.old + length bytes.now }
    ensures capacity { vec_capacity text.old ≤ vec_capacity text.new }
{
    match kind {
        CallKind::Show => append(text, bytes),
        CallKind::Add => {}
        CallKind::Load => {}
        CallKind::Save => {}
        CallKind::Attach => {}
        CallKind::Read => {}
        CallKind::Write(_) => {}
        CallKind::Sync => {}
        CallKind::Take => {}
        CallKind::End => {}
    }
}

// How many bytes a call wrote to the store.
fn bytes_written(kind: CallKind, bytes: &[u8]) -> usize
    ensures counted { (s : Standing) (name : Name) →
        (after_call_of kind name bytes.now s).written ≡ s.written + result }
    ensures most { result ≤ length bytes.now }
{
    match kind {
        CallKind::Write(_) => bytes.len(),
        CallKind::Add => 0,
        CallKind::Load => 0,
        CallKind::Save => 0,
        CallKind::Attach => 0,
        CallKind::Read => 0,
        CallKind::Sync => 0,
        CallKind::Take => 0,
        CallKind::End => 0,
        CallKind::Show => 0,
    }
}
