// What a record of calls makes of a file and of the attached store, found by playing the calls again.

ghost use Rattle.std.specs.Prelude.{◌≡◌, ◌↔◌, ◌⊎◌, ◌≤◌, ◌<◌, ◌+◌, ◌-◌, ◌^◌, ◌++◌, ◌∷◌, ◌||◌, min, max};
ghost use Rattle.std.specs.Prelude.{true, [], IfOk, IfSome, IfNone, IsSome, Some, None, length, take, drop};
ghost use Rattle.std.specs.Prelude.{slice_range, replicate, List};
ghost use Rattle.std.specs.Option.{option_map};
ghost use Rattle.paw_base.specs.Bytes.{Bytes};
ghost use Rattle.paw_stage.specs.declared.log.CallKind.TheVariants as kind;
ghost use Rattle.paw_stage.specs.Disk.{put_at};
ghost use Rattle.paw_stage.specs.Stage.{Standing, file_bytes};
ghost use Rattle.paw_stage.specs.inner.Stage.{IfAttached};
ghost use Rattle.paw_stage.specs.inner.Done.{DoneCall, standing_after, call_at, is_call, calls_made, right_after};
ghost use Rattle.paw_stage.specs.inner.Crash.{bytes_after_crash, all_spoiled, HasNoStore};
ghost use Rattle.paw_stage.specs.inner.Log.{done_in, all_done, calls_replayed, AreLaid, IsEndOf};
ghost use Rattle.paw_stage.specs.inner.Seen.{HasLength, Sees, IsFiled, IsNamed, FindsStore};
ghost use Rattle.paw_stage.specs.inner.Seen.{FindsNext, LaysOver, Spoils};
ghost use Rattle.paw_stage.specs.inner.Seen.{writes, is_written};

use crate::log::{Call, CallKind};
use paw_base::fault::NoRoom;
use std::alloc::Global;

// What a crash may leave of a byte that was written.
const SPOILED: u8 = 255;

// What is seen of a file: whether it is there, whether it is the attached store, and its length.
#[derive(Clone, Copy, Drop, PartialEq, Eq, Debug)]
pub struct Seen {
    pub here: bool,
    pub attached: bool,
    pub len: usize,
}

// The attached store: the call that attached it, and the number of calls after which its bytes were last synced.
#[derive(Clone, Copy, Drop, PartialEq, Eq, Debug)]
pub struct Store {
    pub opened: Call,
    pub synced: usize,
}

/// The kind of the call of this number, counted from 0, and the name handed to it.
pub fn call_at<'a>(calls: &[Call], room: &'a [u8], number: usize) -> Option<(CallKind, &'a [u8])>
    requires laid { AreLaid calls.now 0 (length room.now) }
    ensures value { option_map (λ c. (c.0, c.1.now)) result ≡ call_at (all_done room.now calls.now) number }
{
    let call = calls.get(number)?;
    Some((call.kind, slice_of(room, call.from, call.mid)))
}

/// The length of a file, where it is there.
pub fn file_len(calls: &[Call], room: &[u8], name: &[u8]) -> Option<usize>
    requires laid { AreLaid calls.now 0 (length room.now) }
    ensures some { IfSome result (HasLength ((calls_replayed room.now calls.now).files name.now)) }
    ensures none { IfNone result ((calls_replayed room.now calls.now).files name.now ≡ None) }
{
    let seen = see(calls, room, name, 0, &mut []);
    if seen.here { Some(seen.len) } else { None }
}

/// The first n bytes of a file, which has at least that number.
pub fn first_bytes(
    calls: &[Call],
    room: &[u8],
    alloc: Global,
    name: &[u8],
    n: usize,
) -> Result<Vec<u8>, NoRoom>
    requires laid { AreLaid calls.now 0 (length room.now) }
    requires within { n ≤ length (file_bytes (calls_replayed room.now calls.now) name.now) }
    ensures value { IfOk result (λ v. v.items ≡ take n (file_bytes (calls_replayed room.now calls.now) name.now)) }
{
    let mut bytes = vec![in alloc; 0u8; n]?;
    read_file(calls, room, name, 0, bytes.as_mut_slice());
    Ok(bytes)
}

/// The length of the attached store.
pub fn store_len(calls: &[Call], room: &[u8]) -> usize
    requires laid { AreLaid calls.now 0 (length room.now) }
    requires attached { IsSome (calls_replayed room.now calls.now).attached }
    ensures value { result ≡ length (calls_replayed room.now calls.now).disk.bytes }
{
    match find_store(calls, room) {
        None => 0,
        Some(store) => see(calls, room, name_of(room, store), 0, &mut []).len,
    }
}

/// Fills a slice with bytes of the attached store from an offset on.
pub fn read_store(calls: &[Call], room: &[u8], at: usize, into: &mut [u8])
    requires laid { AreLaid calls.now 0 (length room.now) }
    requires attached { IsSome (calls_replayed room.now calls.now).attached }
    requires within { at + length into.old ≤ length (calls_replayed room.now calls.now).disk.bytes }
    ensures read { into.new ≡ take (length into.old) (drop at (calls_replayed room.now calls.now).disk.bytes) }
{
    match find_store(calls, room) {
        None => {}
        Some(store) => read_file(calls, room, name_of(room, store), at, into),
    }
}

/// The attached store as a crash may leave it, by a pick, and no bytes where none is attached.
pub fn crash(calls: &[Call], room: &[u8], alloc: Global, pick: u8) -> Result<Vec<u8>, NoRoom>
    requires laid { AreLaid calls.now 0 (length room.now) }
    ensures made { IfAttached (calls_replayed room.now calls.now)
        (λ d. IfOk result (λ v. v.items ≡ bytes_after_crash d pick)) }
    ensures none { (calls_replayed room.now calls.now).attached ≡ None → IfOk result (λ v. v.items ≡ []) }
{
    match find_store(calls, room) {
        None => Ok(Vec::new(alloc)),
        Some(store) => leave(calls, room, alloc, store, pick),
    }
}

/// How many calls of the stage these are; a file that was put there between them isn't counted.
pub fn calls_made(calls: &[Call]) -> usize
    ensures value { (room : Bytes) → result ≡ calls_made (all_done room calls.now) }
{
    let mut made = 0;
    for k in 0..calls.len() {
        if is_call(calls[k].kind) {
            made += 1;
        }
    }
    made
}

/// The attached store as a crash right after the call of this number may leave it, by a pick. None where fewer calls
/// were made, or where no store was attached by then.
pub fn crash_after(
    calls: &[Call],
    room: &[u8],
    alloc: Global,
    number: u64,
    pick: u8,
) -> Result<Option<Vec<u8>>, NoRoom>
    requires laid { AreLaid calls.now 0 (length room.now) }
    ensures made { IfOk result (λ left. IfSome left (λ v.
        v.items ≡ bytes_after_crash (right_after number (all_done room.now calls.now)).disk pick)) }
    ensures none { IfOk result (λ left. (left ≡ None) ↔ HasNoStore number (all_done room.now calls.now)) }
{
    match end_of(calls, number) {
        None => Ok(None),
        Some(n) => crash_attached(&calls[..n], room, alloc, pick),
    }
}

// The attached store as a crash may leave it, by a pick; None where none is attached.
fn crash_attached(
    calls: &[Call],
    room: &[u8],
    alloc: Global,
    pick: u8,
) -> Result<Option<Vec<u8>>, NoRoom>
    requires laid { AreLaid calls.now 0 (length room.now) }
    ensures made { IfOk result (λ left. IfSome left
        (λ v. v.items ≡ bytes_after_crash (calls_replayed room.now calls.now).disk pick)) }
    ensures none { IfOk result (λ left. (left ≡ None) ↔ ((calls_replayed room.now calls.now).attached ≡ None)) }
{
    match find_store(calls, room) {
        None => Ok(None),
        Some(store) => Ok(Some(leave(calls, room, alloc, store, pick)?)),
    }
}

// How many of these calls there are up to the call of the stage of this number, with it; None where fewer were made.
fn end_of(calls: &[Call], number: u64) -> Option<usize>
    ensures end { IsEndOf calls.now number result }
{
    let mut before = number;
    for k in 0..calls.len() {
        if is_call(calls[k].kind) {
            if before == 0 {
                return Some(k + 1);
            }
            before -= 1;
        }
    }
    None
}

// Whether this is a call of the stage.
fn is_call(kind: CallKind) -> bool
    ensures value { result ≡ is_call kind }
{
    match kind {
        CallKind::Add => false,
        CallKind::Load => true,
        CallKind::Save => true,
        CallKind::Attach => true,
        CallKind::Read => true,
        CallKind::Write(_) => true,
        CallKind::Sync => true,
        CallKind::Take => true,
        CallKind::End => true,
        CallKind::Show => true,
    }
}

// The attached store as a crash may leave it, by a pick.
fn leave(
    calls: &[Call],
    room: &[u8],
    alloc: Global,
    store: Store,
    pick: u8,
) -> Result<Vec<u8>, NoRoom>
    requires laid { AreLaid calls.now 0 (length room.now) }
    requires found { FindsStore room.now (all_done room.now calls.now) (Some store) }
    ensures value { IfOk result (λ v. v.items ≡ bytes_after_crash (calls_replayed room.now calls.now).disk pick) }
{
    let name = name_of(room, store);
    if pick == 0 {
        return whole_file(&calls[..store.synced], room, alloc, name);
    }
    if pick == 1 {
        return whole_file(calls, room, alloc, name);
    }
    spoiled_store(calls, room, alloc, store)
}

// The bytes of the attached store, with another value for each that was written since the last sync.
fn spoiled_store(
    calls: &[Call],
    room: &[u8],
    alloc: Global,
    store: Store,
) -> Result<Vec<u8>, NoRoom>
    requires laid { AreLaid calls.now 0 (length room.now) }
    requires found { FindsStore room.now (all_done room.now calls.now) (Some store) }
    ensures value { IfOk result (λ v. v.items ≡ all_spoiled (calls_replayed room.now calls.now).disk) }
{
    let mut bytes = whole_file(calls, room, alloc, name_of(room, store))?;
    spoil(&calls[store.synced..], room, bytes.as_mut_slice());
    Ok(bytes)
}

// Gives another value to each byte of a store that one of these calls wrote.
fn spoil(calls: &[Call], room: &[u8], store: &mut [u8])
    requires laid { AreLaid calls.now 0 (length room.now) }
    ensures spoiled { Spoils (is_written (all_done room.now calls.now)) store.old store.new }
{
    for call in calls {
        spoil_after(*call, room, store);
    }
}

// Gives another value to each byte of a store that a call wrote.
fn spoil_after(call: Call, room: &[u8], store: &mut [u8])
    requires order { (call.from ≤ call.mid) × (call.mid ≤ call.to) × (call.to ≤ length room.now) }
    ensures spoiled { Spoils (writes call.kind (length (done_in room.now call).bytes)) store.old store.new }
{
    let bytes = slice_of(room, call.mid, call.to);
    if let CallKind::Write(offset) = call.kind {
        let offset = (offset as usize).min(store.len());
        spoil_range(offset, bytes.len(), store);
    }
}

// Gives another value to n bytes of a store from an offset on, as far as it goes.
fn spoil_range(offset: usize, n: usize, store: &mut [u8])
    requires within { offset ≤ length store.old }
    ensures spoiled { store.new ≡ put_at offset (replicate (min n (length store.old - offset)) SPOILED) store.old }
{
    let to = offset + n.min(store.len() - offset);
    store[offset..to].fill(SPOILED);
}

// All bytes of a file; none where it is missing.
fn whole_file(calls: &[Call], room: &[u8], alloc: Global, name: &[u8]) -> Result<Vec<u8>, NoRoom>
    requires laid { AreLaid calls.now 0 (length room.now) }
    ensures value { IfOk result (λ v. v.items ≡ file_bytes (calls_replayed room.now calls.now) name.now) }
{
    let n = see(calls, room, name, 0, &mut []).len;
    first_bytes(calls, room, alloc, name, n)
}

// Fills a slice with bytes of a file from an offset on.
fn read_file(calls: &[Call], room: &[u8], name: &[u8], at: usize, into: &mut [u8])
    requires laid { AreLaid calls.now 0 (length room.now) }
    requires within { at + length into.old ≤ length (file_bytes (calls_replayed room.now calls.now) name.now) }
    ensures read { into.new ≡ take (length into.old)
        (drop at (file_bytes (calls_replayed room.now calls.now) name.now)) }
{
    let _ = see(calls, room, name, at, into);
}

// What is seen of a file. A slice is filled with its bytes from an offset on, as far as they go.
fn see(calls: &[Call], room: &[u8], name: &[u8], at: usize, into: &mut [u8]) -> Seen
    requires laid { AreLaid calls.now 0 (length room.now) }
    ensures sees { Sees (calls_replayed room.now calls.now) name.now at result into.new }
{
    let mut seen = Seen {
        here: false,
        attached: false,
        len: 0,
    };
    for call in calls {
        seen = seen_after(*call, room, name, at, into, seen);
    }
    seen
}

// What is seen of a file after one call more.
fn seen_after(call: Call, room: &[u8], name: &[u8], at: usize, into: &mut [u8], seen: Seen) -> Seen
    requires order { (call.from ≤ call.mid) × (call.mid ≤ call.to) × (call.to ≤ length room.now) }
    requires small { seen.len ≤ call.from }
    ensures sees { (s : Standing) → IsFiled s → Sees s name.now at seen into.old →
        Sees (standing_after s (done_in room.now call)) name.now at result into.new }
    ensures small { result.len ≤ call.to }
{
    let named = slice_of(room, call.from, call.mid) == name;
    let bytes = slice_of(room, call.mid, call.to);
    match call.kind {
        CallKind::Add => if named {
            seen_filed(bytes, at, into, seen)
        } else {
            seen
        },
        CallKind::Save => if named {
            seen_filed(bytes, at, into, seen)
        } else {
            seen
        },
        CallKind::Attach => seen_opened(named, seen),
        CallKind::Write(offset) => if seen.attached {
            seen_written(offset, bytes, at, into, seen)
        } else {
            seen
        },
        CallKind::Load => seen,
        CallKind::Read => seen,
        CallKind::Sync => seen,
        CallKind::Take => seen,
        CallKind::End => seen,
        CallKind::Show => seen,
    }
}

// What is seen of a file once it holds these bytes.
fn seen_filed(bytes: &[u8], at: usize, into: &mut [u8], seen: Seen) -> Seen
    ensures seen { result ≡ record { here = true; attached = seen.attached; len = length bytes.now } }
    ensures laid { LaysOver 0 bytes.now at into.old into.new }
{
    lay_over(0, bytes, at, into);
    Seen {
        here: true,
        attached: seen.attached,
        len: bytes.len(),
    }
}

// What is seen of a file once it, or another, was attached.
fn seen_opened(named: bool, seen: Seen) -> Seen
    ensures seen { result ≡ record { here = named || seen.here; attached = named; len = seen.len } }
{
    Seen {
        here: named || seen.here,
        attached: named,
        len: seen.len,
    }
}

// What is seen of the attached store once bytes were written to it, or after its end where the offset lies past it.
fn seen_written(offset: u64, bytes: &[u8], at: usize, into: &mut [u8], seen: Seen) -> Seen
    requires fits { seen.len + length bytes.now < 2 ^ 64 }
    ensures seen { result ≡ record seen { len = max seen.len (min offset seen.len + length bytes.now) } }
    ensures laid { LaysOver (min offset seen.len) bytes.now at into.old into.new }
{
    let offset = (offset as usize).min(seen.len);
    lay_over(offset, bytes, at, into);
    Seen {
        here: seen.here,
        attached: seen.attached,
        len: seen.len.max(offset + bytes.len()),
    }
}

// Lays bytes that stand from an offset on over those in a slice, which stand from `at` on.
fn lay_over(offset: usize, bytes: &[u8], at: usize, into: &mut [u8])
    ensures laid { LaysOver offset bytes.now at into.old into.new }
{
    let from = at.saturating_sub(offset).min(bytes.len());
    let to = offset.saturating_sub(at).min(into.len());
    copy_over(&bytes[from..], into, to);
}

// Copies bytes over those of a slice from an offset on, as many as it has.
fn copy_over(bytes: &[u8], into: &mut [u8], to: usize)
    requires within { to ≤ length into.old }
    ensures laid { into.new ≡ put_at to (take (length into.old - to) bytes.now) into.old }
{
    let n = bytes.len().min(into.len() - to);
    into[to..to + n].copy_from_slice(&bytes[..n]);
}

// The name of a store.
fn name_of(room: &[u8], store: Store) -> &[u8]
    requires order { store.opened.from ≤ store.opened.mid }
    requires within { store.opened.mid ≤ length room.now }
    ensures value { result.now ≡ slice_range room.now store.opened.from store.opened.mid }
{
    slice_of(room, store.opened.from, store.opened.mid)
}

// The attached store, where one is attached.
fn find_store(calls: &[Call], room: &[u8]) -> Option<Store>
    requires laid { AreLaid calls.now 0 (length room.now) }
    ensures found { FindsStore room.now (all_done room.now calls.now) result }
{
    let mut store = None;
    for k in 0..calls.len() {
        store = store_after(calls[k], room, k + 1, store);
    }
    store
}

// The attached store after one more call, with which `done` calls are done.
#[tactic(auto, using(crate::proofs::Stores::quiet_call_finds))]
fn store_after(call: Call, room: &[u8], done: usize, store: Option<Store>) -> Option<Store>
    requires order { (call.from ≤ call.mid) × (call.mid ≤ call.to) × (call.to ≤ length room.now) }
    requires named { IsNamed room.now store }
    ensures found { FindsNext room.now call done store result }
{
    match call.kind {
        CallKind::Add => store_filed(call, room, done, store),
        CallKind::Save => store_filed(call, room, done, store),
        CallKind::Attach => Some(Store {
            opened: call,
            synced: done,
        }),
        CallKind::Sync => store_synced(done, store),
        CallKind::Load => store,
        CallKind::Read => store,
        CallKind::Write(_) => store,
        CallKind::Take => store,
        CallKind::End => store,
        CallKind::Show => store,
    }
}

// The attached store once `done` calls are done, and its bytes are synced.
fn store_synced(done: usize, store: Option<Store>) -> Option<Store>
    ensures none { store ≡ None → result ≡ None }
    ensures some { (s : Store) → store ≡ Some s → result ≡ Some (record { opened = s.opened; synced = done }) }
{
    match store {
        None => None,
        Some(store) => Some(Store {
            opened: store.opened,
            synced: done,
        }),
    }
}

// The attached store once `done` calls are done, the last of which gave a file new bytes.
fn store_filed(call: Call, room: &[u8], done: usize, store: Option<Store>) -> Option<Store>
    requires order { (call.from ≤ call.mid) × (call.mid ≤ call.to) × (call.to ≤ length room.now) }
    requires named { IsNamed room.now store }
    ensures found { (ds : List DoneCall) → done ≡ length ds + 1 → FindsStore room.now ds store →
        (call.kind ≡ kind.Add) ⊎ (call.kind ≡ kind.Save) →
        FindsStore room.now (ds ++ done_in room.now call ∷ []) result }
{
    match store {
        None => None,
        Some(s) => if slice_of(room, call.from, call.mid) == name_of(room, s) {
            store_synced(done, store)
        } else {
            store
        },
    }
}

// A part of the room.
fn slice_of(room: &[u8], from: usize, to: usize) -> &[u8]
    requires order { from ≤ to }
    requires within { to ≤ length room.now }
    ensures value { result.now ≡ slice_range room.now from to }
{
    &room[from..to]
}
