// Runs of the stage in memory over its store.

ghost use Rattle.std.specs.Prelude.{◌≡◌, IfOk, IsSome};
ghost use Rattle.paw_stage.specs.Disk.{IsStable};
ghost use Rattle.paw_stage.specs.inner.Memory.{empty, with_file, standing_of};

use paw_base::fault::NoRoom;
use paw_stage::{LoadRefusal, MemoryStage, Stage};
use std::alloc::{AllocError, Global};
use std::process::Abort;
use std::test::Fail;

// A stage with spare room for these numbers of calls and bytes, and a file that may become its store.
fn with_file(
    alloc: Global,
    calls: u64,
    bytes: u64,
    name: &str,
    held: &[u8],
) -> Result<MemoryStage, NoRoom>
    ensures value { IfOk result (λ s. s ≡ with_file name.now held.now (empty calls bytes)) }
{
    let mut stage = MemoryStage::new(alloc, calls, bytes)?;
    stage.add_file(name, held)?;
    Ok(stage)
}

// A call of a stage to which a store is attached.
#[derive(Clone, Copy)]
enum Call<'a> {
    /// Syncs the store, which is done, and attaches another file.
    Attach(&'a str),
    Read(usize, usize),
    Write(usize, &'a [u8]),
    Sync,
    Load(&'a str),
    Save(&'a str, &'a [u8]),
    /// No call of the stage: what a crash leaves.
    Crash,
}

// What a call answers: the bytes that it gives, the length of a store as one byte, or a word in capitals.
fn answer_of_call(
    rt: &impl Abort,
    alloc: Global,
    stage: &mut MemoryStage,
    call: Call<'_>,
) -> Result<Vec<u8>, Fail>
    requires attached { IsSome (standing_of stage.old).attached }
    ensures attached { IsSome (standing_of stage.new).attached }
{
    match call {
        Call::Attach(name) => attach_next(rt, alloc, stage, name),
        Call::Read(at, n) => read(rt, alloc, stage, at, n),
        Call::Write(at, bytes) => write(rt, alloc, stage, at, bytes),
        Call::Sync => sync(alloc, stage),
        Call::Load(name) => load(alloc, stage, name),
        Call::Save(name, bytes) => save(alloc, stage, name, bytes),
        Call::Crash => crashes(stage, alloc),
    }
}

fn word(alloc: Global, fine: bool) -> Result<Vec<u8>, AllocError> {
    Vec::from_slice(alloc, if fine { b"DONE" } else { b"FAILED" })
}

// Attaches the first store, which has this many bytes.
fn attach(rt: &impl Abort, stage: &mut MemoryStage, name: &str, length: u64)
    requires stable { IsStable (standing_of stage.old).disk }
    ensures attached { IsSome (standing_of stage.new).attached }
{
    assert_eq!(rt; stage.attach(name).ok(), Some(length));
}

fn attach_next(
    rt: &impl Abort,
    alloc: Global,
    stage: &mut MemoryStage,
    name: &str,
) -> Result<Vec<u8>, Fail>
    requires attached { IsSome (standing_of stage.old).attached }
    ensures attached { IsSome (standing_of stage.new).attached }
{
    assert!(rt; stage.sync().is_ok());
    match stage.attach(name) {
        Ok(length) => Ok(Vec::from_slice(alloc, &[length.min(255) as u8])?),
        Err(_) => Ok(word(alloc, false)?),
    }
}

fn read(
    rt: &impl Abort,
    alloc: Global,
    stage: &mut MemoryStage,
    at: usize,
    n: usize,
) -> Result<Vec<u8>, Fail>
    requires attached { IsSome (standing_of stage.old).attached }
    ensures attached { IsSome (standing_of stage.new).attached }
{
    let length = stage.crash(alloc, 1)?.len();
    assert!(rt; at <= length && n <= length - at);
    let mut bytes = vec![in alloc; 0; n]?;
    if stage.read_at(at as u64, bytes.as_mut_slice()).is_err() {
        return Ok(word(alloc, false)?);
    }
    Ok(bytes)
}

fn write(
    rt: &impl Abort,
    alloc: Global,
    stage: &mut MemoryStage,
    at: usize,
    bytes: &[u8],
) -> Result<Vec<u8>, Fail>
    requires attached { IsSome (standing_of stage.old).attached }
    ensures attached { IsSome (standing_of stage.new).attached }
{
    let length = stage.crash(alloc, 1)?.len();
    assert!(rt; at <= length);
    Ok(word(alloc, stage.write_at(at as u64, bytes).is_ok())?)
}

fn sync(alloc: Global, stage: &mut MemoryStage) -> Result<Vec<u8>, Fail>
    requires attached { IsSome (standing_of stage.old).attached }
    ensures attached { IsSome (standing_of stage.new).attached }
{
    Ok(word(alloc, stage.sync().is_ok())?)
}

fn save(alloc: Global, stage: &mut MemoryStage, name: &str, bytes: &[u8]) -> Result<Vec<u8>, Fail>
    requires attached { IsSome (standing_of stage.old).attached }
    ensures attached { IsSome (standing_of stage.new).attached }
{
    Ok(word(alloc, stage.save(name, bytes).is_ok())?)
}

fn load(alloc: Global, stage: &mut MemoryStage, name: &str) -> Result<Vec<u8>, Fail>
    requires attached { IsSome (standing_of stage.old).attached }
    ensures attached { IsSome (standing_of stage.new).attached }
{
    match stage.load(alloc, name, 99) {
        Ok(bytes) => Ok(bytes),
        Err(LoadRefusal::Absent) => Ok(Vec::from_slice(alloc, b"ABSENT")?),
        Err(_) => Err(Fail::from("load")),
    }
}

// What a crash leaves by each of these picks, each with a line end.
fn crashes(stage: &MemoryStage, alloc: Global) -> Result<Vec<u8>, Fail> {
    let mut left = Vec::new(alloc);
    for pick in [0, 1, 2, 255] {
        left.extend_from_slice(stage.crash(alloc, pick)?.as_slice())?;
        left.push(b'\n')?;
    }
    Ok(left)
}

// Checks that these calls in a row answer so.
fn answers(
    rt: &impl Abort,
    alloc: Global,
    stage: &mut MemoryStage,
    calls: &[(Call<'_>, &[u8])],
) -> Result<(), Fail>
    requires attached { IsSome (standing_of stage.old).attached }
    ensures attached { IsSome (standing_of stage.new).attached }
{
    for (at, &(call, want)) in calls.iter().enumerate() {
        let answer = answer_of_call(rt, alloc, stage, call)?;
        assert_eq!(rt; answer.as_slice(), want, "call {at}");
    }
    Ok(())
}

/// Calls over three files, and what they answer.
static OF_FILES: [(Call<'static>, &[u8]); 8] = [
    (Call::Write(2, b"XYZ"), b"DONE"),
    (Call::Attach("second"), &[0]),
    (Call::Write(0, b"12"), b"DONE"),
    (Call::Attach("first"), &[5]),
    (Call::Read(1, 3), b"bXY"),
    (Call::Load("first"), b"abXYZ"),
    (Call::Load("second"), b"12"),
    (Call::Load("third"), b"ABSENT"),
];

#[test]
fn a_store_is_a_file(rt: HostRuntime) -> Result<(), Fail> {
    let mut stage = with_file(rt.alloc(), 99, 99, "first", b"abc")?;
    attach(&rt, &mut stage, "first", 3);
    answers(&rt, rt.alloc(), &mut stage, &OF_FILES)?;
    assert_eq!(rt; stage.written(), 5);
    Ok(())
}

/// Calls between crashes, and what they answer.
static WITH_CRASHES: [(Call<'static>, &[u8]); 11] = [
    (Call::Crash, b"abcdef\nabcdef\nabcdef\nabcdef\n"),
    (Call::Write(1, b"XY"), b"DONE"),
    (Call::Write(6, b"gh"), b"DONE"),
    (
        Call::Crash,
        b"abcdef\naXYdefgh\na\xFF\xFFdef\xFF\xFF\na\xFF\xFFdef\xFF\xFF\n",
    ),
    (Call::Sync, b"DONE"),
    (Call::Write(0, b"1"), b"DONE"),
    (
        Call::Crash,
        b"aXYdefgh\n1XYdefgh\n\xFFXYdefgh\n\xFFXYdefgh\n",
    ),
    (Call::Save("other", b"x"), b"DONE"),
    (
        Call::Crash,
        b"aXYdefgh\n1XYdefgh\n\xFFXYdefgh\n\xFFXYdefgh\n",
    ),
    (Call::Save("store", b"new"), b"DONE"),
    (Call::Crash, b"new\nnew\nnew\nnew\n"),
];

#[test]
fn a_crash_leaves_by_its_pick(rt: HostRuntime) -> Result<(), Fail> {
    let mut stage = with_file(rt.alloc(), 99, 99, "store", b"abcdef")?;
    let none = crashes(&stage, rt.alloc())?;
    assert_eq!(rt; none.as_slice(), b"\n\n\n\n".as_slice());
    attach(&rt, &mut stage, "store", 6);
    answers(&rt, rt.alloc(), &mut stage, &WITH_CRASHES)
}

/// Calls up to the last that there is room for, and others, and what they answer.
static OF_TOO_MANY: [(Call<'static>, &[u8]); 9] = [
    (Call::Write(0, b"XYZ"), b"FAILED"),
    (Call::Write(1, b"XY"), b"DONE"),
    (Call::Write(0, b"X"), b"FAILED"),
    (Call::Attach("s"), b"FAILED"),
    (Call::Read(0, 3), b"aXY"),
    (Call::Read(0, 3), b"FAILED"),
    (Call::Write(0, b""), b"FAILED"),
    (Call::Sync, b"FAILED"),
    (Call::Crash, b"aXY\naXY\naXY\naXY\n"),
];

// The second store isn't attached where there is no room, once the first is synced.
#[test]
fn the_store_fails_where_the_room_is_used_up(rt: HostRuntime) -> Result<(), Fail> {
    let mut stage = with_file(rt.alloc(), 4, 7, "store", b"abc")?;
    attach(&rt, &mut stage, "store", 3);
    answers(&rt, rt.alloc(), &mut stage, &OF_TOO_MANY)?;
    assert_eq!(rt; stage.written(), 2);
    Ok(())
}

// What crashes right after calls up to the one of this number leave by a pick, each with a line end, or a word in
// capitals.
fn crashes_after(stage: &MemoryStage, alloc: Global, last: u64, pick: u8) -> Result<Vec<u8>, Fail> {
    let mut left = Vec::new(alloc);
    for call in 0..=last {
        match stage.crash_after(alloc, call, pick)? {
            None => left.extend_from_slice(b"NONE")?,
            Some(bytes) => left.extend_from_slice(bytes.as_slice())?,
        }
        left.push(b'\n')?;
    }
    Ok(left)
}

// Checks what crashes right after calls up to this one leave by a pick.
fn crashes_leave(
    rt: &impl Abort,
    alloc: Global,
    stage: &MemoryStage,
    (last, pick, want): (u64, u8, &[u8]),
) -> Result<(), Fail> {
    let left = crashes_after(stage, alloc, last, pick)?;
    assert_eq!(rt; left.as_slice(), want, "{pick}");
    Ok(())
}

// The calls 0 and 1, before a store is attached.
fn load_twice(rt: &impl Abort, alloc: Global, stage: &mut MemoryStage)
    requires stable { IsStable (standing_of stage.old).disk }
    ensures stable { IsStable (standing_of stage.new).disk }
{
    assert!(rt; stage.load(alloc, "store", 9).is_ok());
    assert!(rt; stage.load(alloc, "absent", 9).is_err());
    assert_eq!(rt; stage.calls(), 2);
}

/// The calls 3 to 5.
static WRITES: [(Call<'static>, &[u8]); 3] = [
    (Call::Write(1, b"XY"), b"DONE"),
    (Call::Sync, b"DONE"),
    (Call::Write(0, b"1"), b"DONE"),
];

// The calls 6 and 7, with files that are added before them, and a call that is Failed, which has no number.
fn show_and_save(rt: &impl Abort, stage: &mut MemoryStage) -> Result<(), Fail> {
    stage.add_file("other", b"x")?;
    assert!(rt; stage.show(&[b'.'; 99]).is_err());
    assert_eq!(rt; stage.calls(), 6);
    assert!(rt; stage.show(b"Hall.").is_ok());
    stage.add_file("store", b"new")?;
    assert!(rt; stage.save("other", b"y").is_ok());
    assert_eq!(rt; stage.calls(), 8);
    Ok(())
}

/// The last of the calls after which there is a crash, its pick, and what is left of the store after each.
static LEFT: [(u64, u8, &[u8]); 3] = [
    (
        8,
        0,
        b"NONE\nNONE\nabcdef\nabcdef\naXYdef\naXYdef\naXYdef\nnew\nNONE\n",
    ),
    (
        8,
        1,
        b"NONE\nNONE\nabcdef\naXYdef\naXYdef\n1XYdef\n1XYdef\nnew\nNONE\n",
    ),
    (
        8,
        2,
        b"NONE\nNONE\nabcdef\na\xFF\xFFdef\naXYdef\n\xFFXYdef\n\xFFXYdef\nnew\nNONE\n",
    ),
];

#[test]
fn a_crash_comes_right_after_a_call(rt: HostRuntime) -> Result<(), Fail> {
    let mut stage = with_file(rt.alloc(), 99, 99, "store", b"abcdef")?;
    load_twice(&rt, rt.alloc(), &mut stage);
    attach(&rt, &mut stage, "store", 6);
    answers(&rt, rt.alloc(), &mut stage, &WRITES)?;
    show_and_save(&rt, &mut stage)?;
    for &row in &LEFT {
        crashes_leave(&rt, rt.alloc(), &stage, row)?;
    }
    Ok(())
}

// Where there are two calls at most: the attach, and a write.
fn attach_and_write(rt: &impl Abort, alloc: Global, stage: &mut MemoryStage) -> Result<(), Fail>
    requires stable { IsStable (standing_of stage.old).disk }
{
    attach(rt, stage, "store", 0);
    crashes_leave(rt, alloc, stage, (1, 1, b"\nNONE\n"))?;
    let calls: [(Call<'_>, &[u8]); 2] = [(Call::Write(0, b"a"), b"DONE"), (Call::Sync, b"FAILED")];
    answers(rt, alloc, stage, &calls)?;
    crashes_leave(rt, alloc, stage, (2, 1, b"\na\nNONE\n"))
}

#[test]
fn the_first_call_of_a_stage_has_number_0(rt: HostRuntime) -> Result<(), Fail> {
    let mut stage = MemoryStage::new(rt.alloc(), 2, 9)?;
    crashes_leave(&rt, rt.alloc(), &stage, (1, 1, b"NONE\nNONE\n"))?;
    attach_and_write(&rt, rt.alloc(), &mut stage)
}
