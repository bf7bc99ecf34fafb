// A store that is a real file.

use paw_stage::{LoadRefusal, RealStage, Stage};
use std::alloc::{Alloc, AllocError, Global};
use std::fs::{self, File};
use std::io;
use std::os::unix::fs::symlink;
use std::process::Abort;
use std::rt::Files;
use std::test::Fail;

#[derive(Clone, Copy)]
enum Call<'a> {
    Attach(&'a str),
    Read(u64, usize),
    Write(u64, &'a [u8]),
    Sync,
    Load(&'a str),
    Save(&'a str, &'a [u8]),
}

// What a call answers: the bytes that it gives, the length of a store as one byte, or a word in capitals.
fn answer_of_call<R: Files<File = File> + Input + Print + Alloc + Drop>(
    stage: &mut RealStage<R>,
    alloc: Global,
    call: Call<'_>,
) -> Result<Vec<u8>, AllocError> {
    match call {
        Call::Attach(name) => match stage.attach(name) {
            Ok(length) => Vec::from_slice(alloc, &[length.min(255) as u8]),
            Err(_) => word(alloc, false),
        },
        Call::Read(at, n) => read(stage, alloc, at, n),
        Call::Write(at, bytes) => word(alloc, stage.write_at(at, bytes).is_ok()),
        Call::Sync => word(alloc, stage.sync().is_ok()),
        Call::Load(name) => match stage.load(alloc, name, 99) {
            Ok(bytes) => Ok(bytes),
            Err(LoadRefusal::Memory) => Err(AllocError),
            Err(_) => word(alloc, false),
        },
        Call::Save(name, bytes) => word(alloc, stage.save(name, bytes).is_ok()),
    }
}

// Checks that these calls in a row answer so.
fn answers<R: Files<File = File> + Input + Print + Alloc + Drop>(
    rt: &impl Abort,
    alloc: Global,
    stage: &mut RealStage<R>,
    calls: &[(Call<'_>, &[u8])],
) -> Result<(), Fail> {
    for (at, &(call, want)) in calls.iter().enumerate() {
        let answer = answer_of_call(stage, alloc, call)?;
        assert_eq!(rt; answer.as_slice(), want, "call {at}");
    }
    Ok(())
}

fn read<R: Files<File = File> + Input + Print + Alloc + Drop>(
    stage: &mut RealStage<R>,
    alloc: Global,
    at: u64,
    n: usize,
) -> Result<Vec<u8>, AllocError> {
    let mut bytes = vec![in alloc; 0; n]?;
    match stage.read_at(at, bytes.as_mut_slice()) {
        Ok(()) => Ok(bytes),
        Err(_) => word(alloc, false),
    }
}

// Removes these files.
fn remove(files: &impl Files, names: &[&str]) -> io::Result<()> {
    for &name in names {
        fs::remove_file(files, name)?;
    }
    Ok(())
}

fn word(alloc: Global, fine: bool) -> Result<Vec<u8>, AllocError> {
    Vec::from_slice(alloc, if fine { b"DONE" } else { b"FAILED" })
}

/// Calls over two files, and what they answer.
static OF_FILES: [(Call<'static>, &[u8]); 33] = [
    (Call::Read(0, 0), b"FAILED"),
    (Call::Write(0, b"x"), b"FAILED"),
    (Call::Sync, b"FAILED"),
    (Call::Attach("./paw_stage_store"), &[0]),
    (Call::Read(0, 0), b""),
    (Call::Read(0, 1), b"FAILED"),
    (Call::Write(0, b"abcdef"), b"DONE"),
    (Call::Read(2, 3), b"cde"),
    (Call::Write(4, b"XYZ"), b"DONE"),
    (Call::Sync, b"DONE"),
    (Call::Read(0, 7), b"abcdXYZ"),
    (Call::Read(0, 8), b"FAILED"),
    (Call::Read(u64::MAX, 1), b"FAILED"),
    (Call::Write(u64::MAX, b"x"), b"FAILED"),
    (Call::Attach("paw_stage_other"), &[0]),
    (Call::Write(0, b"other"), b"DONE"),
    (Call::Sync, b"DONE"),
    (Call::Attach("paw_stage_store"), &[7]),
    (Call::Read(3, 2), b"dX"),
    (Call::Attach("paw_stage_store/game"), b"FAILED"),
    (Call::Attach("paw_stage_no_folder/game"), b"FAILED"),
    (Call::Attach("."), b"FAILED"),
    (Call::Attach("/dev/null"), b"FAILED"),
    (Call::Read(0, 1), b"FAILED"),
    (Call::Attach("paw_stage_store"), &[7]),
    (Call::Read(0, 1), b"a"),
    (Call::Load("paw_stage_store"), b"abcdXYZ"),
    (Call::Save("paw_stage_store", b"new"), b"FAILED"),
    (Call::Read(0, 3), b"abc"),
    (Call::Write(3, b"er"), b"DONE"),
    (Call::Load("paw_stage_store"), b"abcerYZ"),
    (Call::Read(0, 8), b"FAILED"),
    (Call::Load("paw_stage_other"), b"other"),
];

#[test]
fn a_real_file_is_a_store(rt: HostRuntime) -> Result<(), Fail> {
    let mut stage = RealStage::new(&rt);
    answers(&rt, rt.alloc(), &mut stage, &OF_FILES)?;
    remove(&rt, &["paw_stage_store", "paw_stage_other"])?;
    Ok(())
}

// Checks that the first stage has each of these stores in turn, and the other one none of them.
fn has_alone<R: Files<File = File> + Input + Print + Alloc + Drop>(
    rt: &impl Abort,
    first: &mut RealStage<R>,
    other: &mut RealStage<R>,
    names: &[&str],
) {
    for &name in names {
        assert!(rt; first.attach(name).is_ok(), "{name}");
        assert!(rt; other.attach(name).is_err(), "{name}");
    }
}

/// The stores of the first stage, and two that it has at the same time.
static LOCKED: [&str; 5] = [
    "paw_stage_locked",
    "./paw_stage_locked",
    "paw_stage_locked_link",
    "paw_stage_unlocked",
    "paw_stage_locked",
];

/// The files that are left of them.
static LEFT_OF_LOCKED: [&str; 3] = [
    "paw_stage_locked_link",
    "paw_stage_locked",
    "paw_stage_unlocked",
];

// The first stage has each of its stores alone, until it is dropped.
fn first_has_alone<R: Files<File = File> + Input + Print + Alloc + Drop>(
    rt: &impl Abort,
    mut first: RealStage<R>,
    other: &mut RealStage<R>,
) {
    has_alone(rt, &mut first, other, &LOCKED);
    assert!(rt; other.attach("paw_stage_unlocked").is_ok());
    assert!(rt; other.attach("paw_stage_locked").is_err());
    assert!(rt; first.write_at(0, b"bytes").is_ok());
}

// The other stage stands for another program: an open of a file of its own is what a lock is held by.
#[test]
fn one_program_at_a_time_has_a_store(rt: HostRuntime) -> Result<(), Fail> {
    symlink(&rt, "paw_stage_locked", "paw_stage_locked_link")?;
    let mut other = RealStage::new(&rt);
    first_has_alone(&rt, RealStage::new(&rt), &mut other);
    assert_eq!(rt; other.attach("paw_stage_locked").ok(), Some(5));
    remove(&rt, &LEFT_OF_LOCKED)?;
    Ok(())
}

// Makes a folder, a link to a file in it, and one to a file in a folder that isn't there.
fn make_links(files: &impl Files) -> io::Result<()> {
    fs::create_dir(files, "paw_stage_folder")?;
    symlink(files, "paw_stage_folder/store", "paw_stage_link")?;
    symlink(files, "paw_stage_no_folder/store", "paw_stage_dead")
}

// Removes them, and the file in the folder.
fn remove_links(files: &impl Files) -> io::Result<()> {
    remove(
        files,
        &["paw_stage_link", "paw_stage_dead", "paw_stage_folder/store"],
    )?;
    fs::remove_dir(files, "paw_stage_folder")
}

/// Calls over links and what they lead to, and what they answer. A store isn't saved over until it is let go.
static OF_LINKS: [(Call<'static>, &[u8]); 10] = [
    (Call::Attach("paw_stage_link"), &[0]),
    (Call::Write(0, b"abc"), b"DONE"),
    (Call::Sync, b"DONE"),
    (Call::Attach("paw_stage_folder/store"), &[3]),
    (Call::Attach("paw_stage_link"), &[3]),
    (Call::Save("paw_stage_link", b"longer"), b"FAILED"),
    (Call::Attach("paw_stage_dead"), b"FAILED"),
    (Call::Save("paw_stage_link", b"longer"), b"DONE"),
    (Call::Load("paw_stage_folder/store"), b"longer"),
    (Call::Save("paw_stage_dead", b"x"), b"FAILED"),
];

// A link that leads nowhere makes the file that it names, in the folder of that name.
#[test]
fn a_link_is_the_file_that_it_leads_to(rt: HostRuntime) -> Result<(), Fail> {
    make_links(&rt)?;
    let mut stage = RealStage::new(&rt);
    answers(&rt, rt.alloc(), &mut stage, &OF_LINKS)?;
    remove_links(&rt)?;
    Ok(())
}

// Saves a text, and loads it.
fn save_and_load<R: Files<File = File> + Input + Print + Alloc + Drop>(
    rt: &impl Abort,
    alloc: Global,
    mut stage: RealStage<R>,
    text: &[u8],
) -> Result<(), Fail> {
    let calls = [
        (Call::Save("paw_stage_saved", text), b"DONE".as_slice()),
        (Call::Load("paw_stage_saved"), text),
    ];
    answers(rt, alloc, &mut stage, &calls)
}

/// Texts that are saved in turn, each by a stage of its own: over a shorter file, one of the same length, a longer one and an empty one.
static SAVED: [&[u8]; 7] = [b"ab", b"abcdef", b"ABCDEF", b"xyz", b"", b"", b"end"];

#[test]
fn a_file_holds_what_was_saved_last(rt: HostRuntime) -> Result<(), Fail> {
    for &text in &SAVED {
        save_and_load(&rt, rt.alloc(), RealStage::new(&rt), text)?;
    }
    let mut stage = RealStage::new(&rt);
    let full: [(Call<'_>, &[u8]); 1] = [(Call::Save("/dev/full", b"x"), b"FAILED")];
    answers(&rt, rt.alloc(), &mut stage, &full)?;
    fs::remove_file(&rt, "paw_stage_saved")?;
    Ok(())
}
