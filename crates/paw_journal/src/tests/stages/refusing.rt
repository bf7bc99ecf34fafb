// Stages of which some calls are made to fail.

ghost use Rattle.std.specs.Prelude.{IfOk};
ghost use Rattle.paw_stage.specs.Disk.{IsStable};
ghost use Rattle.paw_stage.specs.inner.Memory.{standing_of};

use paw_base::fault::NoRoom;
use paw_stage::{Asked, FailStage, MemoryStage, Stage, StopStage};
use std::alloc::Global;
use std::process::Abort;
use std::test::Fail;

// How many of these calls in a row are answered well: attach a store, write three bytes to it, sync it, and read them.
fn calls_done<S: Stage>(stage: &mut S) -> u64
    requires stable { S.Tells stage.old → IsStable (S.standing stage.old).disk }
{
    if stage.attach("store").is_err() {
        return 0;
    }
    if stage.write_at(0, b"abc").is_err() {
        return 1;
    }
    if stage.sync().is_err() {
        return 2;
    }
    let mut bytes = [0u8; 3];
    if stage.read_at(0, &mut bytes).is_err() || bytes != *b"abc" {
        return 3;
    }
    4
}

// How many of these calls are answered well: ask for a line, show a text, save a file, and load it.
fn others_done<S: Stage>(stage: &mut S, alloc: Global) -> u64 {
    let mut line = [0u8; 255];
    let asked = stage.ask(&mut line) == Asked::Line(4);
    let shown = stage.show(b"Hall.").is_ok();
    let saved = stage.save("game", b"bytes").is_ok();
    let loaded = stage.load(alloc, "game", 9).is_ok();
    u64::from(asked) + u64::from(shown) + u64::from(saved) + u64::from(loaded)
}

fn with_line(alloc: Global) -> Result<MemoryStage, NoRoom>
    ensures stable { IfOk result (λ s. IsStable (standing_of s).disk) }
{
    let mut stage = MemoryStage::new(alloc, 20, 100)?;
    stage.add_line(alloc, b"look")?;
    Ok(stage)
}

/// After how many calls a stage stops, how many bytes are written then, and how many of the other calls are answered
/// well.
static STOPS: [(u64, u64, u64); 8] = [
    (0, 0, 0),
    (1, 0, 0),
    (2, 3, 0),
    (3, 3, 0),
    (4, 3, 0),
    (6, 3, 2),
    (8, 3, 4),
    (u64::MAX, 3, 4),
];

// Checks what is done of a stage that stops after this number of calls.
fn stops_after(
    rt: &impl Abort,
    alloc: Global,
    stage: &mut StopStage,
    (passes, written, others): (u64, u64, u64),
) {
    assert_eq!(rt; others_done(stage, alloc), others, "{passes}");
    assert_eq!(rt; stage.inner().written(), written, "{passes}");
}

#[test]
fn a_stage_stops_after_so_many_calls(rt: HostRuntime) -> Result<(), Fail> {
    for &row in &STOPS {
        let mut stage = StopStage::new(with_line(rt.alloc())?, row.0);
        let done = calls_done(&mut stage);
        assert_eq!(rt; done, row.0.min(4));
        stops_after(&rt, rt.alloc(), &mut stage, row);
    }
    Ok(())
}

/// The number of the call that fails, and how many of the other calls are answered well.
static LISTED: [(u64, u64); 6] = [(0, 4), (1, 4), (2, 4), (3, 4), (5, 3), (9, 4)];

#[test]
fn one_listed_call_fails_and_later_ones_pass(rt: HostRuntime) -> Result<(), Fail> {
    for &(listed, others) in &LISTED {
        let mut stage = FailStage::new(with_line(rt.alloc())?, [listed].to_vec(rt.alloc())?);
        let done = calls_done(&mut stage);
        let others_too = others_done(&mut stage, rt.alloc());
        assert_eq!(rt; (done, others_too), (listed.min(4), others), "{listed}");
    }
    Ok(())
}

// Checks what a crash right after a call leaves, where the stage above stopped.
fn crash_leaves(
    rt: &impl Abort,
    alloc: Global,
    stage: &MemoryStage,
    (call, want): (u64, Option<&[u8]>),
) -> Result<(), Fail> {
    let left = stage.crash_after(alloc, call, 1)?;
    assert_eq!(rt; left.as_ref().map(|bytes| bytes.as_slice()), want, "{call}");
    Ok(())
}

#[test]
fn a_call_that_is_made_to_fail_is_no_call_below(rt: HostRuntime) -> Result<(), Fail> {
    let mut stage = StopStage::new(with_line(rt.alloc())?, 2);
    assert_eq!(rt; calls_done(&mut stage), 2);
    assert_eq!(rt; stage.inner().calls(), 2);
    crash_leaves(&rt, rt.alloc(), stage.inner(), (0, Some(b"")))?;
    crash_leaves(&rt, rt.alloc(), stage.inner(), (1, Some(b"abc")))?;
    crash_leaves(&rt, rt.alloc(), stage.inner(), (2, None))
}
