// A session that stops at each call of a command, one by one, and what a crash there leaves of it.

use crate::tests::running::{run, settle, settle_and_run};
use crate::tests::sessions::{RESUME, earlier_form, stage_of};
use paw_stage::{FailStage, StageCall, StopStage};
use paw_top::outcome::Outcome;
use std::alloc::Global;
use std::process::Abort;
use std::test::Fail;

/// More calls than any command here makes.
const MOST_CALLS: u64 = 60;

// The calls that a command makes, in their order: it stops at each of them if that one fails, and names it.
fn calls_of(
    rt: &impl Abort,
    alloc: Global,
    store: &[u8],
    words: &str,
    lines: &str,
) -> Result<Vec<StageCall>, Fail> {
    let mut calls = Vec::new(alloc);
    for number in 0..MOST_CALLS {
        let mut settled = stage_of(rt, alloc, store, lines)?;
        settle(rt, &mut settled);
        let listed = [number].to_vec(alloc)?;
        let mut stage = FailStage::new(settled, listed);
        match run(alloc, &mut stage, words)? {
            Outcome::Outside(call) => calls.push(call)?,
            _ => return Ok(calls),
        }
    }
    Ok(calls)
}

/// Lines for a session of the earlier form, and what is shown once none, one and two of them were taken.
const ANSWERS: &str = "Y\nN";

const SHOWN: [&str; 3] = ["Sure? ", "Done.\nSure? ", ">\n"];

// What is shown for this number of lines.
fn shown_for(taken: usize) -> Result<&'static str, Fail> {
    Ok(*SHOWN.get(taken).ok_or("too many lines")?)
}

// Checks that the last piece of a session is shown again, and is one of these two.
fn shows_either(
    rt: &impl Abort,
    alloc: Global,
    store: &[u8],
    (one, other): (&str, &str),
) -> Result<(), Fail> {
    let mut stage = stage_of(rt, alloc, store, "")?;
    let before = stage.shown().len();
    let outcome = settle_and_run(rt, alloc, &mut stage, RESUME)?;
    assert_eq!(rt; outcome, Outcome::InputEnded);
    let shown = stage.shown().get(before..).unwrap_or(b"");
    assert!(rt; shown == one.as_bytes() || shown == other.as_bytes());
    Ok(())
}

// Checks that, if a resume of a session of the earlier form stops after this number of calls, whatever a crash leaves
// shows one of two pieces.
fn stops_after(
    rt: &impl Abort,
    alloc: Global,
    earlier: &[u8],
    passes: u64,
    either: (&str, &str),
) -> Result<Outcome, Fail> {
    let mut settled = stage_of(rt, alloc, earlier, ANSWERS)?;
    settle(rt, &mut settled);
    let mut stage = StopStage::new(settled, passes);
    let outcome = run(alloc, &mut stage, RESUME)?;
    for pick in 0..3u8 {
        let crashed = stage.inner().crash(alloc, pick)?;
        let left = match crashed.is_empty() {
            // Nothing is attached yet, so the store is as it was.
            true => earlier,
            false => crashed.as_slice(),
        };
        shows_either(rt, alloc, left, either)?;
    }
    Ok(outcome)
}

#[test]
fn a_resume_of_the_earlier_form_stops_anywhere(rt: HostRuntime) -> Result<(), Fail> {
    let alloc = rt.alloc();
    let earlier = earlier_form(&rt, alloc)?;
    let earlier = earlier.as_slice();
    let calls = calls_of(&rt, alloc, earlier, RESUME, ANSWERS)?;
    let mut taken = 0usize;
    for (passes, call) in calls.as_slice().iter().enumerate() {
        let asks = *call == StageCall::Ask;
        let least = if asks { taken } else { taken.saturating_sub(1) };
        let either = (shown_for(least)?, shown_for(taken)?);
        let outcome = stops_after(&rt, alloc, earlier, passes as u64, either)?;
        assert_eq!(rt; outcome, Outcome::Outside(*call));
        taken = taken.saturating_add(usize::from(asks));
    }
    // The last call finds no line left.
    assert_eq!(rt; taken, 3);
    Ok(())
}
