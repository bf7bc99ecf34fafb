// Commands over stages, for tests.

ghost use Rattle.paw_stage.specs.Disk.{IsStable};

use crate::outcome::Outcome;
use crate::top::paw;
use paw_routines::program::{ROUTINES, give};
use paw_routines::routines::Routines;
use paw_stage::Stage;
use std::alloc::{AllocError, Global};
use std::process::Abort;

/// Syncs the attached store, if there is one, so that a command may begin.
pub fn settle<S: Stage>(rt: &impl Abort, stage: &mut S)
    ensures synced { S.Tells stage.new → IsStable (S.standing stage.new).disk }
{
    assert!(rt; stage.sync().is_ok());
}

// The words of a command, which stand in a line each.
fn words_of(alloc: Global, lines: &str) -> Result<Vec<String>, AllocError> {
    let mut words = Vec::new(alloc);
    for word in lines.lines() {
        words.push(String::from_str(alloc, word)?)?;
    }
    Ok(words)
}

/// How a command ends, given its words, one in each line, and the program's routines, where nothing is unsynced.
pub fn run<S: Stage>(alloc: Global, stage: &mut S, words: &str) -> Result<Outcome, AllocError>
    requires synced { S.Tells stage.old → IsStable (S.standing stage.old).disk }
{
    let words = words_of(alloc, words)?;
    let routines = Routines::new(ROUTINES, give);
    Ok(paw(alloc, stage, &routines, words.as_slice()))
}

/// The same, where the attached store is synced first.
pub fn settle_and_run<S: Stage>(
    rt: &impl Abort,
    alloc: Global,
    stage: &mut S,
    words: &str,
) -> Result<Outcome, AllocError> {
    settle(rt, stage);
    run(alloc, stage, words)
}

/// Compares how a command ended, and what it showed, with what is expected.
pub fn compare(rt: &impl Abort, came: (Outcome, &[u8]), wanted: (Outcome, &[u8]), command: &str) {
    assert_eq!(rt; came.0, wanted.0, "{command:?}");
    assert_eq!(rt; came.1, wanted.1, "{command:?}");
}
