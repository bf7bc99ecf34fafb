// Playing the two halves of a trial, with a session in a stage in memory.

ghost use Rattle.std.specs.Prelude.{◌≡◌, ◌++◌, [], IfOk, OnOk};
ghost use Rattle.paw_stage.specs.Disk.{IsStable};
ghost use Rattle.paw_stage.specs.inner.Memory.{empty, standing_of};
ghost use Rattle.paw_routines.specs.Routines.{AreAnswersOf};
ghost use Rattle.paw_trial.specs.inner.Session.{lines_by, IsReadyFor, PlaysHalf, HoldsOrStops};
ghost use Rattle.paw_trial.specs.inner.Session.{stop_early, stop_of};

use crate::setup::{Half, TrialSetup};
use crate::{TrialEnd, end_of};
use paw_base::fault::NoRoom;
use paw_game::parts::Text;
use paw_play::play::play_loop;
use paw_play::resume::resume_loop;
use paw_play::{PlayEnd, halt_of};
use paw_routines::routines::Routines;
use paw_stage::MemoryStage;
use std::alloc::Global;

/// The name of the store.
pub(crate) const STORE: &str = "trial";

/// The number of calls that the stage has room for: more than any trial makes.
const CALLS: u64 = 4000;

/// The number of bytes that it has room for: more than any trial hands to its calls.
const BYTES: u64 = 16_000_000;

/// A stage for a trial.
pub(crate) fn new_stage(alloc: Global) -> Result<MemoryStage, NoRoom>
    ensures empty { IfOk result (λ s. s ≡ empty 4000 16000000) }
{
    MemoryStage::new(alloc, CALLS, BYTES)
}

// Adds lines to those that are left.
fn add_lines(alloc: Global, stage: &mut MemoryStage, lines: &[Text]) -> Result<(), NoRoom>
    ensures added { OnOk result (stage.new ≡ record stage.old { lines = stage.old.lines ++ lines.now }) }
{
    for line in lines {
        stage.add_line(alloc, line.rows.as_slice())?;
    }
    Ok(())
}

// How a trial stops where playing ends this way before its lines are taken: with its halt or, without one, for lack of
// memory or of the stage's room.
fn stop_early(end: PlayEnd) -> TrialEnd
    ensures value { result ≡ stop_early end }
{
    match halt_of(end) {
        Some(halt) => end_of(halt),
        None => TrialEnd::Memory,
    }
}

// How a trial stops where playing ends this way; None where no line is left.
fn stop_of(end: PlayEnd) -> Option<TrialEnd>
    ensures value { result ≡ stop_of end }
{
    match end {
        PlayEnd::InputEnded => None,
        PlayEnd::Ended
        | PlayEnd::Spent(_)
        | PlayEnd::TooDeep { .. }
        | PlayEnd::Occupied { .. }
        | PlayEnd::Refused(_)
        | PlayEnd::State { .. }
        | PlayEnd::Long { .. }
        | PlayEnd::Outside(_)
        | PlayEnd::Memory => Some(stop_early(end)),
    }
}

// Plays the lines that are left, with no routines: the first half with a new session, and the second with that session
// resumed.
fn play_lines<F: Fn(u8, u8) -> u8>(
    alloc: Global,
    setting: &TrialSetup,
    half: Half,
    routines: &Routines<F>,
    stage: &mut MemoryStage,
) -> PlayEnd
    requires answers { AreAnswersOf F.Fn routines.now [] }
    requires stable { IsStable (standing_of stage.old).disk }
    ensures plays { PlaysHalf half setting.now (standing_of stage.old) (standing_of stage.new) result }
{
    let game = setting.game();
    let digest = setting.digest();
    let seed = u64::from(setting.number());
    match half {
        Half::First => play_loop(alloc, stage, game, routines, seed, digest, STORE),
        Half::Second => resume_loop(alloc, stage, game, routines, digest, STORE),
    }
}

/// Plays a half of the lines. None where the session then waits for another line.
pub(crate) fn play_half<F: Fn(u8, u8) -> u8>(
    alloc: Global,
    setting: &TrialSetup,
    half: Half,
    routines: &Routines<F>,
    stage: &mut MemoryStage,
) -> Option<TrialEnd>
    requires answers { AreAnswersOf F.Fn routines.now [] }
    requires ready { IsReadyFor half setting.now stage.old }
    ensures plays { HoldsOrStops setting.now (lines_by half setting.now) (standing_of stage.new) result }
{
    let Ok(()) = add_lines(alloc, stage, setting.half(half)) else {
        return Some(TrialEnd::Memory);
    };
    stop_of(play_lines(alloc, setting, half, routines, stage))
}
