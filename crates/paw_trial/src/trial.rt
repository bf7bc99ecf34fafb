// A trial from its number to its line.

ghost use Rattle.std.specs.Prelude.{IfOk, IfErr, string_bytes};
ghost use Rattle.paw_trial.specs.Trial.{trial_reading};
ghost use Rattle.paw_trial.specs.inner.Trial.{IsTextOf, TrialStopsAs};
ghost use Rattle.paw_trial.specs.inner.Session.{IsTallyOf};

use crate::counting::count_session;
use crate::halves::{new_stage, play_half};
use crate::setup::{Half, TrialSetup};
use crate::{Tally, TrialEnd};
use paw_base::fault::NoRoom;
use paw_gen::{line_count, location_count, object_count};
use paw_routines::routines::Routines;
use std::alloc::Global;

// The line of a trial whose session counts this.
fn line_of(alloc: Global, n: u16, tally: Tally) -> Result<String, NoRoom>
    requires tally { IsTallyOf (trial_reading n) tally }
    ensures text { IfOk result (λ line. IsTextOf n (trial_reading n) (string_bytes line)) }
{
    let locations = location_count(n);
    let objects = object_count(n);
    let events = line_count(n);
    let turns = tally.turns;
    let at = tally.at;
    let carried = tally.carried;
    let Ok(line) = format!(in alloc;
        "TRIAL {n}: {locations} locations, {objects} objects, {events} events, {turns} turns, at {at} with {carried}\n"
    ) else {
        return Err(NoRoom);
    };
    Ok(line)
}

// Plays both halves, and gives what the session counts then.
fn play_halves(alloc: Global, n: u16) -> Result<Tally, TrialEnd>
    ensures counts { IfOk result (IsTallyOf (trial_reading n)) }
    ensures stops { IfErr result (λ e. TrialStopsAs e (trial_reading n)) }
{
    let Ok(setting) = TrialSetup::new(alloc, n) else {
        return Err(TrialEnd::Memory);
    };
    let Ok(mut stage) = new_stage(alloc) else {
        return Err(TrialEnd::Memory);
    };
    // The game calls no routine.
    let routines = Routines::new(0, |_, x| x);
    if let Some(end) = play_half(alloc, &setting, Half::First, &routines, &mut stage) {
        return Err(end);
    }
    if let Some(end) = play_half(alloc, &setting, Half::Second, &routines, &mut stage) {
        return Err(end);
    }
    match count_session(alloc, &setting, &routines, &mut stage) {
        Ok(tally) => Ok(tally),
        Err(NoRoom) => Err(TrialEnd::Memory),
    }
}

/// Makes a large game and its lines from a number, plays the first half of them over a stage in memory, resumes the
/// session there for the rest, and gives a line with what that session counts. The reading of the game with all lines
/// counts the same.
///
/// # Errors
/// Ended, Spent and TooDeep where that reading ends so. Memory for lack of memory, or where a call of the stage failed.
pub fn trial_line(alloc: Global, n: u16) -> Result<String, TrialEnd>
    ensures line { IfOk result (λ line. IsTextOf n (trial_reading n) (string_bytes line)) }
    ensures stops { IfErr result (λ e. TrialStopsAs e (trial_reading n)) }
{
    let tally = play_halves(alloc, n)?;
    match line_of(alloc, n, tally) {
        Ok(line) => Ok(line),
        Err(NoRoom) => Err(TrialEnd::Memory),
    }
}
