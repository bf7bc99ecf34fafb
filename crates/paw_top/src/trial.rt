// Playing a trial.

ghost use Rattle.std.specs.Prelude.{◌≡◌, ◌≢◌, ℕ, [], ◌∷◌, None};
ghost use Rattle.paw_stage.specs.Stage.{Standing};
ghost use Rattle.paw_stage.specs.declared.StageCall.TheVariants as call;
ghost use Rattle.paw_stage.specs.AcrossCalls.{FailsOnlyBy, IsOneOf};
ghost use Rattle.paw_trial.specs.Trial.{trial_reading};
ghost use Rattle.paw_trial.specs.inner.Trial.{TrialStopsAs};
ghost use Rattle.paw_top.specs.Answers.{IfMemory, failed_call};
ghost use Rattle.paw_top.specs.Tries.{Tries};
ghost use Rattle.paw_top.specs.declared.outcome.MemoryAt.TheVariants as memory;
ghost use Rattle.paw_top.specs.declared.outcome.Outcome.TheVariants as outcome;

use crate::outcome::{MemoryAt, Outcome, outcome_of_halt};
use crate::show::show_text;
use paw_stage::Stage;
use paw_trial::{TrialEnd, halt_of, trial_line};
use std::alloc::Global;

// The outcome for a trial that shows no line.
fn stopped_as(end: TrialEnd) -> Outcome
    ensures form { result ≢ outcome.Usage }
    ensures memory { IfMemory result (IsOneOf (memory.Trial ∷ [])) }
    ensures fine { failed_call result ≡ None }
    ensures tries { (n : ℕ) (s : Standing) → TrialStopsAs end (trial_reading n) → Tries n s s result }
{
    match halt_of(end) {
        Some(halt) => outcome_of_halt(halt),
        None => Outcome::Memory(MemoryAt::Trial),
    }
}

/// Plays the trial of this number, and shows its line.
pub(crate) fn trial<S: Stage>(alloc: Global, stage: &mut S, n: u16) -> Outcome
    ensures serves { FailsOnlyBy S.Stage (call.Show ∷ []) (failed_call result) stage.old stage.new }
    ensures form { result ≢ outcome.Usage }
    ensures memory { IfMemory result (IsOneOf (memory.Trial ∷ [])) }
    ensures tries { S.Tells stage.old → Tries n (S.standing stage.old) (S.standing stage.new) result }
{
    match trial_line(alloc, n) {
        Ok(line) => show_text(stage, line.as_bytes()),
        Err(end) => stopped_as(end),
    }
}
