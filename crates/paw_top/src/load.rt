// Loading a file.

ghost use Rattle.std.specs.Prelude.{◌≢◌, IfOk, IfErr};
ghost use Rattle.paw_stage.specs.Stage.{Still};
ghost use Rattle.paw_stage.specs.AcrossCalls.{IfTelling, FailsOnlyBy, IsOneOf};
ghost use Rattle.paw_stage.specs.inner.AcrossCalls.{AtEachMoment};
ghost use Rattle.paw_stage.specs.Loads.{load_calls};
ghost use Rattle.paw_top.specs.Answers.{IfMemory, load_memory};
ghost use Rattle.paw_top.specs.inner.Answers.{failed_or};
ghost use Rattle.paw_stage.specs.inner.Loads.{LoadsSome};
ghost use Rattle.paw_top.specs.inner.Loads.{LoadsNone};
ghost use Rattle.paw_top.specs.declared.outcome.Outcome.TheVariants as outcome;

use crate::outcome::{MemoryAt, Outcome};
use paw_stage::{LoadRefusal, Stage, StageCall};
use std::alloc::Global;

/// The value that a call gives; where it gives an outcome instead, the command returns that.
macro_rules! or_return {
    ($result:expr) => {
        match $result {
            Ok(given) => given,
            Err(outcome) => return outcome,
        }
    };
}

pub(crate) use or_return;

/// The bytes of a file, its first `most + 1` where it is longer, or why there are none.
pub(crate) fn load<S: Stage>(
    alloc: Global,
    stage: &mut S,
    name: &str,
    most: usize,
) -> Result<Vec<u8>, Outcome>
    ensures serves { FailsOnlyBy S.Stage load_calls (failed_or result) stage.old stage.new }
    ensures form { IfErr result (λ o. o ≢ outcome.Usage) }
    ensures memory { IfErr result (λ o. IfMemory o (IsOneOf load_memory)) }
    ensures some { IfTelling S.Stage stage.old stage.new (λ old new.
        IfOk result (λ v. LoadsSome name.now most old new v.items)) }
    ensures none { S.Tells stage.old → IfErr result (LoadsNone name.now (S.standing stage.old) (S.standing stage.new)) }
    ensures time { AtEachMoment S.Stage stage.old stage.new Still }
{
    match stage.load(alloc, name, most) {
        Ok(bytes) => Ok(bytes),
        Err(LoadRefusal::Absent) => Err(Outcome::Outside(StageCall::LoadAbsent)),
        Err(LoadRefusal::Failed) => Err(Outcome::Outside(StageCall::Load)),
        Err(LoadRefusal::Memory) => Err(Outcome::Memory(MemoryAt::Load)),
    }
}
