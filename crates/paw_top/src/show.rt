// Showing what a command ends with, and the commands that only show something of a file.

ghost use Rattle.std.specs.Prelude.{◌≢◌, ◌<◌, [], ◌∷◌};
ghost use Rattle.paw_stage.specs.AcrossCalls.{IfTelling, FailsOnlyBy, IsOneOf};
ghost use Rattle.paw_stage.specs.declared.StageCall.TheVariants as call;
ghost use Rattle.paw_stage.specs.Loads.{load_calls};
ghost use Rattle.paw_top.specs.Answers.{IfMemory, load_memory, failed_call};
ghost use Rattle.paw_top.specs.Shows.{Shows, Wraps};
ghost use Rattle.paw_top.specs.declared.outcome.MemoryAt.TheVariants as memory;
ghost use Rattle.paw_top.specs.declared.outcome.Outcome.TheVariants as outcome;

use crate::load::{load, or_return};
use crate::outcome::{MemoryAt, Outcome};
use paw_play::show::show;
use paw_stage::{Stage, StageCall};
use paw_wrap::WRAP_LIMIT;
use std::alloc::Global;

/// Shows the text that a command ends with.
pub(crate) fn show_text<S: Stage>(stage: &mut S, text: &[u8]) -> Outcome
    ensures serves { FailsOnlyBy S.Stage (call.Show ∷ []) (failed_call result) stage.old stage.new }
    ensures form { result ≢ outcome.Usage }
    ensures memory { IfMemory result (λ at. ⊥) }
    ensures shows { S.Tells stage.old → Shows text.now (S.standing stage.old) (S.standing stage.new) result }
{
    if show(stage, text).is_err() {
        return Outcome::Outside(StageCall::Show);
    }
    Outcome::Done
}

/// The width of a text in columns: at least one.
#[derive(Clone, Copy, Drop)]
pub(crate) struct Width {
    pub columns: u8,
    ghost at_least_one: { 0 < columns },
}

/// Shows the text of a file with its lines broken at spaces, each as late as the width allows. The file has at most
/// 4,194,304 bytes, or the text is too long.
pub(crate) fn wrap<S: Stage>(alloc: Global, stage: &mut S, width: Width, text: &str) -> Outcome
    ensures serves { FailsOnlyBy S.Stage (call.Show ∷ load_calls) (failed_call result) stage.old stage.new }
    ensures form { result ≢ outcome.Usage }
    ensures memory { IfMemory result (IsOneOf (memory.Wrap ∷ load_memory)) }
    ensures wraps { IfTelling S.Stage stage.old stage.new (λ old new. Wraps width.columns text.now old new result) }
{
    let bytes = or_return!(load(alloc, stage, text, WRAP_LIMIT));
    if bytes.len() > WRAP_LIMIT {
        return Outcome::TextTooLong;
    }
    let Ok(wrapped) = paw_wrap::wrap(alloc, width.columns, bytes.as_slice()) else {
        return Outcome::Memory(MemoryAt::Wrap);
    };
    show_text(stage, wrapped.bytes.as_slice())
}
