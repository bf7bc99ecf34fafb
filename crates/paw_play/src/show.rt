// Showing texts.

ghost use Rattle.std.specs.Prelude.{◌≡◌, ◌<◌, [], ◌∷◌, length, OnErr, IsErr};
ghost use Rattle.paw_stage.specs.Stage.{InShow, failed_in, with_shown};
ghost use Rattle.paw_stage.specs.AcrossCalls.{IfTelling, FailsOnlyBy};
ghost use Rattle.paw_stage.specs.inner.AcrossCalls.{OnSuccess, AtEachMoment};
ghost use Rattle.paw_stage.specs.declared.StageCall.TheVariants as call;

use paw_stage::{Failed, Stage};

/// Shows a text; an empty one makes no call.
///
/// # Errors
/// Failed where the stage's `show` failed; a first part of the text was shown then.
pub fn show<S: Stage>(stage: &mut S, text: &[u8]) -> Result<(), Failed>
    ensures serves { FailsOnlyBy S.Stage (call.Show ∷ []) (failed_in call.Show result) stage.old stage.new }
    ensures some { IsErr result → 0 < length text.now }
    ensures shown { OnSuccess S.Stage stage.old stage.new result (λ old new. new ≡ with_shown text.now old) }
    ensures part { IfTelling S.Stage stage.old stage.new (λ old new. OnErr result (InShow old text.now new)) }
    ensures time { AtEachMoment S.Stage stage.old stage.new (λ s. InShow s text.now) }
{
    if text.is_empty() {
        return Ok(());
    }
    stage.show(text)
}
