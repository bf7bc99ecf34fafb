// The game of an image file.

ghost use Rattle.std.specs.Prelude.{◌≡◌, ◌≢◌, None, IfOk, IfErr};
ghost use Rattle.paw_stage.specs.AcrossCalls.{IfTelling, FailsOnlyBy};
ghost use Rattle.paw_stage.specs.inner.AcrossCalls.{AtEachMoment};
ghost use Rattle.paw_stage.specs.Stage.{Still};
ghost use Rattle.paw_stage.specs.Loads.{load_calls};
ghost use Rattle.paw_stage.specs.inner.Loads.{LoadsSome};
ghost use Rattle.paw_base.specs.declared.limits.TheConstants.{IMAGE_LIMIT};
ghost use Rattle.paw_image.specs.Images.{IsImage};
ghost use Rattle.paw_image.specs.inner.Views.{game_read};
ghost use Rattle.paw_host.specs.inner.Opens.{ReadsNoImage, OpensNone, host_failure_or};
ghost use Rattle.paw_host.specs.declared.outcome.HostOutcome.TheVariants as outcome;

use crate::outcome::HostOutcome;
use paw_base::limits::IMAGE_LIMIT;
use paw_image::refusal::ImageRefusal;
use paw_image::view::View;
use paw_stage::{LoadRefusal, Stage, StageCall};
use std::alloc::Global;

/// The bytes of an image file, one more than an image may have where it is longer; or why there are none.
pub(crate) fn load<S: Stage>(
    alloc: Global,
    stage: &mut S,
    name: &str,
) -> Result<Vec<u8>, HostOutcome>
    ensures serves { FailsOnlyBy S.Stage load_calls (host_failure_or result) stage.old stage.new }
    ensures form { IfErr result (λ o. o ≢ outcome.Usage) }
    ensures some { IfTelling S.Stage stage.old stage.new (λ old new.
        IfOk result (λ v. LoadsSome name.now IMAGE_LIMIT old new v.items)) }
    ensures none { IfTelling S.Stage stage.old stage.new (λ old new. IfErr result (ReadsNoImage name.now old new)) }
    ensures time { AtEachMoment S.Stage stage.old stage.new Still }
{
    match stage.load(alloc, name, IMAGE_LIMIT) {
        Ok(bytes) => Ok(bytes),
        Err(LoadRefusal::Absent) => Err(HostOutcome::Outside(StageCall::LoadAbsent)),
        Err(LoadRefusal::Failed) => Err(HostOutcome::Outside(StageCall::Load)),
        Err(LoadRefusal::Memory) => Err(HostOutcome::Memory),
    }
}

/// The game whose image the bytes are, read in place, or why there is none.
pub(crate) fn view_in<'a>(alloc: Global, bytes: &'a [u8]) -> Result<View<'a>, HostOutcome>
    ensures found { IfOk result (λ view. IsImage bytes.now (game_read view)) }
    ensures bytes { IfOk result (λ view. view ≡ bytes.now) }
    ensures none { IfErr result (OpensNone bytes.now) }
    ensures form { IfErr result (λ o. o ≢ outcome.Usage) }
    ensures fine { host_failure_or result ≡ None }
{
    match View::new(alloc, bytes) {
        Ok(view) => Ok(view),
        Err(ImageRefusal::Damaged { at }) => Err(HostOutcome::ImageDamaged { at }),
        Err(ImageRefusal::Memory) => Err(HostOutcome::Memory),
    }
}
