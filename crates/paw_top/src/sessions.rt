// Playing the game of an image file: a walk, a new session, and one that is resumed.

ghost use Rattle.std.specs.Prelude.{◌≡◌, ◌≢◌, [], ◌∷◌, ◌++◌};
ghost use Rattle.paw_base.specs.Bytes.{RoutineAnswers};
ghost use Rattle.paw_effects.specs.Story.{Story};
ghost use Rattle.paw_play.specs.inner.ShowSteps.{with_shown_steps};
ghost use Rattle.paw_play.specs.Calls.{walk_calls, session_calls};
ghost use Rattle.paw_play.specs.Keeping.{InNewSession, InPlay};
ghost use Rattle.paw_play.specs.Play.{NotYet, store_bytes};
ghost use Rattle.paw_play.specs.Played.{PlayedSession, GoesOnFrom, session_begun};
ghost use Rattle.paw_reading.specs.Turn.{reading};
ghost use Rattle.paw_stage.specs.AcrossCalls.{IfTelling, InTwoParts, FailsOnlyBy, IsOneOf};
ghost use Rattle.paw_routines.specs.Routines.{AreAnswersOf, HaveAnswers};
ghost use Rattle.paw_stage.specs.Disk.{IsStable};
ghost use Rattle.paw_stage.specs.Loads.{load_calls};
ghost use Rattle.paw_top.specs.Answers.{IfMemory, load_memory, failed_call};
ghost use Rattle.paw_play.specs.ImageFiles.{Holds};
ghost use Rattle.paw_top.specs.Sessions.{PlaysNewIn, PlaysAgainIn, GoesOnIn};
ghost use Rattle.paw_top.specs.Walk.{WalksAs};
ghost use Rattle.paw_top.specs.declared.outcome.MemoryAt.TheVariants as memory;
ghost use Rattle.paw_top.specs.declared.outcome.Outcome.TheVariants as outcome;

use crate::load::{load, or_return};
use crate::open::view_in;
use crate::outcome::{Outcome, outcome_of};
use paw_base::limits::IMAGE_LIMIT;
use paw_journal::digest;
use paw_play::play::play_loop;
use paw_play::preface::Preface;
use paw_play::resume::resume_loop;
use paw_play::walk::walk_loop;
use paw_routines::routines::Routines;
use paw_stage::Stage;
use std::alloc::Global;

/// Walks through the game of an image file, with a preface before each piece.
pub(crate) fn walk<P: Preface, S: Stage, F: Fn(u8, u8) -> u8>(
    alloc: Global,
    stage: &mut S,
    routines: &Routines<F>,
    image: &str,
    seed: u64,
) -> Outcome
    requires answers { HaveAnswers F.Fn routines.now }
    ensures serves { FailsOnlyBy S.Stage (load_calls ++ walk_calls) (failed_call result) stage.old stage.new }
    ensures walks { IfTelling S.Stage stage.old stage.new (λ old new. (X : RoutineAnswers) →
        AreAnswersOf F.Fn routines.now X →
        WalksAs (λ s n. with_shown_steps P.showing (reading s n)) X image.now seed old new result) }
    ensures form { result ≢ outcome.Usage }
    ensures memory { IfMemory result (IsOneOf (memory.Play ∷ load_memory)) }
{
    let bytes = or_return!(load(alloc, stage, image, IMAGE_LIMIT));
    let view = or_return!(view_in(alloc, bytes.as_slice()));
    outcome_of(walk_loop::<P, _, _, _>(alloc, stage, &view, routines, seed))
}

/// Plays the game of an image file from its start, with a new session in the store.
pub(crate) fn play<S: Stage, F: Fn(u8, u8) -> u8>(
    alloc: Global,
    stage: &mut S,
    routines: &Routines<F>,
    image: &str,
    store: &str,
    seed: u64,
) -> Outcome
    requires answers { HaveAnswers F.Fn routines.now }
    requires synced { S.Tells stage.old → IsStable (S.standing stage.old).disk }
    ensures serves { FailsOnlyBy S.Stage (load_calls ++ session_calls) (failed_call result) stage.old stage.new }
    ensures form { result ≢ outcome.Usage }
    ensures memory { IfMemory result (IsOneOf (memory.Play ∷ load_memory)) }
    ensures plays { IfTelling S.Stage stage.old stage.new (λ old new. (X : RoutineAnswers) →
        AreAnswersOf F.Fn routines.now X → PlaysNewIn X image.now store.now seed old new result) }
    ensures any_moment { IfTelling S.Stage stage.old stage.new (λ old new. (s : Story) →
        AreAnswersOf F.Fn routines.now s.answers → Holds old image.now s.game → store_bytes old store.now ≡ [] →
        InTwoParts S.Stage stage.old stage.new (NotYet store.now old)
        (InNewSession (session_begun s seed store.now) old)) }
{
    let bytes = or_return!(load(alloc, stage, image, IMAGE_LIMIT));
    let view = or_return!(view_in(alloc, bytes.as_slice()));
    let kept = digest(view.bytes());
    outcome_of(play_loop(alloc, stage, &view, routines, seed, &kept, store))
}

/// Goes on with the session in the store, of the game of an image file.
pub(crate) fn resume<S: Stage, F: Fn(u8, u8) -> u8>(
    alloc: Global,
    stage: &mut S,
    routines: &Routines<F>,
    image: &str,
    store: &str,
) -> Outcome
    requires synced { S.Tells stage.old → IsStable (S.standing stage.old).disk }
    requires answers { HaveAnswers F.Fn routines.now }
    ensures serves { FailsOnlyBy S.Stage (load_calls ++ session_calls) (failed_call result) stage.old stage.new }
    ensures form { result ≢ outcome.Usage }
    ensures memory { IfMemory result (IsOneOf (memory.Play ∷ load_memory)) }
    ensures plays { IfTelling S.Stage stage.old stage.new (λ old new. (X : RoutineAnswers) →
        AreAnswersOf F.Fn routines.now X → PlaysAgainIn X image.now store.now old new result) }
    ensures goes_on { IfTelling S.Stage stage.old stage.new (λ old new. (g : Story) (s : PlayedSession) →
        AreAnswersOf F.Fn routines.now g.answers → Holds old image.now g.game →
        GoesOnFrom g store.now (store_bytes old store.now) s → GoesOnIn image.now g.game s old new result) }
    ensures any_moment { IfTelling S.Stage stage.old stage.new (λ old new. (g : Story) (s : PlayedSession) →
        AreAnswersOf F.Fn routines.now g.answers → Holds old image.now g.game →
        GoesOnFrom g store.now (store_bytes old store.now) s →
        InTwoParts S.Stage stage.old stage.new (NotYet store.now old) (InPlay s old)) }
{
    let bytes = or_return!(load(alloc, stage, image, IMAGE_LIMIT));
    let view = or_return!(view_in(alloc, bytes.as_slice()));
    let kept = digest(view.bytes());
    outcome_of(resume_loop(alloc, stage, &view, routines, &kept, store))
}
