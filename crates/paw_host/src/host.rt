// The top call.

ghost use Rattle.std.specs.Prelude.{◌≡◌, ◌↔◌, ◌≢◌, ◌++◌, None, IfSome};
ghost use Rattle.paw_base.specs.Bytes.{RoutineAnswers};
ghost use Rattle.paw_stage.specs.AcrossCalls.{IfTelling, EachMoment, FailsOnlyBy};
ghost use Rattle.paw_stage.specs.Disk.{IsStable};
ghost use Rattle.paw_stage.specs.Loads.{load_calls};
ghost use Rattle.paw_routines.specs.Routines.{AreAnswersOf, HaveAnswers};
ghost use Rattle.paw_play.specs.Calls.{session_calls};
ghost use Rattle.paw_host.specs.Outcomes.{host_failure};
ghost use Rattle.paw_host.specs.Words.{asked_call};
ghost use Rattle.paw_play.specs.inner.OnTheWay.{EachStory};
ghost use Rattle.paw_host.specs.Hosts.{Ends, HostsFile, HostsAtEachMoment};
ghost use Rattle.paw_host.specs.inner.Lines.{HostsWithMoments};
ghost use Rattle.paw_host.specs.Laws.{CrashLeaves};
ghost use Rattle.paw_play.specs.inner.Open.{AreDigestsOf};
ghost use Rattle.paw_host.specs.declared.outcome.HostOutcome.TheVariants as outcome;

use crate::answer::Hosted;
use crate::lines::Seats;
use crate::open::{load, view_in};
use crate::outcome::HostOutcome;
use crate::words::call_of;
use paw_game::tables::Tables;
use paw_journal::digest;
use paw_routines::routines::Routines;
use paw_stage::Stage;
use std::alloc::Global;

// Hosts a game: takes all memory, and then lines until none is left.
fn host_game<S: Stage, T: Tables, F: Fn(u8, u8) -> u8>(
    alloc: Global,
    stage: &mut S,
    routines: &Routines<F>,
    hosted: &Hosted<'_, T>,
) -> HostOutcome
    requires answers { HaveAnswers F.Fn routines.now }
    requires digests { AreDigestsOf F.Fn (T.game hosted.now.tables.now) routines.now hosted.now.game hosted.now.rules }
    requires synced { S.Tells stage.old → IsStable (S.standing stage.old).disk }
    ensures form { result ≢ outcome.Usage }
    ensures serves { FailsOnlyBy S.Stage session_calls (host_failure result) stage.old stage.new }
    ensures ends { IfTelling S.Stage stage.old stage.new (λ old new. Ends old new result) }
    ensures promises { S.Tells stage.old → EachStory F.Fn routines.now (T.game hosted.now.tables.now) (λ g.
        HostsWithMoments S.Stage stage.old stage.new g hosted.now.seed result) }
{
    match Seats::new(alloc, hosted.tables, routines, hosted.seed) {
        Ok(mut seats) => seats.serve_all(stage, hosted),
        Err(_) => HostOutcome::Memory,
    }
}

/// Hosts the game of an image file for many players, each as if alone, over a stage at which nothing is unsynced. The
/// words are the name of the file and the seed of new sessions.
///
/// A line is a name, or a name, a space and a text. The session of a name is kept in the file `NAME.paw`, and each line
/// gets its reply by one show, once what it changes is kept there.
///
/// Whatever sessions there are at first, the text that is shown is that of `replies` to the lines that were taken, or a
/// first part of it where a call failed: so what a player reads depends on the lines of that name alone. At each moment
/// whatever a crash leaves of the file of a name is of its session before the line that is being answered or after it,
/// and its reply is shown only once it is that after it (`InHost`). A file that is refused stays as it is. Over
/// whatever a crash leaves, hosting may be begun again (`laws`); so it may where a call failed and no crash came.
pub fn host<S: Stage, F: Fn(u8, u8) -> u8>(
    alloc: Global,
    stage: &mut S,
    routines: &Routines<F>,
    words: &[String],
) -> HostOutcome
    requires answers { HaveAnswers F.Fn routines.now }
    requires synced { S.Tells stage.old → IsStable (S.standing stage.old).disk }
    ensures usage { (result ≡ outcome.Usage) ↔ (asked_call words.now ≡ None) }
    ensures idle { asked_call words.now ≡ None → stage.new ≡ stage.old }
    ensures serves { FailsOnlyBy S.Stage (load_calls ++ session_calls) (host_failure result) stage.old stage.new }
    ensures comes { IfTelling S.Stage stage.old stage.new (λ old new. IfSome (asked_call words.now) (λ c.
        (X : RoutineAnswers) → AreAnswersOf F.Fn routines.now X → HostsFile X c.image c.seed old new result)) }
    ensures moments { IfTelling S.Stage stage.old stage.new (λ old new. IfSome (asked_call words.now) (λ c.
        (X : RoutineAnswers) → AreAnswersOf F.Fn routines.now X →
        HostsAtEachMoment (EachMoment S.Stage stage.old stage.new) X c.image c.seed old)) }

    // However it ends, with no crash: the files are as a crash then could have left them.
    ensures left { IfTelling S.Stage stage.old stage.new (λ old new. CrashLeaves new new) }
{
    let call = match call_of(words) {
        Some(call) => call,
        None => return HostOutcome::Usage,
    };
    let bytes = match load(alloc, stage, call.image) {
        Ok(bytes) => bytes,
        Err(outcome) => return outcome,
    };
    let view = match view_in(alloc, bytes.as_slice()) {
        Ok(view) => view,
        Err(outcome) => return outcome,
    };
    let hosted = Hosted {
        tables: &view,
        game: digest(view.bytes()),
        rules: routines.measure(),
        seed: call.seed,
    };
    host_game(alloc, stage, routines, &hosted)
}
