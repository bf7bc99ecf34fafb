// The top call.

ghost use Rattle.std.specs.Prelude.{◌≡◌, ◌↔◌, None, IfSome};
ghost use Rattle.paw_base.specs.Bytes.{Name, RoutineAnswers};
ghost use Rattle.paw_routines.specs.Routines.{AreAnswersOf, HaveAnswers};
ghost use Rattle.paw_stage.specs.AcrossCalls.{IfTelling, InTwoParts, FailsOnlyBy, IsOneOf};
ghost use Rattle.paw_stage.specs.Disk.{IsStable};
ghost use Rattle.paw_play.specs.Laws.{MayBeLeft};
ghost use Rattle.paw_play.specs.Play.{store_bytes};
ghost use Rattle.paw_top.specs.Answers.{IfMemory, failed_call};
ghost use Rattle.paw_top.specs.Commands.{asked_for, meaning};
ghost use Rattle.paw_top.specs.Completes.{NoFailure, IsUnhindered};
ghost use Rattle.paw_top.specs.Sessions.{IsMoment};
ghost use Rattle.paw_top.specs.declared.outcome.Outcome.TheVariants as outcome;

use crate::commands::command_of;
use crate::outcome::Outcome;
use paw_routines::routines::Routines;
use paw_stage::Stage;
use std::alloc::Global;

/// Does what the words ask for, over a stage at which nothing is unsynced. The words are the name of a command and
/// those after it, as usage shows them; its variant of `Command` says what each command does.
///
/// What each command means stands in `meaning`: the calls that it makes (`serves`), where memory may be lacking for it
/// (`memory`), how it ends and what it leaves (`comes`), and what stands at each moment (`moments`). A game's EXTERN
/// calls the routines, and what is said of play is said with their answers, whatever these are.
///
/// The answer is Usage exactly where the words have no form, and then nothing at the stage is touched.
///
/// The moments of `play` and of `resume` come in two parts. Until the store is attached nothing was asked or shown, and
/// no file has changed, except that the store's may be there now, empty (`NotYet`). From then on the store is attached
/// at each moment. In `play` whatever a crash leaves of it is no session yet, or stands for all lines that were taken,
/// or for all but the last (`InNewSession`). If a session goes on from the bytes of the store, after the lines that
/// they stand for or from the state that they show, `resume` never refuses it and goes on as the reading of these lines
/// and more (`goes_on` of `ResumesIn`), and whatever a crash leaves stands for them and all that were taken since, or
/// for all but the last (`InPlay`). At each moment the session keeps the digests of its game and its routines.
///
/// Where playing ends with nothing failed in the store, its bytes are exactly what one commit for each line that is
/// kept makes of the bytes before: a line whose piece is spent changes nothing there.
///
/// However a command ends, what stands is one of its moments (`stands`), and each file is as a crash then could have
/// left it (`left`). So where a write or a sync of the store failed, and no crash came, its file stands for all lines
/// that were taken, or for all but the last, and `resume` goes on from it as after a crash.
///
/// If the answer is Outside, the count of the call that it names rose, which is one that the command makes, and no
/// other count did; otherwise no count of failures rose at all. If no call fails, except maybe a load that finds no
/// file, the answer names none (`completes`): then the command did what it is for, or refused the file or the store, or
/// memory was lacking. This follows from what each command means; `commands_complete` spells it out.
pub fn paw<S: Stage, F: Fn(u8, u8) -> u8>(
    alloc: Global,
    stage: &mut S,
    routines: &Routines<F>,
    words: &[String],
) -> Outcome
    requires answers { HaveAnswers F.Fn routines.now }
    requires synced { S.Tells stage.old → IsStable (S.standing stage.old).disk }
    ensures usage { (result ≡ outcome.Usage) ↔ (asked_for words.now ≡ None) }
    ensures idle { asked_for words.now ≡ None → stage.new ≡ stage.old }
    ensures serves { IfSome (asked_for words.now) (λ c.
        FailsOnlyBy S.Stage (meaning c).calls (failed_call result) stage.old stage.new) }
    ensures memory { IfSome (asked_for words.now) (λ c. IfMemory result (IsOneOf (meaning c).memory)) }
    ensures comes { IfTelling S.Stage stage.old stage.new (λ old new. IfSome (asked_for words.now) (λ c.
        (X : RoutineAnswers) → AreAnswersOf F.Fn routines.now X → (meaning c).comes X old new result)) }
    ensures moments { IfTelling S.Stage stage.old stage.new (λ old new. IfSome (asked_for words.now) (λ c.
        (X : RoutineAnswers) → AreAnswersOf F.Fn routines.now X →
        (meaning c).moments (InTwoParts S.Stage stage.old stage.new) X old)) }

    // However it ends, what stands is one of these moments, and each file is as a crash then could have left it.
    ensures stands { IfTelling S.Stage stage.old stage.new (λ old new. IfSome (asked_for words.now) (λ c.
        (X : RoutineAnswers) → AreAnswersOf F.Fn routines.now X → (meaning c).moments (IsMoment new) X old)) }
    ensures left { IfTelling S.Stage stage.old stage.new (λ old new.
        (name : Name) → MayBeLeft name new (store_bytes new name)) }
    ensures completes { NoFailure (S.failures stage.old) (S.failures stage.new) → IsUnhindered result }
{
    match command_of(words) {
        Some(command) => command.run(alloc, stage, routines),
        None => Outcome::Usage,
    }
}
