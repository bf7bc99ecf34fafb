// What is shown of the game of an image: its source, and the bound of what play takes.

ghost use Rattle.std.specs.Prelude.{◌≡◌, ◌≢◌, ◌∷◌, string_bytes, IfOk};
ghost use Rattle.paw_check.specs.Shown.{verdict_text};
ghost use Rattle.paw_check.specs.Verdicts.{bounds};
ghost use Rattle.paw_stage.specs.declared.StageCall.TheVariants as call;
ghost use Rattle.paw_stage.specs.AcrossCalls.{FailsOnlyBy, IsOneOf};
ghost use Rattle.paw_stage.specs.Loads.{load_calls};
ghost use Rattle.paw_top.specs.Answers.{IfMemory, load_memory, failed_call};
ghost use Rattle.paw_top.specs.Check.{Checks};
ghost use Rattle.paw_top.specs.Decompile.{Decompiles};
ghost use Rattle.paw_top.specs.declared.outcome.MemoryAt.TheVariants as memory;
ghost use Rattle.paw_top.specs.declared.outcome.Outcome.TheVariants as outcome;

use crate::load::{load, or_return};
use crate::open::game_in;
use crate::outcome::{MemoryAt, Outcome};
use crate::show::show_text;
use paw_base::fault::NoRoom;
use paw_base::limits::IMAGE_LIMIT;
use paw_game::game::Game;
use paw_print::canonical;
use paw_stage::Stage;
use std::alloc::Global;

/// Shows the canonical source of the game of an image file.
pub(crate) fn decompile<S: Stage>(alloc: Global, stage: &mut S, image: &str) -> Outcome
    ensures serves { FailsOnlyBy S.Stage (call.Show ∷ load_calls) (failed_call result) stage.old stage.new }
    ensures form { result ≢ outcome.Usage }
    ensures memory { IfMemory result (IsOneOf (memory.Print ∷ load_memory)) }
    ensures decompiles { S.Tells stage.old → Decompiles image.now (S.standing stage.old) (S.standing stage.new) result }
{
    let bytes = or_return!(load(alloc, stage, image, IMAGE_LIMIT));
    let game = or_return!(game_in(alloc, bytes.as_slice()));
    let Ok(source) = canonical(alloc, &game) else {
        return Outcome::Memory(MemoryAt::Print);
    };
    show_text(stage, source.as_slice())
}

/// Shows what any play of the game of an image file takes at most, or the first cause why no bound of that is known.
pub(crate) fn check<S: Stage>(alloc: Global, stage: &mut S, image: &str) -> Outcome
    ensures serves { FailsOnlyBy S.Stage (call.Show ∷ load_calls) (failed_call result) stage.old stage.new }
    ensures form { result ≢ outcome.Usage }
    ensures memory { IfMemory result (IsOneOf (memory.Check ∷ load_memory)) }
    ensures checks { S.Tells stage.old → Checks image.now (S.standing stage.old) (S.standing stage.new) result }
{
    let bytes = or_return!(load(alloc, stage, image, IMAGE_LIMIT));
    let game = or_return!(game_in(alloc, bytes.as_slice()));
    let Ok(text) = verdict_of(alloc, &game) else {
        return Outcome::Memory(MemoryAt::Check);
    };
    show_text(stage, text.as_bytes())
}

// What is shown of a game when it is checked.
fn verdict_of(alloc: Global, game: &Game) -> Result<String, NoRoom>
    ensures text { IfOk result (λ text. string_bytes text ≡ verdict_text (bounds game.now)) }
{
    paw_check::check(alloc, game)?.text(alloc)
}
