// Compiling a source to an image.

ghost use Rattle.std.specs.Prelude.{◌≡◌, ◌≢◌, ◌≤◌, [], ◌∷◌, length, string_bytes, Ok, IfOk, IfErr};
ghost use Rattle.paw_game.specs.Game.{GameLists};
ghost use Rattle.paw_game.specs.Image.{image};
ghost use Rattle.paw_base.specs.declared.limits.TheConstants.{IMAGE_LIMIT};
ghost use Rattle.paw_grammar.specs.Spells.{game_spelled};
ghost use Rattle.paw_stage.specs.AcrossCalls.{IfTelling, FailsOnlyBy, IsOneOf};
ghost use Rattle.paw_stage.specs.declared.StageCall.TheVariants as call;
ghost use Rattle.paw_stage.specs.Loads.{load_calls};
ghost use Rattle.paw_top.specs.Answers.{IfMemory, load_memory, failed_call};
ghost use Rattle.paw_top.specs.Compile.{Compiles, image_line};
ghost use Rattle.paw_top.specs.inner.Compile.{IsRefusal, SavesSo};
ghost use Rattle.paw_top.specs.declared.outcome.Outcome.TheVariants as outcome;
ghost use Rattle.paw_top.specs.declared.outcome.MemoryAt.TheVariants as memory;

use crate::load::{load, or_return};
use crate::outcome::{MemoryAt, Outcome};
use crate::show::show_text;
use paw_base::limits::SOURCE_LIMIT;
use paw_game::game::Game;
use paw_image::encoder::encode;
use paw_image::refusal::ImageRefusal;
use paw_source::read_source;
use paw_source::refusal::SourceRefusal;
use paw_stage::{Stage, StageCall};
use std::alloc::Global;

// The game that a source spells, or why there is none.
fn game_of(alloc: Global, source: &[u8]) -> Result<Game, Outcome>
    ensures game { IfOk result (λ g. game_spelled source.now ≡ Ok g) }
    ensures short { IfOk result (λ g. length (image g) ≤ IMAGE_LIMIT) }
    ensures refusal { IfErr result (IsRefusal (game_spelled source.now)) }
    ensures memory { IfErr result (λ o. IfMemory o (IsOneOf (memory.Source ∷ load_memory))) }
{
    match read_source(alloc, source) {
        Ok(game) => Ok(game),
        Err(SourceRefusal::Fault(fault)) => Err(Outcome::SourceRefused(fault)),
        Err(SourceRefusal::Memory) => Err(Outcome::Memory(MemoryAt::Source)),
    }
}

// The image of the game that a source spells, or why there is none.
fn image_of(alloc: Global, source: &[u8]) -> Result<Vec<u8>, Outcome>
    ensures image { IfOk result (λ v. (g : GameLists) × (game_spelled source.now ≡ Ok g) × (v.items ≡ image g)) }
    ensures refusal { IfErr result (IsRefusal (game_spelled source.now)) }
    ensures memory { IfErr result (λ o. IfMemory o (IsOneOf (memory.Source ∷ load_memory))) }
{
    let game = game_of(alloc, source)?;
    match encode(alloc, &game) {
        Ok(bytes) => Ok(bytes),
        Err(ImageRefusal::Memory) => Err(Outcome::Memory(MemoryAt::Image)),
        Err(ImageRefusal::Damaged { .. }) => unreachable!(), // what a source spells isn't too long
    }
}

// The line that shows how many bytes an image has.
fn line_of(alloc: Global, size: usize) -> Result<String, Outcome>
    ensures line { IfOk result (λ text. string_bytes text ≡ image_line size) }
    ensures memory { IfErr result (λ o. o ≡ outcome.Memory memory.Image) }
{
    match format!(in alloc; "IMAGE {size} BYTES\n") {
        Ok(line) => Ok(line),
        Err(_) => Err(Outcome::Memory(MemoryAt::Image)),
    }
}

// Saves an image, and then shows a line.
fn save_and_show<S: Stage>(stage: &mut S, name: &str, image: &[u8], line: &[u8]) -> Outcome
    ensures serves { FailsOnlyBy S.Stage (call.Save ∷ call.Show ∷ []) (failed_call result) stage.old stage.new }
    ensures form { result ≢ outcome.Usage }
    ensures memory { IfMemory result (λ at. ⊥) }
    ensures saves { IfTelling S.Stage stage.old stage.new
        (λ old new. SavesSo name.now image.now line.now old new result) }
{
    if stage.save(name, image).is_err() {
        return Outcome::Outside(StageCall::Save);
    }
    show_text(stage, line)
}

/// Compiles a source file to an image file, and shows how many bytes the image has.
pub(crate) fn compile<S: Stage>(alloc: Global, stage: &mut S, source: &str, image: &str) -> Outcome
    ensures serves { FailsOnlyBy S.Stage (call.Save ∷ call.Show ∷ load_calls) (failed_call result) stage.old stage.new }
    ensures form { result ≢ outcome.Usage }
    ensures memory { IfMemory result (IsOneOf (memory.Source ∷ load_memory)) }
    ensures compiles { IfTelling S.Stage stage.old stage.new (λ old new. Compiles source.now image.now old new result) }
{
    let bytes = or_return!(load(alloc, stage, source, SOURCE_LIMIT));
    let made = match image_of(alloc, bytes.as_slice()) {
        Ok(made) => made,
        Err(refusal) => return refusal,
    };
    let line = or_return!(line_of(alloc, made.len()));
    save_and_show(stage, image, made.as_slice(), line.as_bytes())
}
