// What a player lends of itself, and where it stands.

ghost use Rattle.std.specs.Prelude.{◌≡◌};
ghost use Rattle.paw_turn.specs.inner.Parts.{prompt_step, prompt_at};
ghost use Rattle.paw_turn.specs.inner.Player.{step_of};

use crate::phase::TurnStop;
use paw_effects::act::Prompt;
use paw_phrase::Pending;
use paw_process::Machine;
use paw_reading::halt::Halt;
use paw_world::world::World;

/// What a player consists of between two lines, as it lends it: with these parts a player can go on, now or later.
#[derive(Drop)]
pub struct Parts<'p> {
    pub world: &'p World,
    pub machine: &'p Machine,
    pub pending: &'p Pending,
    pub prompt: Prompt,
}

/// How the last turn of a player stopped who stands at this prompt.
pub(crate) fn stop_at(prompt: Prompt) -> TurnStop
    ensures value { step_of result ≡ prompt_step prompt }
{
    match prompt {
        Prompt::Main | Prompt::Quit | Prompt::Again | Prompt::Key => TurnStop::Waits(prompt),
        Prompt::Over => TurnStop::Halted(Halt::Over),
    }
}

/// The prompt at which a player stands whose turn stopped for this reason.
pub(crate) fn prompt_at(stop: TurnStop) -> Prompt
    ensures value { result ≡ prompt_at (step_of stop) }
{
    match stop {
        TurnStop::Waits(prompt) => prompt,
        TurnStop::Halted(_) => Prompt::Over,
    }
}
