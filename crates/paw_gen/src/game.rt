// The game of a trial.

ghost use Rattle.std.specs.Prelude.{◌≡◌, ◌≤◌, length, IfOk};
ghost use Rattle.paw_base.specs.declared.limits.TheConstants.{IMAGE_LIMIT};
ghost use Rattle.paw_game.specs.Image.{image};
ghost use Rattle.paw_gen.specs.Trial.{trial_game};

use crate::counts::{location_count, object_count};
use crate::lists::{exits, objects, words};
use crate::tables::tables;
use crate::texts::numbered_texts;
use paw_base::fault::NoRoom;
use paw_game::game::Game;
use paw_game::parts::GameParts;
use std::alloc::Global;

/// How many system messages the game has: those that the tool itself shows.
const SYSTEM_COUNT: u16 = 54;

// The lists of the game.
#[tactic(auto, unfolding(crate::specs::Trial::trial_game))]
fn parts_of(alloc: Global, n: u16) -> Result<GameParts, NoRoom>
    ensures value { IfOk result (λ parts. parts ≡ trial_game n) }
{
    let places = location_count(n);
    let things = object_count(n);
    Ok(GameParts {
        words: words(alloc, things)?,
        system: numbered_texts(alloc, b"s", b"", SYSTEM_COUNT)?,
        messages: Vec::new(alloc),
        objects: objects(alloc, places, things)?,
        locations: numbered_texts(alloc, b"Place ", b".", places)?,
        exits: exits(alloc, places)?,
        tables: tables(alloc)?,
    })
}

/// The game of a trial, made from its number: hundreds of locations in a ring, and objects spread over them, which
/// lines can get and drop. Its image is within the limit of images.
///
/// # Errors
/// NoRoom only where there is no memory: the lists always follow the rules of a game.
pub fn game_of(alloc: Global, n: u16) -> Result<Game, NoRoom>
    ensures game { IfOk result (λ game. game ≡ trial_game n) }
    ensures short { IfOk result (λ game. length (image game) ≤ IMAGE_LIMIT) }
{
    let parts = parts_of(alloc, n)?;
    match Game::new(parts) {
        Ok(game) => Ok(game),
        Err(_) => unreachable!(), // The game of a trial is valid.
    }
}
