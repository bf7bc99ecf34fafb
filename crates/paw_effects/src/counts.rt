// The counts that a game shows: its turns and its score. Where nothing is printed the empty text is pushed, whose
// clause gives the proof that the piece fits.

ghost use Rattle.std.specs.Prelude.{◌≡◌, ◌==◌, [], if◌then◌else◌};
ghost use Rattle.paw_base.specs.declared.messages.TheConstants.{PLURAL_MESSAGE};
ghost use Rattle.paw_base.specs.inner.Piece.{Puts};
ghost use Rattle.paw_effects.specs.Texts.{put_text};
ghost use Rattle.paw_effects.specs.Counts.{turns_taken, turns_text, score_text};

use crate::text::{print_number, put, say};
use paw_base::flags::{HIGH_TURNS_FLAG, LOW_TURNS_FLAG, SCORE_FLAG};
use paw_base::messages::{
    PLURAL_MESSAGE, SCORE_END_MESSAGE, SCORE_MESSAGE, TURN_MESSAGE, TURNS_END_MESSAGE,
    TURNS_MESSAGE,
};
use paw_base::piece::Piece;
use paw_game::tables::Tables;
use paw_world::world::World;

/// The number of turns: 0 to 65,535.
pub fn turns_taken(world: &World) -> u16
    ensures value { result ≡ turns_taken world.now }
{
    u16::from(world.flag(LOW_TURNS_FLAG)) + 256 * u16::from(world.flag(HIGH_TURNS_FLAG))
}

// Prints the plural ending, unless the number is 1.
fn put_plural<T: Tables>(tables: &T, world: &World, piece: &mut Piece, number: u16) -> bool
    ensures puts { Puts piece.old piece.new result
        (if number == 1 then [] else put_text (T.game tables.now) world.now PLURAL_MESSAGE) }
{
    if number == 1 {
        piece.push(&[])
    } else {
        put(tables, world, piece, PLURAL_MESSAGE)
    }
}

/// Prints the number of turns.
pub(crate) fn print_turns<T: Tables>(tables: &T, world: &World, piece: &mut Piece) -> bool
    ensures puts { Puts piece.old piece.new result (turns_text (T.game tables.now) world.now) }
{
    let turns = turns_taken(world);
    put(tables, world, piece, TURNS_MESSAGE)
        && print_number(piece, turns)
        && put(tables, world, piece, TURN_MESSAGE)
        && put_plural(tables, world, piece, turns)
        && say(tables, world, piece, TURNS_END_MESSAGE)
}

/// Prints the score.
pub(crate) fn print_score<T: Tables>(tables: &T, world: &World, piece: &mut Piece) -> bool
    ensures puts { Puts piece.old piece.new result (score_text (T.game tables.now) world.now) }
{
    put(tables, world, piece, SCORE_MESSAGE)
        && print_number(piece, u16::from(world.flag(SCORE_FLAG)))
        && say(tables, world, piece, SCORE_END_MESSAGE)
}
