// What reading changes beside the open tables.

use paw_base::piece::Piece;
use paw_phrase::Pending;
use paw_world::world::World;

/// What reading changes beside the open tables: the world, what is left of the line, and the open piece of text.
#[derive(Drop)]
pub struct Surroundings {
    pub world: World,
    pub pending: Pending,
    pub piece: Piece,
}
