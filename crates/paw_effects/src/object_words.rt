// The messages of an action on an object.

ghost use Rattle.std.specs.Prelude.{◌≡◌};
ghost use Rattle.paw_base.specs.declared.messages.TheConstants.{PUT_IN_MESSAGE, NOT_TAKEN_OUT_MESSAGE};
ghost use Rattle.paw_base.specs.declared.messages.TheConstants.{NOT_INSIDE_MESSAGE};
ghost use Rattle.paw_base.specs.inner.Piece.{Puts};
ghost use Rattle.paw_effects.specs.ObjectWords.{spoken_words, ends_loop};

use crate::text::{print_object, put, say};
use paw_base::messages::{
    DROPPED_MESSAGE, HANDS_FULL_MESSAGE, HELD_MESSAGE, IMPOSSIBLE_MESSAGE, NAME_END_MESSAGE,
    NOT_CARRIED_MESSAGE, NOT_HELD_MESSAGE, NOT_HERE_MESSAGE, NOT_INSIDE_MESSAGE,
    NOT_PUT_ON_MESSAGE, NOT_REMOVABLE_MESSAGE, NOT_TAKEN_OUT_MESSAGE, NOT_WEARABLE_MESSAGE,
    NOT_WORN_MESSAGE, PUT_IN_MESSAGE, PUT_ON_MESSAGE, TAKEN_MESSAGE, TAKEN_OFF_MESSAGE,
    TOO_HEAVY_MESSAGE, TOO_MANY_MESSAGE, WORN_ALREADY_MESSAGE, WORN_MESSAGE,
};
use paw_base::piece::Piece;
use paw_game::tables::Tables;
use paw_world::world::World;

/// The message of an action: a system message; or a system message and then the name of a container.
#[derive(Clone, Copy, Drop, PartialEq, Eq, Debug)]
pub(crate) enum ObjectReply {
    Says(u8),
    Names(u8, u8),
}

impl ObjectReply {
    /// No object of the game is meant.
    pub(crate) const NO_SUCH_OBJECT: ObjectReply = ObjectReply::Says(IMPOSSIBLE_MESSAGE);

    /// It isn't worn.
    pub(crate) const NOT_WORN: ObjectReply = ObjectReply::Says(NOT_WORN_MESSAGE);

    /// It is worn, so it can't be dropped or put away.
    pub(crate) const WORN: ObjectReply = ObjectReply::Says(WORN_MESSAGE);

    /// It is worn or carried already.
    pub(crate) const HELD: ObjectReply = ObjectReply::Says(HELD_MESSAGE);

    /// It isn't here.
    pub(crate) const NOT_HERE: ObjectReply = ObjectReply::Says(NOT_HERE_MESSAGE);

    /// No more objects can be carried. It ends the loop over objects.
    pub(crate) const TOO_MANY: ObjectReply = ObjectReply::Says(TOO_MANY_MESSAGE);

    /// It isn't carried.
    pub(crate) const NOT_CARRIED: ObjectReply = ObjectReply::Says(NOT_CARRIED_MESSAGE);

    /// It is worn already.
    pub(crate) const WORN_ALREADY: ObjectReply = ObjectReply::Says(WORN_ALREADY_MESSAGE);

    /// It was taken.
    pub(crate) const TAKEN: ObjectReply = ObjectReply::Says(TAKEN_MESSAGE);

    /// It was put on.
    pub(crate) const PUT_ON: ObjectReply = ObjectReply::Says(PUT_ON_MESSAGE);

    /// It was taken off.
    pub(crate) const TAKEN_OFF: ObjectReply = ObjectReply::Says(TAKEN_OFF_MESSAGE);

    /// It was dropped.
    pub(crate) const DROPPED: ObjectReply = ObjectReply::Says(DROPPED_MESSAGE);

    /// It can't be worn.
    pub(crate) const NOT_WEARABLE: ObjectReply = ObjectReply::Says(NOT_WEARABLE_MESSAGE);

    /// It can't be taken off.
    pub(crate) const NOT_REMOVABLE: ObjectReply = ObjectReply::Says(NOT_REMOVABLE_MESSAGE);

    /// No more objects can be carried once it is taken off. It ends the loop over objects.
    pub(crate) const HANDS_FULL: ObjectReply = ObjectReply::Says(HANDS_FULL_MESSAGE);

    /// It is too heavy.
    pub(crate) const TOO_HEAVY: ObjectReply = ObjectReply::Says(TOO_HEAVY_MESSAGE);

    /// It is here, and not carried.
    pub(crate) const NOT_HELD: ObjectReply = ObjectReply::Says(NOT_HELD_MESSAGE);

    /// It is carried or here, and not worn.
    pub(crate) const NOT_PUT_ON: ObjectReply = ObjectReply::Says(NOT_PUT_ON_MESSAGE);

    /// It was put into this container.
    pub(crate) fn now_in(container: u8) -> ObjectReply
        ensures value { result ≡ ObjectReply.Names PUT_IN_MESSAGE container }
    {
        ObjectReply::Names(PUT_IN_MESSAGE, container)
    }

    /// It is here, and not in this container.
    pub(crate) fn outside(container: u8) -> ObjectReply
        ensures value { result ≡ ObjectReply.Names NOT_TAKEN_OUT_MESSAGE container }
    {
        ObjectReply::Names(NOT_TAKEN_OUT_MESSAGE, container)
    }

    /// It isn't in this container.
    pub(crate) fn not_in(container: u8) -> ObjectReply
        ensures value { result ≡ ObjectReply.Names NOT_INSIDE_MESSAGE container }
    {
        ObjectReply::Names(NOT_INSIDE_MESSAGE, container)
    }

    /// Whether the loop over objects ends after this message.
    pub(crate) fn ends_loop(self) -> bool
        ensures value { result ≡ ends_loop self }
    {
        self == ObjectReply::TOO_MANY || self == ObjectReply::HANDS_FULL
    }
}

/// Prints this message. False exactly where it doesn't fit; the piece may then hold anything.
#[inline(always)] // so that its message needn't be put together for a call
pub(crate) fn speak<T: Tables>(
    tables: &T,
    world: &World,
    piece: &mut Piece,
    words: ObjectReply,
) -> bool
    ensures puts { Puts piece.old piece.new result (spoken_words (T.game tables.now) world.now words) }
{
    match words {
        ObjectReply::Says(message) => say(tables, world, piece, message),
        ObjectReply::Names(message, container) => {
            put(tables, world, piece, message)
                && print_object(tables, piece, container)
                && say(tables, world, piece, NAME_END_MESSAGE)
        }
    }
}
