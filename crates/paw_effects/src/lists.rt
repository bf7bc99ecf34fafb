// Lists of objects. Where nothing is printed the empty text is pushed, which gives the proof that the piece fits.

ghost use Rattle.std.specs.Prelude.{◌≡◌, ◌<◌, ◌++◌, ◌∷◌, [], length, IfSome, IfNone, Some, None};
ghost use Rattle.paw_base.specs.inner.Piece.{Puts};
ghost use Rattle.paw_effects.specs.Lists.{as_lines, joint, others_joined, list_of};
ghost use Rattle.paw_effects.specs.Lists.{list_or_say, lists_are_sentences, worn_text, inventory_text, here_list_text};
ghost use Rattle.paw_effects.specs.inner.Listing.{lesser, listed_above, listed_text, place_list_text, texts_above};

use crate::presence::is_somewhere;
use crate::text::{print_object, put, say};
use paw_base::flags::{LISTING_BIT, LISTING_FLAG, LOCATION_FLAG};
use paw_base::messages::{
    EMPTY_HANDED_MESSAGE, INVENTORY_MESSAGE, IS_WORN_MESSAGE, NOTHING_THERE_MESSAGE, SEEN_MESSAGE,
};
use paw_base::piece::Piece;
use paw_base::places::{CARRIED_PLACE, WORN_PLACE};
use paw_game::tables::Tables;
use paw_world::world::World;
use std::marker::Model;

/// The objects of a list: those at a place, or those that are worn or carried.
#[derive(Clone, Copy, Drop, PartialEq, Eq, Debug)]
pub(crate) enum ListKind {
    At(u8),
    Held,
}

// The lesser of two numbers, or the one that is there.
fn lesser(a: Option<u8>, b: Option<u8>) -> Option<u8>
    ensures value { result ≡ lesser a b }
{
    match (a, b) {
        (Some(a), Some(b)) => Some(a.min(b)),
        (Some(a), None) => Some(a),
        (None, b) => b,
    }
}

// The least object of a list above `above`, or the least of all without `above`. None exactly where there is no such
// object.
fn next(world: &World, listed: ListKind, above: Option<u8>) -> Option<u8>
    ensures none { IfNone result (listed_above world.now listed above ≡ []) }
    ensures some { IfSome result (λ o.
        listed_above world.now listed above ≡ o ∷ listed_above world.now listed (Some o)) }
    ensures known { IfSome result (λ o. o < length world.now.places) }
    ensures rises { IfSome result (λ o. IfSome above (λ a. a < o)) }
{
    match listed {
        ListKind::At(p) => world.first_at(p, above),
        ListKind::Held => lesser(
            world.first_at(WORN_PLACE, above),
            world.first_at(CARRIED_PLACE, above),
        ),
    }
}

// Whether lists are sentences.
fn lists_are_sentences(world: &World) -> bool
    ensures value { result ≡ lists_are_sentences world.now }
{
    world.flag(LISTING_FLAG) & LISTING_BIT != 0
}

// Prints the message that an object is worn, where it is.
fn put_if_worn<T: Tables>(tables: &T, world: &World, piece: &mut Piece, o: u8) -> bool
    requires known { o < length world.now.places }
    ensures puts { Puts piece.old piece.new result (worn_text (T.game tables.now) world.now o) }
{
    if world.place(o) == WORN_PLACE {
        put(tables, world, piece, IS_WORN_MESSAGE)
    } else {
        piece.push(&[])
    }
}

/// Objects of a world that are listed, by their texts in a game. Contracts see the game, the world, and which objects
/// they are.
#[derive(Drop)]
struct ObjectList<'a, T: Tables> {
    tables: &'a T,
    world: &'a World,
    listed: ListKind,
}

impl<'a, T: Tables> Model for ObjectList<'a, T> {
    ghost use Rattle.paw_effects.specs.inner.Listing.{ListedObjects};

    ghost Value = { ListedObjects };

    ghost view = { λ l. record {
      game = T.game l.tables.now;
      world = l.world.now;
      listed = l.listed;
    } };
}

impl<'a, T: Tables> ObjectList<'a, T> {
    // The least object of the list above `above`, or the least of all without `above`.
    fn next(&self, above: Option<u8>) -> Option<u8>
        ensures none { IfNone result (listed_above self.now.world self.now.listed above ≡ []) }
        ensures some { IfSome result (λ o. listed_above self.now.world self.now.listed above
            ≡ o ∷ listed_above self.now.world self.now.listed (Some o)) }
        ensures known { IfSome result (λ o. o < length self.now.world.places) }
        ensures rises { IfSome result (λ o. IfSome above (λ a. a < o)) }
    {
        next(self.world, self.listed, above)
    }

    // Prints the text of an object of the list.
    fn print_text(&self, piece: &mut Piece, o: u8) -> bool
        requires known { o < length self.now.world.places }
        ensures puts { Puts piece.old piece.new result
            (listed_text self.now.game self.now.world self.now.listed o) }
    {
        match self.listed {
            ListKind::At(_) => print_object(self.tables, piece, o),
            ListKind::Held => {
                print_object(self.tables, piece, o)
                    && put_if_worn(self.tables, self.world, piece, o)
            }
        }
    }

    // Prints the text of an object of the list in a line of its own.
    fn print_in_line(&self, piece: &mut Piece, o: u8) -> bool
        requires known { o < length self.now.world.places }
        ensures puts { Puts piece.old piece.new result
            (listed_text self.now.game self.now.world self.now.listed o ++ 10 ∷ []) }
    {
        self.print_text(piece, o) && piece.push(b"\n")
    }

    // Prints the objects of the list above this one, each in a line of its own.
    fn print_other_lines(&self, piece: &mut Piece, first: u8) -> bool
        ensures puts { Puts piece.old piece.new result
            (as_lines (texts_above self.now.game self.now.world self.now.listed (Some first))) }
    {
        let mut last = first;
        while let Some(o) = self.next(Some(last)) {
            if !self.print_in_line(piece, o) {
                return false;
            }
            last = o;
        }
        piece.push(&[])
    }

    // What joins the text of an object to the one before it: a comma, or the word `and` before the last.
    fn joint(&self, o: u8) -> &'static [u8]
        ensures value { result.now ≡ joint (listed_above self.now.world self.now.listed (Some o)) }
    {
        match self.next(Some(o)) {
            Some(_) => b", ",
            None => b" and ",
        }
    }

    // Prints the text of an object of the list after another one.
    fn print_joined(&self, piece: &mut Piece, o: u8) -> bool
        requires known { o < length self.now.world.places }
        ensures puts { Puts piece.old piece.new result
            (joint (texts_above self.now.game self.now.world self.now.listed (Some o))
            ++ listed_text self.now.game self.now.world self.now.listed o) }
    {
        piece.push(self.joint(o)) && self.print_text(piece, o)
    }

    // Prints the objects of the list above this one, each after the one before it, and ends the sentence.
    fn print_others(&self, piece: &mut Piece, first: u8) -> bool
        ensures puts { Puts piece.old piece.new result
            (others_joined (texts_above self.now.game self.now.world self.now.listed (Some first))) }
    {
        let mut last = first;
        while let Some(o) = self.next(Some(last)) {
            if !self.print_joined(piece, o) {
                return false;
            }
            last = o;
        }
        piece.push(b".\n")
    }

    // Prints the list, which begins with this object.
    fn print_from(&self, piece: &mut Piece, first: u8) -> bool
        requires known { first < length self.now.world.places }
        requires first { listed_above self.now.world self.now.listed None
            ≡ first ∷ listed_above self.now.world self.now.listed (Some first) }
        ensures puts { Puts piece.old piece.new result
            (list_of self.now.world (texts_above self.now.game self.now.world self.now.listed None)) }
    {
        if lists_are_sentences(self.world) {
            self.print_text(piece, first) && self.print_others(piece, first)
        } else {
            self.print_in_line(piece, first) && self.print_other_lines(piece, first)
        }
    }

    // Prints the list, or a system message where there is nothing to list.
    fn print_or_say(&self, piece: &mut Piece, s: u8) -> bool
        ensures puts { Puts piece.old piece.new result (list_or_say self.now.game self.now.world s
            (texts_above self.now.game self.now.world self.now.listed None)) }
    {
        match self.next(None) {
            Some(first) => self.print_from(piece, first),
            None => say(self.tables, self.world, piece, s),
        }
    }
}

/// Prints what is worn and carried.
pub(crate) fn print_inventory<T: Tables>(tables: &T, world: &World, piece: &mut Piece) -> bool
    ensures puts { Puts piece.old piece.new result (inventory_text (T.game tables.now) world.now) }
{
    let held = ObjectList {
        tables,
        world,
        listed: ListKind::Held,
    };
    say(tables, world, piece, INVENTORY_MESSAGE) && held.print_or_say(piece, EMPTY_HANDED_MESSAGE)
}

/// Prints what stands at a place.
pub(crate) fn print_place<T: Tables>(tables: &T, world: &World, piece: &mut Piece, p: u8) -> bool
    ensures puts { Puts piece.old piece.new result (place_list_text (T.game tables.now) world.now p) }
{
    let there = ObjectList {
        tables,
        world,
        listed: ListKind::At(p),
    };
    there.print_or_say(piece, NOTHING_THERE_MESSAGE)
}

/// Prints what stands at the current location, where anything does.
pub(crate) fn print_here<T: Tables>(tables: &T, world: &World, piece: &mut Piece) -> bool
    ensures puts { Puts piece.old piece.new result (here_list_text (T.game tables.now) world.now) }
{
    if !is_somewhere(world) {
        return piece.push(&[]);
    }
    let here = ObjectList {
        tables,
        world,
        listed: ListKind::At(world.flag(LOCATION_FLAG)),
    };
    match here.next(None) {
        Some(first) => say(tables, world, piece, SEEN_MESSAGE) && here.print_from(piece, first),
        None => piece.push(&[]),
    }
}
