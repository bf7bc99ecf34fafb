// The texts that a game prints into a piece. A function that prints nothing in some case pushes the empty text there:
// the clause of the push says what the clause of the whole has to, that the piece is as it was and fits.

ghost use Rattle.std.specs.Prelude.{◌≡◌, ◌+◌, ◌++◌, ◌<◌, ◌≤◌, [], length, IfSome, IfNone, Some, decimal};
ghost use Rattle.std.specs.Option.{unwrap_or};
ghost use Rattle.paw_base.specs.Bytes.{Text};
ghost use Rattle.paw_base.specs.declared.limits.TheConstants.{PIECE_LIMIT};
ghost use Rattle.paw_base.specs.inner.Piece.{Puts};
ghost use Rattle.paw_game.specs.inner.Tables.{text_at};
ghost use Rattle.paw_effects.specs.Texts.{with_name, object_text, printed_text, ended_text};
ghost use Rattle.paw_effects.specs.Texts.{put_text, say_text, location_text, message_text};

use itoa::Buffer;
use memchr::memchr;
use paw_base::flags::REFERRED_FLAG;
use paw_base::piece::Piece;
use paw_game::parts::GamePart;
use paw_game::tables::Tables;
use paw_world::world::World;

// The text before the first underscore, and the text after it; None where there is no underscore.
fn split_at_underscore(text: &[u8]) -> Option<(&[u8], &[u8])>
    ensures none { IfNone result ((name : Text) → with_name name text.now ≡ text.now) }
    ensures some { IfSome result (λ p. (name : Text) →
        with_name name text.now ≡ (p.0.now ++ name) ++ with_name name p.1.now) }
    ensures shorter { IfSome result (λ p. length p.1.now < length text.now) }
{
    // Most texts have none, which `contains` finds fastest: it tests many bytes at a time in short texts too.
    if !text.contains(&b'_') {
        return None;
    }
    let at = memchr(b'_', text)?;
    Some((&text[..at], &text[at + 1..]))
}

// Prints two texts, and answers true; or false exactly where they don't fit.
fn print_both(piece: &mut Piece, first: &[u8], second: &[u8]) -> bool
    ensures puts { Puts piece.old piece.new result (first.now ++ second.now) }
{
    piece.push(first) && piece.push(second)
}

// A text of a part of the game, as it is; empty where there is none.
fn text_of<T: Tables>(tables: &T, part: GamePart, number: u8) -> &[u8]
    ensures value { result.now ≡ unwrap_or (text_at (T.game tables.now) part number) [] }
{
    match tables.text(part, number) {
        Some(text) => text,
        None => &[],
    }
}

// The text of an object, as it is; empty where there is no such object.
fn object_text<T: Tables>(tables: &T, o: u8) -> &[u8]
    ensures value { result.now ≡ object_text (T.game tables.now) o }
{
    text_of(tables, GamePart::Objects, o)
}

/// Prints a text as a game prints it: with the text of the object last referred to in place of each underscore.
pub(crate) fn print_text<T: Tables>(
    tables: &T,
    world: &World,
    piece: &mut Piece,
    text: &[u8],
) -> bool
    ensures puts { Puts piece.old piece.new result (printed_text (T.game tables.now) world.now text.now) }
{
    let mut rest = text;
    while let Some((before, after)) = split_at_underscore(rest) {
        let name = object_text(tables, world.flag(REFERRED_FLAG));
        if !print_both(piece, before, name) {
            return false;
        }
        rest = after;
    }
    piece.push(rest)
}

/// Prints a text and a newline; nothing where it is empty.
pub(crate) fn print_line<T: Tables>(
    tables: &T,
    world: &World,
    piece: &mut Piece,
    text: &[u8],
) -> bool
    ensures puts { Puts piece.old piece.new result (ended_text (T.game tables.now) world.now text.now) }
{
    if text.is_empty() {
        return piece.push(&[]);
    }
    print_text(tables, world, piece, text) && piece.push(b"\n")
}

/// Prints a system message, where there is one. False exactly where the piece would pass its limit; it may then hold
/// anything.
pub fn put<T: Tables>(tables: &T, world: &World, piece: &mut Piece, s: u8) -> bool
    ensures puts { Puts piece.old piece.new result (put_text (T.game tables.now) world.now s) }
{
    print_text(tables, world, piece, text_of(tables, GamePart::System, s))
}

/// Prints a system message with a newline, where there is one that isn't empty. False exactly where the piece would
/// pass its limit; it may then hold anything.
pub fn say<T: Tables>(tables: &T, world: &World, piece: &mut Piece, s: u8) -> bool
    ensures puts { Puts piece.old piece.new result (say_text (T.game tables.now) world.now s) }
{
    print_line(tables, world, piece, text_of(tables, GamePart::System, s))
}

/// Prints a location's text with a newline, where there is one that isn't empty. False exactly where the piece would
/// pass its limit; it may then hold anything.
pub fn print_location<T: Tables>(tables: &T, world: &World, piece: &mut Piece, location: u8) -> bool
    ensures puts { Puts piece.old piece.new result (location_text (T.game tables.now) world.now location) }
{
    let text = text_of(tables, GamePart::Locations, location);
    print_line(tables, world, piece, text)
}

/// Prints nothing: the piece holds what it held, which fits. Only the proof needs it, for the clause of an action that
/// prints nothing.
pub(crate) fn print_nothing(piece: &Piece)
    ensures same { piece.now ≡ piece.now ++ [] }
    ensures fits { length piece.now + 0 ≤ PIECE_LIMIT }
{
    let _ = piece.bytes();
}

/// Prints the text of an object, where there is one, as it is.
pub(crate) fn print_object<T: Tables>(tables: &T, piece: &mut Piece, o: u8) -> bool
    ensures puts { Puts piece.old piece.new result (object_text (T.game tables.now) o) }
{
    piece.push(object_text(tables, o))
}

/// Prints a number in decimal.
pub(crate) fn print_number(piece: &mut Piece, number: u16) -> bool
    ensures puts { Puts piece.old piece.new result (decimal number) }
{
    let mut digits = Buffer::new();
    piece.push(digits.format(number).as_bytes())
}

/// Prints a message, where there is one.
pub(crate) fn message<T: Tables>(tables: &T, world: &World, piece: &mut Piece, m: u8) -> bool
    ensures puts { Puts piece.old piece.new result (message_text (T.game tables.now) world.now m) }
{
    print_text(tables, world, piece, text_of(tables, GamePart::Messages, m))
}
