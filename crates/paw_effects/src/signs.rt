// The signs that stand for what a game shows or plays besides its text. Where nothing is printed the empty text is
// pushed, whose clause gives the proof that the piece fits.

ghost use Rattle.paw_base.specs.inner.Condacts.{IsCode};
ghost use Rattle.paw_base.specs.inner.Piece.{Puts};
ghost use Rattle.paw_effects.specs.Signs.{parameter_text, sign_text};

use crate::text::print_number;
use paw_base::piece::Piece;
use paw_base::rows::{ParamKind, condact_row};

// Prints a space and the number, where there is a parameter of this kind.
fn print_parameter(piece: &mut Piece, kind: ParamKind, number: u8) -> bool
    ensures puts { Puts piece.old piece.new result (parameter_text kind number) }
{
    match kind {
        ParamKind::Absent => piece.push(&[]),
        _ => piece.push(b" ") && print_number(piece, u16::from(number)),
    }
}

/// Prints the sign of the condact with this code and these parameters. They are passed one by one, because
/// each of the many arms that call this would otherwise keep room in memory for a condact of its own.
pub(crate) fn print_sign(piece: &mut Piece, code: u8, a: u8, b: u8) -> bool
    requires code { IsCode code }
    ensures puts { Puts piece.old piece.new result (sign_text (record { code = code; a = a; b = b })) }
{
    let Some(row) = condact_row(code) else {
        unreachable!(); // Each code has a row.
    };
    piece.push(b"[")
        && piece.push(row.trimmed_name())
        && print_parameter(piece, row.first, a)
        && print_parameter(piece, row.second, b)
        && piece.push(b"]\n")
}
