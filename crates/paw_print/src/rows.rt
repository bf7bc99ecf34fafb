// The parts of a line.

ghost use Rattle.std.specs.Prelude.{◌≡◌, ◌++◌, ◌∷◌, [], OnOk, decimal};
ghost use Rattle.paw_print.specs.Lines.{flag_token};
ghost use Rattle.paw_print.specs.Canonical.{with_line_end};

use itoa::Buffer;
use std::alloc::AllocError;

/// The result of writing; its one error is lack of memory.
pub(crate) type Written = Result<(), AllocError>;

/// Ends a line.
pub(crate) fn end_line(out: &mut Vec<u8>) -> Written
    ensures writes { OnOk result (out.new.items ≡ out.old.items ++ 10 ∷ []) }
{
    out.push(b'\n')?;
    Ok(())
}

/// Writes a line that is one token.
pub(crate) fn write_header(token: &[u8], out: &mut Vec<u8>) -> Written
    ensures writes { OnOk result (out.new.items ≡ out.old.items ++ with_line_end token.now) }
{
    out.extend_from_slice(token)?;
    end_line(out)
}

/// Writes a token after one space.
pub(crate) fn write_token(token: &[u8], out: &mut Vec<u8>) -> Written
    ensures writes { OnOk result (out.new.items ≡ out.old.items ++ 32 ∷ token.now) }
{
    out.push(b' ')?;
    out.extend_from_slice(token)
}

/// Writes a number.
pub(crate) fn write_digits(number: usize, out: &mut Vec<u8>) -> Written
    ensures writes { OnOk result (out.new.items ≡ out.old.items ++ decimal number) }
{
    let mut digits = Buffer::new();
    out.extend_from_slice(digits.format(number).as_bytes())
}

/// Writes a number after one space.
pub(crate) fn write_number(number: usize, out: &mut Vec<u8>) -> Written
    ensures writes { OnOk result (out.new.items ≡ out.old.items ++ 32 ∷ decimal number) }
{
    out.push(b' ')?;
    write_digits(number, out)
}

/// Writes `@` and the number of a flag after one space.
pub(crate) fn write_flag(flag: u8, out: &mut Vec<u8>) -> Written
    ensures writes { OnOk result (out.new.items ≡ out.old.items ++ 32 ∷ flag_token flag) }
{
    out.extend_from_slice(b" @")?;
    write_digits(flag as usize, out)
}
