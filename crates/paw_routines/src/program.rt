// The routines of the programs.

ghost use Rattle.std.specs.Prelude.{◌≡◌};
ghost use Rattle.paw_routines.specs.Program.{program_routine};

/// How many routines the programs have.
pub const ROUTINES: u8 = 3;

/// What they give for a byte: 0 its complement, 1 its half, 2 the number of its one bits.
pub fn give(n: u8, x: u8) -> u8
    ensures value { result ≡ program_routine n x }
{
    match n {
        0 => 255 - x,
        1 => x / 2,
        _ => x.count_ones() as u8,
    }
}
