// The lines of a trial.

ghost use Rattle.std.specs.Prelude.{◌≡◌, IfOk};
ghost use Rattle.paw_gen.specs.Trial.{trial_line, trial_lines};

use crate::counts::line_count;
use paw_base::fault::NoRoom;
use paw_game::parts::Text;
use std::alloc::Global;

// A line, by its number.
fn line_at(number: u16) -> &'static [u8]
    ensures value { result.now ≡ trial_line number }
{
    match number % 6 {
        0 => b"NORTH",
        1 => b"GET ALL",
        2 => b"INVEN",
        3 => b"LOOK",
        4 => b"DROP ALL",
        _ => b"SOUTH AND GET ALL",
    }
}

/// The lines of a trial, in their order, without line ends.
///
/// # Errors
/// NoRoom where there is no memory.
#[tactic(auto, unfolding(crate::specs::Trial::trial_lines))]
pub fn lines_of(alloc: Global, n: u16) -> Result<Vec<Text>, NoRoom>
    ensures value { IfOk result (λ lines. lines.items ≡ trial_lines n) }
{
    let mut lines = Vec::new(alloc);
    for number in 0..line_count(n) {
        lines.push(Text::from_slice(alloc, line_at(number))?)?;
    }
    Ok(lines)
}
