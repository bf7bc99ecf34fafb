// The row that a part at fault names.

ghost use Rattle.std.specs.Prelude.{◌≡◌, ◌<◌, ◌^◌, IfSome};
ghost use Rattle.paw_game.specs.inner.Fault.{part_row_fault};

/// The row to name of a part with `count` rows and `bad` as its first bad one: `most` where it has more rows than that,
/// `count` where it has fewer than `least`, and otherwise `bad`; None where no rule is broken.
pub(crate) fn row_fault(least: usize, most: usize, count: usize, bad: Option<usize>) -> Option<u32>
    requires limit { most < 2 ^ 32 }
    requires within { IfSome bad (λ row. row < count) }
    ensures value { result ≡ part_row_fault least most count bad }
{
    if count > most {
        Some(most as u32)
    } else if count < least {
        Some(count as u32)
    } else {
        bad.map(|row| row as u32)
    }
}
