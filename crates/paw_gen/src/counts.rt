// How large the game of a trial is, and how many lines it has.

ghost use Rattle.std.specs.Prelude.{◌≡◌, ◌≤◌};
ghost use Rattle.paw_gen.specs.Trial.{location_count, object_count, line_count};

/// How many locations the game has: 20 to 219.
pub fn location_count(n: u16) -> u16
    ensures value { result ≡ location_count n }
    ensures least { 20 ≤ result }
    ensures most { result ≤ 219 }
{
    20 + n % 200
}

/// How many objects the game has: 10 to 109.
pub fn object_count(n: u16) -> u16
    ensures value { result ≡ object_count n }
    ensures most { result ≤ 109 }
{
    10 + n % 100
}

/// How many lines there are: 10 to 99.
pub fn line_count(n: u16) -> u16
    ensures value { result ≡ line_count n }
    ensures most { result ≤ 99 }
{
    10 + n % 90
}
