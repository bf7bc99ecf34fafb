//! Words of a call that are numbers.

ghost use Rattle.std.specs.Prelude.{◌≡◌, ◌&&◌, length, nat_le};
ghost use Rattle.std.specs.Char.{is_ascii_digit};
ghost use Rattle.std.specs.List.{list_all};
ghost use Rattle.paw_play.specs.Numbers.{seed_of};

fn are_digits(word: &[u8]) -> bool
    ensures value { result ≡ list_all is_ascii_digit word.now }
{
    word.iter().all(|byte| byte.is_ascii_digit())
}

/// Whether a word is made of decimal digits, at most this many. (A number that is parsed may have a plus before it.)
pub fn has_digits(word: &str, most: usize) -> bool
    ensures value { result ≡ (nat_le (length word.now) most && list_all is_ascii_digit word.now) }
{
    word.len() <= most && are_digits(word.as_bytes())
}

/// A seed of 1 to 20 decimal digits with a value below 2^64.
pub fn seed_of(word: &str) -> Option<u64>
    ensures value { result ≡ seed_of word.now }
{
    if has_digits(word, 20) {
        word.parse().ok()
    } else {
        None
    }
}
