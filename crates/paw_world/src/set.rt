// Sets of objects.

ghost use Rattle.std.specs.Prelude.{◌*◌, ◌<◌, ◌≤◌};
ghost use Rattle.paw_world.specs.inner.ObjectSet.{Inserts, Removes, IsLeastFrom, IsLowestFrom};

use std::marker::Model;

/// A set of numbers from 0 to 255: bit o % 64 of word o / 64 says whether o is in it. So 64 numbers are looked at in
/// one instruction when the least is searched.
#[derive(Clone, Copy, Drop)]
pub struct ObjectSet {
    words: [u64; 4],
}

impl Model for ObjectSet {
    ghost use Rattle.std.specs.Prelude.{List, ℕ};

    ghost Value = { List ℕ };

    ghost view = { λ s. s.words };

    ghost inverse = { λ words. record { words = words } };
}

impl ObjectSet {
    pub const EMPTY: ObjectSet = ObjectSet { words: [0; 4] };

    /// Adds a member, where it isn't one.
    pub fn insert(&mut self, o: u8)
        ensures inserts { Inserts o self.old self.new }
    {
        self.words[(o / 64) as usize] |= 1 << (o % 64);
    }

    /// Takes a member out, where it is one.
    pub fn remove(&mut self, o: u8)
        ensures removes { Removes o self.old self.new }
    {
        self.words[(o / 64) as usize] &= !(1 << (o % 64));
    }

    /// The least member that isn't below `from`, among those in the first `word_count` words. The other words aren't
    /// looked at: in a game with few objects they have no member.
    pub fn least_from(&self, from: usize, word_count: usize) -> Option<u8>
        requires bound { from ≤ 256 }
        requires words { word_count ≤ 4 }
        ensures least { IsLeastFrom self.now from (64 * word_count) result }
    {
        let mut word = from / 64;
        let mut bit = (from % 64) as u8;
        while word < word_count {
            match lowest_from(self.words[word], bit) {
                Some(one) => return Some(64 * word as u8 + one),
                None => {
                    word += 1;
                    bit = 0;
                }
            }
        }
        None
    }
}

// The lowest bit of a word that is 1 and isn't below `from`.
fn lowest_from(word: u64, from: u8) -> Option<u8>
    requires bound { from < 64 }
    ensures lowest { IsLowestFrom word from result }
{
    let left = word >> from;
    if left == 0 {
        return None;
    }
    Some(from + left.trailing_zeros() as u8)
}
