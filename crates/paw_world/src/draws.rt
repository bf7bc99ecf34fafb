// Random words.

ghost use Rattle.std.specs.Prelude.{◌≡◌, ◌+◌, ◌-◌, ◌<◌, ◌^◌};
ghost use Rattle.paw_world.specs.Draws.{random_word};

use rand_core::utils::NextWord;
use rand_pcg::Lcg64Xsh32;
use std::marker::Model;

/// A generator, and how many words it gave since it was seeded.
#[derive(Drop)]
pub struct Draws {
    generator: Lcg64Xsh32,
    seed: u64,
    count: u64,
}

impl Model for Draws {
    ghost use Rattle.std.specs.Prelude.{◌≡◌};
    ghost use Rattle.paw_world.specs.inner.Draws.{Drawn, generator_after};

    ghost Value = { Drawn };

    ghost view = { λ d. record { seed = d.seed; count = d.count } };

    ghost invariant = { λ d. d.generator ≡ generator_after d.seed d.count };
}

impl Draws {
    /// No word is drawn yet.
    pub fn new(seed: u64) -> Draws
        ensures value { result ≡ record { seed = seed; count = 0 } }
    {
        Draws {
            generator: Lcg64Xsh32::new(seed, 0),
            seed,
            count: 0,
        }
    }

    pub fn seed(&self) -> u64
        ensures value { result ≡ self.now.seed }
    {
        self.seed
    }

    /// How many words were drawn.
    pub fn count(&self) -> u64
        ensures value { result ≡ self.now.count }
    {
        self.count
    }

    /// The next word.
    pub fn draw(&mut self) -> u32
        requires room { self.old.count < 2 ^ 64 - 1 }
        ensures word { result ≡ random_word self.old.seed self.old.count }
        ensures counts { self.new ≡ record self.old { count = self.old.count + 1 } }
    {
        self.count += 1;
        self.generator.next_word()
    }

    /// Passes over n words.
    pub fn skip(&mut self, n: u64)
        requires room { self.old.count + n < 2 ^ 64 }
        ensures counts { self.new ≡ record self.old { count = self.old.count + n } }
    {
        self.count += n;
        self.generator.advance(n);
    }
}
