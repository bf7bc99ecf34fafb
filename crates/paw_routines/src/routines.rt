// Routines: code from outside that gives a value for a value.

ghost use Rattle.std.specs.Prelude.{◌≡◌, ◌<◌, Some, nat_lt, is_some, slice_get};
ghost use Rattle.paw_base.specs.Bytes.{RoutineAnswers};
ghost use Rattle.paw_routines.specs.Answers.{StandFor, value_at};
ghost use Rattle.paw_routines.specs.Routines.{AreAnswersOf, HaveAnswers};
ghost use Rattle.paw_routines.specs.Measure.{measure};

use sha2::{Digest, Sha256};

/// A number of routines, numbered from 0, each of which gives a value for a value.
#[derive(Drop)]
pub struct Routines<F> {
    count: u8,
    f: F,
}

impl<F: Fn(u8, u8) -> u8> Routines<F> {
    /// The routines below `count`, where routine n gives for x what the closure gives for n and x.
    pub fn new(count: u8, f: F) -> Routines<F>
        requires answers { (X : RoutineAnswers) × StandFor F.Fn f count X }
        ensures answers { (X : RoutineAnswers) → StandFor F.Fn f count X → AreAnswersOf F.Fn result X }
        ensures some { HaveAnswers F.Fn result }
    {
        Routines { count, f }
    }

    /// What routine n gives for x. None exactly where there is no routine n.
    pub fn call(&self, n: u8, x: u8) -> Option<u8>
        requires answers { HaveAnswers F.Fn self.now }
        ensures value { (X : RoutineAnswers) → AreAnswersOf F.Fn self.now X → result ≡ value_at X n x }
        ensures none { is_some result ≡ nat_lt n self.now.count }
    {
        if n < self.count {
            Some((self.f)(n, x))
        } else {
            None
        }
    }

    // What routine n gives for each value from 0 to 255.
    fn answers_of(&self, n: u8) -> [u8; 256]
        requires answers { HaveAnswers F.Fn self.now }
        requires is_routine { n < self.now.count }
        ensures value { (X : RoutineAnswers) → AreAnswersOf F.Fn self.now X → slice_get X n ≡ Some result }
    {
        let mut own = [0; 256];
        for x in 0..=u8::MAX {
            own[x as usize] = (self.f)(n, x);
        }
        own
    }

    /// The measure of these routines: a digest of their number and of all the values that they give. It shows with
    /// which routines a session was played.
    pub fn measure(&self) -> [u8; 32]
        requires answers { HaveAnswers F.Fn self.now }
        ensures value { (X : RoutineAnswers) → AreAnswersOf F.Fn self.now X → result ≡ measure X }
    {
        let mut hasher = Sha256::new();
        hasher.update([self.count]);
        for n in 0..self.count {
            hasher.update(self.answers_of(n));
        }
        hasher.finalize()
    }
}
