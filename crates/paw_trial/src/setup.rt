// What a trial is played with.

ghost use Rattle.std.specs.Prelude.{◌≡◌, ◌<◌, ◌≤◌, length, IfOk};
ghost use Rattle.sha2.specs.Sha256.{sha256};
ghost use Rattle.paw_base.specs.declared.limits.TheConstants.{IMAGE_LIMIT};
ghost use Rattle.paw_game.specs.Image.{image};
ghost use Rattle.paw_gen.specs.Trial.{trial_game};
ghost use Rattle.paw_trial.specs.inner.Session.{half_lines};

use paw_base::fault::NoRoom;
use paw_game::game::Game;
use paw_game::parts::Text;
use paw_gen::{game_of, lines_of};
use paw_image::encoder::encode;
use paw_image::refusal::ImageRefusal;
use paw_journal::digest;
use std::alloc::Global;
use std::marker::Model;

/// A half of the lines of a trial. The number of lines in the first half is rounded down.
#[derive(Clone, Copy, Drop)]
pub(crate) enum Half {
    First,
    Second,
}

/// A trial: its number, its game, the digest of the game's image, and its lines. Contracts see the number.
#[derive(Drop)]
pub(crate) struct TrialSetup {
    n: u16,
    game: Game,
    digest: [u8; 32],
    lines: Vec<Text>,
}

impl Model for TrialSetup {
    ghost use Rattle.std.specs.Prelude.{◌≡◌, ◌<◌, ℕ};
    ghost use Rattle.sha2.specs.Sha256.{sha256};
    ghost use Rattle.paw_game.specs.Image.{image};
    ghost use Rattle.paw_gen.specs.Trial.{trial_game, trial_lines};

    ghost Value = { ℕ };

    ghost view = { λ s. s.n };

    ghost invariant = { λ s. (s.game ≡ trial_game s.n)
        × (s.digest ≡ sha256 (image (trial_game s.n)))
        × (s.lines.items ≡ trial_lines s.n)
        × (s.n < 65536) };
}

// The image of a game that isn't too long.
fn image_of(alloc: Global, game: &Game) -> Result<Vec<u8>, NoRoom>
    requires fits { length (image game.now) ≤ IMAGE_LIMIT }
    ensures value { IfOk result (λ v. v.items ≡ image game.now) }
{
    match encode(alloc, game) {
        Ok(bytes) => Ok(bytes),
        Err(ImageRefusal::Memory) => Err(NoRoom),
        Err(ImageRefusal::Damaged { .. }) => unreachable!(), // The image is within the limit.
    }
}

impl TrialSetup {
    /// The trial of this number.
    ///
    /// # Errors
    /// NoRoom for lack of memory.
    pub(crate) fn new(alloc: Global, n: u16) -> Result<TrialSetup, NoRoom>
        ensures value { IfOk result (λ s. s ≡ n) }
    {
        let game = game_of(alloc, n)?;
        let image = image_of(alloc, &game)?;
        let digest = digest(image.as_slice());
        let lines = lines_of(alloc, n)?;
        Ok(TrialSetup {
            n,
            game,
            digest,
            lines,
        })
    }

    /// The number, which is the seed as well.
    pub(crate) fn number(&self) -> u16
        ensures value { result ≡ self.now }
    {
        self.n
    }

    /// The game.
    pub(crate) fn game(&self) -> &Game
        ensures value { result.now ≡ trial_game self.now }
    {
        &self.game
    }

    /// The digest of the game's image.
    pub(crate) fn digest(&self) -> &[u8; 32]
        ensures digest { result.now ≡ sha256 (image (trial_game self.now)) }
        ensures small { self.now < 65536 }
    {
        &self.digest
    }

    /// The lines of a half.
    pub(crate) fn half(&self, half: Half) -> &[Text]
        ensures lines { result.now ≡ half_lines half self.now }
        ensures small { self.now < 65536 }
    {
        let middle = self.lines.len() / 2;
        match half {
            Half::First => &self.lines[..middle],
            Half::Second => &self.lines[middle..],
        }
    }
}
