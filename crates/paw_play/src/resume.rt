// Resuming a session.

ghost use Rattle.std.specs.Prelude.{◌≡◌, ◌⊎◌};
ghost use Rattle.sha2.specs.Sha256.{sha256};
ghost use Rattle.paw_base.specs.Bytes.{Name};
ghost use Rattle.paw_game.specs.Image.{image};
ghost use Rattle.paw_stage.specs.Disk.{IsStable};
ghost use Rattle.paw_stage.specs.Stage.{Standing};
ghost use Rattle.paw_stage.specs.AcrossCalls.{IfTelling, EachMoment, InTwoParts, FailsOnlyBy};
ghost use Rattle.paw_routines.specs.Routines.{HaveAnswers};
ghost use Rattle.paw_play.specs.Played.{PlayedSession, GoesOnFrom};
ghost use Rattle.paw_play.specs.Keeping.{InPlay};
ghost use Rattle.paw_play.specs.Play.{NotYet, PlaysAgain, GoesOn, attached_to, store_bytes};
ghost use Rattle.paw_play.specs.Laws.{StandsAtMoment};
ghost use Rattle.paw_play.specs.inner.OnTheWay.{EachStory, IsAttached};
ghost use Rattle.paw_play.specs.Calls.{session_calls};
ghost use Rattle.paw_play.specs.inner.Calls.{IsNotForCall, call_of_end};

use crate::PlayEnd;
use crate::open::resume;
use crate::play::{play_lines, seats};
use paw_game::tables::Tables;
use paw_journal::{Attached, attach};
use paw_routines::routines::Routines;
use paw_stage::Stage;
use std::alloc::Global;

// Makes what a session is played with, and resumes the one of the attached store.
fn resume_in<S: Stage, T: Tables, F: Fn(u8, u8) -> u8>(
    alloc: Global,
    stage: &mut S,
    at: Attached,
    tables: &T,
    routines: &Routines<F>,
    game: &[u8; 32],
) -> PlayEnd
    requires game { game.now ≡ sha256 (image (T.game tables.now)) }
    requires answers { HaveAnswers F.Fn routines.now }
    requires attached { S.Tells stage.old → IsAttached at (S.standing stage.old) }
    ensures serves { FailsOnlyBy S.Stage session_calls (call_of_end result) stage.old stage.new }
    ensures refused { IsNotForCall result }
    ensures promises { IfTelling S.Stage stage.old stage.new (λ old new.
        EachStory F.Fn routines.now (T.game tables.now) (λ g. (before : Standing) (name : Name) →
        old ≡ attached_to before name → PlaysAgain g name before new result
        × ((s : PlayedSession) → GoesOnFrom g name (store_bytes before name) s →
        EachMoment S.Stage stage.old stage.new (InPlay s before)))) }
{
    // The player's seed doesn't matter: the session gives it one.
    let (mut player, mut room) = match seats(alloc, tables, routines, 0) {
        Ok(seats) => seats,
        Err(_) => return PlayEnd::Memory,
    };
    match resume(
        stage,
        &mut player,
        &mut room,
        at,
        tables,
        game,
        &routines.measure(),
    ) {
        Ok(session) => play_lines(stage, &mut player, &mut room, session),
        Err(end) => end,
    }
}

/// Resumes the session of a game in the file of this name: shows its last piece again, and goes on from its prompt as
/// `play_loop` does; a session that is over asks nothing. `game` is the digest of the game's image. A session that
/// keeps the measure of other routines isn't resumed.
pub fn resume_loop<S: Stage, T: Tables, F: Fn(u8, u8) -> u8>(
    alloc: Global,
    stage: &mut S,
    tables: &T,
    routines: &Routines<F>,
    game: &[u8; 32],
    name: &str,
) -> PlayEnd
    requires game { game.now ≡ sha256 (image (T.game tables.now)) }
    requires answers { HaveAnswers F.Fn routines.now }
    requires synced { S.Tells stage.old → IsStable (S.standing stage.old).disk }
    ensures serves { FailsOnlyBy S.Stage session_calls (call_of_end result) stage.old stage.new }
    ensures refused { IsNotForCall result }
    ensures plays { IfTelling S.Stage stage.old stage.new (λ old new.
        EachStory F.Fn routines.now (T.game tables.now) (λ g. PlaysAgain g name.now old new result)) }
    ensures goes_on { IfTelling S.Stage stage.old stage.new (λ old new.
        EachStory F.Fn routines.now (T.game tables.now) (λ g. (s : PlayedSession) →
        GoesOnFrom g name.now (store_bytes old name.now) s → GoesOn s old new result)) }
    ensures any_moment { IfTelling S.Stage stage.old stage.new (λ old new.
        EachStory F.Fn routines.now (T.game tables.now) (λ g. (s : PlayedSession) →
        GoesOnFrom g name.now (store_bytes old name.now) s →
        InTwoParts S.Stage stage.old stage.new (NotYet name.now old) (InPlay s old))) }

    // However it ends, what stands is one of its moments: so with no crash the file is as a crash could have left it.
    ensures stands { IfTelling S.Stage stage.old stage.new (λ old new.
        EachStory F.Fn routines.now (T.game tables.now) (λ g. (s : PlayedSession) →
        GoesOnFrom g name.now (store_bytes old name.now) s →
        StandsAtMoment (λ m. NotYet name.now old m ⊎ InPlay s old m) name.now new)) }
{
    // The clause of this call says that the game is valid, which the proof needs. The compiler leaves the call out.
    let _counts = tables.counts();
    let at = match attach(stage, name) {
        Ok(at) => at,
        Err(call) => return PlayEnd::Outside(call),
    };
    resume_in(alloc, stage, at, tables, routines, game)
}
