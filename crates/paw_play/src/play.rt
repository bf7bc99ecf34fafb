// Playing a new session.

ghost use Rattle.std.specs.Prelude.{◌≡◌, ◌⊎◌, ◌-◌, [], length, IfOk};
ghost use Rattle.sha2.specs.Sha256.{sha256};
ghost use Rattle.paw_base.specs.Bytes.{Name};
ghost use Rattle.paw_base.specs.declared.limits.TheConstants.{EVENT_LIMIT};
ghost use Rattle.paw_game.specs.Image.{image};
ghost use Rattle.paw_stage.specs.Disk.{IsStable};
ghost use Rattle.paw_stage.specs.Stage.{Standing};
ghost use Rattle.paw_stage.specs.AcrossCalls.{IfTelling, EachMoment, InTwoParts, FailsOnlyBy};
ghost use Rattle.paw_routines.specs.Routines.{HaveAnswers};
ghost use Rattle.paw_turn.specs.inner.Player.{IsSeated};
ghost use Rattle.paw_journal.specs.inner.Journal.{KeptIn};
ghost use Rattle.paw_play.specs.Played.{PlayedSession, session_begun};
ghost use Rattle.paw_play.specs.Keeping.{InPlay, InNewSession};
ghost use Rattle.paw_play.specs.Play.{NotYet, PlaysOn, MadeAndPlayed, NewSession, store_bytes};
ghost use Rattle.paw_play.specs.Laws.{StandsAtMoment};
ghost use Rattle.paw_play.specs.inner.OnTheWay.{EachStory, IsRestingStore, IsAttached, IsPlaying};
ghost use Rattle.paw_play.specs.inner.Open.{MayTake};
ghost use Rattle.paw_play.specs.Calls.{play_calls, session_calls};
ghost use Rattle.paw_play.specs.inner.Calls.{DoneWithMoments, IsNotForCall, call_of_end};

use crate::PlayEnd;
use crate::line::play_line;
use crate::open::{OpenSession, begin};
use paw_base::fault::NoRoom;
use paw_base::limits::{EVENT_LIMIT, LINE_LIMIT};
use paw_game::tables::Tables;
use paw_journal::{Attached, Room, attach};
use paw_routines::routines::Routines;
use paw_stage::Stage;
use paw_turn::Player;
use std::alloc::Global;

/// Plays an open session, whose last piece isn't shown yet, until the game is over or no line is left, with at most as
/// many lines as a session may have.
pub(crate) fn play_lines<S: Stage, T: Tables, F: Fn(u8, u8) -> u8>(
    stage: &mut S,
    player: &mut Player<'_, T, F>,
    room: &mut Room,
    session: OpenSession,
) -> PlayEnd
    requires may { MayTake F.Fn session.events player.old }
    requires kept { S.Tells stage.old → KeptIn session.journal room.old (S.standing stage.old) }
    ensures serves { FailsOnlyBy S.Stage play_calls (call_of_end result) stage.old stage.new }
    ensures refused { IsNotForCall result }
    ensures promises { IfTelling S.Stage stage.old stage.new (λ old new.
        EachStory F.Fn player.old.routines player.old.game (λ g. (s : PlayedSession) (first : Standing) →
        IsPlaying g s first old player.old room.old.piece 0 → session.events ≡ s.before →
        DoneWithMoments S.Stage stage.old stage.new
        (PlaysOn s (EVENT_LIMIT - s.before) first new result) (InPlay s first))) }
{
    let mut session = session;
    let mut line = [0u8; LINE_LIMIT];
    for _ in session.events..EVENT_LIMIT + 1 {
        match play_line(stage, player, room, session, &mut line) {
            Ok(next) => session = next,
            Err(end) => return end,
        }
    }
    // This is never reached: a session that has all its lines ends before it asks for one more.
    PlayEnd::Long {
        events: EVENT_LIMIT,
    }
}

/// What a session is played with: a player of the game at its start, which only counts its steps, and a journal's room.
///
/// # Errors
/// NoRoom where there is no memory for them.
pub(crate) fn seats<'a, T: Tables, F: Fn(u8, u8) -> u8>(
    alloc: Global,
    tables: &'a T,
    routines: &'a Routines<F>,
    seed: u64,
) -> Result<(Player<'a, T, F>, Room), NoRoom>
    ensures seated { IfOk result (λ s. IsSeated s.0) }
    ensures game { IfOk result (λ s. s.0.game ≡ T.game tables.now) }
    ensures routines { IfOk result (λ s. s.0.routines ≡ routines.now) }
{
    let room = Room::new(alloc)?;
    let player = Player::new_only_counting(alloc, tables, routines, seed)?;
    Ok((player, room))
}

// Makes what a new session is played with, and plays it in the attached store, which is empty.
fn play_in<S: Stage, T: Tables, F: Fn(u8, u8) -> u8>(
    alloc: Global,
    stage: &mut S,
    at: Attached,
    tables: &T,
    routines: &Routines<F>,
    seed: u64,
    game: &[u8; 32],
) -> PlayEnd
    requires answers { HaveAnswers F.Fn routines.now }
    requires game { game.now ≡ sha256 (image (T.game tables.now)) }
    requires empty { at.length ≡ 0 }
    requires attached { S.Tells stage.old → IsAttached at (S.standing stage.old) }
    ensures serves { FailsOnlyBy S.Stage play_calls (call_of_end result) stage.old stage.new }
    ensures refused { IsNotForCall result }
    ensures promises { IfTelling S.Stage stage.old stage.new (λ old new.
        EachStory F.Fn routines.now (T.game tables.now) (λ g. (name : Name) → IsRestingStore name old →
        DoneWithMoments S.Stage stage.old stage.new
        (MadeAndPlayed (session_begun g seed name) old new result)
        (InNewSession (session_begun g seed name) old))) }
{
    let (mut player, mut room) = match seats(alloc, tables, routines, seed) {
        Ok(seats) => seats,
        Err(_) => return PlayEnd::Memory,
    };
    match begin(
        stage,
        &mut player,
        &mut room,
        at,
        game,
        &routines.measure(),
        seed,
    ) {
        Ok(session) => play_lines(stage, &mut player, &mut room, session),
        Err(end) => end,
    }
}

/// Plays a game from its start, with a session of it in the file of this name, which is missing or empty. Shows the
/// piece before the first line, and then a piece for each line, until the game is over or no line is left. Each piece
/// is committed before it is shown. `game` is the digest of the game's image; the session keeps it, and the measure of
/// the routines. Memory is taken before anything is written.
pub fn play_loop<S: Stage, T: Tables, F: Fn(u8, u8) -> u8>(
    alloc: Global,
    stage: &mut S,
    tables: &T,
    routines: &Routines<F>,
    seed: u64,
    game: &[u8; 32],
    name: &str,
) -> PlayEnd
    requires answers { HaveAnswers F.Fn routines.now }
    requires game { game.now ≡ sha256 (image (T.game tables.now)) }
    requires synced { S.Tells stage.old → IsStable (S.standing stage.old).disk }
    ensures serves { FailsOnlyBy S.Stage session_calls (call_of_end result) stage.old stage.new }
    ensures refused { IsNotForCall result }
    ensures plays { IfTelling S.Stage stage.old stage.new (λ old new.
        EachStory F.Fn routines.now (T.game tables.now)
        (λ g. NewSession (session_begun g seed name.now) old new result)) }
    ensures any_moment { IfTelling S.Stage stage.old stage.new (λ old new.
        EachStory F.Fn routines.now (T.game tables.now) (λ g. store_bytes old name.now ≡ [] →
        InTwoParts S.Stage stage.old stage.new (NotYet name.now old)
        (InNewSession (session_begun g seed name.now) old))) }

    // However it ends, what stands is one of its moments: so with no crash the file is as a crash could have left it.
    ensures stands { IfTelling S.Stage stage.old stage.new (λ old new.
        EachStory F.Fn routines.now (T.game tables.now) (λ g. store_bytes old name.now ≡ [] →
        StandsAtMoment (λ m. NotYet name.now old m ⊎ InNewSession (session_begun g seed name.now) old m)
        name.now new)) }
{
    let at = match attach(stage, name) {
        Ok(at) => at,
        Err(call) => return PlayEnd::Outside(call),
    };
    if at.length != 0 {
        return PlayEnd::Occupied { length: at.length };
    }
    play_in(alloc, stage, at, tables, routines, seed, game)
}
