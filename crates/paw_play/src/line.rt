// Playing with a session: each piece is shown, and the next line is asked for and taken. What is kept of a player.

ghost use Rattle.std.specs.Prelude.{◌≡◌, ◌+◌, ◌≤◌, take, length, IfOk, IfErr, IfSome, OnOk};
ghost use Rattle.paw_base.specs.declared.limits.TheConstants.{PIECE_LIMIT};
ghost use Rattle.paw_stage.specs.Stage.{InShow};
ghost use Rattle.paw_stage.specs.AcrossCalls.{IfTelling, FailsOnlyBy};
ghost use Rattle.paw_stage.specs.inner.AcrossCalls.{AtEachMoment};
ghost use Rattle.paw_turn.specs.inner.Player.{IsSeated};
ghost use Rattle.paw_turn.specs.inner.Parts.{IsStanding};
ghost use Rattle.paw_journal.specs.Session.{state_length, piece_length};
ghost use Rattle.paw_journal.specs.inner.Calls.{WritesStore};
ghost use Rattle.paw_journal.specs.inner.Journal.{KeptIn};
ghost use Rattle.paw_journal.specs.inner.Session.{digests_of};
ghost use Rattle.paw_play.specs.Keeping.{InPlay};
ghost use Rattle.paw_play.specs.inner.OnTheWay.{EachStory, EachPlaying, PlaysLineTo, ShowsOpen, IsAttached};
ghost use Rattle.paw_play.specs.inner.OnTheWay.{CommitsPlayer, InCommit, InMake, MakesPlayer};
ghost use Rattle.paw_play.specs.inner.Open.{seat_state, seat_base, HoldsSession, MayTake, StaysSeated};
ghost use Rattle.paw_play.specs.Calls.{play_calls};
ghost use Rattle.paw_play.specs.inner.Calls.{DoneWithMoments, IsNotForCall, end_failed_or, failed_so_far};

use crate::open::{OpenSession, is_over, take};
use crate::show::show;
use crate::{PlayEnd, end_of};
use paw_base::limits::{EVENT_LIMIT, LINE_LIMIT};
use paw_game::tables::Tables;
use paw_journal::{Attached, Journal, Room};
use paw_reading::halt::Halt;
use paw_stage::{Asked, Stage, StageCall};
use paw_state::{STATE_ROOM, write_state};
use paw_turn::Player;

/// The player's state after this number of lines, and zeros after it.
pub fn state_after<T: Tables, F: Fn(u8, u8) -> u8>(
    player: &Player<'_, T, F>,
    events: u64,
) -> [u8; STATE_ROOM]
    ensures base { result ≡ seat_base events player.now }
    ensures state { take state_length result ≡ seat_state events player.now }
    ensures piece { piece_length result ≡ length player.now.piece }
{
    let parts = player.parts();
    write_state(
        parts.world,
        parts.machine,
        parts.pending,
        parts.prompt,
        events,
        player.piece().len() as u16,
    )
}

/// Commits the player's state and its last piece, after this number of lines.
///
/// # Errors
/// Write or Sync where that call of the stage failed.
pub fn commit<S: Stage, T: Tables, F: Fn(u8, u8) -> u8>(
    stage: &mut S,
    player: &Player<'_, T, F>,
    room: &mut Room,
    journal: Journal,
    events: u64,
) -> Result<Journal, StageCall>
    requires seated { IsSeated player.now }
    requires standing { IsStanding player.now.last }
    requires kept { S.Tells stage.old → KeptIn journal room.old (S.standing stage.old) }
    ensures call { WritesStore S.Stage result (CommitsPlayer events player.now) (InCommit events player.now)
        stage.old stage.new }
    ensures piece { OnOk result (room.new.piece ≡ player.now.piece) }
    ensures short { OnOk result (length room.new.piece ≤ PIECE_LIMIT) }
    ensures kept { S.Tells stage.old → IfOk result (λ kept. KeptIn kept room.new (S.standing stage.new)) }
{
    let state = state_after(player, events);
    journal.commit(stage, room, &state, player.piece())
}

/// Makes a session in the attached store, which is empty. It shows the player's state before the first line, and its
/// last piece.
///
/// # Errors
/// Write or Sync where that call of the stage failed.
pub(crate) fn make<S: Stage, T: Tables, F: Fn(u8, u8) -> u8>(
    stage: &mut S,
    player: &Player<'_, T, F>,
    room: &mut Room,
    at: Attached,
    game: &[u8; 32],
    rules: &[u8; 32],
) -> Result<Journal, StageCall>
    requires empty { at.length ≡ 0 }
    requires attached { S.Tells stage.old → IsAttached at (S.standing stage.old) }
    ensures call { WritesStore S.Stage result (MakesPlayer (digests_of game.now rules.now) player.now)
        (InMake (digests_of game.now rules.now) player.now) stage.old stage.new }
    ensures piece { OnOk result (room.new.piece ≡ player.now.piece) }
    ensures short { OnOk result (length room.new.piece ≤ PIECE_LIMIT) }
    ensures kept { S.Tells stage.old → IfOk result (λ kept. KeptIn kept room.new (S.standing stage.new)) }
{
    let state = state_after(player, 0);
    Journal::create(stage, room, at, game, rules, &state, player.piece())
}

// Shows the last piece of an open session. How playing ends where no further line is asked for: the show failed, the
// game is over, or the session has all the lines that it may have.
fn show_last_piece<S: Stage, T: Tables, F: Fn(u8, u8) -> u8>(
    stage: &mut S,
    player: &Player<'_, T, F>,
    room: &Room,
    events: u64,
) -> Option<PlayEnd>
    requires may { MayTake F.Fn events player.now }
    ensures serves { FailsOnlyBy S.Stage play_calls (failed_so_far result) stage.old stage.new }
    ensures refused { IfSome result IsNotForCall }
    ensures meaning { IfTelling S.Stage stage.old stage.new (λ old new.
        ShowsOpen old new room.now.piece player.now.last events result) }
    ensures time { AtEachMoment S.Stage stage.old stage.new (λ s. InShow s room.now.piece) }
{
    if show(stage, room.piece()).is_err() {
        return Some(PlayEnd::Outside(StageCall::Show));
    }
    if is_over(player) {
        return Some(end_of(Halt::Over));
    }
    if events >= EVENT_LIMIT {
        return Some(PlayEnd::Long {
            events: EVENT_LIMIT,
        });
    }
    None
}

/// Shows the last piece of an open session, asks for a line, and takes it. The line comes into room that is lent.
pub(crate) fn play_line<S: Stage, T: Tables, F: Fn(u8, u8) -> u8>(
    stage: &mut S,
    player: &mut Player<'_, T, F>,
    room: &mut Room,
    session: OpenSession,
    line: &mut [u8; LINE_LIMIT],
) -> Result<OpenSession, PlayEnd>
    requires may { MayTake F.Fn session.events player.old }
    requires kept { S.Tells stage.old → KeptIn session.journal room.old (S.standing stage.old) }
    ensures stays { StaysSeated player.old player.new }
    ensures may { IfOk result (λ s. MayTake F.Fn s.events player.new) }
    ensures holds { IfOk result (HoldsSession (S.Tells stage.old) (session.events + 1) room.new (S.standing stage.new)) }
    ensures serves { FailsOnlyBy S.Stage play_calls (end_failed_or result) stage.old stage.new }
    ensures refused { IfErr result IsNotForCall }
    ensures promises { IfTelling S.Stage stage.old stage.new (λ old new.
        EachStory F.Fn player.old.routines player.old.game (λ g.
        EachPlaying g player.old room.old.piece session.events old (λ s n first.
        DoneWithMoments S.Stage stage.old stage.new
        (PlaysLineTo g s n first new player.new room.new.piece result) (InPlay s first)))) }
{
    if let Some(end) = show_last_piece(stage, player, room, session.events) {
        return Err(end);
    }
    match stage.ask(line) {
        Asked::Line(n) => take(stage, player, room, session, &line[..n as usize]),
        Asked::End => Err(PlayEnd::InputEnded),
        Asked::Failed => Err(PlayEnd::Outside(StageCall::Ask)),
    }
}
