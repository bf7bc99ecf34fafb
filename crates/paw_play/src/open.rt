// A session that is open: it is begun or resumed in the attached store, and takes lines. Where the lines come from, and
// how pieces are shown, is left to its caller.

ghost use Rattle.std.specs.Prelude.{◌≡◌, ℕ, ◌+◌, ◌≤◌, length, None, IfOk, IfErr, IfNone, IfSome, OnOk, MatchBool};
ghost use Rattle.paw_base.specs.Bytes.{Lines, Name, Text};
ghost use Rattle.paw_base.specs.declared.limits.TheConstants.{LINE_LIMIT, PIECE_LIMIT};
ghost use Rattle.paw_stage.specs.AcrossCalls.{FailsOnlyBy, IfTelling};
ghost use Rattle.paw_routines.specs.Routines.{HaveAnswers};
ghost use Rattle.paw_reading.specs.Turn.{reading};
ghost use Rattle.paw_process.specs.inner.OpenTables.{only_counting};
ghost use Rattle.paw_turn.specs.inner.Player.{IsSeated, IsStanding, prompt_at};
ghost use Rattle.paw_turn.specs.inner.Parts.{Fits, seat_at};
ghost use Rattle.paw_turn.specs.declared.Step.TheVariants as step;
ghost use Rattle.paw_journal.specs.Journal.{writing_calls};
ghost use Rattle.paw_journal.specs.inner.Store.{ChangesStoreOnly};
ghost use Rattle.paw_journal.specs.inner.Calls.{ReadsStore};
ghost use Rattle.paw_journal.specs.inner.Journal.{KeptIn, outside};
ghost use Rattle.paw_play.specs.Played.{PlayedSession, session_begun};
ghost use Rattle.paw_play.specs.inner.Calls.{DoneWithMoments, IsNotForCall, call_of_end, end_failed_or};
ghost use Rattle.paw_play.specs.inner.OnTheWay.{EachStory, IsAttached, end_of};
ghost use Rattle.paw_play.specs.inner.Open.{BeginsTo, HasPlayed, HoldsSession, InBeginning, InTaking, IsOpen, IsPrepared};
ghost use Rattle.paw_play.specs.inner.Open.{MayTake, PlaysFirst, PlaysNext, ResumesTo, StaysSeated, TakesLineTo};

use crate::PlayEnd;
use crate::line::{commit, make};
use crate::walk::end_without_piece;
use paw_base::limits::EVENT_LIMIT;
use paw_effects::act::Prompt;
use paw_game::tables::Tables;
use paw_journal::{Attached, Journal, JournalRefusal, Room};
use paw_stage::Stage;
use paw_state::{Restored, read_state};
use paw_turn::Player;

/// A session that is open in the attached store: its journal, and the number of lines that it has taken. Its last piece
/// is in the room with which it is open, and the player stands where its reading ended.
///
/// After a call that failed it is gone: its store is attached again, and the session resumed.
#[derive(Drop)]
pub struct OpenSession {
    pub journal: Journal,
    pub events: u64,
}

/// Whether the game of a player that stands at a prompt is over; otherwise the player waits.
pub(crate) fn is_over<T: Tables, F: Fn(u8, u8) -> u8>(player: &Player<'_, T, F>) -> bool
    requires seated { IsSeated player.now }
    requires standing { IsStanding player.now.last }
    ensures cases { MatchBool result (player.now.last ≡ step.Ended)
        (player.now.last ≡ step.Waits (prompt_at player.now.last)) }
{
    match player.parts().prompt {
        Prompt::Over => true,
        Prompt::Main | Prompt::Quit | Prompt::Again | Prompt::Key => false,
    }
}

// Plays the piece before the first line. How playing ends where it isn't closed.
fn play_first<T: Tables, F: Fn(u8, u8) -> u8>(
    player: &mut Player<'_, T, F>,
    seed: u64,
) -> Option<PlayEnd>
    requires seated { IsSeated player.old }
    requires answers { HaveAnswers F.Fn player.old.routines }
    ensures stays { StaysSeated player.old player.new }
    ensures may { IfNone result (MayTake F.Fn 0 player.new) }
    ensures fine { IfSome result (λ o. call_of_end o ≡ None) }
    ensures refused { IfSome result IsNotForCall }
    ensures meaning { EachStory F.Fn player.old.routines player.old.game (λ g.
        PlaysFirst g (reading g seed) player.new result) }
{
    player.renew(seed);
    let step = player.start();
    end_without_piece(step)
}

/// Begins a session in the attached store, which is empty: plays the piece before the first line, and makes a session
/// with it. `game` and `rules` are the digests of the game's image and of the routines. Nothing is shown.
///
/// # Errors
/// Spent and TooDeep where that piece isn't closed; nothing is written then. Outside with Write or Sync where that call
/// failed.
pub fn begin<S: Stage, T: Tables, F: Fn(u8, u8) -> u8>(
    stage: &mut S,
    player: &mut Player<'_, T, F>,
    room: &mut Room,
    at: Attached,
    game: &[u8; 32],
    rules: &[u8; 32],
    seed: u64,
) -> Result<OpenSession, PlayEnd>
    requires player { IsPrepared F.Fn game.now rules.now player.old }
    requires empty { at.length ≡ 0 }
    requires attached { S.Tells stage.old → IsAttached at (S.standing stage.old) }
    ensures stays { StaysSeated player.old player.new }
    ensures may { IfOk result (λ s. MayTake F.Fn s.events player.new) }
    ensures holds { IfOk result (HoldsSession (S.Tells stage.old) 0 room.new (S.standing stage.new)) }
    ensures short { OnOk result (length room.new.piece ≤ PIECE_LIMIT) }
    ensures serves { FailsOnlyBy S.Stage writing_calls (end_failed_or result) stage.old stage.new }
    ensures beside { IfTelling S.Stage stage.old stage.new ChangesStoreOnly }
    ensures still { IfErr result (λ o. call_of_end o ≡ None → stage.new ≡ stage.old) }
    ensures refused { IfErr result IsNotForCall }
    ensures promises { IfTelling S.Stage stage.old stage.new (λ old new.
        EachStory F.Fn player.old.routines player.old.game (λ g. (name : Name) →
        DoneWithMoments S.Stage stage.old stage.new
        (BeginsTo g (session_begun g seed name) new player.new room.new.piece result)
        (InBeginning (session_begun g seed name) old))) }
{
    if let Some(end) = play_first(player, seed) {
        return Err(end);
    }
    match make(stage, player, room, at, game, rules) {
        Ok(journal) => Ok(OpenSession { journal, events: 0 }),
        Err(call) => Err(PlayEnd::Outside(call)),
    }
}

// How playing ends where no session is found.
fn not_found(refusal: JournalRefusal) -> PlayEnd
    ensures value { result ≡ end_of refusal }
    ensures call { call_of_end result ≡ outside refusal }
    ensures refused { IsNotForCall result }
{
    match refusal {
        JournalRefusal::Outside(call) => PlayEnd::Outside(call),
        JournalRefusal::Unmade { .. }
        | JournalRefusal::Damaged { .. }
        | JournalRefusal::WrongGame { .. }
        | JournalRefusal::WrongRoutines { .. } => PlayEnd::Refused(refusal),
    }
}

// Seats the player where a state was kept. It only counts its steps, which are shown nowhere.
fn seat<T: Tables, F: Fn(u8, u8) -> u8>(player: &mut Player<'_, T, F>, restored: Restored)
    requires seated { IsSeated player.old }
    requires fits { Fits player.old.game restored.world restored.machine restored.pending restored.prompt }
    ensures value { player.new ≡ seat_at player.old.game player.old.routines
        restored.world (only_counting restored.machine) restored.pending restored.prompt }
    ensures seated { IsSeated player.new }
{
    player.seat(
        restored.world,
        restored.machine,
        restored.pending,
        restored.prompt,
    );
    player.count_steps_only();
}

/// Resumes the session of the attached store: seats the player where it stands. Its last piece is then in the room.
/// Nothing is written, and nothing is shown.
///
/// # Errors
/// Refused where the store gives no session of the game, by these routines; State where its session shows no state of
/// the game; Outside with Read where that call failed.
pub fn resume<S: Stage, T: Tables, F: Fn(u8, u8) -> u8>(
    stage: &mut S,
    player: &mut Player<'_, T, F>,
    room: &mut Room,
    at: Attached,
    tables: &T,
    game: &[u8; 32],
    rules: &[u8; 32],
) -> Result<OpenSession, PlayEnd>
    requires player { IsPrepared F.Fn game.now rules.now player.old }
    requires same { player.old.game ≡ T.game tables.now }
    requires attached { S.Tells stage.old → IsAttached at (S.standing stage.old) }
    ensures stays { StaysSeated player.old player.new }
    ensures may { IfOk result (λ s. MayTake F.Fn s.events player.new) }
    ensures kept { S.Tells stage.old → IfOk result (λ s. KeptIn s.journal room.new (S.standing stage.new)) }
    ensures short { S.Tells stage.old → OnOk result (length room.new.piece ≤ PIECE_LIMIT) }
    ensures reads { ReadsStore S.Stage (end_failed_or result) stage.old stage.new }
    ensures refused { IfErr result IsNotForCall }
    ensures meaning { IfTelling S.Stage stage.old stage.new (λ old new.
        EachStory F.Fn player.old.routines player.old.game (λ g.
        ResumesTo g old.disk.bytes player.new room.new.piece result)) }
{
    let journal = match Journal::find(stage, room, at, game, rules) {
        Ok(journal) => journal,
        Err(refusal) => return Err(not_found(refusal)),
    };
    let restored = match read_state(tables, room.state()) {
        Ok(restored) => restored,
        Err(fault) => return Err(PlayEnd::State { at: fault.at }),
    };
    let events = restored.events;
    seat(player, restored);
    Ok(OpenSession { journal, events })
}

// Plays the piece that a line brings. How playing ends where no line is taken, or the piece isn't closed.
fn play_next<T: Tables, F: Fn(u8, u8) -> u8>(
    player: &mut Player<'_, T, F>,
    events: u64,
    line: &[u8],
) -> Option<PlayEnd>
    requires may { MayTake F.Fn events player.old }
    requires short { length line.now ≤ LINE_LIMIT }
    ensures stays { StaysSeated player.old player.new }
    ensures may { IfNone result (MayTake F.Fn (events + 1) player.new) }
    ensures fine { IfSome result (λ o. call_of_end o ≡ None) }
    ensures refused { IfSome result IsNotForCall }
    ensures meaning { EachStory F.Fn player.old.routines player.old.game (λ g.
        PlaysNext g events line.now player.old player.new result) }
{
    if is_over(player) {
        return Some(PlayEnd::Ended);
    }
    if events >= EVENT_LIMIT {
        return Some(PlayEnd::Long {
            events: EVENT_LIMIT,
        });
    }
    let step = player.take(line);
    end_without_piece(step)
}

/// Takes a line, and commits the piece that it brings. Nothing is shown.
///
/// # Errors
/// Ended where the game is over, and Long where the session has all the lines that it may have: the line isn't taken.
/// Spent and TooDeep where the piece isn't closed; nothing is written then, and the session is as before the line once it
/// is resumed. Outside with Write or Sync where that call failed.
pub fn take<S: Stage, T: Tables, F: Fn(u8, u8) -> u8>(
    stage: &mut S,
    player: &mut Player<'_, T, F>,
    room: &mut Room,
    session: OpenSession,
    line: &[u8],
) -> Result<OpenSession, PlayEnd>
    requires may { MayTake F.Fn session.events player.old }
    requires short { length line.now ≤ LINE_LIMIT }
    requires kept { S.Tells stage.old → KeptIn session.journal room.old (S.standing stage.old) }
    ensures stays { StaysSeated player.old player.new }
    ensures may { IfOk result (λ s. MayTake F.Fn s.events player.new) }
    ensures holds { IfOk result (HoldsSession (S.Tells stage.old) (session.events + 1) room.new (S.standing stage.new)) }
    ensures short { OnOk result (length room.new.piece ≤ PIECE_LIMIT) }
    ensures serves { FailsOnlyBy S.Stage writing_calls (end_failed_or result) stage.old stage.new }
    ensures beside { IfTelling S.Stage stage.old stage.new ChangesStoreOnly }
    ensures still { IfErr result (λ o. call_of_end o ≡ None → stage.new ≡ stage.old) }
    ensures refused { IfErr result IsNotForCall }
    ensures promises { IfTelling S.Stage stage.old stage.new (λ old new.
        EachStory F.Fn player.old.routines player.old.game (λ g. (s : PlayedSession) (n : ℕ) (taken : Lines) (earlier : Text) →
        IsOpen g s n taken player.old earlier room.old.piece old.disk.bytes → session.events ≡ s.before + n →
        DoneWithMoments S.Stage stage.old stage.new
        (TakesLineTo g s n taken line.now old new player.new room.new.piece result)
        (InTaking g s n taken line.now old))) }
{
    if let Some(end) = play_next(player, session.events, line) {
        return Err(end);
    }
    let events = session.events + 1;
    match commit(stage, player, room, session.journal, events) {
        Ok(journal) => Ok(OpenSession { journal, events }),
        Err(call) => Err(PlayEnd::Outside(call)),
    }
}
