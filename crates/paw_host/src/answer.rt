// The answer to what a line asks of one session: what its store then keeps, and the body of the reply.

ghost use Rattle.std.specs.Prelude.{◌≡◌, ◌+◌, ◌*◌, ◌<◌, ◌≤◌, ◌∷◌, ◌++◌, length, IfOk, OnOk, IfSome};
ghost use Rattle.std.specs.Option.{option_copied};
ghost use Rattle.paw_base.specs.declared.limits.TheConstants.{LINE_LIMIT, PIECE_LIMIT};
ghost use Rattle.paw_stage.specs.Disk.{IsStable};
ghost use Rattle.paw_stage.specs.AcrossCalls.{IfTelling};
ghost use Rattle.paw_stage.specs.Stage.{file_bytes};
ghost use Rattle.paw_stage.specs.declared.StageCall.TheVariants as call;
ghost use Rattle.paw_journal.specs.Journal.{writing_calls};
ghost use Rattle.paw_journal.specs.inner.Store.{ChangesStoreOnly};
ghost use Rattle.paw_journal.specs.inner.Journal.{IsAtRest, KeptIn, failed_stage_call};
ghost use Rattle.paw_play.specs.inner.Calls.{DoneWithMoments, IsNotForCall, call_of_end};
ghost use Rattle.paw_play.specs.inner.OnTheWay.{EachStory, IsAttached};
ghost use Rattle.paw_play.specs.inner.Open.{IsPrepared, MayTake, StaysSeated};
ghost use Rattle.paw_host.specs.Replies.{NamedSession, Absent, answer};
ghost use Rattle.paw_host.specs.Promise.{MayBe, Stores};
ghost use Rattle.paw_host.specs.inner.Answers.{end_word, TakesText, Answers, InFile, InAnswer, IsAside, StoresEither, LeftOf};
ghost use Rattle.paw_host.specs.inner.Answers.{answer_calls};
ghost use Rattle.paw_host.specs.inner.Seats.{IsHosted};
ghost use Rattle.paw_host.specs.inner.Store.{IsAttachedStable, LeavesStage};
ghost use Rattle.paw_host.specs.declared.reply.TheConstants.{REPLY_LIMIT};

use crate::reply::Reply;
use paw_game::tables::Tables;
use paw_journal::{Attached, Room, attach};
use paw_play::PlayEnd;
use paw_play::open::{OpenSession, begin, resume, take};
use paw_stage::{Stage, StageCall};
use paw_turn::Player;

/// The game that is hosted: its tables, the digests of its image and of its routines, and the seed of new sessions.
#[derive(Clone, Copy, Drop)]
pub(crate) struct Hosted<'a, T: Tables> {
    pub tables: &'a T,
    pub game: [u8; 32],
    pub rules: [u8; 32],
    pub seed: u64,
}

// What a reply says where a session brings no piece, by how playing it ended; or the call that failed.
fn word_for(end: PlayEnd) -> Result<&'static [u8], StageCall>
    requires call { IsNotForCall end }
    ensures failed { failed_stage_call result ≡ call_of_end end }
    ensures word { IfOk result (λ w. w.now ≡ end_word end) }
    ensures short { IfOk result (λ w. length w.now ≤ 8) }
{
    match end {
        PlayEnd::Ended => Ok(b"over"),
        PlayEnd::Long { .. } => Ok(b"full"),
        PlayEnd::Spent(_) => Ok(b"spent"),
        PlayEnd::TooDeep { .. } => Ok(b"too deep"),
        PlayEnd::Outside(call) => Err(call),
        PlayEnd::Refused(_)
        | PlayEnd::State { .. }
        | PlayEnd::InputEnded
        | PlayEnd::Occupied { .. }
        | PlayEnd::Memory => Ok(b"refused"),
    }
}

// Adds the last piece of a session to the reply, where it has room.
fn push_piece(reply: &mut Reply, room: &Room)
    ensures value { length reply.old + length room.now.piece ≤ REPLY_LIMIT → reply.new ≡ reply.old ++ room.now.piece }
{
    reply.push(room.piece());
}

// Says in the reply that a session brings no piece.
fn push_end(reply: &mut Reply, end: PlayEnd) -> Result<(), StageCall>
    requires call { IsNotForCall end }
    requires room { length reply.old + PIECE_LIMIT ≤ REPLY_LIMIT }
    ensures failed { failed_stage_call result ≡ call_of_end end }
    ensures says { OnOk result (reply.new ≡ reply.old ++ end_word end) }
    ensures short { length reply.new ≤ length reply.old + PIECE_LIMIT }
{
    match word_for(end) {
        Ok(word) => {
            reply.push(word);
            Ok(())
        }
        Err(call) => Err(call),
    }
}

// The answer of an open session to a text.
fn answer_text<S: Stage, T: Tables, F: Fn(u8, u8) -> u8>(
    stage: &mut S,
    player: &mut Player<'_, T, F>,
    room: &mut Room,
    reply: &mut Reply,
    session: OpenSession,
    text: &[u8],
) -> Result<(), StageCall>
    requires may { MayTake F.Fn session.events player.old }
    requires short { length text.now ≤ LINE_LIMIT }
    requires kept { S.Tells stage.old → KeptIn session.journal room.old (S.standing stage.old) }
    requires room { length reply.old + PIECE_LIMIT ≤ REPLY_LIMIT }
    ensures stays { StaysSeated player.old player.new }
    ensures short { length reply.new ≤ length reply.old + PIECE_LIMIT }
    ensures leaves { LeavesStage S.Stage writing_calls (failed_stage_call result) ChangesStoreOnly
        (λ old new. OnOk result (IsAtRest new)) stage.old stage.new }
    ensures promises { S.Tells stage.old → EachStory F.Fn player.old.routines player.old.game (λ g.
        TakesText S.Stage stage.old stage.new g session.events player.old room.old.piece text.now
        reply.old reply.new result) }
{
    match take(stage, player, room, session, text) {
        Ok(_) => {
            push_piece(reply, room);
            Ok(())
        }
        Err(end) => push_end(reply, end),
    }
}

// The answer of a new session in the attached store, which is empty.
fn answer_new<S: Stage, T: Tables, F: Fn(u8, u8) -> u8>(
    stage: &mut S,
    player: &mut Player<'_, T, F>,
    room: &mut Room,
    reply: &mut Reply,
    at: Attached,
    hosted: &Hosted<'_, T>,
    text: Option<&[u8]>,
) -> Result<(), StageCall>
    requires player { IsPrepared F.Fn hosted.now.game hosted.now.rules player.old }
    requires short { IfSome text (λ t. length t.now ≤ LINE_LIMIT) }
    requires empty { at.length ≡ 0 }
    requires attached { S.Tells stage.old → IsAttached at (S.standing stage.old) }
    requires room { length reply.old ≤ 20 }
    ensures stays { StaysSeated player.old player.new }
    ensures short { length reply.new ≤ length reply.old + 2 * PIECE_LIMIT }
    ensures leaves { LeavesStage S.Stage writing_calls (failed_stage_call result) ChangesStoreOnly
        (λ old new. OnOk result (IsAtRest new)) stage.old stage.new }
    ensures promises { IfTelling S.Stage stage.old stage.new (λ old new.
        EachStory F.Fn player.old.routines player.old.game (λ g.
        DoneWithMoments S.Stage stage.old stage.new
        (OnOk result
        (Answers g (answer g hosted.now.seed Absent (option_copied text.entry)) reply.old reply.new new.disk.bytes))
        (InFile (LeftOf g hosted.now.seed Absent
        (answer g hosted.now.seed Absent (option_copied text.entry)).session) old))) }
{
    match begin(
        stage,
        player,
        room,
        at,
        &hosted.game,
        &hosted.rules,
        hosted.seed,
    ) {
        Ok(session) => {
            push_piece(reply, room);
            match text {
                Some(text) => answer_text(stage, player, room, reply, session, text),
                None => Ok(()),
            }
        }
        Err(end) => push_end(reply, end),
    }
}

// The answer of the session in the attached store, which isn't empty.
fn answer_kept<S: Stage, T: Tables, F: Fn(u8, u8) -> u8>(
    stage: &mut S,
    player: &mut Player<'_, T, F>,
    room: &mut Room,
    reply: &mut Reply,
    at: Attached,
    hosted: &Hosted<'_, T>,
    text: Option<&[u8]>,
) -> Result<(), StageCall>
    requires hosted { IsHosted F.Fn (T.game hosted.now.tables.now) hosted.now.game hosted.now.rules player.old }
    requires short { IfSome text (λ t. length t.now ≤ LINE_LIMIT) }
    requires some { 0 < at.length }
    requires attached { S.Tells stage.old → IsAttached at (S.standing stage.old) }
    requires room { length reply.old ≤ 20 }
    ensures stays { StaysSeated player.old player.new }
    ensures short { S.Tells stage.old → length reply.new ≤ length reply.old + 2 * PIECE_LIMIT }
    ensures leaves { LeavesStage S.Stage (call.Read ∷ writing_calls) (failed_stage_call result) ChangesStoreOnly
        (λ old new. OnOk result (IsAtRest new)) stage.old stage.new }
    ensures promises { IfTelling S.Stage stage.old stage.new (λ old new.
        EachStory F.Fn player.old.routines player.old.game (λ g. (before : NamedSession) → MayBe g before →
        Stores g before old.disk.bytes →
        DoneWithMoments S.Stage stage.old stage.new
        (OnOk result
        (Answers g (answer g hosted.now.seed before (option_copied text.entry)) reply.old reply.new new.disk.bytes))
        (InFile (StoresEither g before (answer g hosted.now.seed before (option_copied text.entry)).session) old))) }
{
    match resume(
        stage,
        player,
        room,
        at,
        hosted.tables,
        &hosted.game,
        &hosted.rules,
    ) {
        Ok(session) => match text {
            Some(text) => answer_text(stage, player, room, reply, session, text),
            None => {
                push_piece(reply, room);
                Ok(())
            }
        },
        Err(end) => push_end(reply, end),
    }
}

/// The answer to what is asked of the session in the file of this name: no text, or this one.
pub(crate) fn answer<S: Stage, T: Tables, F: Fn(u8, u8) -> u8>(
    stage: &mut S,
    player: &mut Player<'_, T, F>,
    room: &mut Room,
    reply: &mut Reply,
    hosted: &Hosted<'_, T>,
    store: &str,
    text: Option<&[u8]>,
) -> Result<(), StageCall>
    requires hosted { IsHosted F.Fn (T.game hosted.now.tables.now) hosted.now.game hosted.now.rules player.old }
    requires short { IfSome text (λ t. length t.now ≤ LINE_LIMIT) }
    requires synced { S.Tells stage.old → IsStable (S.standing stage.old).disk }
    requires room { length reply.old ≤ 20 }
    ensures stays { StaysSeated player.old player.new }
    ensures short { S.Tells stage.old → length reply.new ≤ length reply.old + 2 * PIECE_LIMIT }
    ensures leaves { LeavesStage S.Stage answer_calls (failed_stage_call result) (IsAside store.now)
        (λ old new. OnOk result (IsAttachedStable store.now new)) stage.old stage.new }
    ensures promises { IfTelling S.Stage stage.old stage.new (λ old new.
        EachStory F.Fn player.old.routines player.old.game (λ g. (before : NamedSession) → MayBe g before →
        Stores g before (file_bytes old store.now) →
        DoneWithMoments S.Stage stage.old stage.new
        (OnOk result
        (Answers g (answer g hosted.now.seed before (option_copied text.entry)) reply.old reply.new
        (file_bytes new store.now)))
        (InAnswer g hosted.now.seed store.now before
        (answer g hosted.now.seed before (option_copied text.entry)).session old))) }
{
    let at = match attach(stage, store) {
        Ok(at) => at,
        Err(call) => return Err(call),
    };
    if at.length == 0 {
        answer_new(stage, player, room, reply, at, hosted, text)
    } else {
        answer_kept(stage, player, room, reply, at, hosted, text)
    }
}
