// Taking lines: what each asks for is done, and then the reply is shown.

ghost use Rattle.std.specs.Prelude.{◌≡◌, ◌≢◌, ◌≤◌, [], Some, true, codes, length, IfOk, OnOk, IfSome, IfNone};
ghost use Rattle.paw_base.specs.declared.limits.TheConstants.{LINE_LIMIT};
ghost use Rattle.paw_stage.specs.Disk.{IsStable};
ghost use Rattle.paw_stage.specs.AcrossCalls.{IfTelling, FailsOnlyBy};
ghost use Rattle.paw_turn.specs.inner.Player.{IsSeated};
ghost use Rattle.paw_journal.specs.inner.Journal.{failed_stage_call};
ghost use Rattle.paw_play.specs.Calls.{session_calls};
ghost use Rattle.paw_play.specs.inner.OnTheWay.{EachStory};
ghost use Rattle.paw_host.specs.Names.{is_name, request_in};
ghost use Rattle.paw_host.specs.Replies.{reply_text as spoken};
ghost use Rattle.paw_host.specs.Hosts.{Ends};
ghost use Rattle.paw_host.specs.Outcomes.{host_failure};
ghost use Rattle.paw_host.specs.declared.outcome.HostOutcome.TheVariants as outcome;
ghost use Rattle.paw_host.specs.inner.Names.{asks};
ghost use Rattle.paw_host.specs.inner.Answers.{answer_calls};
ghost use Rattle.paw_host.specs.inner.Seats.{IsHosted};
ghost use Rattle.paw_play.specs.inner.Open.{StaysSeated};
ghost use Rattle.paw_host.specs.inner.Store.{LeavesStage};
ghost use Rattle.paw_host.specs.inner.Lines.{DoesRequest, HostsWithMoments, SameLines, ServesLine, TakesTo};
ghost use Rattle.paw_host.specs.inner.Lines.{host_failure_so_far};

use crate::answer::{Hosted, answer};
use crate::names::{Request, StoreName, request_in};
use crate::outcome::HostOutcome;
use crate::reply::{Reply, begin_reply};
use paw_base::fault::NoRoom;
use paw_base::limits::LINE_LIMIT;
use paw_game::tables::Tables;
use paw_journal::Room;
use paw_play::show::show;
use paw_routines::routines::Routines;
use paw_stage::{Asked, Stage, StageCall};
use paw_turn::Player;
use std::alloc::Global;

/// The most lines that the host takes.
pub const HOST_LIMIT: u64 = 1_000_000_000;

// Makes the reply to a line that asks for nothing.
fn refuse_line(reply: &mut Reply)
    ensures value { reply.new ≡ spoken [] (codes "bad line") }
{
    begin_reply(reply, b"");
    reply.push(b"bad line\n");
}

/// What every session is played with, one after the other: a player, a journal's room, the name of the store, and the
/// reply. It takes all its memory when it is made.
#[derive(Drop)]
pub(crate) struct Seats<'a, T: Tables, F: Fn(u8, u8) -> u8> {
    player: Player<'a, T, F>,
    room: Room,
    store: StoreName,
    reply: Reply,
}

impl<'a, T: Tables, F: Fn(u8, u8) -> u8> Seats<'a, T, F> {
    /// The seats of a game.
    ///
    /// # Errors
    /// NoRoom where there is no memory for them.
    pub(crate) fn new(
        alloc: Global,
        tables: &'a T,
        routines: &'a Routines<F>,
        seed: u64,
    ) -> Result<Seats<'a, T, F>, NoRoom>
        ensures seated { IfOk result (λ s. IsSeated s.player) }
        ensures game { IfOk result (λ s. s.player.game ≡ T.game tables.now) }
        ensures routines { IfOk result (λ s. s.player.routines ≡ routines.now) }
    {
        Ok(Seats {
            player: Player::new_only_counting(alloc, tables, routines, seed)?,
            room: Room::new(alloc)?,
            store: StoreName::new(alloc)?,
            reply: Reply::new(alloc)?,
        })
    }

    // Does what is asked for, and makes the reply.
    fn answer<S: Stage>(
        &mut self,
        stage: &mut S,
        hosted: &Hosted<'_, T>,
        request: Request<'_>,
    ) -> Result<(), StageCall>
        requires hosted { IsHosted F.Fn
            (T.game hosted.now.tables.now) hosted.now.game hosted.now.rules self.old.player }
        requires name { is_name request.name.now ≡ true }
        requires short { IfSome request.text (λ t. length t.now ≤ LINE_LIMIT) }
        requires synced { S.Tells stage.old → IsStable (S.standing stage.old).disk }
        ensures stays { StaysSeated self.old.player self.new.player }
        ensures leaves { LeavesStage S.Stage answer_calls (failed_stage_call result) SameLines
            (λ old new. OnOk result (IsStable new.disk)) stage.old stage.new }
        ensures promises { S.Tells stage.old → EachStory F.Fn self.old.player.routines self.old.player.game (λ g.
            DoesRequest S.Stage stage.old stage.new g hosted.now.seed (Some (asks request.entry)) self.new.reply
            result) }
    {
        begin_reply(&mut self.reply, request.name);
        self.store.set(request.name);
        let answered = answer(
            stage,
            &mut self.player,
            &mut self.room,
            &mut self.reply,
            hosted,
            self.store.as_str(),
            request.text,
        );
        self.reply.push(b"\n");
        answered
    }

    // Does what a line asks for, and makes the reply.
    fn reply<S: Stage>(
        &mut self,
        stage: &mut S,
        hosted: &Hosted<'_, T>,
        line: &[u8],
    ) -> Result<(), StageCall>
        requires hosted { IsHosted F.Fn
            (T.game hosted.now.tables.now) hosted.now.game hosted.now.rules self.old.player }
        requires short { length line.now ≤ LINE_LIMIT }
        requires synced { S.Tells stage.old → IsStable (S.standing stage.old).disk }
        ensures stays { StaysSeated self.old.player self.new.player }
        ensures leaves { LeavesStage S.Stage answer_calls (failed_stage_call result) SameLines
            (λ old new. OnOk result (IsStable new.disk)) stage.old stage.new }
        ensures promises { S.Tells stage.old → EachStory F.Fn self.old.player.routines self.old.player.game (λ g.
            DoesRequest S.Stage stage.old stage.new g hosted.now.seed (request_in line.now) self.new.reply result) }
    {
        match request_in(line) {
            Some(request) => self.answer(stage, hosted, request),
            None => {
                refuse_line(&mut self.reply);
                Ok(())
            }
        }
    }

    // Asks for a line, does what it asks for, and shows the reply. None where a further line may follow.
    fn serve<S: Stage>(&mut self, stage: &mut S, hosted: &Hosted<'_, T>) -> Option<HostOutcome>
        requires hosted { IsHosted F.Fn
            (T.game hosted.now.tables.now) hosted.now.game hosted.now.rules self.old.player }
        requires synced { S.Tells stage.old → IsStable (S.standing stage.old).disk }
        ensures stays { StaysSeated self.old.player self.new.player }
        ensures form { IfSome result (λ o. o ≢ outcome.Usage) }
        ensures serves { FailsOnlyBy S.Stage session_calls (host_failure_so_far result) stage.old stage.new }
        ensures synced { S.Tells stage.old → IfNone result (IsStable (S.standing stage.new).disk) }
        ensures takes { IfTelling S.Stage stage.old stage.new (λ old new. TakesTo old new result) }
        ensures promises { S.Tells stage.old → EachStory F.Fn self.old.player.routines self.old.player.game (λ g.
            ServesLine S.Stage stage.old stage.new g hosted.now.seed result) }
    {
        let mut line = [0u8; LINE_LIMIT];
        let n = match stage.ask(&mut line) {
            Asked::Line(n) => n as usize,
            Asked::End => return Some(HostOutcome::InputEnded),
            Asked::Failed => return Some(HostOutcome::Outside(StageCall::Ask)),
        };
        match self.reply(stage, hosted, &line[..n]) {
            Ok(_) => {}
            Err(call) => return Some(HostOutcome::Outside(call)),
        }
        // A reply is never empty, so this is one call.
        match show(stage, self.reply.bytes()) {
            Ok(_) => None,
            Err(_) => Some(HostOutcome::Outside(StageCall::Show)),
        }
    }

    /// Takes lines until none is left, at most as many as the host takes.
    pub(crate) fn serve_all<S: Stage>(
        &mut self,
        stage: &mut S,
        hosted: &Hosted<'_, T>,
    ) -> HostOutcome
        requires hosted { IsHosted F.Fn
            (T.game hosted.now.tables.now) hosted.now.game hosted.now.rules self.old.player }
        requires synced { S.Tells stage.old → IsStable (S.standing stage.old).disk }
        ensures form { result ≢ outcome.Usage }
        ensures serves { FailsOnlyBy S.Stage session_calls (host_failure result) stage.old stage.new }
        ensures ends { IfTelling S.Stage stage.old stage.new (λ old new. Ends old new result) }
        ensures promises { S.Tells stage.old → EachStory F.Fn self.old.player.routines self.old.player.game (λ g.
            HostsWithMoments S.Stage stage.old stage.new g hosted.now.seed result) }
    {
        for _ in 0..HOST_LIMIT {
            if let Some(outcome) = self.serve(stage, hosted) {
                return outcome;
            }
        }
        HostOutcome::Long { lines: HOST_LIMIT }
    }
}
