// A walk through a game, and a trace, which is a walk that shows steps before each piece.

ghost use Rattle.std.specs.Prelude.{◌≡◌, ◌+◌, ◌<◌, ◌≤◌, ◌^◌, ℕ, suc, [], ◌∷◌, length, None, IfSome, OnErr, IsErr};
ghost use Rattle.paw_base.specs.declared.limits.TheConstants.{EVENT_LIMIT, READ_LIMIT};
ghost use Rattle.paw_routines.specs.Routines.{HaveAnswers};
ghost use Rattle.paw_stage.specs.Stage.{Standing, InShow, failed_in, with_shown};
ghost use Rattle.paw_stage.specs.AcrossCalls.{IfTelling, FailsOnlyBy};
ghost use Rattle.paw_stage.specs.inner.AcrossCalls.{OnSuccess, AtEachMoment};
ghost use Rattle.paw_stage.specs.declared.StageCall.TheVariants as call;
ghost use Rattle.paw_reading.specs.Turn.{reading};
ghost use Rattle.paw_turn.specs.inner.Player.{IsSeated};
ghost use Rattle.paw_play.specs.Walk.{EndingOf, Walks};
ghost use Rattle.paw_play.specs.inner.ShowSteps.{seat_text, with_shown_steps};
ghost use Rattle.paw_play.specs.inner.OnTheWay.{EachStory, IsWalking, StillPlays, WalksTo, ShowsStep, end_if_no_piece};
ghost use Rattle.paw_play.specs.Calls.{walk_calls};
ghost use Rattle.paw_play.specs.inner.Calls.{IsNotForCall, call_of_end, failed_so_far};

use crate::preface::Preface;
use crate::show::show;
use crate::{PlayEnd, end_of};
use paw_base::limits::{EVENT_LIMIT, LINE_LIMIT};
use paw_game::tables::Tables;
use paw_reading::halt::Halt;
use paw_routines::routines::Routines;
use paw_stage::{Asked, Failed, Stage, StageCall};
use paw_turn::{Player, Step, halt_of};
use std::alloc::Global;

/// The end of playing at a line that brings no piece, because play ended before it was closed. None where it brings
/// one.
pub(crate) fn end_without_piece(step: Step) -> Option<PlayEnd>
    ensures value { result ≡ end_if_no_piece step }
    ensures fine { failed_so_far result ≡ None }
    ensures refused { IfSome result IsNotForCall }
{
    match halt_of(step) {
        None | Some(Halt::Over) => None,
        Some(halt) => Some(end_of(halt)),
    }
}

// Shows the player's last piece after its preface, as one text.
//
// # Errors
// Failed where a show failed; a first part of the text was shown then.
fn show_last<P: Preface, S: Stage, T: Tables, F: Fn(u8, u8) -> u8>(
    preface: &mut P,
    stage: &mut S,
    player: &Player<'_, T, F>,
) -> Result<(), Failed>
    ensures serves { FailsOnlyBy S.Stage (call.Show ∷ []) (failed_in call.Show result) stage.old stage.new }
    ensures some { IsErr result → 0 < length (seat_text P.showing player.now) }
    ensures shown { OnSuccess S.Stage stage.old stage.new result (λ old new.
        new ≡ with_shown (seat_text P.showing player.now) old) }
    ensures part { IfTelling S.Stage stage.old stage.new (λ old new.
        OnErr result (InShow old (seat_text P.showing player.now) new)) }
    ensures time { AtEachMoment S.Stage stage.old stage.new (λ s. InShow s (seat_text P.showing player.now)) }
{
    match show(stage, preface.text(player.steps())) {
        Ok(()) => show(stage, player.piece()),
        Err(failed) => Err(failed),
    }
}

/// Shows what a line brought. None where the player waits for the next line; otherwise how playing ends.
pub(crate) fn show_step<P: Preface, S: Stage, T: Tables, F: Fn(u8, u8) -> u8>(
    preface: &mut P,
    stage: &mut S,
    player: &Player<'_, T, F>,
    step: Step,
) -> Option<PlayEnd>
    requires last { player.now.last ≡ step }
    ensures serves { FailsOnlyBy S.Stage walk_calls (failed_so_far result) stage.old stage.new }
    ensures refused { IfSome result IsNotForCall }
    ensures meaning { IfTelling S.Stage stage.old stage.new (λ old new.
        ShowsStep old new (seat_text P.showing player.now) step result) }
    ensures time { AtEachMoment S.Stage stage.old stage.new (λ s. InShow s (seat_text P.showing player.now)) }
{
    if let Some(end) = end_without_piece(step) {
        return Some(end);
    }
    if show_last(preface, stage, player).is_err() {
        return Some(PlayEnd::Outside(StageCall::Show));
    }
    if step == Step::Ended {
        Some(end_of(Halt::Over))
    } else {
        None
    }
}

// Asks for a line, takes it, and shows the piece that it brings. The line comes into room that is lent: room of its
// own would be filled with zeros for each line.
fn walk_line<P: Preface, S: Stage, T: Tables, F: Fn(u8, u8) -> u8>(
    preface: &mut P,
    stage: &mut S,
    player: &mut Player<'_, T, F>,
    line: &mut [u8; LINE_LIMIT],
) -> Option<PlayEnd>
    requires seated { IsSeated player.old }
    requires answers { HaveAnswers F.Fn player.old.routines }
    requires draws { player.old.world.draws + READ_LIMIT < 2 ^ 64 }
    ensures player { StillPlays (player.old.world.draws + READ_LIMIT) player.old player.new }
    ensures serves { FailsOnlyBy S.Stage walk_calls (failed_so_far result) stage.old stage.new }
    ensures refused { IfSome result IsNotForCall }
    ensures meaning { IfTelling S.Stage stage.old stage.new (λ old new.
        EachStory F.Fn player.old.routines player.old.game (λ g. (whole : EndingOf) (most n : ℕ) (first : Standing) →
        IsWalking P.showing g whole first old player.old n → n < most →
        WalksTo P.showing g whole most first new player.new (suc n) result)) }
{
    match stage.ask(line) {
        Asked::Line(n) => {
            let step = player.take(&line[..n as usize]);
            show_step(preface, stage, player, step)
        }
        Asked::End => Some(PlayEnd::InputEnded),
        Asked::Failed => Some(PlayEnd::Outside(StageCall::Ask)),
    }
}

// Takes lines, at most this many, until the game is over or no line is left.
fn walk_lines<P: Preface, S: Stage, T: Tables, F: Fn(u8, u8) -> u8>(
    preface: &mut P,
    stage: &mut S,
    player: &mut Player<'_, T, F>,
) -> PlayEnd
    requires seated { IsSeated player.old }
    requires answers { HaveAnswers F.Fn player.old.routines }
    requires draws { player.old.world.draws ≤ READ_LIMIT }
    ensures serves { FailsOnlyBy S.Stage walk_calls (call_of_end result) stage.old stage.new }
    ensures refused { IsNotForCall result }
    ensures meaning { IfTelling S.Stage stage.old stage.new (λ old new.
        EachStory F.Fn player.old.routines player.old.game (λ g. (whole : EndingOf) (first : Standing) →
        IsWalking P.showing g whole first old player.old 0 →
        Walks (with_shown_steps P.showing whole) EVENT_LIMIT first new result)) }
{
    let mut line = [0u8; LINE_LIMIT];
    for _ in 0..EVENT_LIMIT {
        if let Some(end) = walk_line(preface, stage, player, &mut line) {
            return end;
        }
    }
    PlayEnd::Long {
        events: EVENT_LIMIT,
    }
}

/// Walks through a game with a seed: shows the piece before the first line, and then a piece for each line, each after
/// its preface, until the game is over or no line is left. Nothing is kept. It takes memory before anything else.
pub fn walk_loop<P: Preface, S: Stage, T: Tables, F: Fn(u8, u8) -> u8>(
    alloc: Global,
    stage: &mut S,
    tables: &T,
    routines: &Routines<F>,
    seed: u64,
) -> PlayEnd
    requires answers { HaveAnswers F.Fn routines.now }
    ensures serves { FailsOnlyBy S.Stage walk_calls (call_of_end result) stage.old stage.new }
    ensures refused { IsNotForCall result }
    ensures walks { IfTelling S.Stage stage.old stage.new (λ old new. EachStory F.Fn routines.now (T.game tables.now)
        (λ g. Walks (with_shown_steps P.showing (reading g seed)) EVENT_LIMIT old new result)) }
{
    let Ok(mut preface) = P::new(alloc) else {
        return PlayEnd::Memory;
    };
    let Ok(mut player) = P::player(alloc, tables, routines, seed) else {
        return PlayEnd::Memory;
    };
    let step = player.start();
    if let Some(end) = show_step(&mut preface, stage, &player, step) {
        return end;
    }
    walk_lines(&mut preface, stage, &mut player)
}
