// A request, answered.

ghost use Rattle.std.specs.Prelude.{◌≡◌, IsFalse, IfErr, IfOk, IfSome, map, string_bytes};
ghost use Rattle.paw_stage.specs.Disk.{IsStable};
ghost use Rattle.paw_stage.specs.inner.Memory.{standing_of};
ghost use Rattle.paw_top.specs.Completes.{IsUnhindered};
ghost use Rattle.paw_page.specs.Answers.{DoesAsked, IsReply};
ghost use Rattle.paw_page.specs.Request.{IsRequest, PageRequest};
ghost use Rattle.paw_page.specs.declared.request.NoAnswer.TheVariants as no_answer;
ghost use Rattle.paw_page.specs.inner.Read.{asked_by};

use crate::reading::read_request;
use crate::reply::reply_of;
use crate::request::{HeldRequest, NoAnswer};
use crate::stage::{file_left, laid_out};
use paw_base::fault::NoRoom;
use paw_routines::program::{ROUTINES, give};
use paw_routines::routines::Routines;
use paw_stage::{MemoryStage, StageCall};
use paw_top::outcome::Outcome;
use paw_top::top::paw;
use std::alloc::Global;

// Whether a call of the stage failed; a load that finds no file doesn't count.
fn has_failed(outcome: Outcome) -> bool
    ensures unhindered { IsFalse result → IsUnhindered outcome }
{
    match outcome {
        Outcome::Outside(StageCall::LoadAbsent) => false,
        Outcome::Outside(_) => true,
        _ => false,
    }
}

// Does what the words ask for, with the program's routines, over a stage in memory at which nothing is unsynced.
fn run(alloc: Global, stage: &mut MemoryStage, words: &[String]) -> Outcome
    requires synced { IsStable (standing_of stage.old).disk }
    ensures does { DoesAsked (map string_bytes words.now) (standing_of stage.old) (standing_of stage.new) result }
{
    let routines = Routines::new(ROUTINES, give);
    paw(alloc, stage, &routines, words)
}

// The reply to a request, done with this spare room; None where that is too little.
fn attempt(
    alloc: Global,
    request: &HeldRequest,
    calls: u64,
    bytes: u64,
) -> Result<Option<Vec<u8>>, NoRoom>
    ensures reply { IfOk result (λ r. IfSome r (λ v. IsReply (asked_by request.now) v.items)) }
{
    let mut stage = match laid_out(alloc, request, calls, bytes) {
        Ok(stage) => stage,
        Err(e) => return Err(e),
    };
    let outcome = run(alloc, &mut stage, request.words.as_slice());
    if has_failed(outcome) {
        return Ok(None);
    }
    let left = match file_left(alloc, &mut stage, request.words.as_slice()) {
        Ok(Some(left)) => left,
        Ok(None) => return Ok(None),
        Err(e) => return Err(e),
    };
    match reply_of(alloc, outcome, stage.shown(), &left) {
        Ok(reply) => Ok(Some(reply)),
        Err(e) => Err(e),
    }
}

// The spare room that is tried first: some for a game, and some for each line. Each time that it is too little, it is
// four times as much.
const CALLS: u64 = 256;

const CALLS_OF_LINE: u64 = 16;

const BYTES: u64 = 0x4_0000;

const BYTES_OF_LINE: u64 = 1024;

const MOST_ATTEMPTS: u64 = 32;

/// The reply to the request that these bytes are.
pub fn answer(alloc: Global, bytes: &[u8]) -> Result<Vec<u8>, NoAnswer>
    ensures replied { IfOk result (λ v. (r : PageRequest) × IsRequest r bytes.now × IsReply r v.items) }
    ensures none { IfErr result (λ e. e ≡ no_answer.NoRequest → (r : PageRequest) → ¬ (IsRequest r bytes.now)) }
{
    let request = match read_request(alloc, bytes) {
        Ok(request) => request,
        Err(e) => return Err(e),
    };
    let lines = request.lines.len() as u64;
    let mut calls = lines.saturating_mul(CALLS_OF_LINE).saturating_add(CALLS);
    let mut room = lines.saturating_mul(BYTES_OF_LINE).saturating_add(BYTES);
    for _attempt in 0..MOST_ATTEMPTS {
        match attempt(alloc, &request, calls, room) {
            Ok(Some(reply)) => return Ok(reply),
            Ok(None) => {}
            Err(_) => return Err(NoAnswer::Memory),
        }
        calls = calls.saturating_mul(4);
        room = room.saturating_mul(4);
    }
    Err(NoAnswer::Memory)
}
