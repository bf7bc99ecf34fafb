// The call that a page makes.

ghost use Rattle.std.specs.Prelude.{◌≡◌, ◌≤◌, ◌++◌, drop, length};
ghost use Rattle.paw_base.specs.Bytes.{Bytes};
ghost use Rattle.paw_page.specs.Answers.{AnswersPage};

use crate::asking::answer;
use crate::request::NoAnswer;
use std::alloc::Global;

/// What answers bytes that are no request.
pub const NO_REQUEST: u8 = 255;

/// What answers a request for which memory is lacking.
pub const NO_MEMORY: u8 = 254;

// Writes a reply to the head of some room, where it fits there. Its length.
fn put_reply(reply: &[u8], room: &mut [u8]) -> u64
    ensures len { result ≡ length reply.now }
    ensures put { length reply.now ≤ length room.old → room.new ≡ reply.now ++ drop (length reply.now) room.old }
{
    if reply.len() <= room.len() {
        room[..reply.len()].copy_from_slice(reply);
    }
    reply.len() as u64
}

/// Answers the bytes of a page: the length of the answer, whose bytes stand at the head of the room where they fit.
#[unsafe(no_mangle)]
pub extern "C" fn paw_page(alloc: Global, request: &[u8], room: &mut [u8]) -> u64
    ensures answers { (reply : Bytes) × AnswersPage request.now reply × (result ≡ length reply)
        × (length reply ≤ length room.old → room.new ≡ reply ++ drop (length reply) room.old) }
{
    match answer(alloc, request) {
        Ok(reply) => put_reply(reply.as_slice(), room),
        Err(NoAnswer::NoRequest) => put_reply(&[NO_REQUEST], room),
        Err(NoAnswer::Memory) => put_reply(&[NO_MEMORY], room),
    }
}
