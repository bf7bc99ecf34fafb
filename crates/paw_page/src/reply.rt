// The bytes of a reply.

ghost use Rattle.std.specs.Prelude.{◌≡◌, ◌++◌, IfOk, OnOk};
ghost use Rattle.std.specs.Option.{option_map};
ghost use Rattle.paw_page.specs.Reply.{left_bytes, reply_bytes};
ghost use Rattle.paw_page.specs.Request.{part_bytes};

use paw_base::fault::NoRoom;
use paw_top::outcome::Outcome;
use std::alloc::Global;

// Puts a part after what is there: its length, and its bytes.
fn put_part(reply: &mut Vec<u8>, bytes: &[u8]) -> Result<(), NoRoom>
    ensures put { OnOk result (reply.new.items ≡ reply.old.items ++ part_bytes bytes.now) }
{
    let Ok(n) = u32::try_from(bytes.len()) else {
        return Err(NoRoom);
    };
    reply.extend_from_slice(&n.to_le_bytes())?;
    reply.extend_from_slice(bytes)?;
    Ok(())
}

// Puts the file that is left after what is there, where one is.
fn put_left(reply: &mut Vec<u8>, left: &Option<Vec<u8>>) -> Result<(), NoRoom>
    ensures put { OnOk result (reply.new.items ≡ reply.old.items ++ left_bytes (option_map (λ v. v.items) left.now)) }
{
    match left {
        None => reply.push(0)?,
        Some(bytes) => {
            reply.push(1)?;
            put_part(reply, bytes.as_slice())?;
        }
    }
    Ok(())
}

/// The reply for a command that ended so, showed this text, and left this file.
pub fn reply_of(
    alloc: Global,
    outcome: Outcome,
    shown: &[u8],
    left: &Option<Vec<u8>>,
) -> Result<Vec<u8>, NoRoom>
    ensures value { IfOk result (λ v. v.items ≡ reply_bytes outcome shown.now (option_map (λ v. v.items) left.now)) }
{
    let said = outcome.text(alloc)?;
    let mut reply = Vec::new(alloc);
    reply.push(outcome.status())?;
    put_part(&mut reply, said.as_bytes())?;
    put_part(&mut reply, shown)?;
    put_left(&mut reply, left)?;
    Ok(reply)
}
