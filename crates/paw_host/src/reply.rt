// The text of a reply.

ghost use Rattle.std.specs.Prelude.{◌≡◌, ◌+◌, ◌≤◌, [], ◌++◌, codes, length, IfOk};
ghost use Rattle.paw_host.specs.declared.reply.TheConstants.{REPLY_LIMIT};

use paw_base::fault::NoRoom;
use std::alloc::Global;
use std::marker::Model;

/// The most bytes of a reply: a name in brackets, two pieces, and newlines have room.
pub(crate) const REPLY_LIMIT: usize = 131_100;

/// The text of a reply. It takes all its memory when it is made.
#[derive(Drop)]
pub(crate) struct Reply {
    text: Vec<u8>,
}

impl Model for Reply {
    ghost use Rattle.std.specs.Prelude.{◌≤◌, length, vec_capacity};
    ghost use Rattle.paw_base.specs.Bytes.{Text};
    ghost use Rattle.paw_host.specs.declared.reply.TheConstants.{REPLY_LIMIT};

    ghost Value = { Text };

    ghost view = { λ r. r.text.items };

    ghost invariant = { λ r. REPLY_LIMIT ≤ vec_capacity r.text };
}

impl Reply {
    /// An empty reply.
    ///
    /// # Errors
    /// NoRoom where there is no memory for a whole one.
    pub(crate) fn new(alloc: Global) -> Result<Reply, NoRoom>
        ensures empty { IfOk result (λ reply. reply ≡ []) }
    {
        let text = Vec::with_capacity(alloc, REPLY_LIMIT)?;
        Ok(Reply { text })
    }

    /// Takes all bytes out.
    pub(crate) fn clear(&mut self)
        ensures empty { self.new ≡ [] }
    {
        self.text.clear();
    }

    /// Adds bytes at the end, where they have room.
    pub(crate) fn push(&mut self, bytes: &[u8])
        ensures value { length self.old + length bytes.now ≤ REPLY_LIMIT → self.new ≡ self.old ++ bytes.now }
    {
        // The memory was taken by `new`, so this fails only without room.
        let _ = self.text.extend_from_slice(bytes);
    }

    /// The bytes.
    pub(crate) fn bytes(&self) -> &[u8]
        ensures value { result.now ≡ self.now }
    {
        self.text.as_slice()
    }
}

/// Begins the reply to a name, which has at most 16 bytes.
pub(crate) fn begin_reply(reply: &mut Reply, name: &[u8])
    requires short { length name.now ≤ 16 }
    ensures value { reply.new ≡ codes "[" ++ (name.now ++ codes "]\n") }
    ensures short { length reply.new ≤ 20 }
{
    reply.clear();
    reply.push(b"[");
    reply.push(name);
    reply.push(b"]\n");
}
