// The text of a piece.

ghost use Rattle.std.specs.Prelude.{◌≡◌, ◌≤◌, [], IfOk, false, length};
ghost use Rattle.paw_base.specs.declared.limits.TheConstants.{PIECE_LIMIT};
ghost use Rattle.paw_base.specs.inner.Piece.{Puts};

use crate::fault::NoRoom;
pub use crate::limits::PIECE_LIMIT;
use std::alloc::Global;
use std::marker::Model;

/// What is shown between two prompts: a text of at most 65,535 bytes. It takes all its memory when it is made.
#[derive(Drop)]
pub struct Piece {
    text: Vec<u8>,
}

impl Model for Piece {
    ghost use Rattle.std.specs.Prelude.{◌≤◌, length, vec_capacity};
    ghost use Rattle.paw_base.specs.Bytes.{Text};
    ghost use Rattle.paw_base.specs.declared.limits.TheConstants.{PIECE_LIMIT};

    ghost Value = { Text };

    ghost view = { λ p. p.text.items };

    ghost invariant = { λ p. (length p.text.items ≤ PIECE_LIMIT) × (PIECE_LIMIT ≤ vec_capacity p.text) };
}

impl Piece {
    /// An empty piece.
    ///
    /// # Errors
    /// NoRoom where there is no memory for a whole piece.
    pub fn new(alloc: Global) -> Result<Piece, NoRoom>
        ensures value { IfOk result (λ piece. piece ≡ []) }
    {
        let text = Vec::with_capacity(alloc, PIECE_LIMIT)?;
        Ok(Piece { text })
    }

    /// Adds these bytes at the end and answers true. Where the piece would pass 65,535 bytes, it answers false, and
    /// the piece is unchanged.
    pub fn push(&mut self, bytes: &[u8]) -> bool
        ensures puts { Puts self.old self.new result bytes.now }
        ensures unchanged { result ≡ false → self.new ≡ self.old }
    {
        if bytes.len() > PIECE_LIMIT - self.text.len() {
            return false;
        }
        // The memory was taken by `new`, so there is room for these bytes. It is stated so that the compiler leaves out
        // what would grow the memory.
        prove!(bytes.len() <= self.text.capacity() - self.text.len());
        self.text.extend_from_slice(bytes).unwrap();
        true
    }

    /// Takes all bytes out.
    pub fn clear(&mut self)
        ensures value { self.new ≡ [] }
    {
        self.text.clear();
    }

    /// The bytes, of which there are at most 65,535.
    pub fn bytes(&self) -> &[u8]
        ensures value { result.now ≡ self.now }
        ensures fits { length self.now ≤ PIECE_LIMIT }
    {
        self.text.as_slice()
    }
}
