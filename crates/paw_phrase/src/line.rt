// What is pending of a typed line.

ghost use Rattle.std.specs.Prelude.{◌≡◌, ◌≤◌, [], length, drop};
ghost use Rattle.paw_base.specs.declared.words.TheConstants.{NO_WORD};

use paw_base::limits::LINE_LIMIT;
use paw_base::words::NO_WORD;
use std::marker::Model;

/// What is left of a line after the phrases that were taken from it, and the verb of the last sentence, which stands
/// for a verb that is left out. Contracts see the bytes and that verb.
#[derive(Drop)]
pub struct Pending {
    line: [u8; LINE_LIMIT],
    from: usize,
    to: usize,
    earlier: u8,
}

impl Model for Pending {
    ghost use Rattle.std.specs.Prelude.{◌≤◌, slice_range};
    ghost use Rattle.paw_phrase.specs.Pending.{PendingLine};
    ghost use Rattle.paw_base.specs.declared.limits.TheConstants.{LINE_LIMIT};

    ghost Value = { PendingLine };

    ghost view = { λ p. record { bytes = slice_range p.line p.from p.to; earlier = p.earlier } };

    ghost invariant = { λ p. (p.from ≤ p.to) × (p.to ≤ LINE_LIMIT) };
}

impl Pending {
    /// Nothing is pending, and there is no earlier verb.
    pub fn new() -> Pending
        ensures value { result ≡ record { bytes = []; earlier = NO_WORD } }
    {
        Pending {
            line: [0; LINE_LIMIT],
            from: 0,
            to: 0,
            earlier: NO_WORD,
        }
    }

    /// This line is pending, after a sentence with this verb (255: none).
    pub fn of(line: &[u8], earlier: u8) -> Pending
        requires short { length line.now ≤ LINE_LIMIT }
        ensures value { result ≡ record { bytes = line.now; earlier = earlier } }
    {
        let mut pending = Pending::new();
        pending.set(line);
        pending.earlier = earlier;
        pending
    }

    /// A new line becomes pending, and there is no earlier verb.
    pub fn set(&mut self, line: &[u8])
        requires short { length line.now ≤ LINE_LIMIT }
        ensures value { self.new ≡ record { bytes = line.now; earlier = NO_WORD } }
    {
        self.line[..line.len()].copy_from_slice(line);
        self.from = 0;
        self.to = line.len();
        self.earlier = NO_WORD;
    }

    /// The bytes are dropped; the earlier verb stays.
    pub fn drop_line(&mut self)
        ensures value { self.new ≡ record self.old { bytes = [] } }
    {
        self.from = self.to;
    }

    /// The bytes that are left.
    pub fn bytes(&self) -> &[u8]
        ensures value { result.now ≡ self.now.bytes }
        ensures fits { length self.now.bytes ≤ LINE_LIMIT }
    {
        &self.line[self.from..self.to]
    }

    /// The verb that stands for one that is left out: that of the sentence before, or 255 for none.
    pub fn earlier(&self) -> u8
        ensures value { result ≡ self.now.earlier }
    {
        self.earlier
    }

    /// A phrase with this verb was taken, and the first `count` bytes are gone.
    pub(crate) fn pass(&mut self, count: usize, verb: u8)
        requires within { count ≤ length self.old.bytes }
        ensures value { self.new ≡ record { bytes = drop count self.old.bytes; earlier = verb } }
    {
        self.from += count;
        self.earlier = verb;
    }
}
