// The writes that make a session: a store with byte 0 as 0, the rest of it, and then its mark.

ghost use Rattle.std.specs.Prelude.{◌≡◌, ◌+◌, ◌≤◌, [], ◌∷◌, length, IsSome};
ghost use Rattle.paw_stage.specs.Disk.{put_at};
ghost use Rattle.paw_journal.specs.Session.{session_length, header_length, slot_length, made_header};
ghost use Rattle.paw_journal.specs.inner.Session.{digests_of};
ghost use Rattle.paw_journal.specs.inner.Store.{LaysSlots, LeavesUnmade, LeavesMarked};
ghost use Rattle.paw_journal.specs.inner.Writes.{IsBlank, LaysBlank, LaysSession, MarksAsMade};
ghost use Rattle.paw_journal.specs.inner.Calls.{WritesStore};
ghost use Rattle.paw_journal.specs.inner.Journal.{IsAtRest};

use crate::layout::{
    DIGEST_LENGTH, GAME_AT, HEADER_LENGTH, MADE, MARK_AT, ROUTINES_AT, SELECTOR_AT, Slot,
    VERSION_AT,
};
use crate::store::{sync, write, write_and_sync};
use paw_base::layout::VERSION;
use paw_stage::{Stage, StageCall};

// Begins a session in the attached store, which is empty: its first byte is 0, and stable.
fn write_blank_mark<S: Stage>(stage: &mut S) -> Result<(), StageCall>
    requires rests { S.Tells stage.old → IsAtRest (S.standing stage.old) }
    requires empty { S.Tells stage.old → length (S.standing stage.old).disk.bytes ≡ 0 }
    ensures call { WritesStore S.Stage result (LaysBlank (0 ∷ [])) LeavesUnmade stage.old stage.new }
{
    write_and_sync(stage, MARK_AT, &[0])
}

// Writes the header's bytes after the first one: the digests of game and routines, and a selector that chooses slot 0.
fn write_header<S: Stage>(stage: &mut S, game: &[u8; 32], rules: &[u8; 32]) -> Result<(), StageCall>
    requires attached { S.Tells stage.old → IsSome (S.standing stage.old).attached }
    requires blank { S.Tells stage.old → IsBlank (0 ∷ []) (S.standing stage.old).disk }
    ensures call { WritesStore S.Stage result (LaysBlank (made_header 0 (digests_of game.now rules.now))) LeavesUnmade
        stage.old stage.new }
{
    let header = header_of(game, rules);
    write(stage, SELECTOR_AT, &header[1..])
}

// The header of a session of this game and these routines, with byte 0 as 0.
fn header_of(game: &[u8; 32], rules: &[u8; 32]) -> [u8; HEADER_LENGTH]
    ensures value { result ≡ made_header 0 (digests_of game.now rules.now) }
{
    let mut header = [0; HEADER_LENGTH];
    header[VERSION_AT as usize] = VERSION;
    put_digest(&mut header, GAME_AT, game);
    put_digest(&mut header, ROUTINES_AT, rules);
    header
}

// Writes a digest into a header, at this offset.
fn put_digest(header: &mut [u8; HEADER_LENGTH], at: usize, digest: &[u8; DIGEST_LENGTH])
    requires inside { at + 32 ≤ header_length }
    ensures value { header.new ≡ put_at at digest.now header.old }
{
    header[at..at + DIGEST_LENGTH].copy_from_slice(digest);
}

// Writes these bytes into both slots, after the header, and makes the store stable.
fn write_slots<S: Stage>(stage: &mut S, bytes: &[u8]) -> Result<(), StageCall>
    requires attached { S.Tells stage.old → IsSome (S.standing stage.old).attached }
    requires blank { S.Tells stage.old → IsBlank (S.standing stage.old).disk.bytes (S.standing stage.old).disk }
    requires header { S.Tells stage.old → length (S.standing stage.old).disk.bytes ≡ header_length }
    requires slot { length bytes.now ≡ slot_length }
    ensures call { WritesStore S.Stage result (LaysSlots bytes.now) LeavesUnmade stage.old stage.new }
{
    write(stage, Slot::First.start(), bytes)?;
    write(stage, Slot::Second.start(), bytes)?;
    sync(stage)
}

/// Lays out a session of this game and these routines in the attached store, which is empty: all but its mark, with
/// these bytes in both slots.
pub(crate) fn lay_out<S: Stage>(
    stage: &mut S,
    game: &[u8; 32],
    rules: &[u8; 32],
    bytes: &[u8],
) -> Result<(), StageCall>
    requires rests { S.Tells stage.old → IsAtRest (S.standing stage.old) }
    requires empty { S.Tells stage.old → length (S.standing stage.old).disk.bytes ≡ 0 }
    requires slot { length bytes.now ≡ slot_length }
    ensures call { WritesStore S.Stage result (LaysSession (digests_of game.now rules.now) bytes.now) LeavesUnmade
        stage.old stage.new }
{
    write_blank_mark(stage)?;
    write_header(stage, game, rules)?;
    write_slots(stage, bytes)
}

/// Marks a session as made.
pub(crate) fn mark<S: Stage>(stage: &mut S) -> Result<(), StageCall>
    requires rests { S.Tells stage.old → IsAtRest (S.standing stage.old) }
    requires long { S.Tells stage.old → length (S.standing stage.old).disk.bytes ≡ session_length }
    ensures call { WritesStore S.Stage result MarksAsMade LeavesMarked stage.old stage.new }
{
    write_and_sync(stage, MARK_AT, &[MADE])
}
