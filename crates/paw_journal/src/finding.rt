// Reading the header of a session.

ghost use Rattle.std.specs.Prelude.{◌≡◌, ◌≢◌, ◌+◌, ◌≤◌, None, length, take, OnOk, IfOk, IfErr, IsSome};
ghost use Rattle.paw_base.specs.Bytes.{Bytes};
ghost use Rattle.paw_journal.specs.Session.{Recovered, Shown, BelongsTo, recover, is_version, stretch, header_length};
ghost use Rattle.paw_journal.specs.Session.{session_length};
ghost use Rattle.paw_journal.specs.inner.Writes.{IsHeaderOf, header_digests};
ghost use Rattle.paw_journal.specs.inner.Calls.{ReadsStore};
ghost use Rattle.paw_journal.specs.inner.Journal.{IsSessionRefused, refused_call, outside};

use crate::layout::{
    DIGEST_LENGTH, GAME_AT, HEADER_LENGTH, MADE, MARK_AT, ROUTINES_AT, SELECTOR_AT, SESSION_LENGTH,
    Slot, VERSION_AT,
};
use crate::refusal::{JournalRefusal, SessionPart};
use crate::store::read;
use paw_base::layout::{FIRST_VERSION, VERSION};
use paw_stage::Stage;

// What stands in place of the digest of routines where a session isn't measured.
const UNMEASURED: [u8; DIGEST_LENGTH] = [0; DIGEST_LENGTH];

/// What the header of a session holds: the slot in use, and the digests of the game and of the routines.
#[derive(Drop)]
pub(crate) struct Header {
    pub(crate) slot: Slot,
    pub(crate) game: [u8; 32],
    pub(crate) routines: [u8; 32],
}

impl Header {
    /// Whether the session belongs to the game and the routines with these digests.
    ///
    /// # Errors
    /// WrongGame where it is of another game. WrongRoutines where it is of this one, but is measured and was played
    /// with other routines.
    pub(crate) fn belongs_to(&self, game: &[u8; 32], rules: &[u8; 32]) -> Result<(), JournalRefusal>
        ensures belongs { OnOk result (BelongsTo game.now rules.now (header_digests self.now)) }
        ensures refused { (r : Recovered) (state piece : Bytes) → r ≡ Shown (header_digests self.now) state piece →
            IfErr result (IsSessionRefused r game.now rules.now) }
        ensures inside { refused_call result ≡ None }
    {
        if self.game != *game {
            return Err(JournalRefusal::WrongGame {
                kept: self.game,
                found: *game,
            });
        }
        if self.routines != UNMEASURED && self.routines != *rules {
            return Err(JournalRefusal::WrongRoutines {
                kept: self.routines,
                found: *rules,
            });
        }
        Ok(())
    }
}

/// Reads the header of the attached store, which has this number of bytes.
///
/// # Errors
/// Unmade where no session is made, Damaged where its version isn't known, Outside(Read) where a read failed.
pub(crate) fn read_header<S: Stage>(stage: &mut S, size: u64) -> Result<Header, JournalRefusal>
    requires attached { S.Tells stage.old → IsSome (S.standing stage.old).attached }
    requires size { S.Tells stage.old → size ≡ length (S.standing stage.old).disk.bytes }
    ensures call { ReadsStore S.Stage (refused_call result) stage.old stage.new }
    ensures introduced { S.Tells stage.old → IfOk result (IsHeaderOf (S.standing stage.old).disk.bytes) }
    ensures refused { S.Tells stage.old → (game rules : Bytes) →
        IfErr result (IsSessionRefused (recover (S.standing stage.old).disk.bytes) game rules) }
{
    if size != SESSION_LENGTH {
        return Err(refusal_of_length(stage, size));
    }
    let mut bytes = [0; HEADER_LENGTH];
    match read(stage, 0, &mut bytes) {
        Ok(_) => header_in(&bytes),
        Err(call) => Err(JournalRefusal::Outside(call)),
    }
}

// Why a store of another length holds no session: its length, and its first byte, if any.
fn refusal_of_length<S: Stage>(stage: &mut S, size: u64) -> JournalRefusal
    requires attached { S.Tells stage.old → IsSome (S.standing stage.old).attached }
    requires size { S.Tells stage.old → size ≡ length (S.standing stage.old).disk.bytes }
    requires other { size ≢ session_length }
    ensures call { ReadsStore S.Stage (outside result) stage.old stage.new }
    ensures refused { S.Tells stage.old → (game rules : Bytes) →
        IsSessionRefused (recover (S.standing stage.old).disk.bytes) game rules result }
{
    let mut first = [0];
    if size == 0 {
        return JournalRefusal::Unmade { length: 0, mark: 0 };
    }
    match read(stage, MARK_AT, &mut first) {
        Ok(_) => JournalRefusal::Unmade {
            length: size,
            mark: first[0],
        },
        Err(call) => JournalRefusal::Outside(call),
    }
}

// What the bytes of a header say.
fn header_in(bytes: &[u8; HEADER_LENGTH]) -> Result<Header, JournalRefusal>
    ensures introduced { (whole : Bytes) → length whole ≡ session_length → bytes.now ≡ take header_length whole →
        IfOk result (IsHeaderOf whole) }
    ensures refused { (whole game rules : Bytes) → length whole ≡ session_length →
        bytes.now ≡ take header_length whole → IfErr result (IsSessionRefused (recover whole) game rules) }
    ensures inside { refused_call result ≡ None }
{
    let mark = bytes[MARK_AT as usize];
    if mark != MADE {
        return Err(JournalRefusal::Unmade {
            length: SESSION_LENGTH,
            mark,
        });
    }
    if !is_known_version(bytes[VERSION_AT as usize]) {
        return Err(JournalRefusal::Damaged {
            part: SessionPart::Header,
            at: VERSION_AT,
        });
    }
    Ok(Header {
        slot: Slot::chosen_by(bytes[SELECTOR_AT as usize]),
        game: digest_at(bytes, GAME_AT),
        routines: digest_at(bytes, ROUTINES_AT),
    })
}

// The digest that stands in a header at this offset.
fn digest_at(bytes: &[u8; HEADER_LENGTH], at: usize) -> [u8; DIGEST_LENGTH]
    requires inside { at + 32 ≤ header_length }
    ensures value { result ≡ stretch at 32 bytes.now }
{
    let mut digest = [0; DIGEST_LENGTH];
    digest.copy_from_slice(&bytes[at..at + DIGEST_LENGTH]);
    digest
}

// Whether a session may have this version.
fn is_known_version(version: u8) -> bool
    ensures value { result ≡ is_version version }
{
    FIRST_VERSION <= version && version <= VERSION
}
