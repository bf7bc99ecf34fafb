// How a command ends.

ghost use Rattle.std.specs.Prelude.{◌≡◌, IfOk, string_bytes};
ghost use Rattle.paw_top.specs.Ends.{outcome_of, outcome_of_halt, refused_as};
ghost use Rattle.paw_top.specs.declared.outcome.Outcome.TheVariants as outcome;
ghost use Rattle.paw_top.specs.Outcomes.{status_of, error_text, call_name, kind_name};
ghost use Rattle.paw_top.specs.Outcomes.{digests_line, memory_name, part_name, spent_name};

use crate::commands::USAGE;
use paw_base::fault::{NoRoom, SourceFault, SourceKind, SpentKind};
use paw_journal::{JournalRefusal, SessionPart};
use paw_play::{PlayEnd, halt_of};
use paw_reading::halt::Halt;
use paw_stage::StageCall;
use std::alloc::Global;

/// Where memory was lacking: in a load, in reading a source, in printing one, in decoding or encoding an image, in
/// making what a game is played with, in a trial, which has a stage in memory of its own, in checking a game, or in
/// wrapping a text.
#[derive(Clone, Copy, Drop, PartialEq, Eq, Debug)]
pub enum MemoryAt {
    Load,
    Source,
    Print,
    Image,
    Play,
    Trial,
    Check,
    Wrap,
}

/// How a command ends. Done: the command did what it is for. Ended: the game is over. InputEnded: no line is left at a
/// prompt. Usage: the words have no form. SourceRefused: the source has a fault; the first one is named. TextTooLong:
/// the file is longer than a text that is wrapped may be. ImageDamaged: the file is no image of a valid game; the
/// offset of the first field that breaks its rule.
///
/// Of a store. Occupied: a new session was asked for, and the store has bytes already; their number. Unmade: it has no
/// session; its length in bytes, and its first byte (0 where there is none). SessionDamaged: a rule of the session is
/// broken, first at this offset in this part. WrongGame: the session is of another game; the digest that it keeps, and
/// that of the image. WrongRoutines: it was played with other routines; the digest of those, and that of these.
///
/// Spent: a piece would read or hold too much. TooDeep: a table was called at the deepest level. Outside: a call of the
/// stage failed. Long: the session has all the lines that it may have. Memory: lack of memory.
#[derive(Clone, Copy, Drop, PartialEq, Eq, Debug)]
pub enum Outcome {
    Done,
    Ended,
    InputEnded,
    Usage,
    SourceRefused(SourceFault),
    TextTooLong,
    ImageDamaged { at: u64 },
    Occupied { length: u64 },
    Unmade { length: u64, mark: u8 },
    SessionDamaged { part: SessionPart, at: u64 },
    WrongGame { kept: [u8; 32], found: [u8; 32] },
    WrongRoutines { kept: [u8; 32], found: [u8; 32] },
    Spent(SpentKind),
    TooDeep { table: u8 },
    Outside(StageCall),
    Long { events: u64 },
    Memory(MemoryAt),
}

// The answer for a store that gives no session of the game.
fn refused_as(refusal: JournalRefusal) -> Outcome
    ensures value { result ≡ refused_as refusal }
{
    match refusal {
        JournalRefusal::Unmade { length, mark } => Outcome::Unmade { length, mark },
        JournalRefusal::Damaged { part, at } => Outcome::SessionDamaged { part, at },
        JournalRefusal::WrongGame { kept, found } => Outcome::WrongGame { kept, found },
        JournalRefusal::WrongRoutines { kept, found } => Outcome::WrongRoutines { kept, found },
        JournalRefusal::Outside(call) => Outcome::Outside(call),
    }
}

/// The outcome for what ended play for good.
pub(crate) fn outcome_of_halt(halt: Halt) -> Outcome
    ensures value { result ≡ outcome_of_halt halt }
{
    match halt {
        Halt::Over => Outcome::Ended,
        Halt::Spent(kind) => Outcome::Spent(kind),
        Halt::TooDeep { table } => Outcome::TooDeep { table },
    }
}

/// The outcome for how playing ends.
pub(crate) fn outcome_of(end: PlayEnd) -> Outcome
    ensures value { result ≡ outcome_of end }
{
    match end {
        PlayEnd::InputEnded => Outcome::InputEnded,
        PlayEnd::Occupied { length } => Outcome::Occupied { length },
        PlayEnd::Refused(refusal) => refused_as(refusal),
        PlayEnd::State { at } => Outcome::SessionDamaged {
            part: SessionPart::State,
            at,
        },
        PlayEnd::Long { events } => Outcome::Long { events },
        PlayEnd::Outside(call) => Outcome::Outside(call),
        PlayEnd::Ended | PlayEnd::Spent(_) | PlayEnd::TooDeep { .. } | PlayEnd::Memory => {
            match halt_of(end) {
                Some(halt) => outcome_of_halt(halt),
                None => Outcome::Memory(MemoryAt::Play),
            }
        }
    }
}

/// The exit status for lack of memory.
pub const NO_MEMORY: u8 = 8;

// The name of a call.
fn call_name(call: StageCall) -> &'static str
    ensures value { result.now ≡ call_name call }
{
    match call {
        StageCall::Load => "Load",
        StageCall::LoadAbsent => "LoadAbsent",
        StageCall::Save => "Save",
        StageCall::Attach => "Attach",
        StageCall::Read => "Read",
        StageCall::Write => "Write",
        StageCall::Sync => "Sync",
        StageCall::Ask => "Ask",
        StageCall::Show => "Show",
    }
}

// The name of a kind of fault.
fn kind_name(kind: SourceKind) -> &'static str
    ensures value { result.now ≡ kind_name kind }
{
    match kind {
        SourceKind::Section => "Section",
        SourceKind::Word => "Word",
        SourceKind::Number => "Number",
        SourceKind::Range => "Range",
        SourceKind::Duplicate => "Duplicate",
        SourceKind::Missing => "Missing",
        SourceKind::Extra => "Extra",
        SourceKind::Condact => "Condact",
        SourceKind::Text => "Text",
        SourceKind::TooBig => "TooBig",
    }
}

// The name of what memory was lacking for.
fn memory_name(at: MemoryAt) -> &'static str
    ensures value { result.now ≡ memory_name at }
{
    match at {
        MemoryAt::Load => "Load",
        MemoryAt::Source => "Source",
        MemoryAt::Print => "Print",
        MemoryAt::Image => "Image",
        MemoryAt::Play => "Play",
        MemoryAt::Trial => "Trial",
        MemoryAt::Check => "Check",
        MemoryAt::Wrap => "Wrap",
    }
}

// The name of a part of a session.
fn part_name(part: SessionPart) -> &'static str
    ensures value { result.now ≡ part_name part }
{
    match part {
        SessionPart::Header => "Header",
        SessionPart::Slot => "Slot",
        SessionPart::State => "State",
    }
}

// The name of what a piece has used up.
fn spent_name(kind: SpentKind) -> &'static str
    ensures value { result.now ≡ spent_name kind }
{
    match kind {
        SpentKind::Condacts => "condacts",
        SpentKind::Text => "text",
    }
}

// The line that says this and names the digest that a session keeps and the one that was found, in hexadecimal digits.
fn digests_line(
    alloc: Global,
    said: &str,
    kept: &[u8; 32],
    found: &[u8; 32],
) -> Result<String, NoRoom>
    ensures value { IfOk result (λ text. string_bytes text ≡ digests_line said.now kept.now found.now) }
{
    let kept = hex::encode(alloc, kept.as_slice())?;
    let found = hex::encode(alloc, found.as_slice())?;
    Ok(format!(in alloc; "{said}: kept {kept} found {found}\n")?)
}

impl Outcome {
    /// The exit status of the program: 0 where the command did what it is for, 1 for words with no form, 2 for a
    /// source, 3 for an image, 4 for a store, 5 and 6 for a piece that is spent and a call too deep, 7 for a failed
    /// call, 8 for lack of memory, 9 for a session that is full.
    pub fn status(&self) -> u8
        ensures value { result ≡ status_of self.now }
    {
        match self {
            Outcome::Done | Outcome::Ended | Outcome::InputEnded => 0,
            Outcome::Usage => 1,
            Outcome::SourceRefused(_) | Outcome::TextTooLong => 2,
            Outcome::ImageDamaged { .. } => 3,
            Outcome::Occupied { .. }
            | Outcome::Unmade { .. }
            | Outcome::SessionDamaged { .. }
            | Outcome::WrongGame { .. }
            | Outcome::WrongRoutines { .. } => 4,
            Outcome::Spent(_) => 5,
            Outcome::TooDeep { .. } => 6,
            Outcome::Outside(_) => 7,
            Outcome::Memory(_) => NO_MEMORY,
            Outcome::Long { .. } => 9,
        }
    }

    /// The text for standard error: a line, or nothing where the command did what it is for.
    ///
    /// # Errors
    /// NoRoom only for lack of memory.
    #[tactic(auto, unfolding(crate::specs::Commands::usage))]
    pub fn text(&self, alloc: Global) -> Result<String, NoRoom>
        ensures value { IfOk result (λ text. string_bytes text ≡ error_text self.now) }
    {
        match *self {
            Outcome::Done | Outcome::Ended | Outcome::InputEnded => Ok(String::new(alloc)),
            Outcome::Usage => Ok(String::from_str(alloc, USAGE)?),
            Outcome::SourceRefused(fault) => {
                let line = fault.line;
                let kind = kind_name(fault.kind);
                Ok(format!(in alloc; "source line {line}: {kind}\n")?)
            }
            Outcome::TextTooLong => Ok(String::from_str(alloc, "text is too long\n")?),
            Outcome::ImageDamaged { at } => Ok(format!(in alloc; "image damaged at {at}\n")?),
            Outcome::Occupied { length } => Ok(format!(in alloc;
                "session has {length} bytes already\n"
            )?),
            Outcome::Unmade { length, mark } => Ok(format!(in alloc;
                "no session: length {length}, mark {mark}\n"
            )?),
            Outcome::SessionDamaged { part, at } => {
                let name = part_name(part);
                Ok(format!(in alloc; "session damaged: {name} at {at}\n")?)
            }
            Outcome::WrongGame { kept, found } => {
                digests_line(alloc, "session is of another game", &kept, &found)
            }
            Outcome::WrongRoutines { kept, found } => {
                digests_line(alloc, "session has other routines", &kept, &found)
            }
            Outcome::Spent(kind) => {
                let name = spent_name(kind);
                Ok(format!(in alloc; "piece spent its {name}\n")?)
            }
            Outcome::TooDeep { table } => Ok(format!(in alloc;
                "too many calls at table {table}\n"
            )?),
            Outcome::Outside(call) => {
                let name = call_name(call);
                Ok(format!(in alloc; "outside failed: {name}\n")?)
            }
            Outcome::Memory(at) => {
                let name = memory_name(at);
                Ok(format!(in alloc; "no memory: {name}\n")?)
            }
            Outcome::Long { events } => Ok(format!(in alloc;
                "session is full: {events} events\n"
            )?),
        }
    }
}
