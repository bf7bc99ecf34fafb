// The status and the text of each outcome.

use paw_base::fault::{SourceFault, SourceKind, SpentKind};
use paw_base::limits::EVENT_LIMIT;
use paw_journal::SessionPart;
use paw_stage::StageCall;
use paw_top::outcome::{MemoryAt, Outcome};
use std::alloc::Global;
use std::process::Abort;
use std::test::Fail;

/// The text of a call whose words have no form.
const USAGE: &str =
    "usage: paw compile S I | decompile I | walk I SEED | play I F SEED | resume I F | \
     trace I SEED | trial N | check I | wrap N T\n";

// Checks that an outcome has this status and this text.
fn is_told(
    rt: &impl Abort,
    alloc: Global,
    (outcome, status, text): (Outcome, u8, &str),
) -> Result<(), Fail> {
    assert_eq!(rt; outcome.status(), status, "{text}");
    let written = outcome.text(alloc)?;
    assert_eq!(rt; written.as_str(), text);
    Ok(())
}

/// Outcomes that any command may have.
static OF_ANY: [(Outcome, u8, &str); 20] = [
    (Outcome::Ended, 0, ""),
    (Outcome::InputEnded, 0, ""),
    (Outcome::Usage, 1, USAGE),
    (Outcome::ImageDamaged { at: 0 }, 3, "image damaged at 0\n"),
    (
        Outcome::ImageDamaged { at: u64::MAX },
        3,
        "image damaged at 18446744073709551615\n",
    ),
    (
        Outcome::Spent(SpentKind::Condacts),
        5,
        "piece spent its condacts\n",
    ),
    (Outcome::Spent(SpentKind::Text), 5, "piece spent its text\n"),
    (
        Outcome::TooDeep { table: 5 },
        6,
        "too many calls at table 5\n",
    ),
    (
        Outcome::Outside(StageCall::Load),
        7,
        "outside failed: Load\n",
    ),
    (
        Outcome::Outside(StageCall::LoadAbsent),
        7,
        "outside failed: LoadAbsent\n",
    ),
    (Outcome::Outside(StageCall::Ask), 7, "outside failed: Ask\n"),
    (
        Outcome::Outside(StageCall::Show),
        7,
        "outside failed: Show\n",
    ),
    (Outcome::Memory(MemoryAt::Load), 8, "no memory: Load\n"),
    (Outcome::Memory(MemoryAt::Image), 8, "no memory: Image\n"),
    (Outcome::Memory(MemoryAt::Play), 8, "no memory: Play\n"),
    (Outcome::Memory(MemoryAt::Trial), 8, "no memory: Trial\n"),
    (Outcome::Memory(MemoryAt::Check), 8, "no memory: Check\n"),
    (Outcome::Memory(MemoryAt::Wrap), 8, "no memory: Wrap\n"),
    (Outcome::TextTooLong, 2, "text is too long\n"),
    (
        Outcome::Long {
            events: EVENT_LIMIT,
        },
        9,
        "session is full: 1000000000 events\n",
    ),
];

#[test]
fn outcomes_have_their_status_and_text(rt: HostRuntime) -> Result<(), Fail> {
    for &row in &OF_ANY {
        is_told(&rt, rt.alloc(), row)?;
    }
    Ok(())
}

/// Outcomes of a store.
static OF_A_STORE: [(Outcome, u8, &str); 7] = [
    (
        Outcome::Occupied { length: 4096 },
        4,
        "session has 4096 bytes already\n",
    ),
    (
        Outcome::Unmade {
            length: 3,
            mark: 80,
        },
        4,
        "no session: length 3, mark 80\n",
    ),
    (
        Outcome::SessionDamaged {
            part: SessionPart::Header,
            at: 8,
        },
        4,
        "session damaged: Header at 8\n",
    ),
    (
        Outcome::SessionDamaged {
            part: SessionPart::Slot,
            at: 16,
        },
        4,
        "session damaged: Slot at 16\n",
    ),
    (
        Outcome::SessionDamaged {
            part: SessionPart::State,
            at: 256,
        },
        4,
        "session damaged: State at 256\n",
    ),
    (
        Outcome::WrongGame {
            kept: [0x1f; 32],
            found: [0xe0; 32],
        },
        4,
        "session is of another game: kept 1f1f1f1f1f1f1f1f1f1f1f1f1f1f1f1f1f1f1f1f1f1f1f1f1f1f1f1f1f1f1f1f \
        found e0e0e0e0e0e0e0e0e0e0e0e0e0e0e0e0e0e0e0e0e0e0e0e0e0e0e0e0e0e0e0e0\n",
    ),
    (
        Outcome::WrongRoutines {
            kept: [0x1f; 32],
            found: [0xe0; 32],
        },
        4,
        "session has other routines: kept 1f1f1f1f1f1f1f1f1f1f1f1f1f1f1f1f1f1f1f1f1f1f1f1f1f1f1f1f1f1f1f1f \
        found e0e0e0e0e0e0e0e0e0e0e0e0e0e0e0e0e0e0e0e0e0e0e0e0e0e0e0e0e0e0e0e0\n",
    ),
];

#[test]
fn answers_for_a_store_have_their_status_and_text(rt: HostRuntime) -> Result<(), Fail> {
    for &row in &OF_A_STORE {
        is_told(&rt, rt.alloc(), row)?;
    }
    Ok(())
}

#[test]
fn answers_for_a_source_have_their_status_and_text(rt: HostRuntime) -> Result<(), Fail> {
    let range = SourceFault {
        line: 14,
        kind: SourceKind::Range,
    };
    let too_big = SourceFault {
        line: 0,
        kind: SourceKind::TooBig,
    };
    for row in [
        (Outcome::Done, 0, ""),
        (Outcome::SourceRefused(range), 2, "source line 14: Range\n"),
        (
            Outcome::SourceRefused(too_big),
            2,
            "source line 0: TooBig\n",
        ),
        (
            Outcome::Outside(StageCall::Save),
            7,
            "outside failed: Save\n",
        ),
        (Outcome::Memory(MemoryAt::Source), 8, "no memory: Source\n"),
        (Outcome::Memory(MemoryAt::Print), 8, "no memory: Print\n"),
    ] {
        is_told(&rt, rt.alloc(), row)?;
    }
    Ok(())
}
