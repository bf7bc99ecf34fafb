// A session whose program stops in a call, or of which one call fails: where it stands when it is resumed.

use crate::tests::running::settle_and_run;
use paw_stage::{
    CallKind, FailStage, MemoryStage, Refusals, RefusingStage, Stage, StageCall, StopStage,
};
use paw_top::outcome::Outcome;
use std::alloc::Global;
use std::process::Abort;
use std::test::Fail;

/// The words that compile the game, those that play it, and those that resume the session.
const COMPILE: &str = "compile\nsource\nhall";

const PLAY: &str = "play\nhall\nstore\n7";

const RESUME: &str = "resume\nhall\nstore";

/// A hall and a garden with six things in them.
const GAME: &str =
    "/VOC\nN 2 noun\nNORTH 2 noun\nS 3 noun\nSOUTH 3 noun\nALL 20 noun\nLAMP 50 noun\nSWORD 51 noun\n\
BAG 52 noun\nPOUCH 53 noun\nCOAT 54 noun\nBRICK 55 noun\nGET 30 verb\nTAKE 30 verb\nDROP 31 verb\n\
WEAR 32 verb\nREMOVE 33 verb\nPUT 34 verb\nLOOK 35 verb\nI 36 verb\nQUIT 37 verb\nWAIT 38 verb\n\
TIME 39 verb\nSTORE 40 verb\nBACK 41 verb\nSHAKE 42 verb\nTWIST 43 verb\nNEST 44 verb\nDEEP 45 verb\n\
WEAK 46 verb\nTURNS 47 verb\nHALVE 48 verb\nRED 2 adjective\nAND 2 conjunction\nTHEN 2 conjunction\n\
IT 2 pronoun\nEXCEPT 2 preposition\nIN 3 preposition\n/STX\n/0\nIt is dark.\n/1\nI can also see:\n/2\n\
What now?\n/3\n/4\n/5\n/6\nI don't understand.\n/7\nI can't go that way.\n/8\nI can't do that.\n/9\n\
I have:\n/10\n (worn)\n/11\nNothing.\n/12\nAre you sure? \n/13\nAnother go? \n/14\nGoodbye.\n/15\nOK.\n\
/16\nPress a key. \n/17\nYou have taken \n/18\n turn\n/19\ns\n/20\n.\n/21\nYou have scored \n/22\n points.\n\
/23\nI'm not wearing that.\n/24\nI'm wearing the _.\n/25\nI already have the _.\n/26\n\
There isn't one here.\n/27\nI can't carry any more.\n/28\nI don't have one.\n/29\n\
I'm already wearing the _.\n/30\n/31\n/32\n/33\n> \n/34\n/35\nTime passes.\n/36\nI take the _.\n/37\n\
I put on the _.\n/38\nI take off the _.\n/39\nI drop the _.\n/40\nI can't wear the _.\n/41\n\
I can't remove the _.\n/42\nMy hands are full.\n/43\nThe _ is too heavy.\n/44\nThe _ is now in the \n\
/45\nThe _ isn't in the \n/46\n/47\n/48\n/49\nI don't have the _.\n/50\nI'm not wearing the _.\n/51\n.\n\
/52\nThere isn't one in the \n/53\nNothing.\n/MTX\n/0\nYou shake the _.\n/1\nDone.\n/OTX\n/0\nlamp\n/1\n\
sword\n/2\nbag\n/3\npouch\n/4\ncoat\n/5\nbrick\n/LTX\n/0\nA hall.\n/1\nA garden.\n/2\n/3\n/CON\n/0\n\
NORTH 1\n/1\nSOUTH 0\n/OBJ\n0 0 2 - LAMP RED\n1 0 3 - SWORD _\n2 0 1 C BAG _\n3 1 0 C POUCH _\n\
4 CARRIED 2 W COAT _\n5 1 4 - BRICK _\n/PRO 0\nGET ALL DOALL HERE\nGET _ AUTOG DONE\n\
DROP ALL DOALL CARRIED\nDROP _ AUTOD DONE\nWEAR _ AUTOW DONE\nREMOVE _ AUTOR DONE\n\
PUT _ NOUN2 BAG AUTOP 2 DONE\nPUT _ NOUN2 POUCH AUTOP 3 DONE\nLOOK _ DESC\nI _ INVEN DONE\n\
QUIT _ QUIT END\nWAIT _ OK\nTIME _ TIME 5 0 DONE\nSTORE _ RAMSAVE OK\nBACK _ RAMLOAD 30 OK\n\
SHAKE ALL DOALL HERE\nSHAKE _ PROCESS 3 DONE\nTWIST ALL DOALL HERE\nTWIST _ PROCESS 4 MESSAGE 1\n\
NEST _ LET 60 9 PROCESS 5 OK\nDEEP _ LET 60 10 PROCESS 5 OK\nWEAK _ ABILITY 2 10 OK\nTURNS _ TURNS DONE\n\
HALVE _ LET 60 9 EXTERN 1 60\n PRINT 60 NEWLINE DONE\n/PRO 1\n_ _ LISTOBJ\n/PRO 2\n/PRO 3\n\
_ _ QUIT MESSAGE 0\n/PRO 4\n_ _ DOALL CARRIED\n_ _ ANYKEY MESSAGE 0\n/PRO 5\n\
_ _ GT 60 0 MINUS 60 1 PROCESS 5\n";

/// The lines that are played, and how many of them were taken when a session is resumed.
static LINES: [&str; 3] = ["GET LAMP", "N", "I"];

const TAKEN: usize = 1;

/// What is shown before the first line, and what is shown for each line.
const PIECES: [&str; 4] = [
    "A hall.\nI can also see:\nlamp\nsword\nbag\nWhat now?\n> ",
    "I take the lamp.\nWhat now?\n> ",
    "A garden.\nI can also see:\npouch\nbrick\nWhat now?\n> ",
    "I have:\nlamp\ncoat\nWhat now?\n> ",
];

/// More bytes than any file here has.
const MOST: usize = 200_000;

/// More calls than any stage here records.
const MOST_RECORDED: usize = 100;

/// Where a session keeps its mark and its selector.
const MARK_AT: u64 = 0;

const SELECTOR_AT: u64 = 1;

/// A command over a session: its words, the session's bytes, the lines to come, and where it stands: 0 where there is
/// none, and otherwise one more than the number of lines that were taken.
#[derive(Clone, Copy)]
struct Command<'a> {
    words: &'a str,
    found: &'a [u8],
    lines: &'a [&'a str],
    stands: usize,
}

/// A call in which a command stops: what it is, and where the session may stand then, at least and at most.
#[derive(Clone, Copy, Drop)]
struct Stop {
    call: StageCall,
    least: usize,
    most: usize,
}

/// How far a command has come: where the session stands, whether its last piece is still to be shown again, how often
/// the mark was written, and whether the byte written last decides where the session stands.
#[derive(Clone, Copy)]
struct Progress {
    stands: usize,
    again: bool,
    marks: usize,
    decides: bool,
}

impl Progress {
    // The calls to the store, from the words on: those of the making decide by the mark, once it is written for the
    // second time, and those of a commit by the selector.
    fn after_write(self, place: u64) -> Progress {
        let marks = self.marks.saturating_add(usize::from(place == MARK_AT));
        let made = self.stands > 0;
        Progress {
            marks,
            decides: if made {
                place == SELECTOR_AT
            } else {
                place == MARK_AT && marks > 1
            },
            ..self
        }
    }

    // A piece is shown: that of a line more, unless it is the last one again.
    fn after_show(self) -> Progress {
        Progress {
            stands: self.stands.saturating_add(usize::from(!self.again)),
            again: false,
            decides: false,
            ..self
        }
    }

    // How far it has come once a call of this kind was made.
    fn after(self, kind: CallKind) -> Progress {
        match kind {
            CallKind::Write(place) => self.after_write(place),
            CallKind::Show => self.after_show(),
            _ => self,
        }
    }

    // Where a session may stand if a call of this kind was stopped that would have brought it here: after a byte that
    // decides, and after the sync that follows it, it may stand before the line or after it.
    fn stop(self, kind: CallKind) -> Stop {
        let decides = self.decides
            && (kind == CallKind::Sync || matches!(kind, CallKind::Write(_)));
        Stop {
            call: call_of(kind),
            least: self.stands,
            most: self.stands.saturating_add(usize::from(decides)),
        }
    }
}

// The call that fails where one of this kind does.
fn call_of(kind: CallKind) -> StageCall {
    match kind {
        CallKind::Load | CallKind::Add => StageCall::Load,
        CallKind::Save => StageCall::Save,
        CallKind::Attach => StageCall::Attach,
        CallKind::Read => StageCall::Read,
        CallKind::Write(_) => StageCall::Write,
        CallKind::Sync => StageCall::Sync,
        CallKind::Take | CallKind::End => StageCall::Ask,
        CallKind::Show => StageCall::Show,
    }
}

// A stage with the game's image, a session, unless it has no bytes, and these lines.
fn stage_of(
    alloc: Global,
    image: &[u8],
    session: &[u8],
    lines: &[&str],
) -> Result<MemoryStage, Fail> {
    let mut stage = MemoryStage::new(alloc, 200, 400_000)?;
    stage.add_file("hall", image)?;
    if !session.is_empty() {
        stage.add_file("store", session)?;
    }
    for line in lines {
        stage.add_line(alloc, line.as_bytes())?;
    }
    Ok(stage)
}

// The image of the game.
fn image_of_game(rt: &impl Abort, alloc: Global) -> Result<Vec<u8>, Fail> {
    let mut stage = MemoryStage::new(alloc, 200, 400_000)?;
    stage.add_file("source", GAME.as_bytes())?;
    let outcome = settle_and_run(rt, alloc, &mut stage, COMPILE)?;
    assert_eq!(rt; outcome, Outcome::Done);
    Ok(stage.load(alloc, "hall", MOST)?)
}

// The session once some of the lines were played.
fn session_after(
    rt: &impl Abort,
    alloc: Global,
    image: &[u8],
    lines: &[&str],
) -> Result<Vec<u8>, Fail> {
    let mut stage = stage_of(alloc, image, b"", lines)?;
    let outcome = settle_and_run(rt, alloc, &mut stage, PLAY)?;
    assert_eq!(rt; outcome, Outcome::InputEnded);
    Ok(stage.load(alloc, "store", MOST)?)
}

// The calls of a command, and where the session may stand if it stops in each of them. They begin with the load of the
// game.
fn stops_of(
    rt: &impl Abort,
    alloc: Global,
    image: &[u8],
    command: Command<'_>,
) -> Result<Vec<Stop>, Fail> {
    let mut stage = stage_of(alloc, image, command.found, command.lines)?;
    let outcome = settle_and_run(rt, alloc, &mut stage, command.words)?;
    assert_eq!(rt; outcome, Outcome::InputEnded);
    let mut stops = Vec::new(alloc);
    let mut progress = Progress {
        stands: command.stands,
        again: command.stands > 0,
        marks: 0,
        decides: false,
    };
    for number in 0..MOST_RECORDED {
        let Some((kind, _)) = stage.call(number) else {
            return Ok(stops);
        };
        if kind == CallKind::Load || !stops.is_empty() {
            progress = progress.after(kind);
            stops.push(progress.stop(kind))?;
        }
    }
    Ok(stops)
}

// Where a session stands, by what a resume shows.
fn standing(rt: &impl Abort, alloc: Global, image: &[u8], session: &[u8]) -> Result<usize, Fail> {
    let mut stage = stage_of(alloc, image, session, &[])?;
    let outcome = settle_and_run(rt, alloc, &mut stage, RESUME)?;
    if matches!(outcome, Outcome::Unmade { .. }) {
        assert!(rt; stage.shown().is_empty());
        return Ok(0);
    }
    assert_eq!(rt; outcome, Outcome::InputEnded);
    for (number, piece) in PIECES.iter().enumerate() {
        if stage.shown() == piece.as_bytes() {
            return Ok(number.saturating_add(1));
        }
    }
    Err("no piece of these")?
}

// Checks that, if a command stops in a call, whatever a crash then leaves of the session stands where it may.
fn stops_in<R: Refusals + Drop>(
    rt: &impl Abort,
    alloc: Global,
    image: &[u8],
    (command, stop): (Command<'_>, Stop),
    stage: &mut RefusingStage<R>,
) -> Result<(), Fail> {
    let outcome = settle_and_run(rt, alloc, stage, command.words)?;
    assert_eq!(rt; outcome, Outcome::Outside(stop.call));
    for pick in 0..3u8 {
        let crashed = stage.inner().crash(alloc, pick)?;
        // Where nothing is attached yet the session is as it was.
        let left = match crashed.is_empty() {
            true => command.found,
            false => crashed.as_slice(),
        };
        let stands = standing(rt, alloc, image, left)?;
        assert!(rt;
            stop.least <= stands && stands <= stop.most,
            "{:?} {pick}: {stands}",
            stop.call
        );
    }
    Ok(())
}

// Stops a command in each of its calls, and gives their number.
fn stops_anywhere(
    rt: &impl Abort,
    alloc: Global,
    image: &[u8],
    command: Command<'_>,
) -> Result<usize, Fail> {
    let stops = stops_of(rt, alloc, image, command)?;
    for (number, stop) in stops.as_slice().iter().enumerate() {
        let whole = stage_of(alloc, image, command.found, command.lines)?;
        // The first call of all is the sync before the command.
        let mut stage = StopStage::new(whole, (number as u64).saturating_add(1));
        stops_in(rt, alloc, image, (command, *stop), &mut stage)?;
    }
    Ok(stops.len())
}

// Lets each call of a command fail alone, and gives their number.
fn fails_anywhere(
    rt: &impl Abort,
    alloc: Global,
    image: &[u8],
    command: Command<'_>,
) -> Result<usize, Fail> {
    let stops = stops_of(rt, alloc, image, command)?;
    for (number, stop) in stops.as_slice().iter().enumerate() {
        let whole = stage_of(alloc, image, command.found, command.lines)?;
        let listed = [(number as u64).saturating_add(1)].to_vec(alloc)?;
        let mut stage = FailStage::new(whole, listed);
        stops_in(rt, alloc, image, (command, *stop), &mut stage)?;
        let reads = [StageCall::Load, StageCall::Attach, StageCall::Read].contains(&stop.call);
        if reads && command.stands > 0 {
            let left = stage.load(alloc, "store", MOST)?;
            assert_eq!(rt; left.as_slice(), command.found);
        }
    }
    Ok(stops.len())
}

// A play of all lines.
fn play<'a>() -> Command<'a> {
    Command {
        words: PLAY,
        found: b"",
        lines: &LINES,
        stands: 0,
    }
}

// A resume of a session that has taken the first line.
fn resume<'a>(found: &'a [u8]) -> Command<'a> {
    Command {
        words: RESUME,
        found,
        lines: &LINES[TAKEN..],
        stands: TAKEN + 1,
    }
}

#[test]
fn a_play_stops_in_each_call(rt: HostRuntime) -> Result<(), Fail> {
    let alloc = rt.alloc();
    let image = image_of_game(&rt, alloc)?;
    let calls = stops_anywhere(&rt, alloc, image.as_slice(), play())?;
    // Two, eight of the making, a show, eight for each line, and the end.
    assert_eq!(rt; calls, 36);
    Ok(())
}

#[test]
fn each_call_fails_alone(rt: HostRuntime) -> Result<(), Fail> {
    let alloc = rt.alloc();
    let image = image_of_game(&rt, alloc)?;
    let image = image.as_slice();
    assert_eq!(rt; fails_anywhere(&rt, alloc, image, play())?, 36);
    let found = session_after(&rt, alloc, image, &LINES[..TAKEN])?;
    // Two, three reads, a show, eight for each line, and the end.
    assert_eq!(rt;
        fails_anywhere(&rt, alloc, image, resume(found.as_slice()))?,
        23
    );
    Ok(())
}

// Lets a crash follow a call of a play; its effects are looked at once the play is over.
fn crashes_behind(
    rt: &impl Abort,
    alloc: Global,
    image: &[u8],
    (stage, number, stop): (&MemoryStage, u64, Stop),
) -> Result<(), Fail> {
    for pick in 0..3u8 {
        match stage.crash_after(alloc, number, pick)? {
            // No store is attached yet.
            None => assert_eq!(rt; stop.call, StageCall::Load),
            Some(left) => {
                let stands = standing(rt, alloc, image, left.as_slice())?;
                assert!(rt;
                    stop.least <= stands && stands <= stop.most,
                    "{number} {pick}: {stands}"
                );
            }
        }
    }
    Ok(())
}

#[test]
fn a_crash_is_told_behind_each_call(rt: HostRuntime) -> Result<(), Fail> {
    let alloc = rt.alloc();
    let image = image_of_game(&rt, alloc)?;
    let image = image.as_slice();
    let stops = stops_of(&rt, alloc, image, play())?;
    let mut stage = stage_of(alloc, image, b"", &LINES)?;
    let outcome = settle_and_run(&rt, alloc, &mut stage, PLAY)?;
    assert_eq!(rt; outcome, Outcome::InputEnded);
    // The first call of all is the sync before the command; the load after it attaches nothing either.
    assert!(rt; stage.crash_after(alloc, 0, 1)?.is_none());
    let mut number = 0u64;
    for stop in stops.as_slice() {
        number = number.saturating_add(1);
        crashes_behind(&rt, alloc, image, (&stage, number, *stop))?;
    }
    number = number.saturating_add(1);
    assert_eq!(rt; stage.calls(), number);
    assert!(rt; stage.crash_after(alloc, number, 1)?.is_none());
    Ok(())
}
