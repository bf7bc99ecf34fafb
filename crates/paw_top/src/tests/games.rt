// Sources that are compiled and played, over a stage in memory.

use crate::outcome::Outcome;
use crate::tests::running::{compare, settle_and_run};
use crate::tests::sources::{LANTERN, LANTERN_CANONICAL, SMALLEST};
use paw_base::fault::{NoRoom, SpentKind};
use paw_stage::{LoadRefusal, MemoryStage, Stage};
use std::alloc::{AllocError, Global};
use std::process::Abort;
use std::test::Fail;

/// Three objects, and tables that ask inside loops and calls.
const QUESTIONS: &str =
    "/VOC\nGO 30 verb\nSHAKE 31 verb\nTWIST 32 verb\nNEST 33 verb\nDEEP 34 verb\nQUIT 35 verb\n\
LOOK 36 verb\nWAIT 37 verb\nTIME 38 verb\nTURN 39 verb\nNO 40 verb\nAWAY 41 verb\nWHERE 42 verb\n\
ALL 20 noun\nLAMP 50 noun\nSWORD 51 noun\nCOAT 54 noun\nRED 2 adjective\nAND 2 conjunction\n\
EXCEPT 2 preposition\nIT 2 pronoun\n/STX\n/0\n/1\n/2\nWhat now?\n/3\n/4\n/5\n/6\n\
I don't understand.\n/7\nI can't go that way.\n/8\nI can't do that.\n/9\n/10\n/11\n/12\n\
Are you sure? \n/13\nAnother go? \n/14\nGoodbye.\n/15\nOK.\n/16\nPress a key. \n/17\n/18\n/19\n/20\n\
/21\n/22\n/23\n/24\n/25\n/26\n/27\n/28\n/29\n/30\n/31\n/32\n/33\n> \n/34\n/35\nTime passes.\n/MTX\n\
/0\nYou shake the _.\n/1\nDone.\n/2\nHere the _ is.\n/3\nA wind blows.\n/OTX\n/0\nlamp\n/1\nsword\n\
/2\ncoat\n/LTX\n/0\nA hall.\n/1\nA garden.\n/CON\n/OBJ\n0 0 2 - LAMP RED\n1 0 3 - SWORD _\n\
2 CARRIED 2 W COAT _\n/PRO 0\nSHAKE ALL DOALL HERE\nSHAKE _ PROCESS 3 DONE\nTWIST ALL DOALL HERE\n\
TWIST _ PROCESS 4 MESSAGE 1\nNEST _ LET 60 9 PROCESS 5 OK\nDEEP _ LET 60 10 PROCESS 5 OK\n\
QUIT _ QUIT END\nLOOK _ DESC\nWAIT _ OK\nTIME _ LET 48 5 DONE\nTURN ALL DOALL HERE\n\
TURN _ PARSE MESSAGE 2 DONE\nNO _ PROCESS 6\nNO _ MESSAGE 1 DONE\nAWAY _ PROCESS 7 MESSAGE 1\n\
WHERE ALL DOALL 253\nWHERE _ MESSAGE 1 DONE\n/PRO 1\n_ _ PROCESS 8\n/PRO 2\n/PRO 3\n\
_ _ QUIT MESSAGE 0\n/PRO 4\n_ _ DOALL CARRIED\n_ _ ANYKEY MESSAGE 0\n/PRO 5\n\
_ _ GT 60 0 MINUS 60 1 PROCESS 5\n/PRO 6\n_ _ MESSAGE 2 NOTDONE\n_ _ MESSAGE 1\n/PRO 7\n\
_ _ LET 38 1 DESC MESSAGE 2\n/PRO 8\n_ _ AT 1 MESSAGE 3\n_ _ DONE\n_ _ MESSAGE 2\n";

/// One location, two messages, and these lines in table 1.
const BEFORE_TABLE_1: &str =
    "/VOC\n/STX\n/MTX\n/0\na\n/1\nb\n/OTX\n/LTX\n/0\n/CON\n/OBJ\n/PRO 0\n/PRO 1\n";

// The parts of a source, one after the other.
fn join(alloc: Global, parts: &[&str]) -> Result<Vec<u8>, AllocError> {
    let mut text = Vec::new(alloc);
    for part in parts {
        text.extend_from_slice(part.as_bytes())?;
    }
    Ok(text)
}

/// A stage with a source, and these lines.
pub(crate) fn stage_of(alloc: Global, source: &[u8], lines: &str) -> Result<MemoryStage, NoRoom> {
    let mut stage = MemoryStage::new(alloc, 1_000, 100_000)?;
    stage.add_file("source", source)?;
    for line in lines.lines() {
        stage.add_line(alloc, line.as_bytes())?;
    }
    Ok(stage)
}

/// Compiles the source as the file `game`; how many bytes were shown by then.
pub(crate) fn compiles(
    rt: &impl Abort,
    alloc: Global,
    stage: &mut MemoryStage,
) -> Result<usize, Fail> {
    let outcome = settle_and_run(rt, alloc, stage, "compile\nsource\ngame")?;
    assert_eq!(rt; outcome, Outcome::Done);
    Ok(stage.shown().len())
}

// Compiles the source and walks through its game with these lines: how the walk ends, and what it shows.
fn compile_and_walk(
    rt: &impl Abort,
    alloc: Global,
    source: &[&str],
    lines: &str,
) -> Result<(Outcome, Vec<u8>), Fail> {
    let source = join(alloc, source)?;
    let mut stage = stage_of(alloc, source.as_slice(), lines)?;
    let compiled = compiles(rt, alloc, &mut stage)?;
    let outcome = settle_and_run(rt, alloc, &mut stage, "walk\ngame\n7")?;
    let shown = stage.shown().get(compiled..).unwrap_or(b"");
    Ok((outcome, Vec::from_slice(alloc, shown)?))
}

// Walks with these lines, and compares how the walk ends and what is shown.
fn comes_so(
    rt: &impl Abort,
    alloc: Global,
    source: &[&str],
    lines: &str,
    wanted: Outcome,
    pieces: &str,
) -> Result<(), Fail> {
    let (outcome, shown) = compile_and_walk(rt, alloc, source, lines)?;
    let came = (outcome, shown.as_slice());
    compare(rt, came, (wanted, pieces.as_bytes()), lines);
    Ok(())
}

// The same of a walk to the end of the lines.
fn shows(
    rt: &impl Abort,
    alloc: Global,
    source: &[&str],
    lines: &str,
    pieces: &str,
) -> Result<(), Fail> {
    comes_so(rt, alloc, source, lines, Outcome::InputEnded, pieces)
}

/// Lines for the tables that ask, and what is shown.
static ASKED: [(&str, &str); 9] = [
    (
        "SHAKE ALL\nN\nY",
        "A hall.\nWhat now?\n> Are you sure? Are you sure? You shake the sword.\nWhat now?\n> ",
    ),
    (
        "TWIST ALL\n\nWAIT",
        "A hall.\nWhat now?\n> Press a key. You shake the coat.\nDone.\nWhat now?\n> OK.\nWhat now?\n> ",
    ),
    (
        "NO\nWAIT",
        "A hall.\nWhat now?\n> Here the  is.\nDone.\nWhat now?\n> OK.\nWhat now?\n> ",
    ),
    (
        "AWAY\nLOOK",
        "A hall.\nWhat now?\n> A garden.\nA wind blows.\nWhat now?\n> A garden.\nA wind blows.\nWhat now?\n> ",
    ),
    (
        "WHERE ALL\nWHERE",
        "A hall.\nWhat now?\n> What now?\n> Done.\nWhat now?\n> ",
    ),
    (
        "SHAKE ALL EXCEPT RED LAMP\nY",
        "A hall.\nWhat now?\n> Are you sure? You shake the sword.\nWhat now?\n> ",
    ),
    (
        "SHAKE ALL EXCEPT LAMP\ny",
        "A hall.\nWhat now?\n> Are you sure? You shake the sword.\nWhat now?\n> ",
    ),
    (
        "TURN ALL AND WAIT\nTURN ALL",
        "A hall.\nWhat now?\n> What now?\n> Here the lamp is.\nHere the sword is.\nWhat now?\n> ",
    ),
    (
        "QUIT\n~\nn\nTIME\n~\nQUIT\n~\nTWIST ALL\n~",
        "A hall.\nWhat now?\n> Are you sure? What now?\n> What now?\n> Time passes.\nWhat now?\n\
        > Are you sure? What now?\n> Press a key. You shake the coat.\nDone.\nWhat now?\n> ",
    ),
];

#[test]
fn tables_ask_call_and_repeat(rt: HostRuntime) -> Result<(), Fail> {
    let alloc = rt.alloc();
    for &(lines, pieces) in &ASKED {
        shows(&rt, alloc, &[QUESTIONS], lines, pieces)?;
    }
    Ok(())
}

/// A source, lines, how the walk ends, and what it shows.
static ENDINGS: [([&str; 2], &str, Outcome, &str); 5] = [
    (
        [QUESTIONS, ""],
        "NEST\nDEEP",
        Outcome::TooDeep { table: 5 },
        "A hall.\nWhat now?\n> OK.\nWhat now?\n> ",
    ),
    (
        [QUESTIONS, ""],
        "QUIT\ny\n  no\nLOOK",
        Outcome::Ended,
        "A hall.\nWhat now?\n> Are you sure? Another go? Goodbye.\n",
    ),
    (
        [QUESTIONS, ""],
        "AWAY\nQUIT\nn\nQUIT\n y\n\nQUIT\ny\n  no\nLOOK",
        Outcome::Ended,
        "A hall.\nWhat now?\n> A garden.\nA wind blows.\nWhat now?\n> Are you sure? What now?\n\
        > Are you sure? Another go? A hall.\nWhat now?\n> Are you sure? Another go? Goodbye.\n",
    ),
    (
        [BEFORE_TABLE_1, "_ _\n DESC\n/PRO 2\n"],
        "",
        Outcome::Spent(SpentKind::Condacts),
        "",
    ),
    (
        [BEFORE_TABLE_1, "_ _\n MES 0 DESC\n/PRO 2\n"],
        "",
        Outcome::Spent(SpentKind::Text),
        "",
    ),
];

#[test]
fn outcomes_of_tables(rt: HostRuntime) -> Result<(), Fail> {
    let alloc = rt.alloc();
    for &(source, lines, wanted, pieces) in &ENDINGS {
        comes_so(&rt, alloc, source.as_slice(), lines, wanted, pieces)?;
    }
    Ok(())
}

/// Two rooms with a way between them; some verbs are left as not done after a message.
const UNDONE: &str =
    "/VOC\nNORTH 2 verb\nEAST 3 verb\nUP 4 verb\nIN 5 verb\nDOWN 13 verb\nSING 14 verb\n\
DANCE 30 verb\nHUM 31 verb\nSWIM 32 verb\nCLAP 33 verb\nHOP 34 verb\n/STX\n/0\n/1\n/2\nWhat now?\n\
/3\n/4\n/5\n/6\nEh?\n/7\nI can't go that way.\n/8\nI can't do that.\n/9\n/10\n/11\n/12\n/13\n/14\n\
/15\n/16\n/17\n/18\n/19\n/20\n/21\n/22\n/23\n/24\n/25\n/26\n/27\n/28\n/29\n/30\n/31\n/32\n/33\n> \n\
/MTX\n/0\n/1\nHm.\n/OTX\n/LTX\n/0\nA hall.\n/1\nA garden.\n/CON\n/0\nNORTH 1\nUP 1\nIN 1\nDANCE 1\n\
/1\n/OBJ\n/PRO 0\nEAST _ MESSAGE 1 NOTDONE\nUP _ MESSAGE 1 NOTDONE\nIN _ PROCESS 3\n\
DOWN _ PROCESS 3\nSING _ MESSAGE 1 NOTDONE\nDANCE _ MESSAGE 1 NOTDONE\nHUM _ PROCESS 3\n\
CLAP _ PROCESS 4\nHOP _ MESSAGE 1 PROCESS 3\n/PRO 1\n/PRO 2\n/PRO 3\n_ _ MESSAGE 1 NOTDONE\n/PRO 4\n\
_ _ PROCESS 3\n_ _ MESSAGE 1\n";

// Walks through that game with these lines, and compares what is shown after the first piece.
fn shows_undone(rt: &impl Abort, alloc: Global, lines: &str, pieces: &str) -> Result<(), Fail> {
    let shown = format!(in alloc; "A hall.\nWhat now?\n> {pieces}")?;
    shows(rt, alloc, &[UNDONE], lines, shown.as_str())
}

/// Lines in these two rooms, and what they show.
static UNDONE_LINES: [(&str, &str); 13] = [
    // Nothing answers the verb.
    ("SWIM", "I can't do that.\nWhat now?\n> "),
    ("NORTH", "A garden.\nWhat now?\n> "),
    // It is left as not done, here and in a called table.
    ("SING", "Hm.\nI can't do that.\nWhat now?\n> "),
    ("HUM", "Hm.\nI can't do that.\nWhat now?\n> "),
    ("EAST", "Hm.\nI can't go that way.\nWhat now?\n> "),
    ("DOWN", "Hm.\nI can't go that way.\nWhat now?\n> "),
    // The rest of the line is dropped.
    ("SING. NORTH", "Hm.\nI can't do that.\nWhat now?\n> "),
    // There is a way.
    ("UP", "Hm.\nA garden.\nWhat now?\n> "),
    ("IN", "Hm.\nA garden.\nWhat now?\n> "),
    (
        "DANCE\nDANCE",
        "Hm.\nA garden.\nWhat now?\n> Hm.\nI can't do that.\nWhat now?\n> ",
    ),
    (
        "UP. IN",
        "Hm.\nA garden.\nHm.\nI can't go that way.\nWhat now?\n> ",
    ),
    // The caller has done something, after the call or before it.
    ("CLAP", "Hm.\nHm.\nWhat now?\n> "),
    ("HOP", "Hm.\nHm.\nWhat now?\n> "),
];

#[test]
fn not_done_leads_on_to_the_exits(rt: HostRuntime) -> Result<(), Fail> {
    let alloc = rt.alloc();
    for &(lines, pieces) in &UNDONE_LINES {
        shows_undone(&rt, alloc, lines, pieces)?;
    }
    Ok(())
}

/// Entries of table 1, and what they show.
static CONDITIONS: [(&str, &str); 20] = [
    (
        "_ _ LET 100 250 PLUS 100 10 EQ 100 255 MES 0\n_ _ MINUS 100 255 MINUS 100 1 ZERO 100 MES 1\n",
        "ab",
    ),
    (
        "_ _ LET 29 5 LET 31 5 RAMSAVE LET 29 6 LET 31 6 RAMLOAD 30 EQ 29 5 EQ 31 6 MES 0\n",
        "a",
    ),
    ("_ _ LET 29 6 RAMLOAD 255 EQ 29 6 MES 0\n", "a"),
    ("_ _ CHANCE 100 MES 0\n_ _ CHANCE 0 MES 1\n", "a"),
    ("_ _ LET 38 255 AT 0 MES 0\n_ _ ATGT 254 MES 1\n", "b"),
    ("_ _ NOTAT 0 MES 0\n_ _ AT 0 MES 1\n", "b"),
    ("_ _ ATLT 1 MES 0\n_ _ ATGT 0 MES 1\n", "a"),
    (
        "_ _ SET 100 EQ 100 255 CLEAR 100 ZERO 100 MES 0\n_ _ NOTZERO 100 MES 1\n",
        "a",
    ),
    (
        "_ _ LET 100 7 GT 100 6 LT 100 8 NOTEQ 100 6 MES 0\n_ _ GT 100 7 MES 1\n_ _ LT 100 7 MES 1\n",
        "a",
    ),
    (
        "_ _ LET 100 7 COPYFF 100 101 SAME 100 101 MES 0\n_ _ NOTSAME 100 101 MES 1\n",
        "a",
    ),
    (
        "_ _ LET 100 200 LET 101 100 ADD 100 101 EQ 101 255 EQ 100 200 MES 0\n",
        "a",
    ),
    (
        "_ _ LET 100 5 LET 101 7 SUB 100 101 EQ 101 2 SUB 100 101 ZERO 101 MES 0\n",
        "a",
    ),
    ("_ _ RANDOM 100 GT 100 0 LT 100 101 MES 0\n", "a"),
    (
        "_ _ ADJECT1 _ ADVERB _ PREP _ NOUN2 _ ADJECT2 _ MES 0\n_ _ TIMEOUT MES 1\n",
        "a",
    ),
    ("_ _ MESSAGE 1 NOTDONE MES 0\n_ _ MES 0\n", "b\n"),
    ("_ _ MES 1 DONE MES 0\n_ _ MES 0\n", "b"),
    ("_ _ MOVE 38 MES 0\n_ _ MES 1\n", "b"),
    // There is no routine 3, the complement of 9 has six one bits, and the half of 9 is 4.
    ("_ _ LET 100 9 EXTERN 3 100 EQ 100 9 MES 0\n", "a"),
    (
        "_ _ LET 100 9 EXTERN 0 100 EQ 100 246 EXTERN 2 100 EQ 100 6 MES 0\n",
        "a",
    ),
    ("_ _ LET 100 9 EXTERN 1 100 EQ 100 4 MES 0\n", "a"),
];

#[test]
fn conditions_and_flags(rt: HostRuntime) -> Result<(), Fail> {
    let alloc = rt.alloc();
    for &(rows, shown) in &CONDITIONS {
        shows(&rt, alloc, &[BEFORE_TABLE_1, rows, "/PRO 2\n"], "", shown)?;
    }
    Ok(())
}

/// Two ways into the dark and out, with a lamp at a place that follows.
const BEFORE_LAMP: &str =
    "/VOC\nCOUNT 30 verb\nDARK 31 verb\nLOOK 32 verb\nTELL 33 verb\nOUT 34 verb\nLAMP 50 noun\n\
/STX\n/0\nIt is dark.\n/1\n/2\n/MTX\n/0\nfar\n/1\nlit\n/OTX\n/0\nlamp\n/LTX\n/0\nHall.\n/1\nYard.\n\
/CON\n/OBJ\n0 ";

/// The rest: COUNT begins the counts, DARK makes it dark, and TELL shows how far they have fallen.
const AFTER_LAMP: &str = " 1 W LAMP _\n/PRO 0\n\
COUNT _ LET 2 9 LET 3 9 LET 4 9 LET 5 9 LET 6 9 LET 7 9 LET 8 9 LET 9 9 LET 10 9 DONE\n\
DARK _ SET 0 DESC\nLOOK _ DESC\nOUT _ GOTO 1 DESC\n\
TELL _ EQ 2 7 EQ 3 7 EQ 4 7 EQ 5 6 EQ 6 6 EQ 7 6 EQ 8 6 EQ 9 7 EQ 10 7 MES 0\n\
TELL _ EQ 2 7 EQ 3 7 EQ 4 9 EQ 5 6 EQ 6 6 EQ 7 6 EQ 8 6 EQ 9 7 EQ 10 9 MES 1\n/PRO 1\n/PRO 2\n";

/// Where the lamp is, and what is shown.
static LAMP_PLACES: [(&str, &str); 5] = [
    ("CARRIED", "Hall.\nHall.\nHall.\nlitYard.\n"),
    ("WORN", "Hall.\nHall.\nHall.\nlitYard.\n"),
    ("0", "Hall.\nHall.\nHall.\nlitIt is dark.\n"),
    ("1", "Hall.\nIt is dark.\nIt is dark.\nfarYard.\n"),
    (
        "NOTCREATED",
        "Hall.\nIt is dark.\nIt is dark.\nfarIt is dark.\n",
    ),
];

#[test]
fn it_is_dark_without_a_light(rt: HostRuntime) -> Result<(), Fail> {
    let alloc = rt.alloc();
    let lines = "COUNT\nDARK\nLOOK\nTELL\nOUT";
    for &(place, shown) in &LAMP_PLACES {
        shows(&rt, alloc, &[BEFORE_LAMP, place, AFTER_LAMP], lines, shown)?;
    }
    Ok(())
}

/// A prompt that may be chosen, and time that may be allowed.
const PROMPTS: &str =
    "/VOC\nON 30 verb\nOFF 31 verb\nASK 32 verb\nNONE 33 verb\nWAIT 34 verb\n/STX\n/0\n/1\n/2\n\
What now?\n/3\nWell?\n/4\n/5\n/6\n/7\n/8\n/9\n/10\n/11\n/12\n/13\n/14\n/15\n/16\n/17\n/18\n/19\n\
/20\n/21\n/22\n/23\n/24\n/25\n/26\n/27\n/28\n/29\n/30\n/31\n/32\n/33\n> \n/34\n/35\nTime passes.\n\
/MTX\n/0\nt\n/OTX\n/LTX\n/0\n/CON\n/OBJ\n/PRO 0\nON _ LET 48 1 DONE\nOFF _ CLEAR 48 DONE\n\
ASK _ LET 42 3 DONE\nNONE _ LET 42 200 DONE\nWAIT _ DONE\n/PRO 1\n/PRO 2\n_ _ TIMEOUT MES 0\n";

/// Lines, and what they show where time may pass.
static TIMES: [(&str, &str); 7] = [
    ("~", "What now?\n> "),
    ("~\nWAIT", "What now?\n> What now?\n> "),
    (
        "ON\n~\nWAIT",
        "What now?\n> What now?\n> Time passes.\ntWhat now?\n> What now?\n> ",
    ),
    (
        "ON\n~\n~",
        "What now?\n> What now?\n> Time passes.\ntWhat now?\n> Time passes.\ntWhat now?\n> ",
    ),
    (
        "ON\n ~\n~ ",
        "What now?\n> What now?\n> What now?\n> What now?\n> ",
    ),
    ("ON\nOFF\n~", "What now?\n> What now?\n> What now?\n> "),
    ("ASK\nNONE\nWAIT", "What now?\n> Well?\n> > > "),
];

#[test]
fn time_passes_where_it_may(rt: HostRuntime) -> Result<(), Fail> {
    let alloc = rt.alloc();
    for &(lines, shown) in &TIMES {
        shows(&rt, alloc, &[PROMPTS], lines, shown)?;
    }
    Ok(())
}

/// Two rooms, of which one is sung in.
const ROOMS: &str =
    "/VOC\nLOOK 30 verb\nN 2 noun\nS 3 noun\nSING 31 verb\n/STX\n/0\n/1\n/2\n>\n/3\n/4\n/5\n/6\n\
What?\n/7\nNo way.\n/8\nNo.\n/MTX\n/0\nLa la.\n\n/OTX\n/LTX\n/0\nHall.\n/1\nYard.\n/CON\n/0\nN 1\n\
/1\nS 0\n/OBJ\n/PRO 0\nLOOK _ DESC\nSING _ NOTAT 1 MES 0 DONE\nSING _ AT 1 GOTO 0 DESC\n/PRO 1\n\
/PRO 2\n";

/// Six objects, and all kinds of words.
const HALL: &str =
    "/VOC\nN 2 noun\nNORTH 2 noun\nS 3 noun\nSOUTH 3 noun\nALL 20 noun\nLAMP 50 noun\n\
SWORD 51 noun\nBAG 52 noun\nPOUCH 53 noun\nCOAT 54 noun\nBRICK 55 noun\nGET 30 verb\nTAKE 30 verb\n\
DROP 31 verb\nWEAR 32 verb\nREMOVE 33 verb\nPUT 34 verb\nLOOK 35 verb\nI 36 verb\nQUIT 37 verb\n\
WAIT 38 verb\nTIME 39 verb\nSTORE 40 verb\nBACK 41 verb\nSHAKE 42 verb\nTWIST 43 verb\n\
NEST 44 verb\nDEEP 45 verb\nWEAK 46 verb\nTURNS 47 verb\nHALVE 48 verb\nRED 2 adjective\n\
AND 2 conjunction\nTHEN 2 conjunction\nIT 2 pronoun\nEXCEPT 2 preposition\nIN 3 preposition\n/STX\n\
/0\nIt is dark.\n/1\nI can also see:\n/2\nWhat now?\n/3\n/4\n/5\n/6\nI don't understand.\n/7\n\
I can't go that way.\n/8\nI can't do that.\n/9\nI have:\n/10\n (worn)\n/11\nNothing.\n/12\n\
Are you sure? \n/13\nAnother go? \n/14\nGoodbye.\n/15\nOK.\n/16\nPress a key. \n/17\n\
You have taken \n/18\n turn\n/19\ns\n/20\n.\n/21\nYou have scored \n/22\n points.\n/23\n\
I'm not wearing that.\n/24\nI'm wearing the _.\n/25\nI already have the _.\n/26\n\
There isn't one here.\n/27\nI can't carry any more.\n/28\nI don't have one.\n/29\n\
I'm already wearing the _.\n/30\n/31\n/32\n/33\n> \n/34\n/35\nTime passes.\n/36\nI take the _.\n\
/37\nI put on the _.\n/38\nI take off the _.\n/39\nI drop the _.\n/40\nI can't wear the _.\n/41\n\
I can't remove the _.\n/42\nMy hands are full.\n/43\nThe _ is too heavy.\n/44\n\
The _ is now in the \n/45\nThe _ isn't in the \n/46\n/47\n/48\n/49\nI don't have the _.\n/50\n\
I'm not wearing the _.\n/51\n.\n/52\nThere isn't one in the \n/53\nNothing.\n/MTX\n/0\n\
You shake the _.\n/1\nDone.\n/OTX\n/0\nlamp\n/1\nsword\n/2\nbag\n/3\npouch\n/4\ncoat\n/5\nbrick\n\
/LTX\n/0\nA hall.\n/1\nA garden.\n/2\n/3\n/CON\n/0\nNORTH 1\n/1\nSOUTH 0\n/OBJ\n0 0 2 - LAMP RED\n\
1 0 3 - SWORD _\n2 0 1 C BAG _\n3 1 0 C POUCH _\n4 CARRIED 2 W COAT _\n5 1 4 - BRICK _\n/PRO 0\n\
GET ALL DOALL HERE\nGET _ AUTOG DONE\nDROP ALL DOALL CARRIED\nDROP _ AUTOD DONE\nWEAR _ AUTOW DONE\n\
REMOVE _ AUTOR DONE\nPUT _ NOUN2 BAG AUTOP 2 DONE\nPUT _ NOUN2 POUCH AUTOP 3 DONE\nLOOK _ DESC\n\
I _ INVEN DONE\nQUIT _ QUIT END\nWAIT _ OK\nTIME _ TIME 5 0 DONE\nSTORE _ RAMSAVE OK\n\
BACK _ RAMLOAD 30 OK\nSHAKE ALL DOALL HERE\nSHAKE _ PROCESS 3 DONE\nTWIST ALL DOALL HERE\n\
TWIST _ PROCESS 4 MESSAGE 1\nNEST _ LET 60 9 PROCESS 5 OK\nDEEP _ LET 60 10 PROCESS 5 OK\n\
WEAK _ ABILITY 2 10 OK\nTURNS _ TURNS DONE\nHALVE _ LET 60 9 EXTERN 1 60\n PRINT 60 NEWLINE DONE\n\
/PRO 1\n_ _ LISTOBJ\n/PRO 2\n/PRO 3\n_ _ QUIT MESSAGE 0\n/PRO 4\n_ _ DOALL CARRIED\n\
_ _ ANYKEY MESSAGE 0\n/PRO 5\n_ _ GT 60 0 MINUS 60 1 PROCESS 5\n";

// What the file `game` holds; no bytes where it is missing.
fn image_in(alloc: Global, stage: &mut MemoryStage) -> Result<Vec<u8>, AllocError> {
    match stage.load(alloc, "game", 100_000) {
        Ok(bytes) => Ok(bytes),
        Err(LoadRefusal::Memory) => Err(AllocError),
        Err(_) => Ok(Vec::new(alloc)),
    }
}

// The image of a source, and the text that it is shown as when it is decompiled.
fn decompile_again(
    rt: &impl Abort,
    alloc: Global,
    source: &[u8],
) -> Result<(Vec<u8>, Vec<u8>), Fail> {
    let mut stage = stage_of(alloc, source, "")?;
    let compiled = compiles(rt, alloc, &mut stage)?;
    let outcome = settle_and_run(rt, alloc, &mut stage, "decompile\ngame")?;
    assert_eq!(rt; outcome, Outcome::Done);
    let text = Vec::from_slice(alloc, stage.shown().get(compiled..).unwrap_or(b""))?;
    Ok((image_in(alloc, &mut stage)?, text))
}

// Checks that a source has an image of this length, and that the text that this is shown as has the same one.
fn goes_there_and_back(
    rt: &impl Abort,
    alloc: Global,
    (source, length): (&str, usize),
) -> Result<(), Fail> {
    let (image, text) = decompile_again(rt, alloc, source.as_bytes())?;
    assert_eq!(rt; image.len(), length);
    let (again, once_more) = decompile_again(rt, alloc, &text)?;
    assert_eq!(rt; again, image);
    assert_eq!(rt; once_more, text);
    Ok(())
}

#[test]
fn games_go_there_and_back(rt: HostRuntime) -> Result<(), Fail> {
    let alloc = rt.alloc();
    for row in [(SMALLEST, 26), (LANTERN, 87), (ROOMS, 134), (HALL, 1_311)] {
        goes_there_and_back(&rt, alloc, row)?;
    }
    Ok(())
}

/// Two rooms, in the form that images are shown in: a text that ends with a line end keeps an empty last line, and
/// flags stand after `@`.
const ROOMS_CANONICAL: &str =
    "/VOC\nN 2 noun\nS 3 noun\nSING 31 verb\n/STX\n/MTX\n/0\nLa la.\n\n/OTX\n\
/LTX\n/0\nHall.\n/1\nYard.\n/CON\n/0\nN 1\n/1\nS 0\n/OBJ\n\
/PRO 0\nSING _\n NOTAT 1\n MES 0\n EQ @7 3\n MES @100\n DONE\n* N\n/PRO 1\n/PRO 2\n";

/// Sources in the form that images are shown in.
static CANONICAL: [&str; 3] = [SMALLEST, LANTERN_CANONICAL, ROOMS_CANONICAL];

#[test]
fn canonical_sources_come_back(rt: HostRuntime) -> Result<(), Fail> {
    for source in &CANONICAL {
        let (_, text) = decompile_again(&rt, rt.alloc(), source.as_bytes())?;
        assert_eq!(rt; text.as_slice(), source.as_bytes());
    }
    Ok(())
}
