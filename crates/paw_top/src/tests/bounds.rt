// What a check says of small games: a bound, and a game for each cause why there is none.

use crate::outcome::Outcome;
use crate::tests::games::{compiles, stage_of};
use crate::tests::running::{compare, settle_and_run};
use crate::tests::sources::SMALLEST;
use std::alloc::{AllocError, Global};
use std::process::Abort;
use std::test::Fail;

/// Games: a name, the source, and the line that a check of its image shows.
static CHECKED: [(&str, &str, &str); 10] = [
    (
        "the smallest",
        SMALLEST,
        "BOUND levels 0 condacts 0 text 261\n",
    ),
    (
        "the longest of the texts that a flag may name",
        "/VOC\n/STX\n/MTX\n/0\na\n/1\nbc\n/OTX\n/LTX\n/0\n/CON\n/OBJ\n/PRO 0\n/PRO 1\n\
* _ LET 100 1 MES @100 LET 100 9 MES @100\n/PRO 2\n",
        "BOUND levels 0 condacts 516 text 777\n",
    ),
    (
        "calls of two levels",
        "/VOC\n/STX\n/MTX\n/OTX\n/LTX\n/0\n/CON\n/OBJ\n/PRO 0\n* _ PROCESS 3 PROCESS 3\n/PRO 1\n\
/PRO 2\n/PRO 3\n* _ PROCESS 4\n/PRO 4\n* _ NEWLINE\n",
        "BOUND levels 2 condacts 774 text 519\n",
    ),
    (
        "a table that calls itself",
        "/VOC\n/STX\n/MTX\n/OTX\n/LTX\n/0\n/CON\n/OBJ\n/PRO 0\n* _ PROCESS 3\n/PRO 1\n/PRO 2\n\
/PRO 3\n* _ PROCESS 3\n",
        "UNKNOWN Calls at 3.0\n",
    ),
    (
        "a description that comes round",
        "/VOC\n/STX\n/MTX\n/OTX\n/LTX\n/0\n/CON\n/OBJ\n/PRO 0\n* _ DESC\n/PRO 1\n* _ DESC\n/PRO 2\n",
        "UNKNOWN Redescribe at 1.0\n",
    ),
    (
        "entries of two verbs, of which a sentence has one",
        "/VOC\nLOOK 30 verb\nSING 31 verb\n/STX\n/MTX\n/OTX\n/LTX\n/0\n/CON\n/OBJ\n/PRO 0\n\
LOOK _ NOTAT 0 AT 0 DONE\nSING _ AT 0 RAMLOAD 32\n/PRO 1\n/PRO 2\n",
        "BOUND levels 0 condacts 387 text 261\n",
    ),
    (
        "the same where the verb may come back from RAMSAVE",
        "/VOC\nLOOK 30 verb\nSING 31 verb\n/STX\n/MTX\n/OTX\n/LTX\n/0\n/CON\n/OBJ\n/PRO 0\n\
LOOK _ NOTAT 0 AT 0 DONE\nSING _ AT 0 RAMLOAD 33\n/PRO 1\n/PRO 2\n",
        "BOUND levels 0 condacts 645 text 261\n",
    ),
    (
        "the same where a flag says which flag is set",
        "/VOC\nLOOK 30 verb\nSING 31 verb\n/STX\n/MTX\n/OTX\n/LTX\n/0\n/CON\n/OBJ\n/PRO 0\n\
LOOK _ NOTAT 0 AT 0 DONE\nSING _ AT 0 LET @100 0\n/PRO 1\n/PRO 2\n",
        "BOUND levels 0 condacts 645 text 261\n",
    ),
    (
        "a loop over three objects",
        "/VOC\n/STX\n/MTX\n/0\n_.\n/OTX\n/0\nlamp\n/1\nlamp\n/2\nlamp\n/LTX\n/0\n/CON\n/OBJ\n\
0 0 1 - _ _\n1 0 1 - _ _\n2 0 1 - _ _\n/PRO 0\n* _ DOALL CARRIED MES 0\n/PRO 1\n/PRO 2\n",
        "BOUND levels 0 condacts 1032 text 2841\n",
    ),
    (
        "two places, and the verb that takes most",
        "/VOC\nLOOK 30 verb\nN 2 noun\nS 3 noun\nSING 31 verb\n/STX\n/0\n\n/1\n\n/2\n>\n/3\n\n/4\n\n\
/5\n\n/6\nWhat?\n/7\nNo way.\n/8\nNo.\n/MTX\n/0\nLa la.\n\n/OTX\n/LTX\n/0\nHall.\n/1\nYard.\n/CON\n\
/0\nN 1\n/1\nS 0\n/OBJ\n/PRO 0\nLOOK _ DESC\nSING _ NOTAT 1 MES 0 DONE\n\
SING _ AT 1 GOTO 0 DESC\n/PRO 1\n/PRO 2\n",
        "BOUND levels 0 condacts 774 text 2719\n",
    ),
];

// Compiles a source, and compares what a check of its image shows.
fn shows(
    rt: &impl Abort,
    alloc: Global,
    source: &[u8],
    line: &str,
    name: &str,
) -> Result<(), Fail> {
    let mut stage = stage_of(alloc, source, "")?;
    let compiled = compiles(rt, alloc, &mut stage)?;
    let outcome = settle_and_run(rt, alloc, &mut stage, "check\ngame")?;
    let shown = stage.shown().get(compiled..).unwrap_or(b"");
    compare(rt, (outcome, shown), (Outcome::Done, line.as_bytes()), name);
    Ok(())
}

#[test]
fn games_are_checked(rt: HostRuntime) -> Result<(), Fail> {
    let alloc = rt.alloc();
    for &(name, source, line) in &CHECKED {
        shows(&rt, alloc, source.as_bytes(), line, name)?;
    }
    Ok(())
}

/// One location, and nothing more up to the tables.
const BEFORE_TABLES: &str = "/VOC\n/STX\n/MTX\n/OTX\n/LTX\n/0\n/CON\n/OBJ\n";

/// The lines that begin the tables.
static TABLES: [&str; 3] = ["/PRO 0\n", "/PRO 1\n", "/PRO 2\n"];

// Adds an entry for any verb with 200 times the condact of this line.
fn add_long_entry(source: &mut Vec<u8>, condact: &str) -> Result<(), AllocError> {
    source.extend_from_slice(b"* _\n")?;
    for _ in 0..200 {
        source.extend_from_slice(condact.as_bytes())?;
    }
    Ok(())
}

// A source with these numbers of long entries in its three tables.
fn of_long_entries(
    alloc: Global,
    condact: &str,
    entries: &[usize; 3],
) -> Result<Vec<u8>, AllocError> {
    let mut source = Vec::from_slice(alloc, BEFORE_TABLES.as_bytes())?;
    for (table, &many) in TABLES.iter().zip(entries) {
        source.extend_from_slice(table.as_bytes())?;
        for _ in 0..many {
            add_long_entry(&mut source, condact)?;
        }
    }
    Ok(source)
}

#[test]
fn long_tables_have_no_bound(rt: HostRuntime) -> Result<(), Fail> {
    let alloc = rt.alloc();
    let read = of_long_entries(alloc, " DONE\n", &[8, 0, 0])?;
    shows(
        &rt,
        alloc,
        read.as_slice(),
        "UNKNOWN Condacts at 0.0\n",
        "too many condacts",
    )?;
    let print = of_long_entries(alloc, " NEWLINE\n", &[1, 1, 1])?;
    shows(
        &rt,
        alloc,
        print.as_slice(),
        "UNKNOWN Text at 0.0\n",
        "too much text",
    )
}
