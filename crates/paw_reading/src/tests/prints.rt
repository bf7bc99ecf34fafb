// What the actions print that show counts, signs and lists.

use super::{Case, GO, SPENT, Scene, parts, run, run_behind};
use paw_base::codes::{
    BACKAT, BEEP, BORDER, CHARSET, CLS, DESTROY, GRAPHIC, INK, INPUT, INVEN, LET, LINE, LISTAT,
    LISTOBJ, MODE, NEWLINE, PAPER, PAUSE, PICTURE, PLACE, PRINT, PRINTAT, PROTECT, SAVEAT, SCORE,
    SYSMESS, TURNS,
};
use std::test::Fail;

/// Counts of turns, the score, a number, and texts in which object 2 stands for `_`, or none.
const COUNTS: &[Scene] = scenes! {
    TURNS 0 0 GO => "R0STU\n";
    LET 31 1 GO, TURNS 0 0 GO => "R1SU\n";
    LET 32 1 GO, TURNS 0 0 GO => "R257STU\n";
    LET 31 255 GO, LET 32 255 GO, TURNS 0 0 GO => "R65535STU\n";
    SCORE 0 0 GO => "V0W\n";
    LET 30 200 GO, SCORE 0 0 GO => "V200W\n";
    PRINT 30 0 GO, NEWLINE 0 0 GO => "200\n";
    PRINT 60 0 GO, NEWLINE 0 0 GO => "0\n";
    SYSMESS 5 0 GO, SYSMESS 30 0 GO, NEWLINE 0 0 GO => "F\n";
    LET 51 2 GO, SYSMESS 30 0 GO, SYSMESS 53 0 GO, NEWLINE 0 0 GO => "bag_v\n";
};

const MARKS: &[Scene] = scenes! {
    PICTURE 1 0 GO => "[PICTURE 1]\n";
    GRAPHIC 255 0 GO => "[GRAPHIC 255]\n";
    BEEP 3 4 GO => "[BEEP 3 4]\n";
    CLS 0 0 GO => "[CLS]\n";
    PAPER 0 0 GO => "[PAPER 0]\n";
    INK 10 0 GO => "[INK 10]\n";
    BORDER 2 0 GO => "[BORDER 2]\n";
    CHARSET 5 0 GO => "[CHARSET 5]\n";
    PROTECT 0 0 GO => "[PROTECT]\n";
    SAVEAT 0 0 GO => "[SAVEAT]\n";
    BACKAT 0 0 GO => "[BACKAT]\n";
    PRINTAT 20 31 GO => "[PRINTAT 20 31]\n";
    PAUSE 50 0 GO => "[PAUSE 50]\n";
    MODE 1 2 GO => "[MODE 1 2]\n";
    LINE 6 0 GO => "[LINE 6]\n";
    INPUT 7 0 GO => "[INPUT 7]\n";
};

/// Lists of one, two and three objects and of none, in lines and as sentences.
const LISTS: &[Scene] = scenes! {
    INVEN 0 0 GO => "J\nlamp\ncoatK\n";
    LISTOBJ 0 0 GO => "B\nbag_\n";
    LISTAT 1 0 GO, LISTAT 255 0 GO => "nail\nbag_\n";
    LISTAT 253 0 GO, LISTAT 2 0 GO => "coat\nv\n";
    // Only bit 6 of flag 53, while object 2 is carried and object 3 at location 1.
    LET 53 64 GO, LISTOBJ 0 0 GO => "B\nbag_.\n";
    PLACE 2 254 GO, PLACE 3 1 GO, INVEN 0 0 GO => "J\nlamp, coatK and bag_.\n";
    LISTAT 1 0 GO => "rock and nail.\n";
    LISTOBJ 0 0 GO => "";
    LISTAT 0 0 GO => "v\n";
    // All bits but that one, while nothing is worn or carried.
    LET 53 191 GO, LISTAT 1 0 GO => "rock\nnail\n";
    DESTROY 0 0 GO, DESTROY 1 0 GO, DESTROY 2 0 GO, INVEN 0 0 GO => "J\nL\n";
    // The current location isn't one of the game's.
    LET 38 3 GO, LISTOBJ 0 0 GO => "";
    LISTAT 255 0 GO => "lamp\ncoat\nbag_\n";
    LET 38 255 GO, LISTOBJ 0 0 GO => "";
    LET 38 1 GO, LISTOBJ 0 0 GO => "B\nrock\nnail\n";
    LISTAT 252 0 GO => "lamp\ncoat\nbag_\n";
};

/// With room for one object of a list, and not for two.
const TOO_MUCH: [Case; 4] = [
    (LISTAT, 1, 0, GO),
    (PLACE, 0, 1, GO),
    (LET, 53, 64, GO),
    (LISTAT, 1, 0, SPENT),
];

#[test]
fn counts_signs_and_lists(rt: HostRuntime) -> Result<(), Fail> {
    for scenes in [COUNTS, MARKS, LISTS] {
        run(&rt, rt.alloc(), parts(rt.alloc(), scenes)?, scenes)?;
    }
    Ok(())
}

#[test]
fn a_list_that_does_not_fit(rt: HostRuntime) -> Result<(), Fail> {
    run_behind(&rt, rt.alloc(), 65_520, &TOO_MUCH)
}
