// Condacts that take their first parameter from a flag.

use super::{GO, NO, REDESCRIBE, Scene, YES, run_with_five};
use paw_base::codes::{
    AT, CREATE, EQ, EXTERN, GET, GOTO, INDIRECT, ISAT, LET, MES, NOTAT, NOUN2, PAUSE, RESET,
    SYSMESS,
};
use std::test::Fail;

const AT_FROM: u8 = INDIRECT + AT;

const NOTAT_FROM: u8 = INDIRECT + NOTAT;

const EQ_FROM: u8 = INDIRECT + EQ;

const NOUN2_FROM: u8 = INDIRECT + NOUN2;

const MES_FROM: u8 = INDIRECT + MES;

const SYSMESS_FROM: u8 = INDIRECT + SYSMESS;

const GET_FROM: u8 = INDIRECT + GET;

const CREATE_FROM: u8 = INDIRECT + CREATE;

const RESET_FROM: u8 = INDIRECT + RESET;

const EXTERN_FROM: u8 = INDIRECT + EXTERN;

const PAUSE_FROM: u8 = INDIRECT + PAUSE;

/// The game has two messages, 54 system messages, five objects, three locations and five routines. A value past the
/// last of them makes a condition fail, and an action do nothing.
const FROM_FLAGS: &[Scene] = scenes! {
    MES_FROM 100 0 GO, LET 100 2 GO, MES_FROM 100 0 GO => "Taken";
    LET 100 53 GO, SYSMESS_FROM 100 0 GO, LET 100 54 GO, SYSMESS_FROM 100 0 GO => "v";
    GOTO 1 0 GO, LET 100 1 GO, AT_FROM 100 0 YES, NOTAT_FROM 100 0 NO => "";
    LET 100 2 GO, AT_FROM 100 0 NO, NOTAT_FROM 100 0 YES => "";
    LET 100 3 GO, AT_FROM 100 0 NO, NOTAT_FROM 100 0 NO, RESET_FROM 100 0 GO, AT 1 0 YES => "";
    // Object 4 is here, and is taken; the message is 36.
    LET 100 4 GO, GET_FROM 100 0 GO, ISAT 4 254 YES => "e\n";
    LET 100 5 GO, GET_FROM 100 0 GO, CREATE_FROM 100 0 GO => "";
    LET 100 3 GO, CREATE_FROM 100 0 GO, ISAT 3 1 YES => "";
    LET 44 200 GO, LET 100 200 GO, NOUN2_FROM 100 0 YES, LET 100 50 GO, NOUN2_FROM 100 0 NO => "";
    LET 100 101 GO, LET 101 7 GO, EQ_FROM 100 7 YES, EQ_FROM 100 8 NO => "";
    LET 60 9 GO, LET 100 2 GO, EXTERN_FROM 100 60 GO, EQ 60 20 YES => "";
    LET 100 5 GO, EXTERN_FROM 100 60 GO, EQ 60 20 YES => "";
    LET 100 255 GO, PAUSE_FROM 100 0 GO => "[PAUSE 255]\n";
    LET 100 2 GO, RESET_FROM 100 0 REDESCRIBE, AT 2 0 YES => "";
};

#[test]
fn parameters_from_flags(rt: HostRuntime) -> Result<(), Fail> {
    run_with_five(&rt, rt.alloc(), FROM_FLAGS)
}
