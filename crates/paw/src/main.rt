//! The program: does what its words ask for, over real files and the standard streams.
#![tactic(auto)]

ghost use Rattle.std.specs.Prelude.{◌≡◌};
ghost use Rattle.std.specs.Process.{exit_status};
ghost use Rattle.paw_top.specs.Outcomes.{status_of};

use paw_routines::program::{ROUTINES, give};
use paw_routines::routines::Routines;
use paw_stage::RealStage;
use paw_top::outcome::{NO_MEMORY, Outcome};
use paw_top::top::paw;
use std::alloc::Global;
use std::env::{self, Env};
use std::io::{self, ErrorKind};
use std::process::ExitCode;

#[cfg(test)]
mod tests;

// The words after the program's name; none of them where one isn't text.
fn words_of<R: Env + AllocGlobal>(rt: &R) -> io::Result<Vec<String>> {
    match env::args(rt) {
        Ok(words) => Ok(words.skip(1).collect(rt.alloc())?),
        Err(e) if e.kind() == ErrorKind::InvalidData => Ok(Vec::new(rt.alloc())),
        Err(e) => Err(e),
    }
}

// Writes the outcome's text to standard error, and gives its status. Where there is no memory for the text, or standard
// error doesn't take it, there is the status alone.
fn report<R: Eprint>(rt: &R, alloc: Global, outcome: Outcome) -> ExitCode
    ensures status { exit_status result ≡ status_of outcome }
{
    if let Ok(text) = outcome.text(alloc) {
        let _ = eprint!(rt; "{text}");
    }
    ExitCode::from(outcome.status())
}

fn main(rt: HostRuntime) -> ExitCode {
    let Ok(words) = words_of(&rt) else {
        let _ = eprintln!(rt; "no memory: Words");
        return ExitCode::from(NO_MEMORY);
    };
    let routines = Routines::new(ROUTINES, give);
    let outcome = paw(
        rt.alloc(),
        &mut RealStage::new(&rt),
        &routines,
        words.as_slice(),
    );
    report(&rt, rt.alloc(), outcome)
}
