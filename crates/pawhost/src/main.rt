//! The program: hosts the game of an image for the players whose lines stand on standard input, over real files.
#![tactic(auto)]

ghost use Rattle.std.specs.Prelude.{◌≡◌};
ghost use Rattle.std.specs.Process.{exit_status};
ghost use Rattle.paw_host.specs.Outcomes.{host_status};

use paw_host::host::host;
use paw_host::outcome::{HostOutcome, NO_MEMORY};
use paw_routines::program::{ROUTINES, give};
use paw_routines::routines::Routines;
use paw_stage::RealStage;
use std::env::{self, Env};
use std::io::{self, ErrorKind};
use std::process::ExitCode;

#[cfg(test)]
mod tests;

// The words after the program's name; none of them where one isn't text.
fn words_of<R: Env + AllocGlobal>(rt: &R) -> io::Result<Vec<String>> {
    match env::args(rt) {
        Ok(words) => Ok(words.skip(1).collect(rt.alloc())?),
        Err(e) if e.kind() == ErrorKind::InvalidData => Ok(Vec::new(rt.alloc())),
        Err(e) => Err(e),
    }
}

// The exit of the program.
fn exit_of(outcome: HostOutcome) -> ExitCode
    ensures status { exit_status result ≡ host_status outcome }
{
    ExitCode::from(outcome.status())
}

fn main(rt: HostRuntime) -> ExitCode {
    let Ok(words) = words_of(&rt) else {
        return ExitCode::from(NO_MEMORY);
    };
    let routines = Routines::new(ROUTINES, give);
    let outcome = host(
        rt.alloc(),
        &mut RealStage::new(&rt),
        &routines,
        words.as_slice(),
    );
    exit_of(outcome)
}
