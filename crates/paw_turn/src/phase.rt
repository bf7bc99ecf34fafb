// The four phases of a turn.

use paw_effects::act::Prompt;
use paw_reading::halt::Halt;

/// Where a turn is: before the description of the location, before the time frame, before the next phrase, or before
/// the response to a sentence.
#[derive(Clone, Copy, Drop, PartialEq, Eq, Debug)]
pub(crate) enum Phase {
    Describe,
    TimeFrame,
    Phrase,
    Response,
}

/// How a turn stops: it waits at a prompt for the next line, or play has ended for good.
#[derive(Clone, Copy, Drop, PartialEq, Eq, Debug)]
pub(crate) enum TurnStop {
    Waits(Prompt),
    Halted(Halt),
}

/// How a turn goes on after a phase: with another, or not at all.
#[derive(Clone, Copy, Drop, PartialEq, Eq, Debug)]
pub(crate) enum Next {
    Go(Phase),
    Stop(TurnStop),
}
