// The lines of the steps of a piece, which a trace shows before it. Where there is nothing to put the empty text is
// pushed, whose clause says that the text fits.

ghost use Rattle.std.specs.Prelude.{◌≡◌, ◌+◌, ◌≤◌, ◌++◌, length, take, decimal};
ghost use Rattle.paw_base.specs.inner.Piece.{Puts};
ghost use Rattle.paw_base.specs.Condacts.{name_of};
ghost use Rattle.paw_base.specs.declared.limits.TheConstants.{STEP_LIMIT, PIECE_LIMIT};
ghost use Rattle.paw_play.specs.Traces.{step_address, answer_text, step_line, more_line};
ghost use Rattle.paw_play.specs.inner.ShowSteps.{kept_text};

use crate::preface::Preface;
use itoa::Buffer;
use paw_base::fault::NoRoom;
use paw_base::limits::STEP_LIMIT;
use paw_base::piece::Piece;
use paw_base::rows::condact_row;
use paw_base::steps::{StepRow, Steps};
use paw_game::tables::Tables;
use paw_routines::routines::Routines;
use paw_turn::Player;
use std::alloc::Global;

// Puts a number in decimal.
fn put_number(text: &mut Piece, number: u32) -> bool
    ensures puts { Puts text.old text.new result (decimal number) }
{
    let mut digits = Buffer::new();
    text.push(digits.format(number).as_bytes())
}

// Puts the name of a condact.
fn put_name(text: &mut Piece, code: u8) -> bool
    ensures puts { Puts text.old text.new result (name_of code) }
{
    match condact_row(code) {
        Some(row) => text.push(row.trimmed_name()),
        None => text.push(&[]),
    }
}

// Puts the address of a condact.
#[tactic(auto, using(crate::proofs::Lines::address_short))]
fn put_address(text: &mut Piece, table: u8, entry: u16, at: u8) -> bool
    ensures puts { Puts text.old text.new result (step_address table entry at) }
    ensures short { length (step_address table entry at) ≤ 13 }
{
    put_number(text, u32::from(table))
        && text.push(b".")
        && put_number(text, u32::from(entry))
        && text.push(b".")
        && put_number(text, u32::from(at))
}

// Puts yes, or no for a condition that failed.
fn put_answer(text: &mut Piece, yes: bool) -> bool
    ensures puts { Puts text.old text.new result (answer_text yes) }
{
    if yes {
        text.push(b" yes\n")
    } else {
        text.push(b" no\n")
    }
}

// Puts the line of a step, if it fits.
#[tactic(auto, using(crate::proofs::Lines::line_short))]
fn put_line(text: &mut Piece, step: StepRow) -> bool
    ensures puts { Puts text.old text.new result (step_line step) }
    ensures short { length (step_line step) ≤ 27 }
{
    put_address(text, step.table, step.entry, step.at)
        && text.push(b" ")
        && put_name(text, step.code)
        && put_answer(text, step.yes)
}

// Puts the line of a step, which has at most 27 bytes.
fn put_step(text: &mut Piece, step: StepRow)
    requires room { length text.old + 27 ≤ PIECE_LIMIT }
    ensures line { text.new ≡ text.old ++ step_line step }
    ensures short { length text.new ≤ length text.old + 27 }
{
    let _fits = put_line(text, step);
}

// Puts the number of further steps, if there are any.
fn put_more(text: &mut Piece, more: u32) -> bool
    ensures puts { Puts text.old text.new result (more_line more) }
{
    if more == 0 {
        return text.push(&[]);
    }
    text.push(b"[") && put_number(text, more) && text.push(b" more]\n")
}

// The steps that have a line: the first 1,000. A trace keeps no more, but no clause of `Steps::rows` says so: this cut
// does.
fn steps_to_show(steps: &[StepRow]) -> &[StepRow]
    ensures value { result.now ≡ take STEP_LIMIT steps.now }
    ensures few { length result.now ≤ STEP_LIMIT }
{
    &steps[..STEP_LIMIT.min(steps.len())]
}

// Writes the text of steps.
fn write_steps(text: &mut Piece, steps: &Steps)
    ensures text { text.new ≡ kept_text steps.now }
{
    text.clear();
    for step in steps_to_show(steps.rows()) {
        put_step(text, *step);
    }
    // This fits too: at most 1,000 lines of at most 27 bytes stand before it, and a piece may hold 65,535.
    let _fits = put_more(text, steps.count().saturating_sub(STEP_LIMIT as u32));
}

/// The preface of a trace: a line for each of the first 1,000 condacts of a piece, and then how many more were read.
#[derive(Drop)]
pub struct StepLines {
    text: Piece,
}

impl Preface for StepLines {
    ghost use Rattle.paw_play.specs.inner.ShowSteps.{Stepped};

    ghost showing = { Stepped };

    fn new(alloc: Global) -> Result<StepLines, NoRoom> {
        let text = Piece::new(alloc)?;
        Ok(StepLines { text })
    }

    fn player<'a, T: Tables, F: Fn(u8, u8) -> u8>(
        alloc: Global,
        tables: &'a T,
        routines: &'a Routines<F>,
        seed: u64,
    ) -> Result<Player<'a, T, F>, NoRoom> {
        Player::new(alloc, tables, routines, seed)
    }

    fn text(&mut self, steps: &Steps) -> &[u8] {
        write_steps(&mut self.text, steps);
        self.text.bytes()
    }
}
