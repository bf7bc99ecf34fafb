// The commands: how their words are read, and what runs each. Clauses hold words and usage to the rows of
// specs/Commands.antt, and what is done to what these mean.

ghost use Rattle.std.specs.Prelude.{◌≡◌, ◌≢◌, map, string_bytes};
ghost use Rattle.std.specs.Prelude.{Some, None, true, false, MatchOption};
ghost use Rattle.paw_base.specs.Bytes.{RoutineAnswers};
ghost use Rattle.paw_routines.specs.Routines.{AreAnswersOf, HaveAnswers};
ghost use Rattle.paw_stage.specs.AcrossCalls.{IfTelling, InTwoParts, FailsOnlyBy, IsOneOf};
ghost use Rattle.paw_stage.specs.Disk.{IsStable};
ghost use Rattle.paw_play.specs.Numbers.{seed_of};
ghost use Rattle.paw_top.specs.Answers.{IfMemory, failed_call};
ghost use Rattle.paw_top.specs.Commands.{command_of, meaning, no_more, next_file, next_number};
ghost use Rattle.paw_top.specs.Commands.{trial_of, byte_of, width_of};
ghost use Rattle.paw_top.specs.inner.Commands.{SpellsCommand, command_meant};
ghost use Rattle.paw_top.specs.declared.outcome.Outcome.TheVariants as outcome;

use crate::compile::compile;
use crate::decompile::{check, decompile};
use crate::outcome::Outcome;
use crate::sessions::{play, resume, walk};
use crate::show::{Width, wrap};
use crate::trial::trial;
use paw_play::numbers::{has_digits, seed_of};
use paw_play::preface::Nothing;
use paw_play::trace::StepLines;
use paw_routines::routines::Routines;
use paw_stage::Stage;
use std::alloc::Global;

/// The text for standard error where the words have no form: every command of the tool.
pub(crate) const USAGE: &str =
    "usage: paw compile S I | decompile I | walk I SEED | play I F SEED | resume I F | \
     trace I SEED | trial N | check I | wrap N T\n";

/// What a call asks for.
#[derive(Clone, Copy, Drop)]
pub(crate) enum Command<'a> {
    /// Loads the source, saves the image of the game that it spells, and shows how many bytes that has.
    Compile {
        source: &'a str,
        image: &'a str,
    },
    /// Loads the image, and shows the canonical source of its game.
    Decompile {
        image: &'a str,
    },
    /// Loads the image, shows the piece before the first line, and then takes lines and shows the piece that each
    /// brings, until the game is over or no line is left; nothing is kept.
    Walk {
        image: &'a str,
        seed: u64,
    },
    /// Walks with a new session in the store, a file that is missing or empty: each piece is committed there before it
    /// is shown.
    Play {
        image: &'a str,
        store: &'a str,
        seed: u64,
    },
    /// Shows the last piece of the session in the store again, and goes on from its prompt.
    Resume {
        image: &'a str,
        store: &'a str,
    },
    /// Walks, and shows the condacts that were read for a piece before it.
    Trace {
        image: &'a str,
        seed: u64,
    },
    /// Makes a large game and its lines from a number, plays half of them over a stage in memory, resumes for the rest,
    /// and shows a line with what the reading of all lines counts.
    Trial {
        n: u16,
    },
    /// Loads the image, and shows what any play of its game takes at most, or the first cause why that isn't known.
    Check {
        image: &'a str,
    },
    /// Loads the text, and shows it with its lines broken at spaces, each as late as the width allows.
    Wrap {
        width: Width,
        text: &'a str,
    },
}

// ---- words ----

// The number of a trial, in 1 to 4 decimal digits.
fn trial_of(word: &str) -> Option<u16>
    ensures value { result ≡ trial_of word.now }
{
    if has_digits(word, 4) {
        word.parse().ok()
    } else {
        None
    }
}

// A number below 256, in 1 to 3 decimal digits.
fn byte_of(word: &str) -> Option<u8>
    ensures value { result ≡ byte_of word.now }
{
    if has_digits(word, 3) {
        word.parse().ok()
    } else {
        None
    }
}

// A width from 1 to 255, in 1 to 3 decimal digits.
fn width_of(word: &str) -> Option<Width>
    ensures value { let width = width_of word.now in
        MatchOption result (width ≡ None) (λ w. width ≡ Some w.columns) }
{
    let columns = byte_of(word)?;
    if columns == 0 {
        return None;
    }
    Some(Width { columns })
}

// The name of a file, which comes next, and the words after it.
fn file<'a>(words: &'a [String]) -> Option<(&'a str, &'a [String])>
    ensures value { let next = next_file (map string_bytes words.now) in
        MatchOption result (next ≡ None) (λ r. next ≡ Some (r.0.now, map string_bytes r.1.now)) }
{
    let (name, words) = words.split_first()?;
    if name.is_empty() {
        return None;
    }
    Some((name.as_str(), words))
}

// A seed, which comes next, and the words after it.
fn seed<'a>(words: &'a [String]) -> Option<(u64, &'a [String])>
    ensures value { let next = next_number seed_of (map string_bytes words.now) in
        MatchOption result (next ≡ None) (λ r. next ≡ Some (r.0, map string_bytes r.1.now)) }
{
    let (word, words) = words.split_first()?;
    Some((seed_of(word.as_str())?, words))
}

// The number of a trial, which comes next, and the words after it.
fn trial_number<'a>(words: &'a [String]) -> Option<(u16, &'a [String])>
    ensures value { let next = next_number trial_of (map string_bytes words.now) in
        MatchOption result (next ≡ None) (λ r. next ≡ Some (r.0, map string_bytes r.1.now)) }
{
    let (word, words) = words.split_first()?;
    Some((trial_of(word.as_str())?, words))
}

// A width, which comes next, and the words after it.
fn width<'a>(words: &'a [String]) -> Option<(Width, &'a [String])>
    ensures value { let next = next_number width_of (map string_bytes words.now) in
        MatchOption result (next ≡ None) (λ r. next ≡ Some (r.0.columns, map string_bytes r.1.now)) }
{
    let (word, words) = words.split_first()?;
    Some((width_of(word.as_str())?, words))
}

// Nothing, if no more words come.
fn end(words: &[String]) -> Option<()>
    ensures value { let none = no_more (map string_bytes words.now) in
        MatchOption result (none ≡ false) (λ _. none ≡ true) }
{
    if words.is_empty() { Some(()) } else { None }
}

/// What these words ask for; None where they have no form.
#[tactic(auto, using(crate::proofs::Names::other))]
pub(crate) fn command_of<'a>(words: &'a [String]) -> Option<Command<'a>>
    ensures value { SpellsCommand result (command_of (map string_bytes words.now)) }
{
    let (name, words) = words.split_first()?;
    match name.as_str() {
        "compile" => {
            let (source, words) = file(words)?;
            let (image, words) = file(words)?;
            end(words)?;
            Some(Command::Compile { source, image })
        }
        "decompile" => {
            let (image, words) = file(words)?;
            end(words)?;
            Some(Command::Decompile { image })
        }
        "walk" => {
            let (image, words) = file(words)?;
            let (seed, words) = seed(words)?;
            end(words)?;
            Some(Command::Walk { image, seed })
        }
        "play" => {
            let (image, words) = file(words)?;
            let (store, words) = file(words)?;
            let (seed, words) = seed(words)?;
            end(words)?;
            Some(Command::Play { image, store, seed })
        }
        "resume" => {
            let (image, words) = file(words)?;
            let (store, words) = file(words)?;
            end(words)?;
            Some(Command::Resume { image, store })
        }
        "trace" => {
            let (image, words) = file(words)?;
            let (seed, words) = seed(words)?;
            end(words)?;
            Some(Command::Trace { image, seed })
        }
        "trial" => {
            let (n, words) = trial_number(words)?;
            end(words)?;
            Some(Command::Trial { n })
        }
        "check" => {
            let (image, words) = file(words)?;
            end(words)?;
            Some(Command::Check { image })
        }
        "wrap" => {
            let (width, words) = width(words)?;
            let (text, words) = file(words)?;
            end(words)?;
            Some(Command::Wrap { width, text })
        }
        _ => None,
    }
}

// ---- what runs each ----

impl<'a> Command<'a> {
    /// Does what is asked for, over a stage at which nothing is unsynced.
    pub(crate) fn run<S: Stage, F: Fn(u8, u8) -> u8>(
        &self,
        alloc: Global,
        stage: &mut S,
        routines: &Routines<F>,
    ) -> Outcome
        requires answers { HaveAnswers F.Fn routines.now }
        requires synced { S.Tells stage.old → IsStable (S.standing stage.old).disk }
        ensures form { result ≢ outcome.Usage }
        ensures serves { FailsOnlyBy S.Stage (meaning (command_meant self.now)).calls
            (failed_call result) stage.old stage.new }
        ensures memory { IfMemory result (IsOneOf (meaning (command_meant self.now)).memory) }
        ensures comes { IfTelling S.Stage stage.old stage.new (λ old new. (X : RoutineAnswers) →
            AreAnswersOf F.Fn routines.now X → (meaning (command_meant self.now)).comes X old new result) }
        ensures moments { IfTelling S.Stage stage.old stage.new (λ old new. (X : RoutineAnswers) →
            AreAnswersOf F.Fn routines.now X →
            (meaning (command_meant self.now)).moments (InTwoParts S.Stage stage.old stage.new) X old) }
    {
        match *self {
            Command::Compile { source, image } => compile(alloc, stage, source, image),
            Command::Decompile { image } => decompile(alloc, stage, image),
            Command::Walk { image, seed } => {
                walk::<Nothing, _, _>(alloc, stage, routines, image, seed)
            }
            Command::Play { image, store, seed } => {
                play(alloc, stage, routines, image, store, seed)
            }
            Command::Resume { image, store } => resume(alloc, stage, routines, image, store),
            Command::Trace { image, seed } => {
                walk::<StepLines, _, _>(alloc, stage, routines, image, seed)
            }
            Command::Trial { n } => trial(alloc, stage, n),
            Command::Check { image } => check(alloc, stage, image),
            Command::Wrap { width, text } => wrap(alloc, stage, width, text),
        }
    }
}
