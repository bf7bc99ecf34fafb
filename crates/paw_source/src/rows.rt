// The rows of words and objects.

ghost use Rattle.std.specs.Prelude.{◌≤◌, ◌<◌, OnOk};
ghost use Rattle.paw_base.specs.declared.limits.TheConstants.{LOCATION_LIMIT};
ghost use Rattle.paw_read_error.specs.inner.Gives.{Gives};
ghost use Rattle.paw_grammar.specs.GrammarRows.{voc_row, object_row};

use paw_base::limits::WEIGHT_LIMIT;
use paw_base::parts::ObjectFacts;
use paw_base::words::{ADJECTIVE_CLASS, GREATEST_WORD, LEAST_WORD, NOUN_CLASS};
use paw_game::parts::Word;
use paw_grammar::numbers::{number_within, row_number};
use paw_grammar::places::first_place;
use paw_grammar::refusal::LineError;
use paw_grammar::tokens::Tokens;
use paw_grammar::vocabulary::Vocabulary;
use paw_grammar::words::{class, object_kind, word};

/// Declares the word of a row of `/VOC`.
///
/// # Errors
/// The first fault of the row: those of its three tokens, Extra, Duplicate where its letters are declared, and TooBig
/// where there are 2,000 words.
#[tactic(auto, unfolding(paw_grammar::specs::GrammarRows::voc_row))]
pub(crate) fn voc_row(words: &mut Vocabulary, tokens: &mut Tokens) -> Result<(), LineError>
    ensures gives { Gives (λ _. words.new) result (voc_row words.old tokens.old) }
{
    let letters = word(tokens)?;
    let value = number_within(tokens, LEAST_WORD, GREATEST_WORD)?;
    let class = class(tokens)?;
    tokens.end_line()?;
    words.declare(Word {
        letters,
        value,
        class,
    })
}

/// The facts in a row of `/OBJ`, with `row` rows before it, where there are `count` objects.
///
/// # Errors
/// The first fault of the row: those of its six tokens, and Extra.
#[tactic(auto, unfolding(paw_grammar::specs::GrammarRows::object_row))]
pub(crate) fn object_row(
    words: &Vocabulary,
    locations: u16,
    row: u16,
    count: u16,
    tokens: &mut Tokens,
) -> Result<ObjectFacts, LineError>
    requires locations { locations ≤ LOCATION_LIMIT }
    ensures value { Gives (λ facts. facts) result (object_row words.now locations row count tokens.old) }
    ensures room { OnOk result (row < count) }
{
    row_number(tokens, row, count)?;
    let start = first_place(tokens, locations)?;
    let weight = number_within(tokens, 0, WEIGHT_LIMIT)?;
    let (container, wearable) = object_kind(tokens)?;
    let noun = words.word_or_none(NOUN_CLASS, tokens)?;
    let adjective = words.word_or_none(ADJECTIVE_CLASS, tokens)?;
    tokens.end_line()?;
    Ok(ObjectFacts {
        noun,
        adjective,
        start,
        weight,
        container,
        wearable,
    })
}
