// The condacts of a line.

ghost use Rattle.std.specs.Prelude.{◌≡◌, ◌+◌, ◌&&◌, min};
ghost use Rattle.paw_base.specs.declared.codes.TheConstants.{INDIRECT};
ghost use Rattle.paw_base.specs.Condacts.{may_be_indirect};
ghost use Rattle.paw_base.specs.inner.Condacts.{IsPlainCode};
ghost use Rattle.paw_read_error.specs.inner.Gives.{Gives};
ghost use Rattle.paw_grammar.specs.Numbers.{number_below};
ghost use Rattle.paw_grammar.specs.Vocabulary.{word_or_none};
ghost use Rattle.paw_grammar.specs.Condacts.{table, parameter, condact, condacts_in, with_more_condacts};
ghost use Rattle.paw_grammar.specs.Condacts.{more_condacts, flag_after_at, first_parameter, code_of};
ghost use Rattle.paw_grammar.specs.Tokens.{at_is_next};

use crate::bounds::Bounds;
use crate::numbers::{byte_below, number, number_below};
use crate::places::place;
use crate::refusal::LineError;
use crate::tokens::{Tokens, without_first};
use crate::vocabulary::Vocabulary;
use paw_base::codes::INDIRECT;
use paw_base::fault::SourceKind;
use paw_base::limits::CONDACT_LIMIT;
use paw_base::parts::Condact;
use paw_base::rows::{ParamKind, condact_named, condact_row, may_be_indirect};
use paw_base::words::{ADJECTIVE_CLASS, ADVERB_CLASS, NOUN_CLASS, PREPOSITION_CLASS};
use paw_read_error::read_error::ReadError;
use std::marker::Model;

/// How many values a flag, or a number, may have.
const BYTES: u16 = 256;

// Takes the number of a table; 255 stands for one that is above.
fn table(tokens: &mut Tokens, tables: u32) -> Result<u8, LineError>
    ensures gives { Gives (λ n. (n, tokens.new)) result (table tables tokens.old) }
{
    let number = number_below(tokens, tables)?;
    Ok(number.min(u32::from(u8::MAX)) as u8)
}

// Takes a token that begins with `@`: the flag whose number follows.
fn flag_after_at(tokens: &mut Tokens) -> Result<u8, LineError>
    ensures gives { Gives (λ n. (n, tokens.new)) result (flag_after_at tokens.old) }
{
    let token = tokens.token()?;
    match number(without_first(token)) {
        None => Err(ReadError::Fault(SourceKind::Number)),
        Some(number) => {
            if number < u32::from(BYTES) {
                Ok(number as u8)
            } else {
                Err(ReadError::Fault(SourceKind::Range))
            }
        }
    }
}

// Whether the condact of a plain code is indirect: it may be, and `@` follows its name.
fn is_indirect(plain: u8, tokens: &Tokens) -> bool
    ensures value { result ≡ (may_be_indirect plain && at_is_next tokens.now) }
{
    may_be_indirect(plain) && tokens.at_is_next()
}

// The code of the indirect condact with a plain code.
fn indirect_code(plain: u8) -> u8
    requires plain { IsPlainCode plain }
    ensures value { result ≡ plain + INDIRECT }
{
    plain + INDIRECT
}

// The code of the condact with a plain code.
fn code_of(indirect: bool, plain: u8) -> u8
    requires plain { IsPlainCode plain }
    ensures value { result ≡ code_of indirect plain }
{
    if indirect {
        indirect_code(plain)
    } else {
        plain
    }
}

/// What condacts may name: parts, by numbers below these bounds, and the words that were declared.
#[derive(Drop)]
pub struct Scope<'a> {
    pub bounds: Bounds,
    pub words: &'a Vocabulary,
}

impl<'a> Model for Scope<'a> {
    ghost use Rattle.paw_grammar.specs.inner.Condacts.{AreSmall, InScope};

    ghost Value = { InScope };

    ghost view = { λ s. record { bounds = s.bounds; words = s.words.now } };

    ghost invariant = { λ s. AreSmall s.bounds };
}

impl<'a> Scope<'a> {
    // Takes a parameter of this kind.
    fn parameter(&self, kind: ParamKind, tokens: &mut Tokens) -> Result<u8, LineError>
        ensures gives { Gives (λ n. (n, tokens.new)) result (parameter self.now.bounds self.now.words kind tokens.old) }
    {
        match kind {
            ParamKind::Absent => Ok(0),
            ParamKind::Location => byte_below(tokens, self.bounds.locations),
            ParamKind::Place => place(tokens, self.bounds.locations),
            ParamKind::Object => byte_below(tokens, self.bounds.objects),
            ParamKind::Flag => byte_below(tokens, BYTES),
            ParamKind::Number => byte_below(tokens, BYTES),
            ParamKind::Message => byte_below(tokens, self.bounds.messages),
            ParamKind::System => byte_below(tokens, self.bounds.system),
            ParamKind::Table => table(tokens, self.bounds.tables),
            ParamKind::Adverb => self.words.word_or_none(ADVERB_CLASS, tokens),
            ParamKind::Noun => self.words.word_or_none(NOUN_CLASS, tokens),
            ParamKind::Adjective => self.words.word_or_none(ADJECTIVE_CLASS, tokens),
            ParamKind::Preposition => self.words.word_or_none(PREPOSITION_CLASS, tokens),
        }
    }

    // Takes a first parameter of this kind or, where the condact is indirect, `@` and a flag.
    fn first_parameter(
        &self,
        indirect: bool,
        kind: ParamKind,
        tokens: &mut Tokens,
    ) -> Result<u8, LineError>
        ensures gives { Gives (λ n. (n, tokens.new)) result
            (first_parameter self.now.bounds self.now.words indirect kind tokens.old) }
    {
        if indirect {
            flag_after_at(tokens)
        } else {
            self.parameter(kind, tokens)
        }
    }

    // Takes the parameters of the condact with this name.
    #[tactic(auto, unfolding(crate::specs::Condacts::condact))]
    fn condact(&self, name: &[u8], tokens: &mut Tokens) -> Result<Condact, LineError>
        ensures gives { Gives (λ c. (c, tokens.new)) result
            (condact self.now.bounds self.now.words name.now tokens.old) }
    {
        let Some(plain) = condact_named(name) else {
            return Err(ReadError::Fault(SourceKind::Condact));
        };
        let Some(row) = condact_row(plain) else {
            return Err(ReadError::Fault(SourceKind::Condact));
        };
        let indirect = is_indirect(plain, tokens);
        let code = code_of(indirect, plain);
        let a = self.first_parameter(indirect, row.first, tokens)?;
        let b = self.parameter(row.second, tokens)?;
        Ok(Condact { code, a, b })
    }

    // Takes all condacts up to the end of the line, and adds them.
    fn add_condacts(&self, tokens: &mut Tokens, rows: &mut Vec<Condact>) -> Result<(), LineError>
        ensures gives { Gives (λ _. rows.new.items) result
            (with_more_condacts rows.old.items (condacts_in self.now.bounds self.now.words 0 tokens.old)) }
    {
        while let Some(name) = tokens.next() {
            match self.condact(name, tokens) {
                Err(error) => return Err(error),
                Ok(condact) => rows.push(condact)?,
            }
        }
        Ok(())
    }

    /// Takes all condacts up to the end of the line, and adds them to those of their entry.
    ///
    /// # Errors
    /// The line's first fault, token by token: Condact where a name isn't one of the 108; for a parameter Missing, and
    /// Word, Number or Range by its kind; for `@`, where it may stand, Number or Range by what follows. TooBig where no
    /// token has a fault and the entry would have more than 255 condacts. Memory where there is none. What the entry
    /// then holds is open.
    #[tactic(auto, unfolding(crate::specs::Condacts::more_condacts))]
    pub fn more_condacts(
        &self,
        tokens: &mut Tokens,
        rows: &mut Vec<Condact>,
    ) -> Result<(), LineError>
        ensures gives { Gives (λ _. rows.new.items) result
            (more_condacts self.now.bounds self.now.words rows.old.items tokens.old) }
    {
        self.add_condacts(tokens, rows)?;
        if rows.len() > CONDACT_LIMIT {
            return Err(ReadError::Fault(SourceKind::TooBig));
        }
        Ok(())
    }
}
