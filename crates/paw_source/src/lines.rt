// A line of a source.

ghost use Rattle.paw_lex.specs.inner.Lines.{line_bytes, LiesIn};
ghost use Rattle.paw_read_error.specs.inner.Gives.{Gives};
ghost use Rattle.paw_grammar.specs.Spells.{after_line};

use crate::bytes::{begins_with_blank, begins_with_slash, has_forbidden_byte};
use crate::draft::Draft;
use paw_base::fault::SourceKind;
use paw_grammar::numbers::number;
use paw_grammar::refusal::LineError;
use paw_grammar::tokens::{Tokens, without_first};
use paw_lex::{Line, is_comment};
use paw_read_error::read_error::ReadError;
use std::alloc::Global;

impl Draft {
    /// Reads a line; `tables` is how many lines of the source begin a table.
    ///
    /// # Errors
    /// The first fault of the line.
    #[tactic(auto, unfolding(paw_grammar::specs::Spells::after_line))]
    pub(crate) fn line(
        &mut self,
        alloc: Global,
        tables: u32,
        source: &[u8],
        line: &Line,
    ) -> Result<(), LineError>
        requires span { LiesIn source.now line.now }
        ensures gives { Gives (λ _. self.new) result (after_line tables self.old (line_bytes source.now line.now)) }
    {
        // Shows the proof that the draft's lists are short.
        let _ = &self.section;
        let bytes = &source[line.from..line.to];
        if is_comment(bytes) {
            return Ok(());
        }
        let slash = begins_with_slash(bytes);
        let text = self.is_in_text() && !slash;
        if has_forbidden_byte(source, line, text) {
            return Err(ReadError::Fault(SourceKind::Text));
        }
        if text {
            return self.text(bytes);
        }
        let mut tokens = Tokens::new(source, line);
        let Some(name) = tokens.next() else {
            return Ok(());
        };
        if slash {
            self.slash(alloc, name, number(without_first(name)), &mut tokens)
        } else {
            let blank = begins_with_blank(bytes);
            self.row(alloc, tables, blank, &mut Tokens::new(source, line))
        }
    }
}
