// Sources.

ghost use Rattle.std.specs.Prelude.{◌≡◌, ◌≤◌, [], Ok, codes, length, IfOk};
ghost use Rattle.std.specs.List.{count_by, slice_index_or};
ghost use Rattle.paw_game.specs.Image.{image};
ghost use Rattle.paw_game.specs.Valid.{Valid};
ghost use Rattle.paw_lex.specs.Lines.{lines_of};
ghost use Rattle.paw_lex.specs.inner.Lines.{line_bytes, LiesIn};
ghost use Rattle.paw_base.specs.declared.limits.TheConstants.{IMAGE_LIMIT, SOURCE_LIMIT, TABLE_LEAST};
ghost use Rattle.paw_grammar.specs.Tokens.{is_named};
ghost use Rattle.paw_grammar.specs.GrammarState.{Spelt, game_of, nothing_yet};
ghost use Rattle.paw_grammar.specs.Spells.{begins_table, spelled_after, game_spelled, whole};
ghost use Rattle.paw_source.specs.inner.Laws.{after_lines};
ghost use Rattle.paw_source.specs.inner.Refusals.{ReadsSource, refused_at_line};

use crate::bytes::begins_with_slash;
use crate::draft::Draft;
use crate::laws::drafts_are_valid;
use crate::refusal::SourceRefusal;
use paw_base::fault::{SourceFault, SourceKind};
use paw_base::limits::{IMAGE_LIMIT, SOURCE_LIMIT, TABLE_LEAST};
use paw_game::game::Game;
use paw_grammar::refusal::LineError;
use paw_grammar::tokens::{Tokens, is_named};
use paw_image::encoder::image_length;
use paw_lex::{Line, Lines};
use paw_read_error::read_error::ReadError;
use std::alloc::Global;

// Whether the first token is the header of a table.
fn is_pro(tokens: &mut Tokens) -> bool
    ensures value { result ≡ is_named (slice_index_or tokens.old 0 []) (codes "/PRO") }
{
    match tokens.next() {
        None => false,
        Some(token) => is_named(token, b"/PRO"),
    }
}

// Whether a line begins with `/` and its first token is `/PRO`.
fn begins_table(source: &[u8], line: &Line) -> bool
    requires span { LiesIn source.now line.now }
    ensures value { result ≡ begins_table (line_bytes source.now line.now) }
{
    begins_with_slash(&source[line.from..line.to]) && is_pro(&mut Tokens::new(source, line))
}

// How many lines begin a table.
fn count_tables(source: &[u8]) -> u32
    requires short { length source.now ≤ SOURCE_LIMIT }
    ensures value { result ≡ count_by begins_table (lines_of source.now) }
{
    let mut lines = Lines::new(source);
    let mut tables: u32 = 0;
    while let Some(line) = lines.next() {
        if begins_table(source, &line) {
            tables += 1;
        }
    }
    tables
}

// The refusal of a source for a line that is refused.
fn at_line(line: u32, refused: LineError) -> SourceRefusal
    ensures value { result ≡ refused_at_line line refused }
{
    match refused {
        ReadError::Memory => SourceRefusal::Memory,
        ReadError::Fault(kind) => SourceRefusal::Fault(SourceFault { line, kind }),
    }
}

// The game of a draft that has read this number of lines.
fn whole(alloc: Global, lines: u32, draft: Draft) -> Result<Game, SourceRefusal>
    requires count { lines ≤ SOURCE_LIMIT }
    requires valid { TABLE_LEAST ≤ length draft.tables → Valid (game_of draft) }
    ensures value { ReadsSource result (whole lines draft) }
    ensures small { IfOk result (λ game. length (image game) ≤ IMAGE_LIMIT) }
{
    let line = lines + 1;
    if draft.tables() < TABLE_LEAST {
        return Err(at_line(line, ReadError::Fault(SourceKind::Missing)));
    }
    let parts = draft.into_parts(alloc)?;
    // The lines of a draft follow the rules of a game.
    let game = Game::from_valid(parts);
    if image_length(&game) > IMAGE_LIMIT as u64 {
        return Err(at_line(line, ReadError::Fault(SourceKind::TooBig)));
    }
    Ok(game)
}

// The game of the lines of a source, of which `tables` begin a table.
#[tactic(auto, unfolding(paw_grammar::specs::Spells::spelled_after, crate::specs::inner::Laws::after_lines))]
fn read_lines(alloc: Global, tables: u32, source: &[u8]) -> Result<Game, SourceRefusal>
    requires short { length source.now ≤ SOURCE_LIMIT }
    requires valid { (d : Spelt) → after_lines tables nothing_yet (lines_of source.now) ≡ Ok d
        → TABLE_LEAST ≤ length d.tables → Valid (game_of d) }
    ensures value { ReadsSource result (spelled_after tables 0 nothing_yet (lines_of source.now)) }
    ensures small { IfOk result (λ game. length (image game) ≤ IMAGE_LIMIT) }
{
    let mut draft = Draft::new(alloc);
    let mut lines = Lines::new(source);
    let mut number: u32 = 0;
    while let Some(line) = lines.next() {
        number = line.number;
        match draft.line(alloc, tables, source, &line) {
            Ok(()) => {}
            Err(refused) => return Err(at_line(number, refused)),
        }
    }
    whole(alloc, number, draft)
}

/// The game that a source spells.
///
/// # Errors
/// Fault exactly where the source spells none: the line and the kind of its first fault. Line 0 and TooBig stand for a
/// source of more than 8,388,608 bytes; the number of lines plus one says that table 2 is missing, or, with TooBig,
/// that the image would have more than 4,194,304 bytes. Memory only where there is none.
#[tactic(auto, unfolding(paw_grammar::specs::Spells::game_spelled))]
pub fn read_source(alloc: Global, bytes: &[u8]) -> Result<Game, SourceRefusal>
    ensures value { ReadsSource result (game_spelled bytes.now) }
    ensures small { IfOk result (λ game. length (image game) ≤ IMAGE_LIMIT) }
{
    if bytes.len() > SOURCE_LIMIT {
        return Err(at_line(0, ReadError::Fault(SourceKind::TooBig)));
    }
    drafts_are_valid();
    let tables = count_tables(bytes);
    read_lines(alloc, tables, bytes)
}
