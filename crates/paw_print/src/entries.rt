// The tables of a source.

ghost use Rattle.std.specs.Prelude.{◌≡◌, ◌++◌, ◌∷◌, [], OnOk, codes, decimal, map};
ghost use Rattle.std.specs.List.{AllByRecursion};
ghost use Rattle.paw_base.specs.declared.words.TheConstants.{NOUN_CLASS};
ghost use Rattle.paw_base.specs.Condacts.{first_kind, is_indirect};
ghost use Rattle.paw_print.specs.Lines.{after_spaces, condact_line, value_token, verb_token};
ghost use Rattle.paw_print.specs.Lines.{first_tokens, parameter_tokens, tokens_spaced};
ghost use Rattle.paw_print.specs.Canonical.{with_line_end, entry_lines, numbered_lines, table_lines, with_line_ends};
ghost use Rattle.paw_print.specs.inner.Known.{IsKnown, IsKnownEntry, IsKnownTable};

use crate::rows::{Written, end_line, write_flag, write_number, write_token};
use crate::vocabulary::WordsByValue;
use paw_base::codes::INDIRECT;
use paw_base::parts::Condact;
use paw_base::rows::{ParamKind, condact_row};
use paw_base::words::{ADJECTIVE_CLASS, ADVERB_CLASS, NOUN_CLASS, PREPOSITION_CLASS};
use paw_game::parts::{Entry, Table};

// Writes a parameter after one space; nothing where the condact has none.
fn write_parameter(
    vocabulary: &WordsByValue,
    kind: ParamKind,
    value: u8,
    out: &mut Vec<u8>,
) -> Written
    ensures writes { OnOk result
        (out.new.items ≡ out.old.items ++ after_spaces (parameter_tokens vocabulary.now kind value)) }
{
    match kind {
        ParamKind::Absent => Ok(()),
        ParamKind::Adverb => vocabulary.write_value_of(ADVERB_CLASS, value, out),
        ParamKind::Noun => vocabulary.write_value_of(NOUN_CLASS, value, out),
        ParamKind::Adjective => vocabulary.write_value_of(ADJECTIVE_CLASS, value, out),
        ParamKind::Preposition => vocabulary.write_value_of(PREPOSITION_CLASS, value, out),
        _ => write_number(value as usize, out),
    }
}

// Whether a condact is indirect.
fn is_indirect(condact: Condact) -> bool
    requires known { IsKnown condact }
    ensures value { result ≡ is_indirect condact.code }
{
    INDIRECT <= condact.code
}

// Writes the first parameter of a condact, which is of this kind where the condact isn't indirect.
fn write_first(
    vocabulary: &WordsByValue,
    kind: ParamKind,
    condact: Condact,
    out: &mut Vec<u8>,
) -> Written
    requires known { IsKnown condact }
    requires kind { kind ≡ first_kind condact.code }
    ensures writes { OnOk result
        (out.new.items ≡ out.old.items ++ after_spaces (first_tokens vocabulary.now condact)) }
{
    if is_indirect(condact) {
        write_flag(condact.a, out)
    } else {
        write_parameter(vocabulary, kind, condact.a, out)
    }
}

// Writes the line of a condact.
fn write_condact(vocabulary: &WordsByValue, condact: Condact, out: &mut Vec<u8>) -> Written
    requires known { IsKnown condact }
    ensures writes { OnOk result
        (out.new.items ≡ out.old.items ++ with_line_end (condact_line vocabulary.now condact)) }
{
    let row = condact_row(condact.code).unwrap();
    write_token(row.trimmed_name(), out)?;
    write_first(vocabulary, row.first, condact, out)?;
    write_parameter(vocabulary, row.second, condact.b, out)?;
    end_line(out)
}

// Writes condacts, a line for each.
fn write_condacts(vocabulary: &WordsByValue, condacts: &[Condact], out: &mut Vec<u8>) -> Written
    requires known { AllByRecursion IsKnown condacts.now }
    ensures writes { OnOk result
        (out.new.items ≡ out.old.items ++ with_line_ends (map (condact_line vocabulary.now) condacts.now)) }
{
    for condact in condacts {
        write_condact(vocabulary, *condact, out)?;
    }
    Ok(())
}

// Writes the line of an entry's words.
fn write_head(vocabulary: &WordsByValue, entry: &Entry, out: &mut Vec<u8>) -> Written
    ensures writes { OnOk result
        (out.new.items ≡ out.old.items ++ with_line_end (tokens_spaced (verb_token vocabulary.now entry.now.verb
        ∷ value_token vocabulary.now NOUN_CLASS entry.now.noun ∷ []))) }
{
    vocabulary.write_verb(entry.verb, out)?;
    vocabulary.write_value_of(NOUN_CLASS, entry.noun, out)?;
    end_line(out)
}

// Writes an entry: its words, and its condacts.
fn write_entry(vocabulary: &WordsByValue, entry: &Entry, out: &mut Vec<u8>) -> Written
    requires known { IsKnownEntry entry.now }
    ensures writes { OnOk result (out.new.items
        ≡ out.old.items ++ with_line_ends (entry_lines vocabulary.now entry.now)) }
{
    write_head(vocabulary, entry, out)?;
    write_condacts(vocabulary, &entry.condacts.rows, out)
}

// Writes the header of a table.
fn write_table_header(number: usize, out: &mut Vec<u8>) -> Written
    ensures writes { OnOk result
        (out.new.items ≡ out.old.items ++ with_line_end (tokens_spaced (codes "/PRO" ∷ decimal number ∷ []))) }
{
    out.extend_from_slice(b"/PRO")?;
    write_number(number, out)?;
    end_line(out)
}

// Writes a table: its header, and its entries.
fn write_table(
    vocabulary: &WordsByValue,
    number: usize,
    entries: &[Entry],
    out: &mut Vec<u8>,
) -> Written
    requires known { IsKnownTable entries.now }
    ensures writes { OnOk result
        (out.new.items ≡ out.old.items ++ with_line_ends (table_lines vocabulary.now number entries.now)) }
{
    write_table_header(number, out)?;
    for entry in entries {
        write_entry(vocabulary, entry, out)?;
    }
    Ok(())
}

/// Writes the tables.
pub(crate) fn write_tables(
    vocabulary: &WordsByValue,
    tables: &[Table],
    out: &mut Vec<u8>,
) -> Written
    requires known { AllByRecursion IsKnownTable tables.now }
    ensures writes { OnOk result
        (out.new.items ≡ out.old.items ++ with_line_ends (numbered_lines (table_lines vocabulary.now) 0 tables.now)) }
{
    for (number, table) in tables.iter().enumerate() {
        write_table(vocabulary, number, &table.rows, out)?;
    }
    Ok(())
}
