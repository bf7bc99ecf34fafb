// Texts, as items of a source.

ghost use Rattle.std.specs.Prelude.{◌≡◌, ◌++◌, OnOk, codes, map};
ghost use Rattle.paw_print.specs.Lines.{item_token, lines_of_text, text_lines};
ghost use Rattle.paw_print.specs.Canonical.{with_line_end, texts_lines, with_line_ends};

use crate::rows::{Written, end_line, write_digits, write_header};
use paw_game::parts::{ObjectRow, Text};

/// Writes the line that begins an item.
pub(crate) fn write_item(number: usize, out: &mut Vec<u8>) -> Written
    ensures writes { OnOk result (out.new.items ≡ out.old.items ++ with_line_end (item_token number)) }
{
    out.push(b'/')?;
    write_digits(number, out)?;
    end_line(out)
}

// Writes the lines of a text; nothing where it is empty.
fn write_lines(text: &[u8], out: &mut Vec<u8>) -> Written
    ensures writes { OnOk result (out.new.items ≡ out.old.items ++ with_line_ends (lines_of_text text.now)) }
{
    if text.is_empty() {
        return Ok(());
    }
    write_header(text, out)
}

// Writes a text: its item, and its lines.
fn write_text(number: usize, text: &Text, out: &mut Vec<u8>) -> Written
    ensures writes { OnOk result (out.new.items ≡ out.old.items ++ with_line_ends (text_lines number text.now)) }
{
    write_item(number, out)?;
    write_lines(&text.rows, out)
}

/// Writes a section of texts.
pub(crate) fn write_texts(header: &[u8], texts: &[Text], out: &mut Vec<u8>) -> Written
    ensures writes { OnOk result (out.new.items ≡ out.old.items ++ with_line_ends (texts_lines header.now texts.now)) }
{
    write_header(header, out)?;
    for (number, text) in texts.iter().enumerate() {
        write_text(number, text, out)?;
    }
    Ok(())
}

/// Writes the section of the objects' texts.
pub(crate) fn write_object_texts(objects: &[ObjectRow], out: &mut Vec<u8>) -> Written
    ensures writes { OnOk result
        (out.new.items ≡ out.old.items ++ with_line_ends (texts_lines (codes "/OTX") (map (λ o. o.text) objects.now))) }
{
    write_header(b"/OTX", out)?;
    for (number, object) in objects.iter().enumerate() {
        write_text(number, &object.text, out)?;
    }
    Ok(())
}
