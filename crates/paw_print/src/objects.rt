// The objects of a source.

ghost use Rattle.std.specs.Prelude.{◌≡◌, ◌++◌, ◌∷◌, [], OnOk, decimal};
ghost use Rattle.paw_print.specs.Lines.{after_spaces, kind_token, object_tokens, tokens_spaced};
ghost use Rattle.paw_print.specs.Canonical.{with_line_end, objects_lines, with_line_ends};

use crate::rows::{Written, end_line, write_digits, write_header, write_number, write_token};
use crate::vocabulary::WordsByValue;
use paw_base::parts::ObjectFacts;
use paw_base::words::{ADJECTIVE_CLASS, NOUN_CLASS};
use paw_game::parts::ObjectRow;

// The kind of an object: whether it is a container, and whether it may be worn.
fn kind_token(container: bool, wearable: bool) -> &'static [u8]
    ensures value { result.now ≡ kind_token container wearable }
{
    match (container, wearable) {
        (true, true) => b"CW",
        (true, false) => b"C",
        (false, true) => b"W",
        (false, false) => b"-",
    }
}

// Writes the place, the weight and the kind of an object, each after one space.
fn write_place_and_kind(facts: &ObjectFacts, out: &mut Vec<u8>) -> Written
    ensures writes { let kind = kind_token facts.now.container facts.now.wearable in
        let tokens = decimal facts.now.start ∷ decimal facts.now.weight ∷ kind ∷ [] in
        OnOk result (out.new.items ≡ out.old.items ++ after_spaces tokens) }
{
    write_number(facts.start as usize, out)?;
    write_number(facts.weight as usize, out)?;
    write_token(kind_token(facts.container, facts.wearable), out)
}

// Writes the line of an object.
fn write_object(
    vocabulary: &WordsByValue,
    number: usize,
    facts: &ObjectFacts,
    out: &mut Vec<u8>,
) -> Written
    ensures writes { OnOk result
        (out.new.items ≡ out.old.items ++ with_line_end
        (tokens_spaced (object_tokens vocabulary.now number facts.now))) }
{
    write_digits(number, out)?;
    write_place_and_kind(facts, out)?;
    vocabulary.write_value_of(NOUN_CLASS, facts.noun, out)?;
    vocabulary.write_value_of(ADJECTIVE_CLASS, facts.adjective, out)?;
    end_line(out)
}

/// Writes the section of the objects.
pub(crate) fn write_objects(
    vocabulary: &WordsByValue,
    objects: &[ObjectRow],
    out: &mut Vec<u8>,
) -> Written
    ensures writes { OnOk result (out.new.items
        ≡ out.old.items ++ with_line_ends (objects_lines vocabulary.now objects.now)) }
{
    write_header(b"/OBJ", out)?;
    for (number, object) in objects.iter().enumerate() {
        write_object(vocabulary, number, &object.facts, out)?;
    }
    Ok(())
}
