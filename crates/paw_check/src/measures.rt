// How long texts are at most, as they are printed. Numbers stop at the greatest of 32 bits.

ghost use Rattle.std.specs.Prelude.{◌≡◌, ◌≤◌, [], length, map, sum_by, slice_get};
ghost use Rattle.std.specs.Option.{unwrap_or};
ghost use Rattle.paw_check.specs.Measures.{greatest};
ghost use Rattle.paw_check.specs.inner.Capped.{HoldsCapped, in_32_bits};
ghost use Rattle.paw_check.specs.inner.Own.{byte_in, measure_in, measure_at};

use crate::sums::{PerByte, greater};
use paw_game::parts::{ObjectRow, Text};

// The length of a text.
fn length_of(text: &[u8]) -> u32
    ensures value { result ≡ in_32_bits (length text.now) }
{
    text.len().min(u32::MAX as usize) as u32
}

/// The length of the longest text of an object.
pub(crate) fn longest_name(objects: &[ObjectRow]) -> u32
    ensures value { result ≡ in_32_bits (greatest (map (λ o. length o.text) objects.now)) }
{
    let mut most = 0u32;
    for object in objects {
        let text = &object.text;
        most = greater(most, length_of(text.rows.as_slice()));
    }
    most
}

/// The lengths of the texts of all objects together.
pub(crate) fn all_names(objects: &[ObjectRow]) -> u32
    ensures value { result ≡ in_32_bits (sum_by (λ o. length o.text) objects.now) }
{
    let mut sum = 0u32;
    for object in objects {
        let text = &object.text;
        sum = sum.saturating_add(length_of(text.rows.as_slice()));
    }
    sum
}

// The most bytes that a byte prints, where the longest name has this many.
fn measure_of(name: u32, byte: u8) -> u32
    ensures value { result ≡ byte_in name byte }
{
    if byte == b'_' { name } else { 1 }
}

/// The most bytes that a text prints, where the longest name has this many.
pub(crate) fn measure(name: u32, text: &[u8]) -> u32
    ensures value { result ≡ in_32_bits (measure_in name text.now) }
{
    let mut sum = 0u32;
    for byte in text {
        sum = sum.saturating_add(measure_of(name, *byte));
    }
    sum
}

// The text with this number; an empty one where there is no such text.
fn text_of(texts: &[Text], number: usize) -> &[u8]
    ensures value { result.now ≡ unwrap_or (slice_get texts.now number) [] }
{
    match texts.get(number) {
        Some(text) => text.rows.as_slice(),
        None => &[],
    }
}

/// The same for each of these texts.
pub(crate) fn measures(name: u32, texts: &[Text]) -> PerByte
    requires few { length texts.now ≤ 256 }
    ensures value { HoldsCapped result (measure_at name texts.now) }
{
    let mut row = [0u32; 256];
    for at in 0..texts.len() {
        row[at] = measure(name, text_of(texts, at));
    }
    row
}

/// The same for the one of these texts that prints most; 0 where there is none.
pub(crate) fn greatest_measure(name: u32, texts: &[Text]) -> u32
    ensures value { result ≡ in_32_bits (greatest (map (measure_in name) texts.now)) }
{
    let mut most = 0u32;
    for at in 0..texts.len() {
        most = greater(most, measure(name, text_of(texts, at)));
    }
    most
}
