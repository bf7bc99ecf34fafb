// Texts with numbers.

ghost use Rattle.std.specs.Prelude.{◌≡◌, IfOk};
ghost use Rattle.paw_gen.specs.Trial.{number_between, rows};

use itoa::Buffer;
use paw_base::fault::NoRoom;
use paw_game::parts::Text;
use std::alloc::Global;

/// A number between two texts.
pub(crate) fn numbered_text(
    alloc: Global,
    before: &[u8],
    number: u16,
    after: &[u8],
) -> Result<Text, NoRoom>
    ensures value { IfOk result (λ text. text ≡ number_between before.now after.now number) }
{
    let mut digits = Buffer::new();
    let mut bytes = Vec::from_slice(alloc, before)?;
    bytes.extend_from_slice(digits.format(number).as_bytes())?;
    bytes.extend_from_slice(after)?;
    Ok(Text { rows: bytes })
}

/// The numbers from 0 on, each between the same two texts.
pub(crate) fn numbered_texts(
    alloc: Global,
    before: &[u8],
    after: &[u8],
    count: u16,
) -> Result<Vec<Text>, NoRoom>
    ensures value { IfOk result (λ texts. texts.items ≡ rows count (number_between before.now after.now)) }
{
    let mut texts = Vec::new(alloc);
    for number in 0..count {
        texts.push(numbered_text(alloc, before, number, after)?)?;
    }
    Ok(texts)
}
