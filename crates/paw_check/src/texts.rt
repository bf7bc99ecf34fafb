// What a game prints at most. Numbers stop at the greatest of 32 bits.

ghost use Rattle.std.specs.Prelude.{◌≡◌, ◌+◌, ◌*◌, length, map};
ghost use Rattle.std.specs.List.{slice_index_or};
ghost use Rattle.paw_game.specs.Valid.{Valid};
ghost use Rattle.paw_base.specs.declared.messages.TheConstants.{SEEN_MESSAGE, NOTHING_THERE_MESSAGE, IS_WORN_MESSAGE};
ghost use Rattle.paw_check.specs.Bounds.{most_view, most_refusal};
ghost use Rattle.paw_check.specs.Measures.{greatest, most_at, most_of, most_put, most_said};
ghost use Rattle.paw_check.specs.Prints.{most_list, most_list_or_said, most_inventory, most_count, most_score};
ghost use Rattle.paw_check.specs.Prints.{most_of_action};
ghost use Rattle.paw_check.specs.inner.Capped.{HoldsCapped, in_32_bits};
ghost use Rattle.paw_check.specs.inner.Texts.{ArePrints, most_outside, most_end};

use crate::costs::count_of;
use crate::measures::{all_names, greatest_measure, longest_name, measures};
use crate::prints::Prints;
use crate::sums::{PerByte, greater};
use paw_base::messages::*;
use paw_game::parts::{GameParts, Text};

/// The messages that an action on an object may put.
static SAID_OF_OBJECTS: [u8; 21] = [
    IMPOSSIBLE_MESSAGE,
    NOT_WORN_MESSAGE,
    WORN_MESSAGE,
    HELD_MESSAGE,
    NOT_HERE_MESSAGE,
    TOO_MANY_MESSAGE,
    NOT_CARRIED_MESSAGE,
    WORN_ALREADY_MESSAGE,
    TAKEN_MESSAGE,
    PUT_ON_MESSAGE,
    TAKEN_OFF_MESSAGE,
    DROPPED_MESSAGE,
    NOT_WEARABLE_MESSAGE,
    NOT_REMOVABLE_MESSAGE,
    HANDS_FULL_MESSAGE,
    TOO_HEAVY_MESSAGE,
    PUT_IN_MESSAGE,
    NOT_TAKEN_OUT_MESSAGE,
    NOT_HELD_MESSAGE,
    NOT_PUT_ON_MESSAGE,
    NOT_INSIDE_MESSAGE,
];

/// The messages that say why a phrase isn't carried out.
static REFUSALS: [u8; 3] = [UNKNOWN_MESSAGE, NO_WAY_MESSAGE, IMPOSSIBLE_MESSAGE];

// The most bytes of any of these messages.
fn greatest_put(system: &PerByte, messages: &[u8]) -> u32
    ensures value { result ≡ greatest (map (λ s. slice_index_or system.now s 0) messages.now) }
{
    let mut most = 0u32;
    for message in messages {
        most = greater(most, system[usize::from(*message)]);
    }
    most
}

// The most bytes of a message with its newline.
fn message_length(system: &PerByte, message: u8) -> u32
    ensures value { result ≡ in_32_bits (slice_index_or system.now message 0 + 1) }
{
    system[usize::from(message)].saturating_add(1)
}

// The most bytes of a list of objects.
fn list_of(parts: &GameParts) -> u32
    ensures value { result ≡ in_32_bits (most_list parts.now) }
{
    let joined = count_of(parts.objects.len()).saturating_mul(5);
    all_names(&parts.objects)
        .saturating_add(joined)
        .saturating_add(2)
}

// The most bytes of any of these messages, as the definition gives them for the game.
fn most_put_of(parts: &GameParts, system: &PerByte, messages: &[u8]) -> u32
    requires valid { Valid parts.now }
    requires system { HoldsCapped system.now (most_put parts.now) }
    ensures value { result ≡ in_32_bits (greatest (map (most_put parts.now) messages.now)) }
{
    greatest_put(system, messages)
}

// What an action on an object prints at most.
fn action_of(parts: &GameParts, system: &PerByte) -> u32
    requires valid { Valid parts.now }
    requires system { HoldsCapped system.now (most_put parts.now) }
    ensures value { result ≡ in_32_bits (most_of_action parts.now) }
{
    most_put_of(parts, system, &SAID_OF_OBJECTS)
        .saturating_add(longest_name(&parts.objects))
        .saturating_add(message_length(system, NAME_END_MESSAGE))
}

// What marks objects as worn at most, all of them.
fn worn_of(parts: &GameParts, system: &PerByte) -> u32
    requires system { HoldsCapped system.now (most_put parts.now) }
    ensures value { result ≡ in_32_bits (length parts.now.objects * most_put parts.now IS_WORN_MESSAGE) }
{
    let objects = count_of(parts.objects.len());
    objects.saturating_mul(system[IS_WORN_MESSAGE as usize])
}

// What INVEN prints at most.
fn inventory_of(parts: &GameParts, system: &PerByte) -> u32
    requires system { HoldsCapped system.now (most_put parts.now) }
    ensures value { result ≡ in_32_bits (most_inventory parts.now) }
{
    let held = list_of(parts).saturating_add(worn_of(parts, system));
    message_length(system, INVENTORY_MESSAGE).saturating_add(greater(
        held,
        message_length(system, EMPTY_HANDED_MESSAGE),
    ))
}

// What TURNS prints at most.
fn turns_of(parts: &GameParts, system: &PerByte) -> u32
    requires system { HoldsCapped system.now (most_put parts.now) }
    ensures value { result ≡ in_32_bits (most_count parts.now) }
{
    system[usize::from(TURNS_MESSAGE)]
        .saturating_add(5)
        .saturating_add(system[usize::from(TURN_MESSAGE)])
        .saturating_add(system[usize::from(PLURAL_MESSAGE)])
        .saturating_add(message_length(system, TURNS_END_MESSAGE))
}

// What SCORE prints at most.
fn score_of(parts: &GameParts, system: &PerByte) -> u32
    requires system { HoldsCapped system.now (most_put parts.now) }
    ensures value { result ≡ in_32_bits (most_score parts.now) }
{
    system[usize::from(SCORE_MESSAGE)]
        .saturating_add(3)
        .saturating_add(message_length(system, SCORE_END_MESSAGE))
}

// What LISTOBJ prints at most.
fn here_of(parts: &GameParts, system: &PerByte) -> u32
    requires system { HoldsCapped system.now (most_put parts.now) }
    ensures value { result ≡ in_32_bits (most_said parts.now SEEN_MESSAGE + most_list parts.now) }
{
    message_length(system, SEEN_MESSAGE).saturating_add(list_of(parts))
}

// What LISTAT prints at most.
fn there_of(parts: &GameParts, system: &PerByte) -> u32
    requires system { HoldsCapped system.now (most_put parts.now) }
    ensures value { result ≡ in_32_bits (most_list_or_said parts.now NOTHING_THERE_MESSAGE) }
{
    greater(
        list_of(parts),
        message_length(system, NOTHING_THERE_MESSAGE),
    )
}

// The most bytes of each system message.
fn system_of(parts: &GameParts) -> PerByte
    requires valid { Valid parts.now }
    ensures value { HoldsCapped result (most_put parts.now) }
{
    measures(longest_name(&parts.objects), &parts.system)
}

// The most bytes of each message.
fn messages_of(parts: &GameParts) -> PerByte
    requires valid { Valid parts.now }
    ensures value { HoldsCapped result (most_at parts.now parts.now.messages) }
{
    measures(longest_name(&parts.objects), &parts.messages)
}

// The most bytes of any of these texts.
fn any_of(parts: &GameParts, texts: &[Text]) -> u32
    ensures value { result ≡ in_32_bits (most_of parts.now texts.now) }
{
    greatest_measure(longest_name(&parts.objects), texts)
}

/// The most bytes of a game's texts, as they are kept for its condacts.
pub(crate) fn prints_of(parts: &GameParts) -> Prints
    requires valid { Valid parts.now }
    ensures value { ArePrints parts.now result }
{
    let system = system_of(parts);
    Prints {
        system,
        messages: messages_of(parts),
        any_system: any_of(parts, &parts.system),
        any_message: any_of(parts, &parts.messages),
        action: action_of(parts, &system),
        inventory: inventory_of(parts, &system),
        turns: turns_of(parts, &system),
        score: score_of(parts, &system),
        here: here_of(parts, &system),
        there: there_of(parts, &system),
    }
}

// The most bytes of a location, or of the message that it is dark, and a newline.
fn view_of(parts: &GameParts, system: &PerByte) -> u32
    requires system { HoldsCapped system.now (most_put parts.now) }
    ensures value { result ≡ in_32_bits (most_view parts.now) }
{
    let location = any_of(parts, &parts.locations);
    greater(system[usize::from(DARK_MESSAGE)], location).saturating_add(1)
}

// The most bytes that say why a phrase isn't carried out, and a newline.
fn refusal_of(parts: &GameParts, system: &PerByte) -> u32
    requires valid { Valid parts.now }
    requires system { HoldsCapped system.now (most_put parts.now) }
    ensures value { result ≡ in_32_bits (most_refusal parts.now) }
{
    most_put_of(parts, system, &REFUSALS).saturating_add(1)
}

/// The most bytes that a round prints besides its tables: a view and a refusal.
pub(crate) fn most_outside(parts: &GameParts, prints: &Prints) -> u32
    requires valid { Valid parts.now }
    requires prints { ArePrints parts.now prints.now }
    ensures value { result ≡ in_32_bits (most_outside parts.now) }
{
    view_of(parts, &prints.system).saturating_add(refusal_of(parts, &prints.system))
}

/// The most bytes that a piece prints after its rounds: the goodbye, what is said of a timeout, and the prompt.
pub(crate) fn most_end(parts: &GameParts, prints: &Prints) -> u32
    requires prints { ArePrints parts.now prints.now }
    ensures value { result ≡ in_32_bits (most_end parts.now) }
{
    let system = &prints.system;
    let prompt = prints
        .any_system
        .saturating_add(1)
        .saturating_add(system[usize::from(LINE_MESSAGE)]);
    message_length(system, GOODBYE_MESSAGE).saturating_add(message_length(
        system,
        TIMEOUT_MESSAGE,
    ).saturating_add(prompt))
}
