// Putting the next phrase of the pending line into the flags.

ghost use Rattle.std.specs.Prelude.{◌≡◌};
ghost use Rattle.paw_effects.specs.Worlds.{IsOf};
ghost use Rattle.paw_reading.specs.Run.{with_sentence};
ghost use Rattle.paw_process.specs.inner.Phrases.{Speaks};

use paw_base::flags::{
    ADJECTIVE_FLAG, ADVERB_FLAG, NOUN_FLAG, PREPOSITION_FLAG, PRONOUN_ADJECTIVE_FLAG,
    PRONOUN_NOUN_FLAG, SECOND_ADJECTIVE_FLAG, SECOND_NOUN_FLAG, VERB_FLAG,
};
use paw_game::tables::Tables;
use paw_phrase::{Found, Pending, Sentence, next_phrase};
use paw_world::world::World;

/// Takes the next phrase of the pending line. A sentence goes into flags 33 to 36 and 43 to 47, and its verb is the
/// earlier one for the next phrase. The bytes of a phrase with no known word are dropped. With no phrase left nothing
/// changes.
// It is inlined, because each line ends by asking for a phrase where nothing is left, which needs no call.
#[inline(always)]
pub fn take_phrase<T: Tables>(tables: &T, world: &mut World, pending: &mut Pending) -> Found
    ensures value { Speaks (T.game tables.now) result world.old world.new pending.old pending.new }
    ensures draws { world.new.draws ≡ world.old.draws }
    ensures game { IsOf (T.game tables.now) world.old → IsOf (T.game tables.now) world.new }
{
    if pending.bytes().is_empty() {
        return Found::Empty;
    }
    take_phrase_of_line(tables, world, pending)
}

// Takes the next phrase of a line with bytes left. It isn't inlined, so that a call takes little where none are left.
#[inline(never)]
fn take_phrase_of_line<T: Tables>(tables: &T, world: &mut World, pending: &mut Pending) -> Found
    ensures value { Speaks (T.game tables.now) result world.old world.new pending.old pending.new }
    ensures draws { world.new.draws ≡ world.old.draws }
    ensures game { IsOf (T.game tables.now) world.old → IsOf (T.game tables.now) world.new }
{
    let mut sentence = Sentence::blank(
        world.flag(PRONOUN_NOUN_FLAG),
        world.flag(PRONOUN_ADJECTIVE_FLAG),
    );
    let found = next_phrase(tables, pending, &mut sentence);
    if let Found::Sentence = found {
        speak(world, sentence);
    }
    found
}

// Puts a sentence into the flags.
fn speak(world: &mut World, s: Sentence)
    ensures value { world.new ≡ with_sentence s world.old }
{
    world.set_flag(VERB_FLAG, s.verb);
    world.set_flag(NOUN_FLAG, s.noun);
    world.set_flag(ADJECTIVE_FLAG, s.adjective);
    world.set_flag(ADVERB_FLAG, s.adverb);
    world.set_flag(PREPOSITION_FLAG, s.preposition);
    world.set_flag(SECOND_NOUN_FLAG, s.second_noun);
    world.set_flag(SECOND_ADJECTIVE_FLAG, s.second_adjective);
    world.set_flag(PRONOUN_NOUN_FLAG, s.pronoun_noun);
    world.set_flag(PRONOUN_ADJECTIVE_FLAG, s.pronoun_adjective);
}
