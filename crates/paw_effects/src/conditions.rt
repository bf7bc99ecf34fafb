// The conditions: each tests the world, and two of them change it.

ghost use Rattle.std.specs.Prelude.{◌≡◌, ◌+◌, ◌-◌, ◌<◌, ◌≤◌, ◌^◌, true};
ghost use Rattle.paw_base.specs.inner.Condacts.{IsCode, IsPlainCode};
ghost use Rattle.paw_game.specs.inner.Valid.{is_right};
ghost use Rattle.paw_effects.specs.Worlds.{IsOf};
ghost use Rattle.paw_effects.specs.Holds.{is_condition, holds, plain_holds};
ghost use Rattle.paw_effects.specs.Tested.{moves, truth_of};

use crate::act::Truth;
use crate::chance::roll;
use crate::indirect::as_plain;
use crate::presence::{is_present, named_place};
use paw_base::codes::{
    ABSENT, ADJECT1, ADJECT2, ADVERB, AT, ATGT, ATLT, CARRIED, CHANCE, EQ, GT, INVEN, ISAT,
    ISNOTAT, LT, MOVE, NOTAT, NOTCARR, NOTEQ, NOTSAME, NOTWORN, NOTZERO, NOUN2, PREP, PRESENT,
    QUIT, SAME, TIMEOUT, WORN, ZERO,
};
use paw_base::flags::{
    ADJECTIVE_FLAG, ADVERB_FLAG, LOCATION_FLAG, PREPOSITION_FLAG, SECOND_ADJECTIVE_FLAG,
    SECOND_NOUN_FLAG, TIMED_OUT_BIT, TIMED_OUT_FLAG, VERB_FLAG,
};
use paw_base::parts::Condact;
use paw_base::places::{CARRIED_PLACE, WORN_PLACE};
use paw_base::rows::plain_code;
use paw_game::tables::Tables;
use paw_world::world::World;

// A condition's answer by whether it holds.
fn truth(holds: bool) -> Truth
    ensures value { result ≡ truth_of holds }
{
    if holds { Truth::Yes } else { Truth::No }
}

// MOVE takes the exit for the verb from the location in a flag, which becomes the one that it leads to. False exactly
// where there is no such exit.
fn moves<T: Tables>(tables: &T, world: &mut World, f: u8) -> bool
    requires game { IsOf (T.game tables.now) world.old }
    ensures answer { truth_of result ≡ (moves (T.game tables.now) world.old f).answer }
    ensures world { world.new ≡ (moves (T.game tables.now) world.old f).world }
    ensures game { IsOf (T.game tables.now) world.new }
    ensures draws { world.new.draws ≡ world.old.draws }
{
    match tables.exit(world.flag(f), world.flag(VERB_FLAG)) {
        Some(to) => {
            world.set_flag(f, to);
            true
        }
        None => false,
    }
}

/// Whether a condact tests; otherwise it acts. An indirect one is what the plain one is. The codes of conditions come
/// before that of INVEN, the first action, so one comparison says it, and no row is looked up.
pub fn is_condition(c: Condact) -> bool
    requires code { IsCode c.code }
    ensures value { result ≡ is_condition c }
{
    plain_code(c.code) < INVEN
}

/// What a condition of this game answers in this world, which it may change. An indirect one takes the value of its
/// flag; where that breaks the rule of its first parameter the condition fails.
#[tactic(auto, unfolding(crate::specs::Holds::holds))]
pub fn test<T: Tables>(tables: &T, world: &mut World, c: Condact) -> Truth
    requires kind { is_condition c ≡ true }
    requires game { IsOf (T.game tables.now) world.old }
    requires condact { is_right (T.game tables.now) c ≡ true }
    requires draws { world.old.draws < 2 ^ 64 - 1 }
    ensures answer { result ≡ (holds (T.game tables.now) world.old c).answer }
    ensures world { world.new ≡ (holds (T.game tables.now) world.old c).world }
    ensures game { IsOf (T.game tables.now) world.new }
    ensures draws { world.new.draws ≤ world.old.draws + 1 }
{
    match as_plain(tables, world, c) {
        Some(plain) => test_plain(tables, world, plain),
        None => Truth::No,
    }
}

// What a plain condition answers.
#[tactic(auto, using(crate::proofs::Parameters::object_stands), unfolding(crate::proofs::KnownCodes::known_condition))]
fn test_plain<T: Tables>(tables: &T, world: &mut World, c: Condact) -> Truth
    requires kind { is_condition c ≡ true }
    requires code { IsPlainCode c.code }
    requires game { IsOf (T.game tables.now) world.old }
    requires condact { is_right (T.game tables.now) c ≡ true }
    requires draws { world.old.draws < 2 ^ 64 - 1 }
    ensures answer { result ≡ (plain_holds (T.game tables.now) world.old c).answer }
    ensures world { world.new ≡ (plain_holds (T.game tables.now) world.old c).world }
    ensures game { IsOf (T.game tables.now) world.new }
    ensures draws { world.new.draws ≤ world.old.draws + 1 }
{
    match c.code {
        AT => truth(world.flag(LOCATION_FLAG) == c.a),
        NOTAT => truth(world.flag(LOCATION_FLAG) != c.a),
        ATGT => truth(world.flag(LOCATION_FLAG) > c.a),
        ATLT => truth(world.flag(LOCATION_FLAG) < c.a),
        PRESENT => truth(is_present(world, c.a)),
        ABSENT => truth(!is_present(world, c.a)),
        WORN => truth(world.place(c.a) == WORN_PLACE),
        NOTWORN => truth(world.place(c.a) != WORN_PLACE),
        CARRIED => truth(world.place(c.a) == CARRIED_PLACE),
        NOTCARR => truth(world.place(c.a) != CARRIED_PLACE),
        CHANCE => truth(roll(world) <= c.a),
        ZERO => truth(world.flag(c.a) == 0),
        NOTZERO => truth(world.flag(c.a) != 0),
        EQ => truth(world.flag(c.a) == c.b),
        NOTEQ => truth(world.flag(c.a) != c.b),
        GT => truth(world.flag(c.a) > c.b),
        LT => truth(world.flag(c.a) < c.b),
        SAME => truth(world.flag(c.a) == world.flag(c.b)),
        NOTSAME => truth(world.flag(c.a) != world.flag(c.b)),
        ADJECT1 => truth(world.flag(ADJECTIVE_FLAG) == c.a),
        ADVERB => truth(world.flag(ADVERB_FLAG) == c.a),
        PREP => truth(world.flag(PREPOSITION_FLAG) == c.a),
        NOUN2 => truth(world.flag(SECOND_NOUN_FLAG) == c.a),
        ADJECT2 => truth(world.flag(SECOND_ADJECTIVE_FLAG) == c.a),
        ISAT => truth(world.place(c.a) == named_place(world, c.b)),
        ISNOTAT => truth(world.place(c.a) != named_place(world, c.b)),
        TIMEOUT => truth(world.flag(TIMED_OUT_FLAG) >= TIMED_OUT_BIT),
        QUIT => Truth::Ask,
        MOVE => truth(moves(tables, world, c.a)),
        _ => unreachable!(), // Each code of a condition stands above.
    }
}
