// What the actions do.

ghost use Rattle.std.specs.Prelude.{◌≡◌, ◌+◌, ◌-◌, ◌<◌, ◌≤◌, ◌^◌, true, false, if◌then◌else◌};
ghost use Rattle.paw_base.specs.Bytes.{RoutineAnswers};
ghost use Rattle.paw_base.specs.inner.Condacts.{IsPlainCode};
ghost use Rattle.paw_game.specs.inner.Valid.{is_right};
ghost use Rattle.paw_effects.specs.Worlds.{IsOf};
ghost use Rattle.paw_effects.specs.Holds.{is_condition};
ghost use Rattle.paw_effects.specs.Done.{plainly, prints_then};
ghost use Rattle.paw_effects.specs.Effects.{effect_of, plain_effect, Does};
ghost use Rattle.paw_effects.specs.Meanings.{answered_by};
ghost use Rattle.paw_effects.specs.Story.{story_of};
ghost use Rattle.paw_effects.specs.Texts.{put_text};
ghost use Rattle.paw_effects.specs.Chance.{percent_drawn};
ghost use Rattle.paw_effects.specs.declared.act.Effect.TheVariants as effect;
ghost use Rattle.paw_game.specs.Game.{GameLists};
ghost use Rattle.paw_routines.specs.Routines.{AreAnswersOf, HaveAnswers};
ghost use Rattle.paw_world.specs.World.{with_flag, drawn_on};

use crate::act::{Act, Effect, Prompt, after, dropping_act, plain_act};
use crate::auto_actions::{act_by_name, refer_by_name};
use crate::chance::roll;
pub use crate::conditions::{is_condition, test};
use crate::counts::{print_score, print_turns};
use crate::indirect::as_plain;
use crate::lists::{print_here, print_inventory, print_place};
use crate::move_actions::{drop_all, move_if_place, move_referred, reset, swap};
use crate::object_actions::{Action, act_on};
use crate::positions::{load, save};
use crate::presence::{here, named_place};
pub use crate::referring::refer;
use crate::signs::print_sign;
use crate::text::{message, print_nothing, print_number, put, say};
use paw_base::codes;
use paw_base::flags::{
    LOCATION_FLAG, MOST_CARRIED_FLAG, MOST_WEIGHT_FLAG, PROMPT_FLAG, TIMED_OUT_FLAG, TIMEOUT_FLAG,
};
use paw_base::messages::{AGAIN_MESSAGE, KEY_MESSAGE, OK_MESSAGE};
use paw_base::parts::Condact;
use paw_base::piece::Piece;
use paw_base::places::NOT_CREATED_PLACE;
use paw_game::tables::Tables;
use paw_routines::routines::Routines;
use paw_world::world::World;

// Prints a question, and waits for its answer.
fn ask<T: Tables>(tables: &T, world: &World, piece: &mut Piece, question: u8, prompt: Prompt) -> Act
    ensures does { Does (prints_then world.now (put_text (T.game tables.now) world.now question) (effect.Ask prompt))
        piece.old piece.new world.now result }
{
    after(put(tables, world, piece, question), Effect::Ask(prompt))
}

// Gives a flag a number from 1 to 100, by the next random word.
fn set_by_chance(world: &mut World, f: u8)
    requires draws { world.old.draws < 2 ^ 64 - 1 }
    ensures value { world.new ≡ with_flag (drawn_on world.old 1) f (percent_drawn world.old) }
{
    let x = roll(world);
    world.set_flag(f, x);
}

// Gives two flags these values, one after the other.
fn set_both(world: &mut World, first: (u8, u8), second: (u8, u8))
    ensures value { world.new ≡ with_flag (with_flag world.old first.0 first.1) second.0 second.1 }
{
    world.set_flag(first.0, first.1);
    world.set_flag(second.0, second.1);
}

// EXTERN sets a flag to the answer of a routine to the flag's value. Nothing changes where there is no such routine.
fn answer_by_routine<F: Fn(u8, u8) -> u8>(world: &mut World, routines: &Routines<F>, n: u8, f: u8)
    requires answers { HaveAnswers F.Fn routines.now }
    ensures value { (X : RoutineAnswers) → AreAnswersOf F.Fn routines.now X → world.new ≡ answered_by X world.old n f }
    ensures game { (g : GameLists) → IsOf g world.old → IsOf g world.new }
    ensures draws { world.new.draws ≡ world.old.draws }
{
    if let Some(answer) = routines.call(n, world.flag(f)) {
        world.set_flag(f, answer);
    }
}

// The answer of an action that printed its text, and goes on where the text fits.
fn after_printing(fits: bool) -> Act
    ensures value { result ≡ plainly (if fits then effect.Go else effect.Spent) }
{
    after(fits, Effect::Go)
}

// The answer of an action that is done, and goes on. It takes what changing the world gives, which is nothing, so that
// the action's arm below is one expression.
fn going_on(_change: ()) -> Act
    ensures value { result ≡ plainly effect.Go }
{
    plain_act(Effect::Go)
}

/// Does an action of this game: changes the world, and prints into the piece. Spent exactly where the piece would pass
/// its limit; the piece and the world may then hold anything. An indirect action takes the value of its flag; where
/// that breaks the rule of its first parameter it is done, and changes nothing.
#[tactic(auto, unfolding(crate::specs::Effects::effect_of))]
pub fn act<T: Tables, F: Fn(u8, u8) -> u8>(
    tables: &T,
    world: &mut World,
    routines: &Routines<F>,
    piece: &mut Piece,
    c: Condact,
) -> Act
    requires kind { is_condition c ≡ false }
    requires game { IsOf (T.game tables.now) world.old }
    requires condact { is_right (T.game tables.now) c ≡ true }
    requires answers { HaveAnswers F.Fn routines.now }
    requires draws { world.old.draws < 2 ^ 64 - 1 }
    ensures does { (X : RoutineAnswers) → AreAnswersOf F.Fn routines.now X →
        Does (effect_of (story_of (T.game tables.now) X) world.old c) piece.old piece.new world.new result }
    ensures game { IsOf (T.game tables.now) world.new }
    ensures draws { world.new.draws ≤ world.old.draws + 1 }
{
    match as_plain(tables, world, c) {
        Some(plain) => act_plain(tables, world, routines, piece, plain),
        None => going_on(print_nothing(piece)),
    }
}

// Does a plain action.
#[tactic(auto, using(crate::proofs::Parameters::objects_stand), unfolding(crate::proofs::KnownCodes::known_action))]
fn act_plain<T: Tables, F: Fn(u8, u8) -> u8>(
    tables: &T,
    world: &mut World,
    routines: &Routines<F>,
    piece: &mut Piece,
    c: Condact,
) -> Act
    requires kind { is_condition c ≡ false }
    requires code { IsPlainCode c.code }
    requires game { IsOf (T.game tables.now) world.old }
    requires condact { is_right (T.game tables.now) c ≡ true }
    requires answers { HaveAnswers F.Fn routines.now }
    requires draws { world.old.draws < 2 ^ 64 - 1 }
    ensures does { (X : RoutineAnswers) → AreAnswersOf F.Fn routines.now X →
        Does (plain_effect (story_of (T.game tables.now) X) world.old c) piece.old piece.new world.new result }
    ensures game { IsOf (T.game tables.now) world.new }
    ensures draws { world.new.draws ≤ world.old.draws + 1 }
{
    // Its clause says that the world is sound, which the proof needs. No call of it is left in the program.
    let _objects = world.objects();
    print_nothing(piece);
    match c.code {
        codes::INVEN => after_printing(print_inventory(tables, world, piece)),
        codes::DESC => plain_act(Effect::Redescribe),
        codes::END => ask(tables, world, piece, AGAIN_MESSAGE, Prompt::Again),
        codes::DONE => plain_act(Effect::Exit(true)),
        codes::NOTDONE => plain_act(Effect::Exit(false)),
        codes::OK => after(say(tables, world, piece, OK_MESSAGE), Effect::Exit(true)),
        codes::ANYKEY => ask(tables, world, piece, KEY_MESSAGE, Prompt::Key),
        codes::SAVE => {
            save(world);
            plain_act(Effect::Redescribe)
        }
        codes::LOAD => load(tables, world, piece),
        codes::RAMSAVE => going_on(world.ramsave()),
        codes::RAMLOAD => going_on(world.ramload(c.a)),
        codes::TURNS => after_printing(print_turns(tables, world, piece)),
        codes::SCORE => after_printing(print_score(tables, world, piece)),
        codes::DROPALL => going_on(drop_all(world)),
        codes::AUTOG => act_by_name(tables, world, piece, Action::Get),
        codes::AUTOD => act_by_name(tables, world, piece, Action::Drop),
        codes::AUTOW => act_by_name(tables, world, piece, Action::Wear),
        codes::AUTOR => act_by_name(tables, world, piece, Action::Remove),
        codes::AUTOP => act_by_name(tables, world, piece, Action::PutIn(c.a)),
        codes::AUTOT => act_by_name(tables, world, piece, Action::TakeOut(c.a)),
        codes::GOTO => going_on(world.set_flag(LOCATION_FLAG, c.a)),
        codes::MES => after_printing(message(tables, world, piece, c.a)),
        codes::MESSAGE => after_printing(message(tables, world, piece, c.a) && piece.push(b"\n")),
        codes::SYSMESS => after_printing(put(tables, world, piece, c.a)),
        codes::NEWLINE => after_printing(piece.push(b"\n")),
        codes::PRINT => after_printing(print_number(piece, u16::from(world.flag(c.a)))),
        codes::GET => act_on(tables, world, piece, c.a, Action::Get),
        codes::DROP => act_on(tables, world, piece, c.a, Action::Drop),
        codes::WEAR => act_on(tables, world, piece, c.a, Action::Wear),
        codes::REMOVE => act_on(tables, world, piece, c.a, Action::Remove),
        codes::PUTIN => act_on(tables, world, piece, c.a, Action::PutIn(c.b)),
        codes::TAKEOUT => act_on(tables, world, piece, c.a, Action::TakeOut(c.b)),
        codes::CREATE => going_on(world.move_to(c.a, here(world))),
        codes::DESTROY => going_on(world.move_to(c.a, NOT_CREATED_PLACE)),
        codes::SWAP => going_on(swap(world, c.a, c.b)),
        codes::PLACE => going_on(world.move_to(c.a, named_place(world, c.b))),
        codes::PUTO => going_on(move_referred(world, named_place(world, c.a))),
        codes::SET => going_on(world.set_flag(c.a, 255)),
        codes::CLEAR => going_on(world.set_flag(c.a, 0)),
        codes::PLUS => going_on(world.set_flag(c.a, world.flag(c.a).saturating_add(c.b))),
        codes::MINUS => going_on(world.set_flag(c.a, world.flag(c.a).saturating_sub(c.b))),
        codes::LET => going_on(world.set_flag(c.a, c.b)),
        codes::ADD => going_on(world.set_flag(
            c.b,
            world.flag(c.b).saturating_add(world.flag(c.a)),
        )),
        codes::SUB => going_on(world.set_flag(
            c.b,
            world.flag(c.b).saturating_sub(world.flag(c.a)),
        )),
        codes::RANDOM => going_on(set_by_chance(world, c.a)),
        codes::COPYOO => going_on(world.move_to(c.b, world.place(c.a))),
        codes::COPYOF => going_on(world.set_flag(c.b, world.place(c.a))),
        codes::COPYFO => going_on(move_if_place(world, c.b, world.flag(c.a))),
        codes::COPYFF => going_on(world.set_flag(c.b, world.flag(c.a))),
        codes::LISTOBJ => after_printing(print_here(tables, world, piece)),
        codes::LISTAT => after_printing(print_place(tables, world, piece, named_place(world, c.a))),
        codes::WHATO => going_on(refer_by_name(tables, world)),
        codes::WEIGH => going_on(world.set_flag(c.b, world.weight(c.a))),
        codes::WEIGHT => going_on(world.set_flag(c.a, world.carried_weight())),
        codes::ABILITY => going_on(set_both(
            world,
            (MOST_CARRIED_FLAG, c.a),
            (MOST_WEIGHT_FLAG, c.b),
        )),
        codes::PARSE => plain_act(Effect::Parse),
        codes::PROCESS => plain_act(Effect::Call(c.a)),
        codes::DOALL => plain_act(Effect::Loop(named_place(world, c.a))),
        codes::PROMPT => going_on(world.set_flag(PROMPT_FLAG, c.a)),
        codes::TIME => going_on(set_both(world, (TIMEOUT_FLAG, c.a), (TIMED_OUT_FLAG, c.b))),
        codes::NEWTEXT => dropping_act(Effect::Go),
        codes::RESET => {
            reset(world, c.a);
            plain_act(Effect::Redescribe)
        }
        codes::EXTERN => going_on(answer_by_routine(world, routines, c.a, c.b)),
        codes::PICTURE => after_printing(print_sign(piece, c.code, c.a, c.b)),
        codes::GRAPHIC => after_printing(print_sign(piece, c.code, c.a, c.b)),
        codes::BEEP => after_printing(print_sign(piece, c.code, c.a, c.b)),
        codes::CLS => after_printing(print_sign(piece, c.code, c.a, c.b)),
        codes::PAPER => after_printing(print_sign(piece, c.code, c.a, c.b)),
        codes::INK => after_printing(print_sign(piece, c.code, c.a, c.b)),
        codes::BORDER => after_printing(print_sign(piece, c.code, c.a, c.b)),
        codes::CHARSET => after_printing(print_sign(piece, c.code, c.a, c.b)),
        codes::PROTECT => after_printing(print_sign(piece, c.code, c.a, c.b)),
        codes::SAVEAT => after_printing(print_sign(piece, c.code, c.a, c.b)),
        codes::BACKAT => after_printing(print_sign(piece, c.code, c.a, c.b)),
        codes::PRINTAT => after_printing(print_sign(piece, c.code, c.a, c.b)),
        codes::PAUSE => after_printing(print_sign(piece, c.code, c.a, c.b)),
        codes::MODE => after_printing(print_sign(piece, c.code, c.a, c.b)),
        codes::LINE => after_printing(print_sign(piece, c.code, c.a, c.b)),
        codes::INPUT => after_printing(print_sign(piece, c.code, c.a, c.b)),
        _ => unreachable!(), // Each code of an action stands above.
    }
}
