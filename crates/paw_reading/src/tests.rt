// Condacts of a small game, read one after the other; and what the crates below promise of worlds and routines. All
// stand here, where few functions are proved once more with them.

ghost use Rattle.std.specs.Prelude.{◌≡◌, ◌+◌, ◌-◌, ◌*◌, ◌%◌, ◌<◌, ◌^◌, IfOk, map};
ghost use Rattle.paw_effects.specs.Worlds.{IsOf};
ghost use Rattle.paw_routines.specs.Routines.{HaveAnswers};

/// Scenes, each as `CODE a b ANSWER, CODE a b ANSWER => "text";`.
macro_rules! scenes {
    ($($($code:ident $a:tt $b:tt $answer:expr),+ => $text:literal;)+) => {
        &[$((&[$(($code, $a, $b, $answer)),+], $text)),+]
    };
}

mod called_routines;
mod indirect;
mod object_actions;
mod prints;
mod worlds;

use paw_base::codes::ABILITY;
use paw_base::codes::ABSENT;
use paw_base::codes::ADD;
use paw_base::codes::ADJECT1;
use paw_base::codes::ADJECT2;
use paw_base::codes::ADVERB;
use paw_base::codes::ANYKEY;
use paw_base::codes::AT;
use paw_base::codes::ATGT;
use paw_base::codes::ATLT;
use paw_base::codes::CARRIED;
use paw_base::codes::CHANCE;
use paw_base::codes::CLEAR;
use paw_base::codes::COPYFF;
use paw_base::codes::COPYFO;
use paw_base::codes::COPYOF;
use paw_base::codes::COPYOO;
use paw_base::codes::CREATE;
use paw_base::codes::DESC;
use paw_base::codes::DESTROY;
use paw_base::codes::DOALL;
use paw_base::codes::DONE;
use paw_base::codes::DROPALL;
use paw_base::codes::END;
use paw_base::codes::EQ;
use paw_base::codes::EXTERN;
use paw_base::codes::GOTO;
use paw_base::codes::GT;
use paw_base::codes::ISAT;
use paw_base::codes::ISNOTAT;
use paw_base::codes::LET;
use paw_base::codes::LOAD;
use paw_base::codes::LT;
use paw_base::codes::MES;
use paw_base::codes::MESSAGE;
use paw_base::codes::MINUS;
use paw_base::codes::MOVE;
use paw_base::codes::NEWTEXT;
use paw_base::codes::NOTAT;
use paw_base::codes::NOTCARR;
use paw_base::codes::NOTDONE;
use paw_base::codes::NOTEQ;
use paw_base::codes::NOTSAME;
use paw_base::codes::NOTWORN;
use paw_base::codes::NOTZERO;
use paw_base::codes::NOUN2;
use paw_base::codes::OK;
use paw_base::codes::PARSE;
use paw_base::codes::PLACE;
use paw_base::codes::PLUS;
use paw_base::codes::PREP;
use paw_base::codes::PRESENT;
use paw_base::codes::PROCESS;
use paw_base::codes::PROMPT;
use paw_base::codes::PUTO;
use paw_base::codes::QUIT;
use paw_base::codes::RAMLOAD;
use paw_base::codes::RAMSAVE;
use paw_base::codes::RANDOM;
use paw_base::codes::RESET;
use paw_base::codes::SAME;
use paw_base::codes::SAVE;
use paw_base::codes::SET;
use paw_base::codes::SUB;
use paw_base::codes::SWAP;
use paw_base::codes::TIME;
use paw_base::codes::TIMEOUT;
use paw_base::codes::WEIGH;
use paw_base::codes::WEIGHT;
use paw_base::codes::WORN;
use paw_base::codes::ZERO;
use paw_base::flags::SECOND_NOUN_FLAG;
use paw_base::parts::Condact;
use paw_base::parts::ObjectFacts;
use paw_base::piece::Piece;
use paw_base::words::ADJECTIVE_CLASS;
use paw_base::words::ADVERB_CLASS;
use paw_base::words::NO_WORD;
use paw_base::words::NOUN_CLASS;
use paw_base::words::PREPOSITION_CLASS;
use paw_effects::act::Act;
use paw_effects::act::Effect;
use paw_effects::act::Prompt;
use paw_effects::act::Truth;
use paw_effects::condact::act;
use paw_effects::condact::is_condition;
use paw_effects::condact::test;
use paw_game::game::Game;
use paw_game::parts::Condacts;
use paw_game::parts::Entry;
use paw_game::parts::Exit;
use paw_game::parts::Exits;
use paw_game::parts::GameParts;
use paw_game::parts::ObjectRow;
use paw_game::parts::Table;
use paw_game::parts::Text;
use paw_game::parts::Word;
use paw_game::tables::Tables;
use paw_routines::routines::Routines;
use paw_world::world::World;
use std::alloc::AllocError;
use std::alloc::Global;
use std::process::Abort;
use std::test::Fail;

/// What a condact answers: a condition; an action; one that drops the rest of the line; one that ends the open loop
/// too; or none of these.
#[derive(Clone, Copy, Drop, PartialEq, Eq, Debug)]
enum Answer {
    Tests(Truth),
    Does(Effect),
    Drops(Effect),
    Cancels(Effect),
    Other,
}

use Answer::{Cancels, Does, Drops, Tests};

/// A condact, and the answer that it should give.
type Case = (u8, u8, u8, Answer);

/// Condacts that are read one after the other, and what they print together.
type Scene = (&'static [Case], &'static str);

const YES: Answer = Tests(Truth::Yes);

const NO: Answer = Tests(Truth::No);

const GO: Answer = Does(Effect::Go);

const REDESCRIBE: Answer = Does(Effect::Redescribe);

const SPENT: Answer = Does(Effect::Spent);

const REFUSED: Answer = Drops(Effect::Exit(true));

const LOOP_ENDED: Answer = Cancels(Effect::Exit(true));

/// Objects: 0 is carried, 1 worn, 2 in location 0, 3 not created, 4 in location 1.
const PLACES: [u8; 5] = [254, 253, 0, 252, 1];

const NAMES: [[u8; 4]; 5] = [*b"lamp", *b"coat", *b"bag_", *b"rock", *b"nail"];

/// At location 1, which has one exit, by verb 3 to location 0. There are three locations.
const CONDITIONS: &[Scene] = scenes! {
    GOTO 1 0 GO, AT 1 0 YES, AT 2 0 NO, NOTAT 1 0 NO => "";
    ATGT 0 0 YES, ATGT 1 0 NO, ATLT 2 0 YES, ATLT 1 0 NO => "";
    PRESENT 0 0 YES, PRESENT 1 0 YES, PRESENT 2 0 NO, PRESENT 4 0 YES, ABSENT 3 0 YES => "";
    WORN 1 0 YES, WORN 0 0 NO, NOTWORN 0 0 YES => "";
    CARRIED 0 0 YES, CARRIED 1 0 NO, NOTCARR 1 0 YES => "";
    ISAT 4 255 YES, ISAT 2 0 YES, ISAT 3 252 YES, ISAT 0 255 NO, ISNOTAT 0 254 NO => "";
    // The current location isn't one of the game's.
    LET 38 200 GO, ISAT 3 255 YES, ISNOTAT 4 255 YES, PRESENT 3 0 NO => "";
    GOTO 1 0 GO, LET 60 5 GO, COPYFF 60 61 GO => "";
    ZERO 60 0 NO, ZERO 62 0 YES, NOTZERO 60 0 YES => "";
    EQ 60 5 YES, NOTEQ 60 5 NO, GT 60 4 YES, GT 60 5 NO, LT 60 6 YES, LT 60 5 NO => "";
    SAME 60 61 YES, NOTSAME 60 62 YES => "";
    ADJECT1 255 0 YES, LET 35 2 GO, ADJECT1 2 0 YES => "";
    LET 36 2 GO, ADVERB 2 0 YES, LET 43 3 GO, PREP 3 0 YES => "";
    LET 44 50 GO, NOUN2 50 0 YES, ADJECT2 255 0 YES => "";
    LET 49 127 GO, TIMEOUT 0 0 NO, LET 49 128 GO, TIMEOUT 0 0 YES => "";
    QUIT 0 0 Tests(Truth::Ask) => "";
    LET 33 3 GO, MOVE 60 0 NO, MOVE 38 0 YES, AT 0 0 YES, MOVE 38 0 NO => "";
};

/// From 200 in flag 60 on; each sum ends at 255, and each difference at 0. Then weights, and the flags that the turn
/// looks at.
const FLAGS: &[Scene] = scenes! {
    SET 60 0 GO, EQ 60 255 YES, CLEAR 60 0 GO, EQ 60 0 YES => "";
    LET 60 200 GO, PLUS 60 55 GO, EQ 60 255 YES, PLUS 60 1 GO, EQ 60 255 YES => "";
    MINUS 60 250 GO, EQ 60 5 YES, COPYFF 60 61 GO, MINUS 60 6 GO, EQ 60 0 YES => "";
    ADD 61 60 GO, EQ 60 5 YES => "";
    RAMSAVE 0 0 GO, LET 59 9 GO, LET 60 251 GO => "";
    ADD 60 61 GO, EQ 61 255 YES, SUB 60 61 GO, EQ 61 4 YES => "";
    RAMLOAD 60 0 GO, EQ 60 5 YES, EQ 61 4 YES, ZERO 59 0 YES => "";
    WEIGH 0 60 GO, EQ 60 1 YES, WEIGHT 61 0 GO, EQ 61 2 YES => "";
    ABILITY 7 70 GO, EQ 37 7 YES, EQ 52 70 YES => "";
    PROMPT 9 0 GO, EQ 42 9 YES, TIME 5 3 GO, EQ 48 5 YES, EQ 49 3 YES => "";
    // There are no routines.
    LET 60 9 GO, EXTERN 0 60 GO, EXTERN 2 60 GO, EQ 60 9 YES => "";
    NEWTEXT 0 0 Drops(Effect::Go) => "";
};

/// Objects are moved, the last time by RESET.
const MOVES: &[Scene] = scenes! {
    GOTO 1 0 GO, SWAP 0 1 GO, WORN 0 0 YES, CARRIED 1 0 YES, EQ 1 1 YES => "";
    CREATE 3 0 GO, ISAT 3 1 YES => "";
    DESTROY 1 0 GO, ISAT 1 252 YES, ZERO 1 0 YES => "";
    PLACE 1 254 GO, EQ 1 1 YES, PLACE 2 255 GO, ISAT 2 1 YES => "";
    // The object last referred to is 2, and then none.
    LET 51 2 GO, PUTO 0 0 GO, ISAT 2 0 YES, PUTO 255 0 GO, ISAT 2 1 YES => "";
    LET 51 5 GO, PUTO 0 0 GO, ISAT 2 1 YES => "";
    COPYOO 1 3 GO, CARRIED 3 0 YES, EQ 1 2 YES => "";
    COPYOF 0 60 GO, EQ 60 253 YES, COPYFO 60 2 GO, WORN 2 0 YES => "";
    LET 60 2 GO, COPYFO 60 2 GO, ISAT 2 2 YES => "";
    LET 60 3 GO, COPYFO 60 2 GO, ISAT 2 2 YES => "";
    LET 60 255 GO, COPYFO 60 2 GO, ISAT 2 1 YES => "";
    // 0 is worn, 1 and 3 are carried.
    DROPALL 0 0 GO, ISAT 0 1 YES, ISAT 1 1 YES, ISAT 3 1 YES, ZERO 1 0 YES => "";
    // The current location isn't one of the game's.
    PLACE 0 253 GO, LET 38 200 GO, DROPALL 0 0 GO, ISAT 0 252 YES => "";
    PLACE 1 254 GO, CREATE 1 0 GO, ISAT 1 252 YES => "";
    RESET 2 0 REDESCRIBE, AT 2 0 YES, EQ 1 1 YES, EQ 60 255 YES => "";
    CARRIED 0 0 YES, WORN 1 0 YES, ISAT 4 1 YES => "";
};

/// How reading goes on, and the texts of END, OK, ANYKEY and of two messages, the second of them empty.
const FLOW: &[Scene] = scenes! {
    DESC 0 0 REDESCRIBE => "";
    END 0 0 Does(Effect::Ask(Prompt::Again)) => "N";
    DONE 0 0 Does(Effect::Exit(true)) => "";
    NOTDONE 0 0 Does(Effect::Exit(false)) => "";
    OK 0 0 Does(Effect::Exit(true)) => "P\n";
    ANYKEY 0 0 Does(Effect::Ask(Prompt::Key)) => "Q";
    MES 0 0 GO => "Taken";
    MESSAGE 0 0 GO => "Taken\n";
    MESSAGE 1 0 GO => "\n";
    PARSE 0 0 Does(Effect::Parse) => "";
    PROCESS 2 0 Does(Effect::Call(2)) => "";
    DOALL 254 0 Does(Effect::Loop(254)), DOALL 255 0 Does(Effect::Loop(0)) => "";
    LET 38 3 GO, DOALL 255 0 Does(Effect::Loop(252)) => "";
};

/// With five routines. There is no sixth.
const ROUTINES: &[Scene] = scenes! {
    LET 100 9 GO, EXTERN 5 100 GO, EQ 100 9 YES => "";
    EXTERN 0 100 GO, EQ 100 18 YES, EXTERN 2 100 GO, EQ 100 38 YES => "";
    LET 60 9 GO, EXTERN 1 60 GO, EQ 60 19 YES, EXTERN 2 60 GO, EQ 60 40 YES => "";
    EXTERN 5 60 GO, EXTERN 60 60 GO, EXTERN 255 60 GO, EQ 60 40 YES => "";
    ZERO 0 0 YES, ZERO 1 0 NO, ZERO 3 0 YES => "";
    EXTERN 4 0 GO, EQ 0 4 YES, EQ 60 40 YES => "";
    LET 60 250 GO, EXTERN 4 60 GO, EQ 60 248 YES => "";
    EXTERN 3 60 GO, EQ 60 243 YES, EXTERN 0 60 GO, EQ 60 230 YES => "";
};

/// Positions 1 (of flag 58 at 1 and 5) and 3 are kept; the other two can't be taken back, which message 8 says.
const POSITIONS: &[Scene] = scenes! {
    LOAD 0 0 REDESCRIBE => "I\n";
    LET 58 1 GO, LET 60 11 GO, PLACE 4 2 GO, SAVE 0 0 REDESCRIBE => "";
    LET 58 7 GO, LET 60 13 GO, PLACE 4 254 GO, SAVE 0 0 REDESCRIBE => "";
    LET 60 0 GO, LET 58 2 GO, LOAD 0 0 REDESCRIBE, EQ 60 0 YES, CARRIED 4 0 YES => "I\n";
    LET 58 5 GO, LOAD 0 0 REDESCRIBE, EQ 60 11 YES, EQ 58 1 YES, ISAT 4 2 YES, EQ 1 1 YES => "";
    LET 58 3 GO, LOAD 0 0 REDESCRIBE, EQ 60 13 YES, EQ 58 7 YES, CARRIED 4 0 YES => "";
};

/// With seed 42: RANDOM twice, CHANCE of a number too small and of the least that is enough, and of 0, 50 and 100.
const DRAWS: &[Scene] = scenes! {
    RANDOM 60 0 GO, EQ 60 71 YES, RANDOM 60 0 GO, EQ 60 85 YES => "";
    CHANCE 29 0 NO, CHANCE 70 0 YES, CHANCE 50 0 NO, CHANCE 99 0 NO, CHANCE 100 0 YES => "";
    CHANCE 0 0 NO => "";
};

fn objects(alloc: Global) -> Result<Vec<ObjectRow>, AllocError> {
    let mut rows = Vec::new(alloc);
    for (name, start) in NAMES.iter().zip(PLACES) {
        let facts = ObjectFacts {
            noun: NO_WORD,
            adjective: NO_WORD,
            start,
            weight: 1,
            container: false,
            wearable: false,
        };
        let text = Text::from_slice(alloc, name)?;
        rows.push(ObjectRow { text, facts })?;
    }
    Ok(rows)
}

// The entry with these condacts, whatever the sentence is.
fn entry(alloc: Global, cases: &[Case]) -> Result<Entry, AllocError> {
    let rows = cases
        .iter()
        .map(|&(code, a, b, _)| Condact { code, a, b })
        .collect(alloc)?;
    Ok(Entry {
        verb: NO_WORD,
        noun: NO_WORD,
        condacts: Condacts { rows },
    })
}

// Table 0 has an entry for each of these scenes, and the two others have none.
fn tables(alloc: Global, scenes: &[Scene]) -> Result<Vec<Table>, AllocError> {
    let mut entries = Vec::new(alloc);
    for &(cases, _) in scenes {
        entries.push(entry(alloc, cases)?)?;
    }
    Ok(vec![in alloc;
        Table { rows: entries },
        Table::new(alloc),
        Table::new(alloc),
    ]?)
}

// A game in which table 0 has an entry for each of these scenes. System message n is the letter that stands n bytes
// after A.
fn parts(alloc: Global, scenes: &[Scene]) -> Result<GameParts, AllocError> {
    let mut system = Vec::new(alloc);
    for letter in b'A'..=b'v' {
        system.push(Text::from_slice(alloc, &[letter])?)?;
    }
    let back = Exits::from_slice(alloc, &[Exit { verb: 3, to: 0 }])?;
    Ok(GameParts {
        words: vec![in alloc;
            Word::new(*b"IN   ", 3, PREPOSITION_CLASS),
            Word::new(*b"LAMP ", 50, NOUN_CLASS),
            Word::new(*b"RED  ", 2, ADJECTIVE_CLASS),
            Word::new(*b"S    ", 3, NOUN_CLASS),
            Word::new(*b"SOON ", 2, ADVERB_CLASS),
        ]?,
        system,
        messages: vec![in alloc; Text::from_slice(alloc, b"Taken")?, Text::new(alloc)]?,
        objects: objects(alloc)?,
        locations: vec![in alloc; Text::new(alloc), Text::new(alloc), Text::new(alloc)]?,
        exits: vec![in alloc; Exits::new(alloc), back, Exits::new(alloc)]?,
        tables: tables(alloc, scenes)?,
    })
}

// The facts of these objects.
fn facts_of(alloc: Global, rows: &[ObjectRow]) -> Result<Vec<ObjectFacts>, AllocError>
    ensures facts { IfOk result (λ facts. facts.items ≡ map (λ row. row.facts) rows.now) }
{
    rows.iter().map(|row| row.facts).collect(alloc)
}

// The world at the start of this game.
fn opening_world(rt: &impl Abort, alloc: Global, game: &Game) -> Result<World, AllocError>
    ensures game { IfOk result (λ world. IsOf game.now world) }
{
    let parts = game.parts();
    let facts = facts_of(alloc, parts.objects.as_slice())?;
    assert!(rt; facts.len() <= 255 && parts.locations.len() <= 252);
    let world = World::new(facts.as_slice(), parts.locations.len() as u8, 42);
    let _objects = world.objects();
    Ok(world)
}

// What an action answers.
fn answer_of(act: Act) -> Answer {
    match (act.drop_line, act.cancel_loop) {
        (false, false) => Does(act.effect),
        (true, false) => Drops(act.effect),
        (true, true) => Cancels(act.effect),
        (false, true) => Answer::Other,
    }
}

// Reads a condact of an entry of table 0.
fn read<F: Fn(u8, u8) -> u8>(
    game: &Game,
    world: &mut World,
    routines: &Routines<F>,
    piece: &mut Piece,
    entry: u16,
    at: u8,
) -> Answer
    requires game { IsOf game.now world.old }
    requires answers { HaveAnswers F.Fn routines.now }
    requires draws { world.old.draws < 2 ^ 64 - 1 }
    ensures game { IsOf game.now world.new }
{
    let Some(c) = game.condact(0, entry, at) else {
        return Answer::Other;
    };
    if is_condition(c) {
        return Tests(test(game, world, c));
    }
    answer_of(act(game, world, routines, piece, c))
}

// Reads these condacts, which are those of an entry of table 0.
fn read_all<F: Fn(u8, u8) -> u8>(
    rt: &impl Abort,
    game: &Game,
    world: &mut World,
    routines: &Routines<F>,
    piece: &mut Piece,
    entry: u16,
    cases: &[Case],
)
    requires game { IsOf game.now world.old }
    requires answers { HaveAnswers F.Fn routines.now }
    ensures game { IsOf game.now world.new }
{
    for (at, (code, a, b, answer)) in cases.iter().enumerate() {
        assert!(rt; at < 255);
        assert!(rt; world.draws() < 1_000);
        let found = read(game, world, routines, piece, entry, at as u8);
        assert_eq!(rt;
            found,
            *answer,
            "entry {entry}, condact {at}: {code} {a} {b}"
        );
    }
}

// Reads these scenes, which are the entries of the game's table 0, each in an empty piece, with these routines.
fn run_with<F: Fn(u8, u8) -> u8>(
    rt: &impl Abort,
    alloc: Global,
    game: &Game,
    routines: &Routines<F>,
    scenes: &[Scene],
) -> Result<(), Fail>
    requires answers { HaveAnswers F.Fn routines.now }
{
    let mut world = opening_world(rt, alloc, game)?;
    let mut piece = Piece::new(alloc)?;
    for (entry, &(cases, printed)) in scenes.iter().enumerate() {
        assert!(rt; entry < 4_000);
        piece.clear();
        read_all(
            rt,
            game,
            &mut world,
            routines,
            &mut piece,
            entry as u16,
            cases,
        );
        assert_eq!(rt; piece.bytes(), printed.as_bytes(), "entry {entry}");
    }
    Ok(())
}

// Reads these scenes in a game of these parts, whose table 0 they are, with no routines.
fn run(rt: &impl Abort, alloc: Global, parts: GameParts, scenes: &[Scene]) -> Result<(), Fail> {
    let game = Game::new(parts)?;
    let routines = Routines::new(0, |_, x| x);
    run_with(rt, alloc, &game, &routines, scenes)
}

// Reads these condacts in a piece that holds this number of bytes already.
fn run_behind(
    rt: &impl Abort,
    alloc: Global,
    bytes: usize,
    cases: &'static [Case],
) -> Result<(), Fail> {
    let game = Game::new(parts(alloc, &[(cases, "")])?)?;
    let mut world = opening_world(rt, alloc, &game)?;
    let routines = Routines::new(0, |_, x| x);
    let most = vec![in alloc; b'x'; bytes]?;
    let mut piece = Piece::new(alloc)?;
    piece.push(most.as_slice());
    read_all(rt, &game, &mut world, &routines, &mut piece, 0, cases);
    Ok(())
}

// What routine n of five gives: twice the number, and n.
fn double(n: u8, x: u8) -> u8
    ensures value { result ≡ ((x * 2) % 256 + n) % 256 }
{
    x.wrapping_mul(2).wrapping_add(n)
}

// Reads these scenes with the five routines.
fn run_with_five(rt: &impl Abort, alloc: Global, scenes: &[Scene]) -> Result<(), Fail> {
    let game = Game::new(parts(alloc, scenes)?)?;
    let routines = Routines::new(5, double);
    run_with(rt, alloc, &game, &routines, scenes)
}

#[test]
fn five_routines(rt: HostRuntime) -> Result<(), Fail> {
    run_with_five(&rt, rt.alloc(), ROUTINES)
}

#[test]
fn conditions_and_actions(rt: HostRuntime) -> Result<(), Fail> {
    for scenes in [CONDITIONS, FLAGS, MOVES, DRAWS, FLOW, POSITIONS] {
        run(&rt, rt.alloc(), parts(rt.alloc(), scenes)?, scenes)?;
    }
    Ok(())
}

const TOO_LONG: [Case; 1] = [(MESSAGE, 0, 0, SPENT)];

const TOO_LONG_BEFORE_OK: [Case; 2] = [(MES, 0, 0, GO), (OK, 0, 0, SPENT)];

#[test]
fn a_text_that_does_not_fit(rt: HostRuntime) -> Result<(), Fail> {
    run_behind(&rt, rt.alloc(), 65_530, &TOO_LONG)?;
    run_behind(&rt, rt.alloc(), 65_530, &TOO_LONG_BEFORE_OK)
}

// What NOUN2 answers for a word, which may be any byte.
fn second_noun_is(game: &Game, world: &mut World, value: u8) -> Truth
    requires game { IsOf game.now world.old }
    requires draws { world.old.draws < 2 ^ 64 - 1 }
    ensures game { IsOf game.now world.new }
{
    let c = Condact {
        code: NOUN2,
        a: value,
        b: 0,
    };
    test(game, world, c)
}

// What NOUN2 answers for a word before it becomes the second noun, and then.
fn become_second_noun(rt: &impl Abort, game: &Game, world: &mut World, value: u8) -> (Truth, Truth)
    requires game { IsOf game.now world.old }
    ensures game { IsOf game.now world.new }
{
    assert!(rt; world.draws() < 1_000);
    let before = second_noun_is(game, world, value);
    world.set_flag(SECOND_NOUN_FLAG, value);
    assert!(rt; world.draws() < 1_000);
    (before, second_noun_is(game, world, value))
}

#[test]
fn a_word_that_the_game_does_not_have(rt: HostRuntime) -> Result<(), Fail> {
    let game = Game::new(parts(rt.alloc(), &[])?)?;
    let mut world = opening_world(&rt, rt.alloc(), &game)?;
    let found = (Truth::No, Truth::Yes);
    assert_eq!(rt; become_second_noun(&rt, &game, &mut world, 200), found);
    assert_eq!(rt; become_second_noun(&rt, &game, &mut world, 50), found);
    assert_eq!(rt; become_second_noun(&rt, &game, &mut world, 0), found);
    assert_eq!(rt; become_second_noun(&rt, &game, &mut world, 1), found);
    Ok(())
}
