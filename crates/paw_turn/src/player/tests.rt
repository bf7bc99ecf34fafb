// Players of a game that asks inside calls and loops: each is taken apart between two lines and goes on, or begins
// again.

ghost use Rattle.std.specs.Prelude.{◌≡◌, true, IfOk};
ghost use Rattle.paw_routines.specs.Routines.{HaveAnswers};
ghost use Rattle.paw_turn.specs.inner.Parts.{Fits};
ghost use Rattle.paw_turn.specs.inner.Player.{IsSeated, IsStanding};

use super::Player;
use crate::turn::PlayState;
use crate::{Step, step_of};
use game::{asking_game, endless_game};
use paw_base::codes::{ANYKEY, DOALL, END, GT, LET, MINUS, OK, PROCESS, QUIT};
use paw_base::fault::SpentKind;
use paw_base::limits::LINE_LIMIT;
use paw_base::steps::StepRow;
use paw_effects::act::Prompt;
use paw_game::game::Game;
use paw_phrase::Pending;
use paw_process::{Frames, Machine, Surroundings};
use paw_routines::routines::Routines;
use paw_world::world::World;
use std::alloc::{AllocError, Global};
use std::process::Abort;
use std::test::Fail;

mod game;
mod kept;

/// What happens to a player between two lines: nothing; it is given up, and another adopts its parts; or another that
/// waits elsewhere is seated with them.
#[derive(Clone, Copy, Drop, PartialEq, Eq, Debug)]
enum Between {
    Nothing,
    Adopting,
    Seating,
}

/// The end of a line, and the piece that it brings.
type Brought = (Step, &'static str);

/// A line, and what it brings.
type Taken = (&'static str, Brought);

const MAIN: Step = Step::Waits(Prompt::Main);

/// The prompt alone.
const PROMPT: Brought = (MAIN, "What now?\n> ");

const HALL: Brought = (MAIN, "A hall.\nWhat now?\n> ");

const GARDEN: Brought = (MAIN, "A garden.\nA wind blows.\nWhat now?\n> ");

const OKAY: Brought = (MAIN, "OK.\nWhat now?\n> ");

const SWORD: Brought = (MAIN, "You shake the sword.\nWhat now?\n> ");

const SURE: Brought = (Step::Waits(Prompt::Quit), "Are you sure? ");

const AGAIN: Brought = (Step::Waits(Prompt::Again), "Another go? ");

const KEY: Brought = (Step::Waits(Prompt::Key), "Press a key. ");

const GOODBYE: Brought = (Step::Ended, "Goodbye.\n");

const OVER: Brought = (Step::Ended, "");

const UNKNOWN: Brought = (MAIN, "I don't understand.\nWhat now?\n> ");

const TOO_DEEP: Brought = (Step::TooDeep { table: 5 }, "");

const READS_TOO_MUCH: Brought = (Step::Spent(SpentKind::Condacts), "");

const TELLS_TOO_MUCH: Brought = (Step::Spent(SpentKind::Text), "");

/// A timeout, at each prompt, where none is allowed.
const IGNORED_AT_MAIN: Taken = ("~", (MAIN, ""));

const IGNORED_AT_QUIT: Taken = ("~", (Step::Waits(Prompt::Quit), ""));

const IGNORED_AT_AGAIN: Taken = ("~", (Step::Waits(Prompt::Again), ""));

const IGNORED_AT_KEY: Taken = ("~", (Step::Waits(Prompt::Key), ""));

/// Lines that lead to each prompt, and from each on.
static CASES: [&[Taken]; 14] = [
    // The loop of the outer table goes on after the question in the called one.
    &[
        ("SHAKE ALL", SURE),
        ("N", SURE),
        ("Y", SWORD),
        ("WAIT", OKAY),
    ],
    // The loop of the called table has replaced the outer one.
    &[
        ("TWIST ALL. WAIT", KEY),
        IGNORED_AT_KEY,
        ("", (MAIN, "You shake the coat.\nDone.\nOK.\nWhat now?\n> ")),
        ("LOOK", HALL),
    ],
    // The game starts anew.
    &[
        ("QUIT", SURE),
        (" y", AGAIN),
        ("yes", HALL),
        ("SHAKE COAT", SURE),
    ],
    // The game is over, and no line changes that.
    &[
        ("QUIT", SURE),
        ("Y", AGAIN),
        ("  no", GOODBYE),
        ("LOOK", OVER),
    ],
    // Ten calls are open at most; the eleventh isn't made.
    &[("NEST", OKAY), ("DEEP", TOO_DEEP)],
    // A called table that is left as not done leaves its caller to go on.
    &[
        ("NO", (MAIN, "Here the  is.\nDone.\nWhat now?\n> ")),
        ("WAIT", OKAY),
    ],
    // Describing inside a call drops the calls.
    &[("AWAY", GARDEN), ("LOOK", GARDEN)],
    // A loop without objects leaves its table as done.
    &[
        ("WHERE ALL", PROMPT),
        ("WHERE", (MAIN, "Done.\nWhat now?\n> ")),
    ],
    // What is excepted is left out of the loop, with its adjective and without it.
    &[("SHAKE ALL EXCEPT RED LAMP", SURE), ("Y", SWORD)],
    &[("SHAKE ALL EXCEPT LAMP", SURE), ("y", SWORD)],
    // The next phrase is taken inside a loop: its verb matches no later entry; where there is no phrase reading goes
    // on.
    &[
        ("TURN ALL AND WAIT", PROMPT),
        (
            "TURN ALL",
            (MAIN, "Here the lamp is.\nHere the sword is.\nWhat now?\n> "),
        ),
    ],
    // A game that starts anew starts in the hall again, and may be over later.
    &[
        ("AWAY", GARDEN),
        ("QUIT", SURE),
        ("n", PROMPT),
        ("QUIT", SURE),
        (" y", AGAIN),
        ("", HALL),
        ("QUIT", SURE),
        ("y", AGAIN),
        ("  no", GOODBYE),
        ("LOOK", OVER),
    ],
    // A line may be late, or not, at each prompt.
    &[
        ("QUIT", SURE),
        IGNORED_AT_QUIT,
        ("n", PROMPT),
        ("TIME", PROMPT),
        ("~", (MAIN, "Time passes.\nWhat now?\n> ")),
        ("QUIT", SURE),
        ("~", PROMPT),
        ("TWIST ALL", KEY),
        ("~", (MAIN, "You shake the coat.\nDone.\nWhat now?\n> ")),
    ],
    // A late line lets the game start anew, and then no line may be late.
    &[
        ("QUIT", SURE),
        ("y", AGAIN),
        IGNORED_AT_AGAIN,
        ("", HALL),
        ("TIME", PROMPT),
        ("QUIT", SURE),
        ("y", AGAIN),
        ("~", HALL),
        IGNORED_AT_MAIN,
    ],
];

/// Lines after which a player is finished, and what it answers from then on.
static FINISHING: [&[Taken]; 3] = [
    &[("DEEP", TOO_DEEP), ("LOOK", TOO_DEEP), ("~", TOO_DEEP)],
    &[
        ("SPIN", READS_TOO_MUCH),
        ("LOOK", READS_TOO_MUCH),
        ("~", READS_TOO_MUCH),
    ],
    &[
        ("FALL", TELLS_TOO_MUCH),
        ("LOOK", TELLS_TOO_MUCH),
        ("~", TELLS_TOO_MUCH),
    ],
];

// Whether a player with this end is neither spent nor too deep.
fn is_standing(step: Step) -> bool
    ensures standing { result ≡ true → IsStanding step }
{
    match step {
        Step::Waits(_) | Step::Ended => true,
        Step::Spent(_) | Step::TooDeep { .. } => false,
    }
}

/// The parts of a player that goes on elsewhere.
#[derive(Drop)]
struct Apart {
    world: World,
    machine: Machine,
    pending: Pending,
    prompt: Prompt,
}

// What a player stands with, its machine and its line made anew from what is kept of them.
fn taken_apart<F: Fn(u8, u8) -> u8>(player: Player<'_, Game, F>) -> Result<Apart, Fail>
    requires seated { IsSeated player }
    requires standing { IsStanding player.last }
    ensures fits { IfOk result (λ a. Fits player.entry.game a.world a.machine a.pending a.prompt) }
{
    let prompt = player.parts().prompt;
    let frames = player.parts().machine.frames();
    let machine = Machine::restore(player.rules.tables, &frames, prompt)?;
    let Player { state, .. } = player;
    let PlayState { surroundings, .. } = state;
    let Surroundings { world, pending, .. } = surroundings;
    let pending = Pending::of(pending.bytes(), pending.earlier());
    Ok(Apart {
        world,
        machine,
        pending,
        prompt,
    })
}

// A player that goes on where another stood; one that is spent or too deep stays.
fn taken_up<'a, R: AllocGlobal, F: Fn(u8, u8) -> u8>(
    rt: &R,
    player: Player<'a, Game, F>,
    between: Between,
) -> Result<Player<'a, Game, F>, Fail>
    requires answers { HaveAnswers F.Fn player.routines }
    requires seated { IsSeated player }
    ensures answers { IfOk result (λ p. HaveAnswers F.Fn p.routines) }
    ensures seated { IfOk result IsSeated }
{
    if between == Between::Nothing || !is_standing(step_of(player.last)) {
        return Ok(player);
    }
    let game = player.rules.tables;
    let routines = player.rules.routines;
    let apart = taken_apart(player)?;
    if between == Between::Adopting {
        let other = Player::adopt(
            rt.alloc(),
            game,
            routines,
            apart.world,
            apart.machine,
            apart.pending,
            apart.prompt,
        )?;
        return Ok(other);
    }
    let mut other = Player::new(rt.alloc(), game, routines, 8)?;
    other.start();
    other.seat(apart.world, apart.machine, apart.pending, apart.prompt);
    Ok(other)
}

// Compares the end of a line, and the piece that the player lends then.
fn compare<F: Fn(u8, u8) -> u8>(
    rt: &impl Abort,
    player: &Player<'_, Game, F>,
    wanted: Brought,
    line: &str,
    between: Between,
) {
    let (step, piece) = wanted;
    assert_eq!(rt; step_of(player.last), step, "{line:?}, {between:?}");
    assert_eq!(rt; player.piece(), piece.as_bytes(), "{line:?}, {between:?}");
}

// Takes a line.
fn take<F: Fn(u8, u8) -> u8>(rt: &impl Abort, player: &mut Player<'_, Game, F>, line: &str)
    requires answers { HaveAnswers F.Fn player.old.routines }
    requires seated { IsSeated player.old }
    ensures answers { HaveAnswers F.Fn player.new.routines }
    ensures seated { IsSeated player.new }
{
    assert!(rt; line.len() <= LINE_LIMIT);
    assert!(rt; player.parts().world.draws() < 1_000_000);
    player.take(line.as_bytes());
}

// Takes the lines of a case, and compares what each brings.
fn take_all<'a, R: Abort + AllocGlobal, F: Fn(u8, u8) -> u8>(
    rt: &R,
    first: Player<'a, Game, F>,
    between: Between,
    lines: &[Taken],
) -> Result<Player<'a, Game, F>, Fail>
    requires answers { HaveAnswers F.Fn first.routines }
    requires seated { IsSeated first }
    ensures answers { IfOk result (λ p. HaveAnswers F.Fn p.routines) }
    ensures seated { IfOk result IsSeated }
{
    let mut player = first;
    for (line, brought) in lines {
        player = taken_up(rt, player, between)?;
        take(rt, &mut player, line);
        compare(rt, &player, *brought, line, between);
    }
    Ok(player)
}

// A player after its start, which brings this.
fn player_after_start<'a, R: Abort + AllocGlobal, F: Fn(u8, u8) -> u8>(
    rt: &R,
    game: &'a Game,
    routines: &'a Routines<F>,
    first: Brought,
) -> Result<Player<'a, Game, F>, Fail>
    requires answers { HaveAnswers F.Fn routines.now }
    ensures answers { IfOk result (λ p. HaveAnswers F.Fn p.routines) }
    ensures seated { IfOk result IsSeated }
{
    let mut player = Player::new(rt.alloc(), game, routines, 7)?;
    player.start();
    compare(rt, &player, first, "the start", Between::Nothing);
    Ok(player)
}

// Starts a player anew, which brings this.
fn begin_again<F: Fn(u8, u8) -> u8>(
    rt: &impl Abort,
    player: &mut Player<'_, Game, F>,
    first: Brought,
)
    requires answers { HaveAnswers F.Fn player.old.routines }
    requires seated { IsSeated player.old }
    ensures answers { HaveAnswers F.Fn player.new.routines }
    ensures seated { IsSeated player.new }
{
    player.renew(7);
    assert!(rt; player.piece().is_empty());
    player.start();
    compare(rt, player, first, "the start", Between::Nothing);
}

// A player takes these lines after a start that brings this; what each brings is compared.
fn play_lines<R: Abort + AllocGlobal>(
    rt: &R,
    game: &Game,
    first: Brought,
    between: Between,
    lines: &[Taken],
) -> Result<(), Fail> {
    let routines = Routines::new(0, |_, x| x);
    let player = player_after_start(rt, game, &routines, first)?;
    take_all(rt, player, between, lines)?;
    Ok(())
}

#[test]
fn players_go_on_from_what_was_kept(rt: HostRuntime) -> Result<(), Fail> {
    let game = asking_game(rt.alloc())?;
    for &case in &CASES {
        play_lines(&rt, &game, HALL, Between::Nothing, case)?;
        play_lines(&rt, &game, HALL, Between::Adopting, case)?;
        play_lines(&rt, &game, HALL, Between::Seating, case)?;
    }
    Ok(())
}

// A player takes these lines, begins again, and takes others.
fn play_again<R: Abort + AllocGlobal>(
    rt: &R,
    game: &Game,
    before: &[Taken],
    lines: &[Taken],
) -> Result<(), Fail> {
    let routines = Routines::new(0, |_, x| x);
    let player = player_after_start(rt, game, &routines, HALL)?;
    let mut player = take_all(rt, player, Between::Nothing, before)?;
    begin_again(rt, &mut player, HALL);
    take_all(rt, player, Between::Nothing, lines)?;
    Ok(())
}

#[test]
fn renewed_players_begin_again(rt: HostRuntime) -> Result<(), Fail> {
    let game = asking_game(rt.alloc())?;
    for &case in &CASES {
        for &before in &CASES {
            play_again(&rt, &game, before, case)?;
        }
    }
    Ok(())
}

// A player is over after these lines.
fn is_over_after<R: Abort + AllocGlobal>(rt: &R, game: &Game, lines: &[Taken]) -> Result<(), Fail> {
    let routines = Routines::new(0, |_, x| x);
    let player = player_after_start(rt, game, &routines, HALL)?;
    let player = take_all(rt, player, Between::Nothing, lines)?;
    assert_eq!(rt; player.parts().prompt, Prompt::Over);
    Ok(())
}

#[test]
fn finished_players_answer_the_same(rt: HostRuntime) -> Result<(), Fail> {
    let game = asking_game(rt.alloc())?;
    for &lines in &FINISHING {
        is_over_after(&rt, &game, lines)?;
    }
    Ok(())
}

// What is kept of the machine of a player that waits for a key.
fn frames_at_key<R: Abort + AllocGlobal>(rt: &R, game: &Game) -> Result<Frames, Fail> {
    let routines = Routines::new(0, |_, x| x);
    let player = player_after_start(rt, game, &routines, HALL)?;
    let player = take_all(rt, player, Between::Nothing, &[("TWIST ALL", KEY)])?;
    Ok(player.parts().machine.frames())
}

#[test]
fn a_player_waits_where_its_tables_stand(rt: HostRuntime) -> Result<(), Fail> {
    let game = asking_game(rt.alloc())?;
    let frames = frames_at_key(&rt, &game)?;
    assert!(rt; frames == kept::waiting());
    Ok(())
}

// A player of a game whose first room has this text is spent from its start on.
fn is_spent<R: Abort + AllocGlobal>(rt: &R, location: &str, spent: Brought) -> Result<(), Fail> {
    let game = endless_game(rt.alloc(), location)?;
    let lines = [("LOOK", spent), ("~", spent)];
    play_lines(rt, &game, spent, Between::Nothing, &lines)
}

#[test]
fn players_that_never_come_to_a_prompt_are_spent(rt: HostRuntime) -> Result<(), Fail> {
    is_spent(&rt, "", READS_TOO_MUCH)?;
    is_spent(&rt, "A cave.", TELLS_TOO_MUCH)
}

// The step of a condact, and whether it has a yes.
fn step(table: u8, entry: u16, at: u8, code: u8, yes: bool) -> StepRow {
    StepRow {
        table,
        entry,
        at,
        code,
        yes,
    }
}

// The steps of NEST: two before the calls, three in each of the nine calls that call on, and two where the tenth
// doesn't.
fn nested_steps() -> [StepRow; 31] {
    let mut rows = [step(5, 0, 0, GT, true); 31];
    rows[0] = step(0, 4, 0, LET, true);
    rows[1] = step(0, 4, 1, PROCESS, true);
    for call in 0..9 {
        rows[3 * call + 3] = step(5, 0, 1, MINUS, true);
        rows[3 * call + 4] = step(5, 0, 2, PROCESS, true);
    }
    rows[29] = step(5, 0, 0, GT, false);
    rows[30] = step(0, 4, 2, OK, true);
    rows
}

// Compares the steps of the last of these lines.
fn compare_steps<R: Abort + AllocGlobal>(
    rt: &R,
    game: &Game,
    lines: &[Taken],
    steps: &[StepRow],
) -> Result<(), Fail> {
    let routines = Routines::new(0, |_, x| x);
    let player = player_after_start(rt, game, &routines, HALL)?;
    let player = take_all(rt, player, Between::Nothing, lines)?;
    assert_eq!(rt; player.steps().rows(), steps);
    assert_eq!(rt; player.steps().count() as usize, steps.len());
    Ok(())
}

/// A step as a row: its table, its entry, its place, its condact, and whether it has a yes.
type Told = (u8, u16, u8, u8, bool);

/// Lines, and the steps of the last of them.
static STEPS: [(&[Taken], &[Told]); 6] = [
    (
        &[("TWIST ALL", KEY)],
        &[
            (0, 2, 0, DOALL, true),
            (0, 3, 0, PROCESS, true),
            (4, 0, 0, DOALL, true),
            (4, 1, 0, ANYKEY, true),
        ],
    ),
    // A late line that is ignored leaves no steps.
    (&[("TWIST ALL", KEY), IGNORED_AT_KEY], &[]),
    (&[("QUIT", SURE)], &[(0, 6, 0, QUIT, true)]),
    (&[("QUIT", SURE), ("Y", AGAIN)], &[(0, 6, 1, END, true)]),
    (&[("QUIT", SURE), ("N", PROMPT)], &[]),
    (&[("XYZZY", UNKNOWN)], &[]),
];

// The steps of these rows.
fn steps_of(alloc: Global, rows: &[Told]) -> Result<Vec<StepRow>, AllocError> {
    let mut steps = Vec::new(alloc);
    for &(table, entry, at, code, yes) in rows {
        steps.push(step(table, entry, at, code, yes))?;
    }
    Ok(steps)
}

#[test]
fn a_player_keeps_the_steps_of_the_last_piece(rt: HostRuntime) -> Result<(), Fail> {
    let game = asking_game(rt.alloc())?;
    for &(lines, rows) in &STEPS {
        let steps = steps_of(rt.alloc(), rows)?;
        compare_steps(&rt, &game, lines, steps.as_slice())?;
    }
    // Steps go as deep as calls do.
    compare_steps(&rt, &game, &[("NEST", OKAY)], &nested_steps())
}
