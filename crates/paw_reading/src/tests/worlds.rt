// Worlds: flags, places, weights, kept positions and draws.

use paw_base::flags;
use paw_base::parts::ObjectFacts;
use paw_world::world::World;
use std::process::Abort;

fn thing(start: u8, weight: u8, container: bool) -> ObjectFacts {
    ObjectFacts {
        noun: 255,
        adjective: 255,
        start,
        weight,
        container,
        wearable: false,
    }
}

fn move_to(rt: &impl Abort, world: &mut World, o: u8, p: u8) {
    assert!(rt; o < world.objects());
    world.move_to(o, p);
}

fn place(rt: &impl Abort, world: &World, o: u8) -> u8 {
    assert!(rt; o < world.objects());
    world.place(o)
}

fn weight(rt: &impl Abort, world: &World, o: u8) -> u8 {
    assert!(rt; o < world.objects());
    world.weight(o)
}

fn draw(rt: &impl Abort, world: &mut World) -> u32 {
    assert!(rt; world.draws() < 1_000_000);
    world.draw()
}

fn skip(rt: &impl Abort, world: &mut World, n: u32) {
    assert!(rt; world.draws() < 1_000_000);
    world.skip(n as u64);
}

// The words were computed by a program of its own, which gives the published first words of state 42 on stream 54.
#[test]
fn words_of_seed_42(rt: HostRuntime) {
    let mut world = World::new(&[], 1, 42);
    for word in [
        0x21b7_56ee,
        0xc15e_f750,
        0x9548_a9bd,
        0x35db_428d,
        0xf007_1649,
        0xa243_807f,
        0xb4c5_bdd2,
        0x103c_a9d2,
    ] {
        assert_eq!(rt; draw(&rt, &mut world), word);
    }
    assert_eq!(rt; world.draws(), 8);
    assert_eq!(rt; world.seed(), 42);
}

#[test]
fn chances_after_a_skip(rt: HostRuntime) {
    let mut world = World::new(&[], 1, 42);
    skip(&rt, &mut world, 1000);
    for chance in [45, 39, 72, 96] {
        assert_eq!(rt; 1 + draw(&rt, &mut world) % 100, chance);
    }
    world.restart();
    assert_eq!(rt; world.draws(), 1004);
}

// Each of twelve containers of weight 1 is in the one before.
#[test]
fn nested_containers(rt: HostRuntime) {
    let mut facts = [thing(252, 1, true); 12];
    for k in 1u8..12 {
        facts[k as usize].start = k - 1;
    }
    let mut world = World::new(&facts, 252, 0);
    assert_eq!(rt; weight(&rt, &world, 11), 1);
    assert_eq!(rt; weight(&rt, &world, 10), 2, "one level");
    assert_eq!(rt; weight(&rt, &world, 1), 11, "ten levels");
    assert_eq!(rt; weight(&rt, &world, 0), 11, "eleven levels");
    move_to(&rt, &mut world, 0, 254);
    move_to(&rt, &mut world, 5, 253);
    assert_eq!(rt; world.carried_weight(), 5 + 7);
    move_to(&rt, &mut world, 0, 11);
    move_to(&rt, &mut world, 5, 4);
    assert_eq!(rt; weight(&rt, &world, 0), 11, "round and round");
}

#[test]
fn weightless_containers_and_great_weights(rt: HostRuntime) {
    let facts = [
        thing(254, 0, true),
        thing(0, 63, true),
        thing(1, 63, true),
        thing(1, 63, false),
        thing(2, 63, false),
        thing(2, 63, false),
        thing(254, 63, false),
        thing(6, 63, false),
    ];
    let mut world = World::new(&facts, 252, 0);
    assert_eq!(rt; weight(&rt, &world, 0), 0, "it weighs nothing");
    assert_eq!(rt; weight(&rt, &world, 2), 3 * 63);
    assert_eq!(rt; weight(&rt, &world, 1), 255, "capped");
    assert_eq!(rt; weight(&rt, &world, 6), 63, "no container");
    assert_eq!(rt; world.carried_weight(), 63);
    move_to(&rt, &mut world, 2, 253);
    assert_eq!(rt; world.carried_weight(), 4 * 63);
    move_to(&rt, &mut world, 3, 254);
    assert_eq!(rt; world.carried_weight(), 255);
}

#[test]
fn the_least_object_at_a_place(rt: HostRuntime) {
    let facts = [thing(254, 1, false); 200];
    let mut world = World::new(&facts, 252, 7);
    move_to(&rt, &mut world, 0, 3);
    move_to(&rt, &mut world, 64, 3);
    move_to(&rt, &mut world, 199, 3);
    assert_eq!(rt; world.flag(flags::CARRIED_FLAG), 197);
    assert_eq!(rt; world.first_at(3, None), Some(0));
    assert_eq!(rt; world.first_at(3, Some(0)), Some(64));
    assert_eq!(rt; world.first_at(3, Some(64)), Some(199));
    assert_eq!(rt; world.first_at(3, Some(199)), None);
    assert_eq!(rt; world.first_at(254, Some(63)), Some(65));
    assert_eq!(rt; world.first_at(254, Some(255)), None);
    world.return_objects();
    assert_eq!(rt; world.first_at(3, None), None);
    assert_eq!(rt; world.flag(flags::CARRIED_FLAG), 200);
}

#[test]
fn a_saved_position(rt: HostRuntime) {
    let mut world = World::new(&[thing(254, 1, false)], 252, 7);
    move_to(&rt, &mut world, 0, 3);
    world.set_flag(30, 9);
    world.set_flag(31, 8);
    world.ramsave();
    assert!(rt; world.saved());
    assert_eq!(rt; world.saved_flag(31), 8);
    move_to(&rt, &mut world, 0, 254);
    world.set_flag(30, 0);
    world.set_flag(31, 0);
    world.ramload(30);
    assert_eq!(rt; world.flag(flags::CARRIED_FLAG), 0);
    assert_eq!(rt; world.flag(30), 9);
    assert_eq!(rt; world.flag(31), 0, "flags above 30 stay");
    assert_eq!(rt; place(&rt, &world, 0), 3);
}

#[test]
fn a_game_begun_anew(rt: HostRuntime) {
    let mut world = World::new(&[thing(254, 1, false)], 252, 7);
    world.ramload(255);
    assert!(rt; !world.saved());
    move_to(&rt, &mut world, 0, 3);
    world.ramsave();
    world.restart();
    assert_eq!(rt; place(&rt, &world, 0), 254);
    assert_eq!(rt; world.flag(flags::CARRIED_FLAG), 1);
    assert_eq!(rt; world.flag(flags::VERB_FLAG), 255);
    assert_eq!(rt; world.locations(), 252);
    assert!(rt; world.saved());
}

#[test]
fn a_position_that_is_put_back(rt: HostRuntime) {
    let mut world = World::new(&[thing(254, 1, false); 3], 252, 7);
    assert!(rt; world.saved_position().is_none());
    let mut flags = [0; 256];
    flags[1] = 9;
    flags[255] = 8;
    assert_eq!(rt; world.objects(), 3);
    world.set_position(&flags, &[2, 254, 2]);
    assert_eq!(rt; world.flags()[1], 9, "nothing is counted");
    assert_eq!(rt; world.flags()[255], 8);
    assert_eq!(rt; world.places(), [2, 254, 2].as_slice());
    assert_eq!(rt; world.first_at(2, Some(0)), Some(2));
    assert_eq!(rt; world.first_at(254, None), Some(1));
    world.ramsave();
    world.restart();
    let (_, kept) = world.saved_position().expect(&rt, "a saved position");
    assert_eq!(rt; kept, [2, 254, 2].as_slice());
}

fn saved_flag(rt: &impl Abort, world: &World, f: u8) -> u8 {
    assert!(rt; world.saved());
    world.saved_flag(f)
}

fn kept_flag(rt: &impl Abort, world: &World, n: u8, f: u8) -> u8 {
    assert!(rt; n < 4);
    assert!(rt; world.has_kept(n));
    world.kept_flag(n, f)
}

fn kept_place(rt: &impl Abort, world: &World, n: u8, o: u8) -> u8 {
    assert!(rt; n < 4);
    assert!(rt; o < world.objects());
    assert!(rt; world.has_kept(n));
    world.kept_place(n, o)
}

#[test]
fn kept_positions(rt: HostRuntime) {
    let mut world = World::new(&[thing(254, 1, false); 2], 252, 7);
    for n in 0u8..4 {
        assert!(rt; !world.has_kept(n));
    }
    move_to(&rt, &mut world, 0, 3);
    world.set_flag(30, 9);
    world.keep(1);
    world.ramsave();
    move_to(&rt, &mut world, 0, 4);
    world.set_flag(30, 8);
    world.set_flag(255, 7);
    world.keep(3);
    assert!(rt; !world.recall(2), "nothing was kept");
    assert_eq!(rt; world.flag(30), 8);
    world.restart();
    assert!(rt; world.recall(1));
    assert_eq!(rt; world.flag(30), 9);
    assert_eq!(rt; world.flag(255), 0);
    assert_eq!(rt; world.flag(flags::CARRIED_FLAG), 1, "nothing is counted");
    assert_eq!(rt; place(&rt, &world, 0), 3);
    assert_eq!(rt; world.first_at(254, None), Some(1));
    assert_eq!(rt; saved_flag(&rt, &world, 30), 9);
    assert!(rt; world.has_kept(1) && world.has_kept(3));
    assert_eq!(rt; kept_flag(&rt, &world, 3, 255), 7);
    let (_, places) = world.kept_position(3).expect(&rt, "a kept position");
    assert_eq!(rt; places, [4, 254].as_slice());
}

#[test]
fn a_kept_position_that_is_put_back(rt: HostRuntime) {
    let mut world = World::new(&[thing(254, 1, false); 2], 252, 7);
    let mut flags = [0; 256];
    flags[1] = 6;
    assert_eq!(rt; world.objects(), 2);
    world.set_kept(0, &flags, &[252, 253]);
    assert_eq!(rt; kept_flag(&rt, &world, 0, 1), 6);
    assert_eq!(rt; kept_place(&rt, &world, 0, 1), 253);
    assert_eq!(rt; place(&rt, &world, 1), 254);
    assert!(rt; world.recall(0));
    assert_eq!(rt; world.flag(flags::CARRIED_FLAG), 6);
    assert_eq!(rt; place(&rt, &world, 1), 253);
}

fn facts(rt: &impl Abort, world: &World, o: u8) -> ObjectFacts {
    assert!(rt; o < world.objects());
    world.facts(o)
}

fn saved_place(rt: &impl Abort, world: &World, o: u8) -> u8 {
    assert!(rt; o < world.objects());
    assert!(rt; world.saved());
    world.saved_place(o)
}

#[test]
fn the_facts_and_the_saved_places_of_objects(rt: HostRuntime) {
    let facts_of = [thing(254, 1, false), thing(3, 5, true)];
    let mut world = World::new(&facts_of, 252, 7);
    move_to(&rt, &mut world, 1, 9);
    world.ramsave();
    move_to(&rt, &mut world, 1, 4);
    assert_eq!(rt; saved_place(&rt, &world, 0), 254);
    assert_eq!(rt; saved_place(&rt, &world, 1), 9);
    assert_eq!(rt; place(&rt, &world, 1), 4);
    assert_eq!(rt; facts(&rt, &world, 0), thing(254, 1, false));
    assert_eq!(rt; facts(&rt, &world, 1), thing(3, 5, true));
}
