// Three routines, and none.

ghost use Rattle.std.specs.Prelude.{◌≡◌, ◌+◌, ◌%◌};

use paw_routines::program::{ROUTINES, give};
use paw_routines::routines::Routines;

#[test]
fn three_routines(rt: HostRuntime) {
    let routines = Routines::new(ROUTINES, give);
    for (n, x, answer) in [
        (0, 0, Some(255)),
        (0, 9, Some(246)),
        (1, 9, Some(4)),
        (1, 255, Some(127)),
        (2, 246, Some(6)),
        (2, 0, Some(0)),
        (2, 255, Some(8)),
        (3, 9, None),
        (255, 0, None),
    ] {
        assert_eq!(rt; routines.call(n, x), answer, "routine {n} of {x}");
    }
    let measure = [
        0x15, 0xd9, 0x80, 0xf4, 0xd2, 0x35, 0x39, 0x54, 0x47, 0x63, 0x10, 0xbb, 0xb8, 0xaf, 0xf7,
        0xac, 0xc8, 0xb9, 0x0e, 0x4a, 0x5b, 0xdc, 0x7c, 0x1b, 0xe6, 0xc9, 0x5e, 0x8c, 0x3e, 0xd0,
        0x3e, 0x92,
    ];
    assert_eq!(rt; routines.measure(), measure);
}

// A routine that promises its answer only modulo 256.
fn count_on(_: u8, x: u8) -> u8
    ensures value { result % 256 ≡ (x + 1) % 256 }
{
    x.wrapping_add(1)
}

#[test]
fn an_answer_that_is_told_modulo_256(rt: HostRuntime) {
    let routines = Routines::new(5, count_on);
    assert_eq!(rt; routines.call(4, 254), Some(255));
    assert_eq!(rt; routines.call(0, 255), Some(0));
    assert_eq!(rt; routines.call(5, 255), None);
}

#[test]
fn no_routines(rt: HostRuntime) {
    let routines = Routines::new(0, |_, x| x);
    assert_eq!(rt; routines.call(0, 7), None);
    let measure = [
        0x6e, 0x34, 0x0b, 0x9c, 0xff, 0xb3, 0x7a, 0x98, 0x9c, 0xa5, 0x44, 0xe6, 0xbb, 0x78, 0x0a,
        0x2c, 0x78, 0x90, 0x1d, 0x3f, 0xb3, 0x37, 0x38, 0x76, 0x85, 0x11, 0xa3, 0x06, 0x17, 0xaf,
        0xa0, 0x1d,
    ];
    assert_eq!(rt; routines.measure(), measure);
}
