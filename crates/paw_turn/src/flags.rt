// What a turn does to the flags by itself.

ghost use Rattle.std.specs.Prelude.{◌≡◌};
ghost use Rattle.paw_world.specs.World.{flag_lowered, flag_lowered_if, is_dark, is_unlit};
ghost use Rattle.paw_reading.specs.Run.{with_timeout};
ghost use Rattle.paw_reading.specs.Turn.{location_described, time_frame_passed, turn_counted};
ghost use Rattle.paw_turn.specs.inner.Phases.{ChangesFlags};

use paw_base::flags::{
    DARK_FLAG, DARK_FRAME_FLAG, DARK_VIEW_FLAG, FIRST_FRAME_FLAG, HIGH_TURNS_FLAG, LAST_FRAME_FLAG,
    LOW_TURNS_FLAG, TIMED_OUT_BIT, TIMED_OUT_FLAG, UNLIT_FRAME_FLAG, UNLIT_VIEW_FLAG, VIEW_FLAG,
};
use paw_effects::counts::turns_taken;
use paw_effects::presence::is_lit;
use paw_world::world::World;

// A flag loses one unless it is 0.
fn fall(world: &mut World, f: u8)
    ensures value { world.new ≡ flag_lowered f world.old }
    ensures only { ChangesFlags world.old world.new }
{
    let x = world.flag(f);
    world.set_flag(f, x.saturating_sub(1));
}

// Whether it is dark.
fn is_dark(world: &World) -> bool
    ensures value { result ≡ is_dark world.now }
{
    world.flag(DARK_FLAG) != 0
}

/// Whether it is dark, and the light source isn't present.
pub(crate) fn is_unlit(world: &World) -> bool
    ensures value { result ≡ is_unlit world.now }
{
    is_dark(world) && !is_lit(world)
}

// Lets one flag fall in the dark, and another without light.
fn fall_in_dark(world: &mut World, dark: u8, unlit: u8)
    ensures value { world.new ≡
        flag_lowered_if (is_unlit world.old) unlit (flag_lowered_if (is_dark world.old) dark world.old) }
    ensures only { ChangesFlags world.old world.new }
{
    let without_light = is_unlit(world);
    if is_dark(world) {
        fall(world, dark);
    }
    if without_light {
        fall(world, unlit);
    }
}

/// Lets the flags fall that fall when a location is described.
pub(crate) fn describe(world: &mut World)
    ensures value { world.new ≡ location_described world.old }
    ensures only { ChangesFlags world.old world.new }
{
    fall(world, VIEW_FLAG);
    fall_in_dark(world, DARK_VIEW_FLAG, UNLIT_VIEW_FLAG);
}

/// Lets the flags fall that fall in each time frame, after table 2.
pub(crate) fn pass_time_frame(world: &mut World)
    ensures value { world.new ≡ time_frame_passed world.old }
    ensures only { ChangesFlags world.old world.new }
{
    fall(world, FIRST_FRAME_FLAG);
    fall(world, 6);
    fall(world, 7);
    fall(world, LAST_FRAME_FLAG);
    fall_in_dark(world, DARK_FRAME_FLAG, UNLIT_FRAME_FLAG);
}

/// Counts one more turn, up to 65,535.
pub(crate) fn count_turn(world: &mut World)
    ensures value { world.new ≡ turn_counted world.old }
    ensures only { ChangesFlags world.old world.new }
{
    let next = turns_taken(world).saturating_add(1);
    world.set_flag(LOW_TURNS_FLAG, (next % 256) as u8);
    world.set_flag(HIGH_TURNS_FLAG, (next / 256) as u8);
}

/// Sets bit 7 of flag 49 to whether the last line was a timeout.
pub(crate) fn set_timeout(world: &mut World, timeout: bool)
    ensures value { world.new ≡ with_timeout timeout world.old }
    ensures only { ChangesFlags world.old world.new }
{
    let rest = world.flag(TIMED_OUT_FLAG) % TIMED_OUT_BIT;
    world.set_flag(
        TIMED_OUT_FLAG,
        if timeout { TIMED_OUT_BIT + rest } else { rest },
    );
}
