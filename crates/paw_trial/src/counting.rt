// What the session of a trial counts.

ghost use Rattle.std.specs.Prelude.{◌≡◌, IfOk};
ghost use Rattle.paw_routines.specs.Routines.{HaveAnswers};
ghost use Rattle.paw_stage.specs.inner.Memory.{standing_of};
ghost use Rattle.paw_gen.specs.Trial.{trial_lines};
ghost use Rattle.paw_trial.specs.Trial.{trial_reading};
ghost use Rattle.paw_trial.specs.inner.Session.{HoldsLines, IsTallyOf, tally_in};

use crate::Tally;
use crate::halves::STORE;
use crate::setup::TrialSetup;
use paw_base::fault::NoRoom;
use paw_base::flags::{CARRIED_FLAG, HIGH_TURNS_FLAG, LOCATION_FLAG, LOW_TURNS_FLAG};
use paw_journal::{Journal, Room, attach};
use paw_routines::routines::Routines;
use paw_stage::MemoryStage;
use paw_state::STATE_ROOM;
use std::alloc::Global;

// What the bytes of a state, which begin with the flags, count.
fn counts_in(state: &[u8; STATE_ROOM]) -> Tally
    ensures value { result ≡ tally_in state.now }
{
    Tally {
        turns: u32::from(state[LOW_TURNS_FLAG as usize])
            + 256 * u32::from(state[HIGH_TURNS_FLAG as usize]),
        at: state[LOCATION_FLAG as usize],
        carried: state[CARRIED_FLAG as usize],
    }
}

/// What the session counts once all lines were played with these routines.
///
/// # Errors
/// NoRoom for lack of memory, or where a call of the stage failed.
pub(crate) fn count_session<F: Fn(u8, u8) -> u8>(
    alloc: Global,
    setting: &TrialSetup,
    routines: &Routines<F>,
    stage: &mut MemoryStage,
) -> Result<Tally, NoRoom>
    requires answers { HaveAnswers F.Fn routines.now }
    requires holds { HoldsLines setting.now (trial_lines setting.now) (standing_of stage.old) }
    ensures tally { IfOk result (IsTallyOf (trial_reading setting.now)) }
{
    let mut room = Room::new(alloc)?;
    let Ok(at) = attach(stage, STORE) else {
        return Err(NoRoom);
    };
    let rules = routines.measure();
    let Ok(_) = Journal::find(stage, &mut room, at, setting.digest(), &rules) else {
        return Err(NoRoom);
    };
    Ok(counts_in(room.state()))
}
