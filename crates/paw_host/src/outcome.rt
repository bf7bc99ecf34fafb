// How hosting ends.

ghost use Rattle.std.specs.Prelude.{◌≡◌};
ghost use Rattle.paw_host.specs.Outcomes.{host_status};

use paw_stage::StageCall;

/// How hosting ends. InputEnded: no line is left, and each got its reply. Usage: the words have no form. ImageDamaged:
/// the file is no image of a valid game; the offset of the first field that breaks its rule. Outside: a call of the
/// stage failed. Memory: lack of memory, before the first line is asked for. Long: as many lines were taken as the host
/// takes.
#[derive(Clone, Copy, Drop, PartialEq, Eq, Debug)]
pub enum HostOutcome {
    InputEnded,
    Usage,
    ImageDamaged { at: u64 },
    Outside(StageCall),
    Memory,
    Long { lines: u64 },
}

/// The exit status for lack of memory.
pub const NO_MEMORY: u8 = 8;

impl HostOutcome {
    /// The exit status of the program.
    pub fn status(&self) -> u8
        ensures value { result ≡ host_status self.now }
    {
        match self {
            HostOutcome::InputEnded => 0,
            HostOutcome::Usage => 1,
            HostOutcome::ImageDamaged { .. } => 3,
            HostOutcome::Outside(_) => 7,
            HostOutcome::Memory => NO_MEMORY,
            HostOutcome::Long { .. } => 9,
        }
    }
}
