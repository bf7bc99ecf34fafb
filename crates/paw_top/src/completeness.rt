// How a command ends where nothing outside fails.

ghost use Rattle.paw_top.specs.inner.Completes.{EachCompletes};

/// Where no call fails and the file that a command loads is there, the command does its work, or refuses the file or
/// the store, or memory was lacking. This follows from what is said of each command.
pub fn commands_complete()
    ensures completes { EachCompletes }
{}
