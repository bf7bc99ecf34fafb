// How reading goes on after a condact.

use crate::Turned;

/// How reading goes on after a condact of a frame: at the next condact of its entry, with an action carried out or not;
/// at the next entry of its table; or where the machine's frames say, unless the machine has stopped. In the first two
/// cases the machine doesn't hold the frame at which reading goes on.
#[derive(Clone, Copy, Drop)]
pub enum AfterCondact {
    Next(bool),
    NextEntry,
    Moved(Option<Turned>),
}
