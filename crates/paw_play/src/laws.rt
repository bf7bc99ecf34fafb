// The laws of sessions.

ghost use Rattle.paw_play.specs.Laws.{StandingShows, StandingGoesOn, KeptLinesStand, GoingOnIsTheReading, RoundsStand};
ghost use Rattle.paw_play.specs.Older.{OlderSessionsStand};

/// A store that stands for lines of a game shows a state that follows all rules, so it is never refused.
pub fn standing_shows()
    ensures shows { StandingShows }
{}

/// A session that is resumed goes on as the reading of all lines, those that its store stands for and those that
/// follow, from the last piece of the first ones on.
pub fn standing_goes_on()
    ensures goes_on { StandingGoesOn }
{}

/// What a store keeps of a session stands for its lines: those that it went on after, and those that it took.
pub fn kept_lines_stand()
    ensures stand { KeptLinesStand }
{}

/// Going on from the state in which the reading of some lines waits is the reading of those lines and the ones that
/// follow: the same pieces, the same end. Each such state follows all rules of the game.
pub fn going_on_is_the_reading()
    ensures goes_on { GoingOnIsTheReading }
{}

/// A session may be played in any number of rounds, from the first command on, each over what the one before left. Each
/// is cut off by a crash at any moment, is ended by a call that failed, or ends by itself. After them the store stands for
/// the lines that are kept of each, one round after the other. A round that was cut off, or that a failed write or sync
/// ended, keeps all lines that it took, or all but the last. Any other keeps all, except a last one whose piece ran out or
/// called too deep.
pub fn rounds_stand()
    ensures rounds { RoundsStand }
{}

/// In a game that never saves, such as one with neither SAVE nor LOAD, an older session, of version 1, stands for its
/// lines: if its slot in use has the first 1,371 bytes of the state after them, and the last piece, no position is
/// missing, and what is proved of a store that stands for lines holds of it.
pub fn older_sessions_stand()
    ensures stands { OlderSessionsStand }
{}
