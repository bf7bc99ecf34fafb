// The laws of reading.

ghost use Rattle.paw_reading.specs.inner.Longer.{TablesGoOn, PathsGoOn, TurnsGoOn, PastStays};
ghost use Rattle.paw_reading.specs.inner.Longer.{LongerReading, LongerText};
ghost use Rattle.paw_reading.specs.inner.Pieces.{PiecesOfLines};
ghost use Rattle.paw_reading.specs.inner.Waits.{ReadingsStopRightly, GoingOnStopsRightly};
ghost use Rattle.paw_reading.specs.inner.Waits.{ReadingsAreBounded, GoingOnIsBounded};
ghost use Rattle.paw_reading.specs.inner.Rules.{ReadingOn};
ghost use Rattle.paw_reading.specs.inner.Saving.{ReadingsKeepNoPosition, GoingOnLeavesPositions};
ghost use Rattle.paw_reading.specs.inner.Always.{ReadingsHoldBytes, GoingOnHoldsBytes, ReadingsShowOwnBytes};
ghost use Rattle.paw_reading.specs.inner.Turn.{TurnsEnd, EndsOnce, GoingOnEnds, GoesOnOnce, WaitsOn, GoingOnIsReading};

/// Every reading ends: the phases that a turn is granted are enough.
pub fn turns_end()
    ensures ends { TurnsEnd }
{}

/// Every reading has one ending, however many phases more are granted.
pub fn ends_once()
    ensures once { EndsOnce }
{}

/// Going on from a prompt ends.
pub fn going_on_ends()
    ensures ends { GoingOnEnds }
{}

/// Going on from a prompt has one ending, however many phases more are granted.
pub fn goes_on_once()
    ensures once { GoesOnOnce }
{}

/// Reading on follows its rules, one for each way in which it may go on.
pub fn reading_on()
    ensures rules { ReadingOn }
{}

/// A reading of tables that waits closes the same pieces where more lines come, and then goes on along its path.
pub fn tables_go_on()
    ensures tables { TablesGoOn }
    ensures paths { PathsGoOn }
{}

/// Going on from where the reading of some lines waits is the reading of the longer list.
pub fn going_on_is_reading()
    ensures turns { TurnsGoOn }
    ensures readings { GoingOnIsReading }
{}

/// The reading of more lines has the pieces of some of them, and then those of going on with the others, which see
/// nothing of what was closed before.
pub fn longer_reading()
    ensures past { PastStays }
    ensures pieces { LongerReading }
    ensures text { LongerText }
{}

/// A reading closes one piece before its lines, and one for each line that it took.
pub fn pieces_of_lines()
    ensures counted { PiecesOfLines }
{}

/// With no line going on is the wait itself.
pub fn waits_on()
    ensures waits { WaitsOn }
{}

/// A reading of a valid game waits only where it may: the open tables lead from one to the next, each by its PROCESS,
/// to QUIT, END or ANYKEY, and the open loop is one of theirs. At the main prompt, and where the game is over, nothing
/// is open and nothing is left of the line. Each object stands at a place of the game, now and in the saved position,
/// each flag is a byte, at most 255 bytes are left of the line, and nothing of a piece is open.
pub fn stops_rightly()
    ensures readings { ReadingsStopRightly }
    ensures going_on { GoingOnStopsRightly }
{}

/// Each piece of a reading draws at most 200,000 random words and has at most 65,535 bytes, and what was read in it is
/// kept.
pub fn stays_bounded()
    ensures readings { ReadingsAreBounded }
    ensures going_on { GoingOnIsBounded }
{}

/// A game that never saves keeps no position: whatever the seed and the lines, there is none where its reading waits or
/// has ended. So it is with a game that has neither SAVE nor LOAD. LOAD may stand there: it takes a position back and
/// keeps none.
pub fn keeps_no_position()
    ensures readings { ReadingsKeepNoPosition }
    ensures going_on { GoingOnLeavesPositions }
{}

/// Flags and numbers stay bytes: wherever a reading of a valid game waits or has ended, however it ended, each flag is a
/// byte, and so is the place of each object, now, in the saved position and in each kept one, each byte that is left of
/// the line, and the verb before it.
pub fn holds_bytes()
    ensures readings { ReadingsHoldBytes }
    ensures going_on { GoingOnHoldsBytes }
{}

/// The text of a reading of a valid game has only bytes that a text of the game, a number or a mark has: a digit, a
/// capital letter, a newline, a space, one of `,.[]`, a letter of `and`, or a byte of a message, an object or a location.
pub fn shows_own_bytes()
    ensures readings { ReadingsShowOwnBytes }
{}
