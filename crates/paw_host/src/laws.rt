// The laws of hosting.

ghost use Rattle.paw_host.specs.Laws.{EachPlaysAlone, PiecesAreAnswered, NoFileIsLeftOut, MayBeBegunAgain};

/// Each plays as if alone: whatever lines of others come between, the session and the answers of a name depend only on
/// the session that it had and on its own lines.
pub fn each_plays_alone()
    ensures alone { EachPlaysAlone }
{}

/// A player whose texts were all taken was answered with the pieces of the game, one for each text.
pub fn pieces_are_answered()
    ensures pieces { PiecesAreAnswered }
{}

/// Whatever the files of names hold, each is of a session with which hosting may begin: none, one that stands at lines,
/// one that goes on from the state that its bytes show, or one that is refused. So no file empties what is promised.
pub fn no_file_is_left_out()
    ensures any { NoFileIsLeftOut }
{}

/// Hosting may be cut off by a crash at any moment, inside any call, and begun again over whatever the crash leaves:
/// each name then has its session before the line that was being answered, or after it. A name whose first session was
/// being made may have one that stands at no lines, or a file that is refused until it is taken away.
pub fn may_be_begun_again()
    ensures again { MayBeBegunAgain }
{}
