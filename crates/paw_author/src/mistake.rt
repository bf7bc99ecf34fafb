// Faults of a source that an author writes.

ghost use Rattle.std.specs.Prelude.{◌≡◌};
ghost use Rattle.paw_author.specs.Mistakes.{wrong_line, lost_file};

use crate::fragment::Origin;
use paw_base::fault::SourceKind;
use paw_read_error::read_error::ReadError;

/// What is wrong: a file isn't there, or a line has a fault of a kind that plain sources have too.
#[derive(Clone, Copy, Drop, PartialEq, Eq, Debug)]
pub enum MistakeKind {
    File,
    Line(SourceKind),
}

/// The first fault of a source, and where it is.
#[derive(Clone, Copy, Drop, PartialEq, Eq, Debug)]
pub struct Mistake {
    pub origin: Origin,
    pub kind: MistakeKind,
}

/// Why there is no plain source: memory was lacking, or this is the first fault.
pub type AuthorError = ReadError<Mistake>;

/// A fault of a line.
pub(crate) fn wrong_line(origin: Origin, kind: SourceKind) -> Mistake
    ensures value { result ≡ wrong_line origin kind }
{
    Mistake {
        origin,
        kind: MistakeKind::Line(kind),
    }
}

/// The fault of a line that names a file which isn't there.
pub(crate) fn lost_file(origin: Origin) -> Mistake
    ensures value { result ≡ lost_file origin }
{
    Mistake {
        origin,
        kind: MistakeKind::File,
    }
}
