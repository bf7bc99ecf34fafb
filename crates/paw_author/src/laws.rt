// What holds of plain sources.

ghost use Rattle.paw_author.specs.Laws.{PlainStays, LinesAreTheFile};

/// A plain source comes out as it is, and the lines of a file are its bytes up to its end.
pub fn plain_sources_stay()
    ensures plain { PlainStays }
    ensures bytes { LinesAreTheFile }
{}
