// Bytes that come from somewhere, and lines that are made of such bytes.

use std::marker::Model;

/// Where something is written: the file, by its number among the files, the line and the column, both counted from 1.
#[derive(Clone, Copy, Drop, PartialEq, Eq, Debug)]
pub struct Origin {
    pub file: usize,
    pub line: usize,
    pub column: usize,
}

/// Some bytes, and where they are written or, where they were made, what they stand for.
#[derive(Drop)]
pub struct Fragment {
    pub origin: Origin,
    pub bytes: Vec<u8>,
}

impl Model for Fragment {
    ghost use Rattle.paw_author.specs.Fragments.{WithOrigin};

    ghost Value = { WithOrigin };

    ghost view = { λ f. record { origin = f.origin; bytes = f.bytes.items } };
}

/// A line in its parts: its tokens, and what stands before, between and after them, with the line end.
#[derive(Drop)]
pub struct LineInParts {
    pub parts: Vec<Fragment>,
}

impl Model for LineInParts {
    ghost use Rattle.paw_author.specs.Fragments.{Fragments};

    ghost Value = { Fragments };

    ghost view = { λ l. l.parts.items };
}
