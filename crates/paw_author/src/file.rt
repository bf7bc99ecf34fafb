// Files and switches.

use std::marker::Model;

/// A switch that is on, by its name.
#[derive(Drop)]
pub struct Switch {
    pub bytes: Vec<u8>,
}

impl Model for Switch {
    ghost use Rattle.paw_base.specs.Bytes.{Name};

    ghost Value = { Name };

    ghost view = { λ n. n.bytes.items };
}

/// A file: its name, as lines name it that include it, and its bytes.
#[derive(Drop)]
pub struct File {
    pub name: Vec<u8>,
    pub bytes: Vec<u8>,
}

impl Model for File {
    ghost use Rattle.paw_author.specs.Files.{NamedFile};

    ghost Value = { NamedFile };

    ghost view = { λ f. record { name = f.name.items; bytes = f.bytes.items } };
}
