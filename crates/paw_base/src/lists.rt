// Rows in memory, which contracts see as a list.

ghost use Rattle.std.specs.Prelude.{◌≡◌, [], IfOk};

use std::alloc::{AllocError, Global};
use std::marker::Model;

/// Some rows, in written order; contracts see them as a list.
#[derive(Drop)]
pub struct Rows<T> {
    pub rows: Vec<T>,
}

impl<T> Model for Rows<T> {
    ghost use Rattle.std.specs.Prelude.{List};
    ghost use Rattle.std.specs.Coded.{coded_list};

    ghost Value = { List T };

    ghost coded = { coded_list T.code };

    ghost view = { λ r. r.rows.items };
}

impl<T> Rows<T> {
    /// No rows.
    pub fn new(alloc: Global) -> Rows<T>
        ensures value { result ≡ [] }
    {
        Rows {
            rows: Vec::new(alloc),
        }
    }
}

impl<T: Copy> Rows<T> {
    /// These rows.
    ///
    /// # Errors
    /// AllocError where there is no memory.
    pub fn from_slice(alloc: Global, rows: &[T]) -> Result<Rows<T>, AllocError>
        ensures value { IfOk result (λ all. all ≡ rows.now) }
    {
        let rows = Vec::from_slice(alloc, rows)?;
        Ok(Rows { rows })
    }
}
