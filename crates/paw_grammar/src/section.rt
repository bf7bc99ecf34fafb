// The sections of a source.

/// The section in which a line of a source stands: before the first header, or after the header of this name.
#[derive(Clone, Copy, Drop, PartialEq, Eq, Debug)]
pub enum Section {
    Before,
    Voc,
    Stx,
    Mtx,
    Otx,
    Ltx,
    Con,
    Obj,
    Pro,
}
