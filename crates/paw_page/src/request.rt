// What a page asks for.

use paw_base::lists::Rows;

/// A file of a request.
#[derive(Drop)]
pub struct PageFile {
    pub name: String,
    pub bytes: Rows<u8>,
}

/// What a page asks for: the words of a command, the files that stand there, and the lines to be typed.
#[derive(Drop)]
pub struct HeldRequest {
    pub words: Vec<String>,
    pub files: Vec<PageFile>,
    pub lines: Vec<Rows<u8>>,
}

/// Why a page gets no answer: the bytes are no request, or memory is lacking.
#[derive(Clone, Copy, Drop, PartialEq, Eq, Debug)]
pub enum NoAnswer {
    NoRequest,
    Memory,
}
