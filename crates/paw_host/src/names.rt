// What a line asks for, and the name of the file that keeps a session.

ghost use Rattle.std.specs.Prelude.{◌≡◌, ◌==◌, ◌+◌, ◌≤◌, length, position, true, vec_capacity, IfSome};
ghost use Rattle.std.specs.List.{list_all};
ghost use Rattle.paw_host.specs.Names.{is_name_byte, is_name, line_split, request_in, store_name};
ghost use Rattle.paw_host.specs.inner.Names.{asks, SpellsRequest};
ghost use Rattle.paw_host.specs.declared.names.TheConstants.{STORE_LIMIT};

use paw_base::fault::NoRoom;
use std::alloc::Global;
use std::marker::Model;
use std::str;

/// The most bytes of a name.
const NAME_LIMIT: usize = 16;

/// The end of the name of a session's file, after the player's name.
const STORE_END: &[u8] = b".paw";

/// The most bytes of the name of a file.
const STORE_LIMIT: usize = 20;

/// What a line asks for: the name of a player, and the text after the name, if there is one.
#[derive(Clone, Copy, Drop)]
pub(crate) struct Request<'a> {
    pub name: &'a [u8],
    pub text: Option<&'a [u8]>,
}

// Whether a byte may stand in a name: a to z, or 0 to 9.
fn is_name_byte(byte: u8) -> bool
    ensures value { result ≡ is_name_byte byte }
{
    byte.is_ascii_lowercase() || byte.is_ascii_digit()
}

fn are_name_bytes(name: &[u8]) -> bool
    ensures value { result ≡ list_all is_name_byte name.now }
{
    name.iter().all(|byte| is_name_byte(*byte))
}

// Whether this is a name: 1 to 16 such bytes.
fn is_name(name: &[u8]) -> bool
    ensures value { result ≡ is_name name.now }
{
    !name.is_empty() && name.len() <= NAME_LIMIT && are_name_bytes(name)
}

fn first_space(line: &[u8]) -> Option<usize>
    ensures value { result ≡ position (λ byte. byte == 32) line.now }
    ensures within { IfSome result (λ at. at + 1 ≤ length line.now) }
{
    line.iter().position(|byte| *byte == b' ')
}

// The request of a line, which is split at its first space.
fn split_request<'a>(line: &'a [u8]) -> Request<'a>
    ensures value { asks result ≡ line_split line.now }
{
    match first_space(line) {
        Some(at) => Request {
            name: &line[..at],
            text: Some(&line[at + 1..]),
        },
        None => Request {
            name: line,
            text: None,
        },
    }
}

/// What a line of at most 255 bytes asks for; None where it is neither a name nor a name, a space and a text.
pub(crate) fn request_in<'a>(line: &'a [u8]) -> Option<Request<'a>>
    ensures value { SpellsRequest result (request_in line.now) }
    ensures name { IfSome result (λ r. is_name r.name.now ≡ true) }
    ensures short { IfSome result (λ r. IfSome r.text (λ text. length text.now ≤ length line.now)) }
{
    let request = split_request(line);
    if is_name(request.name) {
        Some(request)
    } else {
        None
    }
}

// Puts the name of the file that keeps the session of this name, in the memory that is there.
fn spell_store(bytes: &mut Vec<u8>, name: &[u8])
    requires name { is_name name.now ≡ true }
    requires room { STORE_LIMIT ≤ vec_capacity bytes.old }
    ensures value { bytes.new.items ≡ store_name name.now }
    ensures room { STORE_LIMIT ≤ vec_capacity bytes.new }
{
    bytes.clear();
    bytes.extend_from_slice(name).unwrap();
    bytes.extend_from_slice(STORE_END).unwrap();
}

/// The name of the file that keeps a session. It takes all its memory when it is made.
#[derive(Drop)]
pub(crate) struct StoreName {
    bytes: Vec<u8>,
}

impl Model for StoreName {
    ghost use Rattle.std.specs.Prelude.{◌≤◌, vec_capacity};
    ghost use Rattle.std.specs.Str.{IsUtf8};
    ghost use Rattle.paw_base.specs.Bytes.{Name};
    ghost use Rattle.paw_host.specs.declared.names.TheConstants.{STORE_LIMIT};

    ghost Value = { Name };

    ghost view = { λ n. n.bytes.items };

    ghost invariant = { λ n. IsUtf8 n.bytes.items × (STORE_LIMIT ≤ vec_capacity n.bytes) };
}

impl StoreName {
    /// An empty name.
    ///
    /// # Errors
    /// NoRoom where there is no memory for a whole one.
    pub(crate) fn new(alloc: Global) -> Result<StoreName, NoRoom> {
        let bytes = Vec::with_capacity(alloc, STORE_LIMIT)?;
        Ok(StoreName { bytes })
    }

    /// Becomes the name of the file that keeps the session of this name.
    pub(crate) fn set(&mut self, name: &[u8])
        requires name { is_name name.now ≡ true }
        ensures value { self.new ≡ store_name name.now }
    {
        spell_store(&mut self.bytes, name);
    }

    /// The name.
    pub(crate) fn as_str(&self) -> &str
        ensures value { result.now ≡ self.now }
    {
        match str::from_utf8(self.bytes.as_slice()) {
            Ok(name) => name,
            Err(_) => unreachable!(), // The name of a file is ASCII.
        }
    }
}
