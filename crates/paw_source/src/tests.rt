// A small source that spells a game, and a few that spell none; and what the crates below promise of images, lines,
// rows and refusals. Those tests stand here, where few functions are proved once more with them.

use crate::read_source;
use crate::refusal::SourceRefusal;
use paw_base::fault::{SourceFault, SourceKind};
use paw_image::encoder::encode;
use std::alloc::Global;
use std::process::Abort;
use std::test::Fail;

mod grammar;
mod images;
mod lines;
mod read_errors;

/// One location with a lamp, and an entry that takes it.
const LAMP: &[u8] =
    b"/VOC\nTAKE 30 verb\nGET 30 verb\nLANTERN 50 noun\nLAMP 50 noun\n/STX\n/MTX\n/0\nTaken.\n\
    /OTX\n/0\na lamp\n/LTX\n/0\nA cave.\n/CON\n/OBJ\n0 0 1 - LANTERN _\n/PRO 0\ntake lantern MESSAGE 0 DONE\n\
    /PRO 1\n/PRO 2\n";

/// The image of its game.
const LAMP_IMAGE: &[u8] = b"PAWI\x01\x04\0\0\0\x01\0\x01\0\x01\0\x03\0\
    GET  \x1E\0LAMP \x32\x02LANTE\x32\x02TAKE \x1E\0\x06\0Taken.\x06\0a lamp\x32\xFF\0\x01\x07\0A cave.\0\
    \x01\0\x1E\x32\x02\x33\0\x20\0\0\0\0";

#[test]
fn a_small_source_is_read(rt: HostRuntime) -> Result<(), Fail> {
    let alloc = rt.alloc();
    let game = read_source(alloc, LAMP).ok().ok_or("refused")?;
    let image = encode(alloc, &game).ok().ok_or("no image")?;
    assert_eq!(rt; image.as_slice(), LAMP_IMAGE);
    Ok(())
}

/// Sources, and the lines and kinds of their first faults.
static FAULTY: [(&[u8], u32, SourceKind); 8] = [
    (b"", 1, SourceKind::Missing),
    (b"; a comment\n\nGO 30 verb\n", 3, SourceKind::Section),
    (
        b"/VOC\nGO 30 verb\nGO 31 noun\n/CON\n",
        3,
        SourceKind::Duplicate,
    ),
    (b"/VOC\nGO 1 verb x\n", 2, SourceKind::Range),
    (b"/voc\n/stx x\n", 2, SourceKind::Extra),
    (b"/VOC\n/STX\n/0\none\n/2\n", 5, SourceKind::Range),
    (b"/VOC\n/STX\n/MTX\n/0\na\ttab\n", 5, SourceKind::Text),
    (
        b"/VOC\n/STX\n/MTX\n/OTX\n/LTX\n/CON\n",
        6,
        SourceKind::Missing,
    ),
];

// Checks the first fault of a source.
fn is_refused(rt: &impl Abort, alloc: Global, (source, line, kind): (&[u8], u32, SourceKind)) {
    let refusal = SourceRefusal::Fault(SourceFault { line, kind });
    assert_eq!(rt; read_source(alloc, source).err(), Some(refusal));
}

#[test]
fn the_first_fault_is_named(rt: HostRuntime) {
    for &row in &FAULTY {
        is_refused(&rt, rt.alloc(), row);
    }
}
