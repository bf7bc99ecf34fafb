// A piece, filled and cleared.

use paw_base::piece::Piece;
use std::test::Fail;

#[test]
fn a_piece_takes_65_535_bytes_and_no_more(rt: HostRuntime) -> Result<(), Fail> {
    let full = vec![in rt.alloc(); b'x'; 65_535]?;
    let mut piece = Piece::new(rt.alloc())?;
    assert!(rt; piece.push(b"ab") && piece.push(b"") && piece.push(b"c"));
    assert_eq!(rt; piece.bytes(), b"abc".as_slice());
    assert!(rt; !piece.push(full.as_slice()));
    assert_eq!(rt; piece.bytes(), b"abc".as_slice());
    piece.clear();
    assert!(rt; piece.push(full.as_slice()) && piece.push(b"") && !piece.push(b"y"));
    assert_eq!(rt; piece.bytes(), full.as_slice());
    Ok(())
}
