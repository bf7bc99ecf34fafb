// Small texts, wrapped.

use crate::wrap;
use std::test::Fail;

#[test]
fn lines_are_broken_by_first_fit(rt: HostRuntime) -> Result<(), Fail> {
    let rows: [(u8, &[u8], &[u8], &[u32]); 6] = [
        (10, b"The quick brown fox", b"The quick\nbrown fox", &[9]),
        (3, b"a  bb cccc d", b"a \nbb\ncccc\nd", &[2, 5, 10]),
        (255, b"", b"", &[]),
        (1, b"a ", b"a\n", &[1]),
        (1, b"   ", b" \n ", &[1]),
        (
            4,
            b"a\tb \r\nlonger ab\n cd ef g",
            b"a\tb\n\r\nlonger\nab\n cd\nef g",
            &[3, 12, 19],
        ),
    ];
    for &(width, text, bytes, breaks) in &rows {
        let wrapped = wrap(rt.alloc(), width, text)?;
        assert_eq!(rt; wrapped.bytes.as_slice(), bytes);
        assert_eq!(rt; wrapped.breaks.as_slice(), breaks);
    }
    Ok(())
}
