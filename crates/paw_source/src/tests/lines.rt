// A small source, cut into lines and tokens as its rules say.

use paw_base::fault::SourceKind;
use paw_lex::{LexFault, Line, Lines, Token, byte_fault, next_token};
use std::test::Fail;

/// Line ends of both kinds, an empty line, a comment with a byte 0, a CR alone, and a last line that a byte 0x1A ends.
const SOURCE: &[u8] = b"/voc\r\n\n \tgo  2\tverb;x ;y\n;\x00\n\r\r\nA cave.\x1AJunk\n";

#[test]
fn lines_are_walked(rt: HostRuntime) -> Result<(), Fail> {
    let wanted: [(u32, &[u8]); 6] = [
        (1, b"/voc"),
        (2, b""),
        (3, b" \tgo  2\tverb;x ;y"),
        (4, b";\x00"),
        (5, b"\r"),
        (6, b"A cave."),
    ];
    let mut lines = Lines::new(SOURCE);
    for (number, bytes) in wanted {
        let line = lines.next().ok_or("there is no line")?;
        assert_eq!(rt; line.number, number);
        assert_eq!(rt; SOURCE.get(line.from..line.to), Some(bytes));
    }
    assert_eq!(rt; lines.next(), None);
    Ok(())
}

#[test]
fn tokens_are_cut_and_bytes_looked_at(rt: HostRuntime) -> Result<(), Fail> {
    let line = Line {
        number: 3,
        from: 7,
        to: 24,
    };
    let go = next_token(SOURCE, &line, 7);
    let two = next_token(SOURCE, &line, 11);
    let verb = next_token(SOURCE, &line, 14);
    assert_eq!(rt; go, Some(Token { from: 9, to: 11 }));
    assert_eq!(rt; two, Some(Token { from: 13, to: 14 }));
    assert_eq!(rt; verb, Some(Token { from: 15, to: 19 }));
    assert_eq!(rt; next_token(SOURCE, &line, 19), None);

    // What stands before the offset isn't looked at.
    let behind = next_token(SOURCE, &line, 20);
    assert_eq!(rt; behind, Some(Token { from: 20, to: 21 }));

    let kind = SourceKind::Text;
    assert_eq!(rt; byte_fault(SOURCE, &line, false), None);
    assert_eq!(rt;
        byte_fault(SOURCE, &line, true),
        Some(LexFault { line: 3, kind })
    );
    let comment = Line {
        number: 4,
        from: 25,
        to: 27,
    };
    assert_eq!(rt; byte_fault(SOURCE, &comment, false), None);
    let carriage_return = Line {
        number: 5,
        from: 28,
        to: 29,
    };
    assert_eq!(rt;
        byte_fault(SOURCE, &carriage_return, false),
        Some(LexFault { line: 5, kind })
    );
    Ok(())
}
