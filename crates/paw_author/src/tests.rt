// Small sources in one file and in two, and what comes out of them.

use crate::author::PlainSource;
use crate::file::{File, Switch};
use crate::fragment::{LineInParts, Origin};
use crate::mistake::{AuthorError, Mistake, MistakeKind};
use crate::plain_lines;
use paw_base::fault::SourceKind;
use paw_read_error::read_error::ReadError;
use std::alloc::{AllocError, Global};
use std::test::Fail;

// A file.
fn file(alloc: Global, name: &[u8], bytes: &[u8]) -> Result<File, AllocError> {
    Ok(File {
        name: Vec::from_slice(alloc, name)?,
        bytes: Vec::from_slice(alloc, bytes)?,
    })
}

// The plain source of a file named `game` and one named `lib`, with a switch that is on.
fn source_of_two(alloc: Global, game: &[u8], lib: &[u8]) -> Result<PlainSource, AuthorError> {
    let mut switches = Vec::new(alloc);
    switches.push(Switch {
        bytes: Vec::from_slice(alloc, b"debug")?,
    })?;
    let mut files = Vec::new(alloc);
    files.push(file(alloc, b"game", game)?)?;
    if !lib.is_empty() {
        files.push(file(alloc, b"lib", lib)?)?;
    }
    plain_lines(alloc, switches.as_slice(), files.as_slice())
}

// Adds the bytes of a line.
fn add_bytes(line: &LineInParts, bytes: &mut Vec<u8>) -> Result<(), AllocError> {
    for part in &line.parts {
        bytes.extend_from_slice(part.bytes.as_slice())?;
    }
    Ok(())
}

// The bytes of all lines.
fn bytes_of(alloc: Global, lines: &[LineInParts]) -> Result<Vec<u8>, AllocError> {
    let mut bytes = Vec::new(alloc);
    for line in lines {
        add_bytes(line, &mut bytes)?;
    }
    Ok(bytes)
}

// Where a part of a line is written.
fn origin_of(lines: &[LineInParts], index: usize, part: usize) -> Option<Origin> {
    let line = lines.get(index)?;
    let part = line.parts.get(part)?;
    Some(part.origin)
}

#[test]
fn a_plain_source_comes_out_as_it_is(rt: HostRuntime) -> Result<(), Fail> {
    let alloc = rt.alloc();
    let source =
        b"; plain\r\n/PRO 0\n_ _ DONE ; \"\n/VOC\nX 30 verb\n/LTX\n/0\n\"a + <b>\n/PRO no 1\x1A/IF";
    let plain = source_of_two(alloc, b"/LTX\n/7\n\"a + <b>\n/VOC\nX 30 verb\n", b"")
        .ok()
        .ok_or("refused")?;
    let bytes = bytes_of(alloc, plain.lines.as_slice())?;
    assert_eq!(rt;
        bytes.as_slice(),
        b"/LTX\n/7\n\"a + <b>\n/VOC\nX 30 verb\n".as_slice()
    );
    assert_eq!(rt; mistake_of(alloc, source, b"").is_some(), true);
    Ok(())
}

#[test]
fn one_file_comes_out_without_what_is_not_taken(rt: HostRuntime) -> Result<(), Fail> {
    let alloc = rt.alloc();
    let source =
        b"/OBJ\r\n/VOC\n/IF Debug ; while testing\nXYZZY 31 verb\n/IF no\nA\n/ELSE\n B\n/ENDIF\n/ELSE\n\
        C\n/ENDIF\nlast\x1A/IF";
    let plain = source_of_two(alloc, source, b"").ok().ok_or("refused")?;
    let bytes = bytes_of(alloc, plain.lines.as_slice())?;
    assert_eq!(rt;
        bytes.as_slice(),
        b"/VOC\nXYZZY 31 verb\n B\nlast\n/STX\n/MTX\n/OTX\n/LTX\n/CON\n/OBJ\r\n/PRO 0\n/PRO 1\n/PRO 2\n".as_slice()
    );
    let origin = Origin {
        file: 0,
        line: 4,
        column: 7,
    };
    assert_eq!(rt; origin_of(plain.lines.as_slice(), 1, 2), Some(origin));
    Ok(())
}

#[test]
fn sections_of_two_files_become_one(rt: HostRuntime) -> Result<(), Fail> {
    let alloc = rt.alloc();
    let game =
        b"; a game\n/INCLUDE lib\n/PRO mine\n_ _ OK\n/PRO 10\n_ _ OK\n/PRO 0\nX _ DONE\n/voc\nX 30 verb";
    let lib = b"; a library\n/VOC\nY 31 verb\n/PRO 0 ; two\n; lines\nY _ OK\n/PRO theirs\n/pro 1\n";
    let plain = source_of_two(alloc, game, lib).ok().ok_or("refused")?;
    let bytes = bytes_of(alloc, plain.lines.as_slice())?;
    let wanted =
        b"; a game\n/voc\nX 30 verb\nY 31 verb\n/STX\n/MTX\n/OTX\n/LTX\n/CON\n/OBJ\n/PRO 0\nX _ DONE\n\
        Y _ OK\n/pro 1\n/PRO 2\n/PRO 3\n_ _ OK\n/PRO 4\n/PRO 10\n_ _ OK\n";
    assert_eq!(rt; bytes.as_slice(), wanted.as_slice());
    let origin = Origin {
        file: 1,
        line: 3,
        column: 1,
    };
    assert_eq!(rt; origin_of(plain.lines.as_slice(), 3, 0), Some(origin));
    Ok(())
}

#[test]
fn entries_stand_where_they_are_hooked(rt: HostRuntime) -> Result<(), Fail> {
    let alloc = rt.alloc();
    let game =
        b"/INCLUDE lib\n/PRO 0\nRING _ AT 1\n MESSAGE 2\n\n DONE ; far\n/PRO odd ; more\nSING _ OK\n/VOC\n";
    let lib = b"/PRO 0\nIN _ DESC\n/HOOK ; here\n; of the game\nRING _ OK\n/HOOK odd\nLAST _ OK\n";
    let plain = source_of_two(alloc, game, lib).ok().ok_or("refused")?;
    let bytes = bytes_of(alloc, plain.lines.as_slice())?;
    let wanted =
        b"/VOC\n/STX\n/MTX\n/OTX\n/LTX\n/CON\n/OBJ\n/PRO 0\nIN _ DESC\nRING _ AT 1\n MESSAGE 2\n\n DONE ; far\n\
        RING _ OK\nSING _ OK\nLAST _ OK\n/PRO 1\n/PRO 2\n";
    assert_eq!(rt; bytes.as_slice(), wanted.as_slice());
    Ok(())
}

#[test]
fn tables_have_numbers_for_their_names(rt: HostRuntime) -> Result<(), Fail> {
    let alloc = rt.alloc();
    let game =
        b"/INCLUDE lib\n/PRO  Talk ; of it\nA _ PROCESS walk PROCESS @walk ; walk\n/PRO 4 ring ; once\n\
        walk walk EQ ring + 1 walk OK\n process WALK\n/PRO talk\nB _ PROCESS none\n";
    let lib = b"/PRO talk\nC _ OK\n/HOOK\nD _ PROCESS ring\n/PRO walk\nE _ OK\n";
    let plain = source_of_two(alloc, game, lib).ok().ok_or("refused")?;
    let bytes = bytes_of(alloc, plain.lines.as_slice())?;
    let wanted =
        b"/VOC\n/STX\n/MTX\n/OTX\n/LTX\n/CON\n/OBJ\n/PRO 0\n/PRO 1\n/PRO 2\n/PRO  3 ; of it\nC _ OK\n\
        A _ PROCESS 5 PROCESS @walk ; walk\nB _ PROCESS none\nD _ PROCESS 4\n/PRO 4 ; once\n\
        walk walk EQ ring + 1 5 OK\n process 5\n/PRO 5\nE _ OK\n";
    assert_eq!(rt; bytes.as_slice(), wanted.as_slice());
    let origin = Origin {
        file: 0,
        line: 3,
        column: 13,
    };
    assert_eq!(rt; origin_of(plain.lines.as_slice(), 12, 6), Some(origin));
    Ok(())
}

#[test]
fn names_stand_for_their_numbers(rt: HostRuntime) -> Result<(), Fail> {
    let alloc = rt.alloc();
    let game =
        b"/INCLUDE lib\n/NAMES\nlamp 2 object\nhall 1 location\ncoins flag\nscore 30 flag\nbest 5 number\n\
        bye 4 message\nwalk 9 table\n/CON\n/hall ; here\nN hall\nEAST 0 ; x\n/OBJ\nlamp hall best - LAMP _\n\
        1 WORN 1 C hall lamp\n/VOC\nN 1 verb\nX best verb\nhall 60 noun\n/PRO walk\n\
        hall lamp AT hall PRESENT lamp PLACE lamp HERE EQ score best\n\
        \x20LET coins 3 SET @score MESSAGE bye SET 60 PROCESS walk GT 61 best + hall\n\
        /PRO other\n_ _ MES @coins TIME best lamp\n";
    let lib =
        b"/NAMES\nlamp 7 object\nextra flag\nothers flag\n/PRO 0\n_ _ SET extra SET 62 SET others\n";
    let plain = source_of_two(alloc, game, lib).ok().ok_or("refused")?;
    let bytes = bytes_of(alloc, plain.lines.as_slice())?;
    let wanted =
        b"/VOC\nN 1 verb\nX 5 verb\nhall 60 noun\n/STX\n/MTX\n/OTX\n/LTX\n/CON\n/1 ; here\nN 1\nEAST 0 ; x\n\
        /OBJ\n2 1 5 - LAMP _\n1 WORN 1 C hall lamp\n/PRO 0\n_ _ SET 64 SET 62 SET 65\n/PRO 1\n/PRO 2\n/PRO 3\n\
        _ _ MES @63 TIME 5 2\n/PRO 9\nhall lamp AT 1 PRESENT 2 PLACE 2 HERE EQ 30 5\n\
        \x20LET 63 3 SET @30 MESSAGE 4 SET 60 PROCESS 9 GT 61 5 + 1\n";
    assert_eq!(rt; bytes.as_slice(), wanted.as_slice());
    Ok(())
}

#[test]
fn each_file_stands_before_all_that_it_includes(rt: HostRuntime) -> Result<(), Fail> {
    let alloc = rt.alloc();
    let mut files = Vec::new(alloc);
    files.push(file(
        alloc,
        b"a/g",
        b"/INCLUDE b\n/INCLUDE \"c \"\"d\"\n/VOC\nG 1 verb\n",
    )?)?;
    files.push(file(
        alloc,
        b"a/b",
        b"/INCLUDE /e\n/INCLUDE \"c \"\"d\" ; too\n/VOC\nB 1 verb\n",
    )?)?;
    files.push(file(alloc, b"a/c \"d", b"; words\n/VOC\nC 1 verb")?)?;
    files.push(file(alloc, b"/e", b"/VOC\nE 1 verb\n")?)?;
    let switches = Vec::new(alloc);
    let plain = plain_lines(alloc, switches.as_slice(), files.as_slice())
        .ok()
        .ok_or("refused")?;
    let bytes = bytes_of(alloc, plain.lines.as_slice())?;
    let wanted =
        b"/VOC\nG 1 verb\nB 1 verb\nE 1 verb\nC 1 verb\n/STX\n/MTX\n/OTX\n/LTX\n/CON\n/OBJ\n/PRO 0\n/PRO 1\n/PRO 2\n";
    assert_eq!(rt; bytes.as_slice(), wanted.as_slice());
    Ok(())
}

// The first mistake of two files.
fn mistake_of(alloc: Global, game: &[u8], lib: &[u8]) -> Option<Mistake> {
    match source_of_two(alloc, game, lib) {
        Err(ReadError::Fault(mistake)) => Some(mistake),
        _ => None,
    }
}

#[test]
fn the_first_mistake_is_named(rt: HostRuntime) {
    let section = MistakeKind::Line(SourceKind::Section);
    let missing = MistakeKind::Line(SourceKind::Missing);
    let extra = MistakeKind::Line(SourceKind::Extra);
    let duplicate = MistakeKind::Line(SourceKind::Duplicate);
    let text = MistakeKind::Line(SourceKind::Text);
    let word = MistakeKind::Line(SourceKind::Word);
    let number = MistakeKind::Line(SourceKind::Number);
    let range = MistakeKind::Line(SourceKind::Range);
    let faulty: [(&[u8], &[u8], usize, usize, usize, MistakeKind); 31] = [
        (b"/IF\n", b"", 0, 1, 1, section),
        (b"\n/ENDIF\n", b"", 0, 2, 1, section),
        (b"/IF a\n/ELSE\n/ELSE\n/ENDIF\n", b"", 0, 3, 1, section),
        (b"/IF a\n/IF b\n/ENDIF\n", b"", 0, 1, 1, missing),
        (b"/VOC\n/INCLUDE lib\n", b"/STX\n", 0, 2, 1, section),
        (b"/INCLUDE other\n", b"/STX\n", 0, 1, 10, MistakeKind::File),
        (
            b"/INCLUDE lib\n",
            b"\n/INCLUDE game\n",
            0,
            0,
            0,
            MistakeKind::File,
        ),
        (b"/PRO a\n_ _ MES \"a\"\"\n", b"", 0, 2, 9, text),
        (b"/PRO a\n_ _ MES \"a\"b\n", b"", 0, 2, 12, text),
        (b"/HOOK\n", b"", 0, 1, 1, section),
        (b"/PRO 0\n/HOOK a b\n", b"", 0, 2, 9, extra),
        (b"/PRO x 1\n", b"", 0, 1, 8, extra),
        (b"/VOC x\n/HOOK\n", b"", 0, 1, 6, extra),
        (b"/PRO\n/HOOK\n", b"", 0, 1, 1, missing),
        (b"/PRO a\n/HOOK\n x\n", b"", 0, 3, 1, section),
        (
            b"/PRO a\nx\n; c\n\n x\n/HOOK\n/HOOK\n",
            b"",
            0,
            7,
            1,
            duplicate,
        ),
        (
            b"/PRO 0\n/HOOK a\n/PRO 1\n/HOOK A\n",
            b"",
            0,
            4,
            1,
            duplicate,
        ),
        (b"/PRO 0\n/HOOK a\n/PRO A\n/HOOK b\n", b"", 0, 4, 1, section),
        (b"/NAMES\na 3 thing\n", b"", 0, 2, 5, word),
        (b"/NAMES\na 3 flag x\n", b"", 0, 2, 10, extra),
        (b"/NAMES\n3 3 flag\n", b"", 0, 2, 1, word),
        (b"/NAMES\nhere 3 location\n", b"", 0, 2, 1, word),
        (b"/NAMES\na object\n", b"", 0, 2, 3, missing),
        (b"/NAMES\na b flag\n", b"", 0, 2, 3, number),
        (b"/NAMES\na 256 flag\n", b"", 0, 2, 3, range),
        (b"/NAMES\na 25 flag\nA flag\n", b"", 0, 3, 1, duplicate),
        (b"/PRO 3 a\n/PRO 4 a\n", b"", 0, 2, 8, duplicate),
        (b"/PRO 3 a-b\n", b"", 0, 1, 8, word),
        (b"/PRO 2a\n", b"", 0, 1, 6, word),
        (b"/CON\nN 1\n/HOOK\n", b"", 0, 2, 1, section),
        (b"/VOC\n/one\n/HOOK\n", b"", 0, 2, 1, section),
    ];
    for (game, lib, file, line, column, kind) in faulty {
        let origin = Origin { file, line, column };
        assert_eq!(rt;
            mistake_of(rt.alloc(), game, lib),
            Some(Mistake { origin, kind })
        );
    }
}
