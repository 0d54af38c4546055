use crate::line::Line;
use crate::read::read_line;
use crate::refusal::{Layer, Told};
use std::test::Fail;

// What the reader tells; nothing where it reads a line.
fn refused(sheet: &[u8], at: usize) -> Option<Told> {
    read_line(sheet, at).err().map(|why| why.told())
}

// A rule of lines is broken.
fn broken(number: u8, offset: usize) -> Option<Told> {
    Some(Told {
        number,
        offset,
        layer: Layer::Line,
    })
}

#[test]
fn no_mark(rt: HostRuntime) {
    assert_eq!(rt; refused(b"", 0), broken(4, 0), "nothing");
    assert_eq!(rt; refused(b"b", 0), broken(4, 0), "one byte");
    assert_eq!(rt; refused(b"bt 1\n", 0), broken(4, 0), "no such mark");
    assert_eq!(rt; refused(b"en\nxy", 3), broken(4, 3), "in a later line");
    assert_eq!(rt; refused(b"en\n", 9), broken(4, 3), "past the sheet's end");
}

#[test]
fn no_number(rt: HostRuntime) {
    assert_eq!(rt; refused(b"bd\n", 0), broken(5, 2), "no space");
    assert_eq!(rt; refused(b"tr  1\n", 0), broken(5, 3), "two spaces");
    assert_eq!(rt; refused(b"bd x\n", 0), broken(5, 3), "no digit");
    assert_eq!(rt; refused(b"bd 01\n", 0), broken(5, 4), "a zero ahead");
    assert_eq!(rt; refused(b"tr 1234\n", 0), broken(5, 6), "a fourth digit");
    assert_eq!(rt; refused(b"gt 1 x 1\n", 0), broken(5, 5), "no second number");
}

#[test]
fn no_pattern_or_end(rt: HostRuntime) {
    assert_eq!(rt; refused(b"gt 0 1\n", 0), broken(5, 6), "no pattern");
    assert_eq!(rt; refused(b"gt 0 1 \n", 0), broken(5, 7), "an empty pattern");
    assert_eq!(rt;
        refused(b"bd 2\ngt 0 1 012\n", 5),
        broken(5, 14),
        "a 2 in the pattern"
    );
    assert_eq!(rt;
        refused(b"gt 0 1 000000000000000000000000000000001\n", 0),
        broken(5, 39),
        "a 33rd character"
    );
    assert_eq!(rt;
        refused(b"en \n", 0),
        broken(5, 2),
        "a space after the last field"
    );
    assert_eq!(rt; refused(b"bd 12", 0), broken(5, 5), "no line end");
}

#[test]
fn a_gate(rt: HostRuntime) -> Result<(), Fail> {
    let Ok(read) = read_line(b"bd 7\ngt 0 120 0110\nen\n", 5) else {
        return Err(Fail::new("not read"));
    };
    assert_eq!(rt; (read.text.offset, read.next), (5, 19));
    let Line::Gate { u, v, pattern } = read.line else {
        return Err(Fail::new("no gate"));
    };
    assert_eq!(rt; (u.number(), u.offset), (0, 8));
    assert_eq!(rt; (v.number(), v.offset), (120, 10));
    assert_eq!(rt; (pattern.bits(), pattern.offset), (6, 14));
    Ok(())
}
