use crate::read::read_sheet;
use std::alloc::{AllocError, Global};
use std::test::Fail;

// The number and the offset that the reader tells; nothing where it reads a sheet.
fn told(heap: Global, sheet: &[u8]) -> Option<(u8, usize)> {
    let told = read_sheet(heap, sheet).err()?.told()?;
    Some((told.number, told.offset))
}

// A board of 64 spots with so many gates, and no end.
fn gates(heap: Global, count: u16) -> Result<String, AllocError> {
    let mut text = String::from_str(heap, "bd 64\n")?;
    for i in 0..count {
        let (u, v) = (i / 50, 14 + i % 50);
        let line = format!(in heap; "gt {u} {v} 1\n")?;
        text.push_str(line.as_str())?;
    }
    Ok(text)
}

#[test]
fn sheets(rt: HostRuntime) -> Result<(), Fail> {
    let sheet = read_sheet(
        rt.alloc(),
        b"bd 12\ngt 1 2 0110\ntr 4\ngt 3 1 1\ntr 0\nen\n",
    )?;
    assert_eq!(rt; sheet.board.spots(), 12);
    assert_eq!(rt; sheet.board.gates().len(), 2);
    assert_eq!(rt; sheet.board.period(), 4);
    assert_eq!(rt; sheet.traps.as_slice(), [4, 0].as_slice());
    Ok(())
}

#[test]
fn lines_and_places(rt: HostRuntime) {
    let heap = rt.alloc();
    assert_eq!(rt; told(heap, b""), Some((6, 0)), "nothing");
    assert_eq!(rt; told(heap, b"gt 0 1 1\n"), Some((6, 0)), "a gate first");
    assert_eq!(rt; told(heap, b"tr 0\n"), Some((6, 0)), "a trap first");
    assert_eq!(rt; told(heap, b"en\n"), Some((6, 0)), "the end first");
    assert_eq!(rt; told(heap, b"bd 2\nbd 2\n"), Some((6, 5)), "a second board");
    assert_eq!(rt; told(heap, b"bd 2\n"), Some((6, 5)), "no end");
    assert_eq!(rt;
        told(heap, b"bd 2\nen\n\n"),
        Some((6, 8)),
        "a byte after the end"
    );
    assert_eq!(rt; told(heap, b"bd 2\nx"), Some((4, 5)), "one byte");
    assert_eq!(rt;
        told(heap, b"bd 2\ngt 0 1 012\nen\n"),
        Some((5, 14)),
        "no line"
    );
}

#[test]
fn numbers_and_patterns(rt: HostRuntime) {
    let heap = rt.alloc();
    assert_eq!(rt; told(heap, b"bd 0\nen\n"), Some((7, 3)), "no spot");
    assert_eq!(rt; told(heap, b"bd 65\nen\n"), Some((7, 3)), "65 spots");
    assert_eq!(rt; told(heap, b"bd 300\nen\n"), Some((7, 3)), "300 spots");
    assert_eq!(rt;
        told(heap, b"bd 2\ngt 2 2 0\n"),
        Some((7, 8)),
        "the first end"
    );
    assert_eq!(rt;
        told(heap, b"bd 2\ngt 0 2 0\n"),
        Some((7, 10)),
        "the second end"
    );
    assert_eq!(rt;
        told(heap, b"bd 2\ntr 2\n"),
        Some((7, 8)),
        "a trap off the board"
    );
    assert_eq!(rt;
        told(heap, b"bd 2\ngt 0 1 00\n"),
        Some((3, 12)),
        "never open"
    );
    assert_eq!(rt;
        told(heap, b"bd 2\ngt 1 1 00\n"),
        Some((3, 12)),
        "never open, with equal ends"
    );
}

#[test]
fn repeats(rt: HostRuntime) {
    let heap = rt.alloc();
    assert_eq!(rt; told(heap, b"bd 2\ngt 1 1 1\n"), Some((8, 5)), "equal ends");
    assert_eq!(rt;
        told(heap, b"bd 2\ngt 0 1 1\ngt 0 1 10\n"),
        Some((8, 14)),
        "a pair again"
    );
    assert_eq!(rt;
        told(heap, b"bd 2\ngt 0 1 1\ngt 1 0 10\n"),
        Some((8, 14)),
        "a pair turned"
    );
    assert_eq!(rt;
        told(heap, b"bd 2\ntr 1\ntr 0\ntr 1\n"),
        Some((8, 15)),
        "a trap again"
    );
}

#[test]
fn limits(rt: HostRuntime) -> Result<(), Fail> {
    let heap = rt.alloc();
    let end = gates(heap, 256)?.len();
    assert_eq!(rt;
        told(heap, gates(heap, 256)?.as_bytes()),
        Some((6, end)),
        "256 gates, no end"
    );
    assert_eq!(rt;
        told(heap, gates(heap, 257)?.as_bytes()),
        Some((9, end)),
        "gate 257"
    );
    let large = b"bd 64\ngt 0 1 00000000000000000000000000000001\ngt 1 2 00001\nen\n";
    assert_eq!(rt;
        told(heap, large),
        Some((10, large.len())),
        "more than 1048576 places"
    );
    let most = b"bd 64\ngt 0 1 00000000000000000000000000000001\ngt 1 2 001\nen\n";
    let sheet = read_sheet(heap, most)?;
    assert_eq!(rt; sheet.board.gates().len(), 2, "786432 places");
    Ok(())
}
