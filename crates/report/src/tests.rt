use crate::failure::Printed;
use crate::solve_sheet::solve_sheet;
use std::alloc::{AllocError, Global};
use std::test::Fail;

// What is printed of a sheet.
fn printed(heap: Global, sheet: &[u8]) -> Result<String, AllocError> {
    match solve_sheet(heap, sheet) {
        Ok(report) => format!(in heap; "{report}"),
        Err(why) => match why.printed() {
            Some(refused) => format!(in heap; "{refused}"),
            None => String::from_str(heap, "no memory"),
        },
    }
}

// Whether that is printed of the sheet.
fn prints(heap: Global, sheet: &[u8], text: &str) -> Result<bool, AllocError> {
    let got = printed(heap, sheet)?;
    Ok(got.as_str() == text)
}

// Whether the sheet is refused so.
fn is_refused(heap: Global, sheet: &[u8], number: u8, offset: usize) -> bool {
    let told = solve_sheet(heap, sheet).err().and_then(|why| why.printed());
    told == Some(Printed { number, offset })
}

// Whether the sheet's board opens so.
fn opens(heap: Global, sheet: &[u8], pursuer: usize, runner: usize, mark: u32) -> bool {
    solve_sheet(heap, sheet).is_ok_and(|report| {
        let opening = report.opening;
        (opening.pursuer, opening.runner, opening.mark) == (pursuer, runner, mark)
    })
}

#[test]
fn whole_reports(rt: HostRuntime) -> Result<(), Fail> {
    let heap = rt.alloc();
    assert!(rt;
        prints(
            heap,
            b"bd 2\ngt 0 1 01\nen\n",
            "board 2 1 2\nplaces 16\ncapture 8\ncounted 8\nnever 0\nlongest 4\nrounds 5\nlooks 30\nopen 0 1 3\n",
        )?
    );
    assert!(rt;
        prints(
            heap,
            b"bd 1\nen\n",
            "board 1 0 1\nplaces 2\ncapture 2\ncounted 0\nnever 0\nlongest 0\nrounds 1\nlooks 0\nopen 0 0 0\n",
        )?
    );
    assert!(rt;
        prints(
            heap,
            b"bd 2\nen\n",
            "board 2 0 1\nplaces 8\ncapture 4\ncounted 0\nnever 4\nlongest 0\nrounds 1\nlooks 4\nopen 0 1 -\n",
        )?
    );
    assert!(rt; prints(heap, b"", "refused 6 0\n")?);
    Ok(())
}

#[test]
fn openings(rt: HostRuntime) {
    let heap = rt.alloc();
    assert!(rt; opens(heap, b"bd 2\ntr 1\nen\n", 0, 0, 0));
    assert!(rt; opens(heap, b"bd 3\ngt 0 1 1\ngt 1 2 1\nen\n", 1, 0, 1));
    assert!(rt; opens(heap, b"bd 3\ngt 0 1 1\ngt 1 2 1\ngt 0 2 1\nen\n", 0, 1, 1));
    assert!(rt;
        opens(
            heap,
            b"bd 4\ngt 0 1 1\ngt 1 2 1\ngt 2 3 1\ngt 3 0 1\nen\n",
            0,
            2,
            4294967295,
        )
    );
}

// A sheet of 24 spots and so many gates, each from a lower spot to a higher one, without its end.
fn gates(heap: Global, most: usize) -> Result<String, AllocError> {
    let mut sheet = String::from_str(heap, "bd 24\n")?;
    let pairs = (0..23u32).flat_map(|u| (u + 1..24).map(move |v| (u, v)));
    for (u, v) in pairs.take(most) {
        sheet.push_str(format!(in heap; "gt {u} {v} 1\n")?.as_str())?;
    }
    Ok(sheet)
}

#[test]
fn too_many_gates(rt: HostRuntime) -> Result<(), Fail> {
    let heap = rt.alloc();
    let full = gates(heap, 256)?;
    let more = gates(heap, 257)?;
    assert!(rt; is_refused(heap, full.as_bytes(), 6, full.len()));
    assert!(rt; is_refused(heap, more.as_bytes(), 9, full.len()));
    Ok(())
}

#[test]
fn refusals(rt: HostRuntime) {
    let heap = rt.alloc();
    assert!(rt; is_refused(heap, b"bd 2\nxx 1\n", 4, 5));
    assert!(rt; is_refused(heap, b"bd 2\ngt 0 1 012\n", 5, 14));
    assert!(rt; is_refused(heap, b"bd 2\nen", 5, 7));
    assert!(rt; is_refused(heap, b"gt 0 1 1\n", 6, 0));
    assert!(rt; is_refused(heap, b"bd 2\nen\nx", 6, 8));
    assert!(rt; is_refused(heap, b"bd 65\n", 7, 3));
    assert!(rt; is_refused(heap, b"bd 2\ngt 0 2 1\n", 7, 10));
    assert!(rt; is_refused(heap, b"bd 2\ngt 0 1 00\n", 3, 12));
    assert!(rt; is_refused(heap, b"bd 2\ngt 0 1 1\ngt 1 0 1\n", 8, 14));
    assert!(rt;
        is_refused(
            heap,
            b"bd 64\ngt 0 1 0000001\ngt 0 2 00000000001\ngt 0 3 0000000000001\nen\n",
            10,
            64,
        )
    );
    assert!(rt; is_refused(heap, b"bd 64\nen\n", 22, 0));
    assert!(rt; is_refused(heap, &[48; 4097], 22, 0));
}
