use crate::draft::Draft;
use crate::gate::Gate;
use crate::pattern::Pattern;
use std::alloc::Global;
use std::test::Fail;

// Three or more spots, with gates 0-1 and 1-2 of these lengths.
fn two_gates(heap: Global, spots: u8, one: u8, two: u8) -> Result<Draft, Fail> {
    let mut draft = Draft::new(heap, spots)?;
    let pattern = Pattern::new(1, one)?;
    draft.add(Gate {
        from: 0,
        to: 1,
        pattern,
    })?;
    let pattern = Pattern::new(1, two)?;
    draft.add(Gate {
        from: 1,
        to: 2,
        pattern,
    })?;
    Ok(draft)
}

#[test]
fn bits_of_patterns(rt: HostRuntime) -> Result<(), Fail> {
    let pattern = Pattern::new(5, 3)?;
    assert!(rt;
        pattern.is_open(0) && !pattern.is_open(1) && pattern.is_open(2) && pattern.is_open(3)
    );
    match Pattern::new(8, 3) {
        Ok(_) => Err(Fail::new("bit 3 of a pattern of 3 steps")),
        Err(refusal) => {
            assert_eq!(rt; refusal.number(), 2);
            Ok(())
        },
    }
}

#[test]
fn clocks(rt: HostRuntime) -> Result<(), Fail> {
    assert_eq!(rt; two_gates(rt.alloc(), 3, 4, 6)?.close()?.period(), 12);
    assert_eq!(rt; two_gates(rt.alloc(), 64, 32, 3)?.close()?.places(), 786432);
    match two_gates(rt.alloc(), 64, 32, 5)?.close() {
        Ok(_) => Err(Fail::new("more than 1048576 places")),
        Err(refusal) => {
            assert_eq!(rt; refusal.number(), 10);
            Ok(())
        },
    }
}

#[test]
fn refused_gates(rt: HostRuntime) -> Result<(), Fail> {
    let mut draft = two_gates(rt.alloc(), 3, 1, 1)?;
    let pattern = Pattern::new(1, 1)?;
    for (from, to, number) in [(0, 3, 7), (2, 2, 8), (2, 1, 8)] {
        match draft.add(Gate { from, to, pattern }) {
            Ok(()) => return Err(Fail::new("added")),
            Err(refusal) => assert_eq!(rt; refusal.number(), number),
        }
    }
    assert_eq!(rt; draft.gates().len(), 2);
    Ok(())
}
