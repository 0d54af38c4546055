use crate::gated::Gated;
use crate::index::Index;
use arena::interface::Arena;
use board::board::Board;
use board::draft::Draft;
use board::gate::Gate;
use board::pattern::Pattern;
use std::alloc::Global;
use std::test::Fail;

// Two spots and a gate between them, shut at step 0 and open at step 1.
fn two_spots(heap: Global) -> Result<Gated, Fail> {
    let mut draft = Draft::new(heap, 2)?;
    let pattern = Pattern::new(2, 2)?;
    draft.add(Gate {
        from: 0,
        to: 1,
        pattern,
    })?;
    Ok(Gated::new(heap, draft.close()?)?)
}

#[test]
fn moves_of_two_spots(rt: HostRuntime) -> Result<(), Fail> {
    let arena = two_spots(rt.alloc())?;
    assert_eq!(rt; arena.size(), 16);
    assert_eq!(rt; arena.move_count(1), Some(1));
    assert_eq!(rt; arena.move_at(1, 0), Some(5));
    assert_eq!(rt; arena.move_at(5, 0), Some(9));
    assert_eq!(rt; arena.move_at(9, 1), Some(15));
    assert_eq!(rt; arena.move_at(13, 1), Some(0));
    assert_eq!(rt; arena.move_at(13, 2), None);
    assert_eq!(rt; arena.is_capture(15), Some(true));
    assert_eq!(rt; arena.is_capture(16), None);
    Ok(())
}

#[test]
fn traps_of_two_spots(rt: HostRuntime) -> Result<(), Fail> {
    let arena = two_spots(rt.alloc())?;
    let bytes = arena.trap_bytes(rt.alloc(), &[1])?;
    assert!(rt; bytes.len() == 16);
    assert_eq!(rt; bytes[8], 0);
    assert_eq!(rt; bytes[13], 1);
    match arena.trap_bytes(rt.alloc(), &[1, 2]) {
        Ok(_) => Err(Fail::new("a trap off the board")),
        Err(refusal) => {
            assert_eq!(rt; refusal.number(), 21);
            Ok(())
        },
    }
}

// 64 spots and a clock of 96 steps: 786,432 places.
fn wide(heap: Global) -> Result<Board, Fail> {
    let mut draft = Draft::new(heap, 64)?;
    let pattern = Pattern::new(1, 32)?;
    draft.add(Gate {
        from: 0,
        to: 1,
        pattern,
    })?;
    let pattern = Pattern::new(1, 3)?;
    draft.add(Gate {
        from: 1,
        to: 2,
        pattern,
    })?;
    Ok(draft.close()?)
}

// Gates from a spot to every spot above it.
fn add_gates(draft: &mut Draft, from: u8, pattern: Pattern) -> Result<(), Fail> {
    for to in from.saturating_add(1)..23 {
        draft.add(Gate { from, to, pattern })?;
    }
    Ok(())
}

// 23 spots, a gate between any two that is always open, and a clock of 990 steps: 1,047,420 places.
fn dense(heap: Global) -> Result<Board, Fail> {
    let mut draft = Draft::new(heap, 23)?;
    add_gates(&mut draft, 0, Pattern::new(4194303, 22)?)?;
    add_gates(&mut draft, 1, Pattern::new(511, 9)?)?;
    let pattern = Pattern::new(31, 5)?;
    for from in 2..22 {
        add_gates(&mut draft, from, pattern)?;
    }
    Ok(draft.close()?)
}

// Whether a board of so many places has an arena, and its index fewer than two bytes for each place.
fn is_small(heap: Global, board: Board, places: usize) -> Result<bool, Fail> {
    let index = Index::of(heap, &board)?;
    let starts = index.starts.len().saturating_mul(4);
    let bytes = index.exits.len().saturating_add(starts);
    let arena = Gated::new(heap, board)?;
    Ok(arena.size() == places && bytes / 2 < places)
}

#[test]
fn largest_boards(rt: HostRuntime) -> Result<(), Fail> {
    let heap = rt.alloc();
    assert!(rt; is_small(heap, wide(heap)?, 786432)?);
    assert!(rt; is_small(heap, dense(heap)?, 1047420)?);
    Ok(())
}
