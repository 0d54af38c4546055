use board::{Board, Draft, Gate, Pattern};
use gated::Gated;
use marks::mark::{BLANK, NONE};
use rounds::{begin_table, finish_table, round_table};
use std::alloc::Global;
use std::test::Fail;

// Two spots and a gate that opens every other step.
pub fn two_spots(heap: Global) -> Result<Board, Fail> {
    let pattern = Pattern::new(2, 2)?;
    let mut draft = Draft::new(heap, 2)?;
    draft.add(Gate {
        from: 0,
        to: 1,
        pattern,
    })?;
    Ok(draft.close()?)
}

// A board of so many spots with gates between these, always open.
fn always_open(heap: Global, spots: u8, pairs: &[(u8, u8)]) -> Result<Board, Fail> {
    let pattern = Pattern::new(1, 1)?;
    let mut draft = Draft::new(heap, spots)?;
    for pair in pairs {
        let (from, to) = *pair;
        draft.add(Gate { from, to, pattern })?;
    }
    Ok(draft.close()?)
}

// Three spots, each joined with both others.
pub fn triangle(heap: Global) -> Result<Board, Fail> {
    always_open(heap, 3, &[(0, 1), (1, 2), (0, 2)])
}

// Three spots in a row.
pub fn path(heap: Global) -> Result<Board, Fail> {
    always_open(heap, 3, &[(0, 1), (1, 2)])
}

// Whether a round marks so many places of the board, and leaves these marks.
fn round_leaves(
    arena: &Gated,
    table: &mut [u32],
    round: u32,
    marked: usize,
    marks: &[u32],
) -> bool {
    let made = round_table(arena, table, round);
    made.is_ok_and(|made| made.marked == marked)
        && table.len() == 32
        && table.get(0..16) == Some(marks)
}

#[test]
fn two_spots_round_by_round(rt: HostRuntime) -> Result<(), Fail> {
    let board = two_spots(rt.alloc())?;
    let arena = Gated::new(rt.alloc(), board)?;
    let mut table = [7; 32];
    let b = BLANK;
    assert!(rt; begin_table(&arena, &mut table).is_ok());
    assert!(rt; &table[0..16] == [0, b, b, 0, 0, b, b, 0, 0, b, b, 0, 0, b, b, 0].as_slice());
    assert!(rt; &table[16..] == [NONE; 16].as_slice());
    assert!(rt;
        round_leaves(
            &arena,
            &mut table,
            1,
            2,
            &[0, b, b, 0, 0, b, b, 0, 0, 1, 1, 0, 0, b, b, 0],
        )
    );
    assert!(rt;
        round_leaves(
            &arena,
            &mut table,
            2,
            2,
            &[0, b, b, 0, 0, 2, 2, 0, 0, 1, 1, 0, 0, b, b, 0],
        )
    );
    assert!(rt;
        round_leaves(
            &arena,
            &mut table,
            3,
            2,
            &[0, 3, 3, 0, 0, 2, 2, 0, 0, 1, 1, 0, 0, b, b, 0],
        )
    );
    assert!(rt;
        round_leaves(
            &arena,
            &mut table,
            4,
            2,
            &[0, 3, 3, 0, 0, 2, 2, 0, 0, 1, 1, 0, 0, 4, 4, 0],
        )
    );
    assert!(rt;
        round_leaves(
            &arena,
            &mut table,
            5,
            0,
            &[0, 3, 3, 0, 0, 2, 2, 0, 0, 1, 1, 0, 0, 4, 4, 0],
        )
    );
    assert!(rt; finish_table(&arena, &mut table).is_ok());
    let n = NONE;
    assert!(rt; &table[16..] == [n, 0, 0, n, n, 0, 0, n, n, 1, 1, n, n, 0, 0, n].as_slice());
    Ok(())
}
