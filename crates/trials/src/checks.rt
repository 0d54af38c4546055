use crate::boards::two_spots;
use crate::lists::{chain, empty, stayer, stuck};
use arena::Arena;
use arena::unfit::Unfit;
use checker::{CheckRefusal, check as judge};
use gated::Gated;
use gated::refusal::TrapRefusal;
use marks::mark::{BLANK, NEVER};
use pursuit::BoardFault;
use pursuit::check_board::check_board;
use solver::solve::solve;
use std::test::Fail;

// Words to write in place of others: small ones, some about the sizes of the tables here, and those with a meaning of their own.
const WORDS: [u32; 14] = [0, 1, 2, 3, 4, 5, 6, 7, 8, 15, 16, 65535, BLANK, NEVER];

// The mark of the place that the move at a position leads to.
fn mark_after<A: Arena>(arena: &A, table: &[u32], place: usize, position: u32) -> Option<u32> {
    let to = arena.move_at(place, position as usize)?;
    table.get(to).copied()
}

// Whether a finished table with this one word changed is still so: each mark is the only one, and another move must lead to the same mark.
fn is_still_so<A: Arena>(arena: &A, table: &[u32], index: usize, word: u32) -> bool {
    let size = table.len() / 2;
    let Some(old) = table.get(index).copied() else {
        return false;
    };
    if old == word {
        return true;
    }
    if index < size {
        return false;
    }
    let before = mark_after(arena, table, index - size, old);
    before.is_some() && before == mark_after(arena, table, index - size, word)
}

// Whether a place has a move to another.
fn leads_to<A: Arena>(arena: &A, place: usize, other: usize) -> bool {
    let count = arena.move_count(place).unwrap_or(0);
    (0..count).any(|position| arena.move_at(place, position) == Some(other))
}

// Whether the checker judges the table with this one word changed as it should: refused, it is at the place of the word or at one that leads there.
fn is_judged<A: Arena>(arena: &A, table: &mut [u32], index: usize, word: u32) -> bool {
    let size = table.len() / 2;
    if size == 0 || index >= table.len() {
        return false;
    }
    let so = is_still_so(arena, table, index, word);
    let old = table[index];
    table[index] = word;
    let told = judge(arena, table);
    table[index] = old;
    match told {
        Ok(()) => so,
        Err(CheckRefusal::Fault { place }) => {
            !so && (place == index % size || index < size && leads_to(arena, place, index))
        }
        Err(CheckRefusal::Misfit(_)) => false,
    }
}

// Whether it judges so whichever word takes the place of one.
fn is_each_judged<A: Arena>(arena: &A, table: &mut [u32], index: usize) -> bool {
    WORDS
        .iter()
        .all(|word| is_judged(arena, table, index, *word))
}

// Whether the finished table of an arena is accepted, and each single change of it is judged as it should be.
fn is_well_judged<A: Arena>(arena: &A, table: &mut [u32]) -> bool {
    if solve(arena, table).is_err() || judge(arena, table).is_err() {
        return false;
    }
    (0..table.len()).all(|index| is_each_judged(arena, table, index))
}

#[test]
fn single_changes(rt: HostRuntime) -> Result<(), Fail> {
    let chain = chain()?;
    let stayer = stayer()?;
    assert!(rt; is_well_judged(&chain, &mut [7; 6]), "the chain");
    assert!(rt;
        is_well_judged(&stayer, &mut [7; 6]),
        "a runner that can stay"
    );
    Ok(())
}

#[test]
fn single_changes_of_a_board(rt: HostRuntime) -> Result<(), Fail> {
    let board = two_spots(rt.alloc())?;
    let arena = Gated::new(rt.alloc(), board)?;
    assert!(rt; is_well_judged(&arena, &mut [7; 32]));
    Ok(())
}

#[test]
fn another_count_on_the_board(rt: HostRuntime) -> Result<(), Fail> {
    let heap = rt.alloc();
    let board = two_spots(heap)?;
    let arena = Gated::new(heap, board)?;
    let mut table = [7; 32];
    assert!(rt; solve(&arena, &mut table).is_ok());
    assert_eq!(rt; check_board(heap, &arena, &[], &table), Ok(()));
    assert_eq!(rt;
        check_board(heap, &arena, &[2], &table),
        Err(BoardFault::Traps(TrapRefusal::OffBoard))
    );
    assert_eq!(rt;
        check_board(heap, &arena, &[], &table[0..31]),
        Err(BoardFault::Table(CheckRefusal::Misfit(Unfit::Words)))
    );
    table[1] = 4;
    assert_eq!(rt;
        check_board(heap, &arena, &[], &table),
        Err(BoardFault::Table(CheckRefusal::Fault { place: 1 }))
    );
    Ok(())
}

#[test]
fn unfit_tables(rt: HostRuntime) -> Result<(), Fail> {
    let empty = empty()?;
    let stuck = stuck()?;
    let chain = chain()?;
    assert_eq!(rt; judge(&empty, &[]), Err(CheckRefusal::Misfit(Unfit::Size)));
    assert_eq!(rt;
        judge(&chain, &[0; 5]),
        Err(CheckRefusal::Misfit(Unfit::Words))
    );
    assert_eq!(rt;
        judge(&stuck, &[0; 2]),
        Err(CheckRefusal::Misfit(Unfit::Unsound { place: 0 }))
    );
    Ok(())
}
