use crate::boards::two_spots;
use crate::lists::chain;
use arena::unfit::Unfit;
use board::draft::refusal::GateRefusal;
use gated::Gated;
use gated::refusal::TrapRefusal;
use pursuit::BoardRefusal;
use pursuit::solve_board::solve_board;
use solver::solve::solve_to_read;
use std::test::Fail;

#[test]
fn solve_to_read_leaves_the_table(rt: HostRuntime) -> Result<(), Fail> {
    let mut table = [7, 8, 9, 10, 11];
    let chain = chain()?;
    let told = solve_to_read(&chain, &mut table).err();
    assert_eq!(rt; told, Some(Unfit::Words));
    assert!(rt; table == [7, 8, 9, 10, 11]);
    Ok(())
}

#[test]
fn solve_board_leaves_the_table(rt: HostRuntime) -> Result<(), Fail> {
    let heap = rt.alloc();
    let board = two_spots(heap)?;
    let arena = Gated::new(heap, board)?;
    let mut short = [7, 8, 9];
    let told = solve_board(heap, &arena, &[1], &mut short).err();
    assert_eq!(rt; told, Some(BoardRefusal::Table(Unfit::Words)));
    assert_eq!(rt; told.map(|why| why.number()), Some(16));
    assert!(rt; short == [7, 8, 9]);
    let mut table = [7; 32];
    let told = solve_board(heap, &arena, &[2], &mut table).err();
    assert_eq!(rt; told, Some(BoardRefusal::Traps(TrapRefusal::OffBoard)));
    assert_eq!(rt; told.map(|why| why.number()), Some(21));
    assert!(rt; table == [7; 32]);
    Ok(())
}

#[test]
fn want_of_memory_breaks_no_rule(rt: HostRuntime) {
    assert_eq!(rt; GateRefusal::TooMany.rule_number(), Some(9));
    assert_eq!(rt; GateRefusal::NoMemory.rule_number(), None);
    assert_eq!(rt; GateRefusal::NoMemory.number(), 0);
    assert_eq!(rt; TrapRefusal::OffBoard.rule_number(), Some(21));
    assert_eq!(rt; TrapRefusal::NoMemory.rule_number(), None);
    assert_eq!(rt; TrapRefusal::NoMemory.number(), 0);
    let misfit = BoardRefusal::Table(Unfit::Words);
    assert_eq!(rt; misfit.rule_number(), Some(16));
    let laid: BoardRefusal<Unfit> = BoardRefusal::Traps(TrapRefusal::NoMemory);
    assert_eq!(rt; laid.rule_number(), None);
    assert_eq!(rt; laid.number(), 0);
}
