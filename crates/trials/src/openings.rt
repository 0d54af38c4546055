use crate::boards::{path, triangle, two_spots};
use crate::lists::chain;
use gated::Gated;
use opening::{OpeningRefusal, opening_of, reply_to};
use pursuit::solve_board::solve_board;
use solver::solve::solve_to_read;
use std::test::Fail;

#[test]
fn two_spots_open(rt: HostRuntime) -> Result<(), Fail> {
    let heap = rt.alloc();
    let board = two_spots(heap)?;
    let arena = Gated::new(heap, board)?;
    let mut table = [7; 32];
    let finished = solve_board(heap, &arena, &[], &mut table)?;
    let opening = opening_of(arena.board(), &finished)?;
    assert_eq!(rt; finished.rounds(), 5);
    assert_eq!(rt; finished.looks(), 30);
    assert_eq!(rt; finished.tally().counted, 8);
    assert_eq!(rt; opening.pursuer, 0);
    assert_eq!(rt; opening.runner, 1);
    assert_eq!(rt; opening.mark, 3);
    assert_eq!(rt; opening.tally.capture, 1);
    assert_eq!(rt; reply_to(arena.board(), &finished, 1), Ok(0));
    assert_eq!(rt;
        reply_to(arena.board(), &finished, 2),
        Err(OpeningRefusal::Spot)
    );
    Ok(())
}

// Every pursuer spot ties, and so do both runner spots of each row: the first is given.
#[test]
fn triangle_ties(rt: HostRuntime) -> Result<(), Fail> {
    let heap = rt.alloc();
    let board = triangle(heap)?;
    let arena = Gated::new(heap, board)?;
    let mut table = [7; 36];
    let finished = solve_board(heap, &arena, &[], &mut table)?;
    let opening = opening_of(arena.board(), &finished)?;
    assert_eq!(rt; opening.pursuer, 0);
    assert_eq!(rt; opening.runner, 1);
    assert_eq!(rt; opening.mark, 1);
    assert_eq!(rt; reply_to(arena.board(), &finished, 0), Ok(1));
    assert_eq!(rt; reply_to(arena.board(), &finished, 1), Ok(0));
    assert_eq!(rt; reply_to(arena.board(), &finished, 2), Ok(0));
    Ok(())
}

// From the middle of a path both ends tie: the first is the reply.
#[test]
fn path_ties(rt: HostRuntime) -> Result<(), Fail> {
    let heap = rt.alloc();
    let board = path(heap)?;
    let arena = Gated::new(heap, board)?;
    let mut table = [7; 36];
    let finished = solve_board(heap, &arena, &[], &mut table)?;
    assert_eq!(rt; reply_to(arena.board(), &finished, 0), Ok(2));
    assert_eq!(rt; reply_to(arena.board(), &finished, 1), Ok(0));
    assert_eq!(rt; reply_to(arena.board(), &finished, 2), Ok(0));
    Ok(())
}

#[test]
fn another_size_is_refused(rt: HostRuntime) -> Result<(), Fail> {
    let mut table = [7; 6];
    let board = two_spots(rt.alloc())?;
    let chain = chain()?;
    let finished = solve_to_read(&chain, &mut table)?;
    assert!(rt; opening_of(&board, &finished).is_err());
    assert_eq!(rt; reply_to(&board, &finished, 7), Err(OpeningRefusal::Table));
    Ok(())
}
