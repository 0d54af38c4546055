use crate::lists::{astray, chain, empty, stayer, stuck};
use arena::unfit::Unfit;
use marks::mark::{BLANK, NEVER, NONE};
use solver::solve::solve;
use solver::{FinishRefusal, begin, can_begin};
use std::test::Fail;

#[test]
fn chain_is_solved(rt: HostRuntime) -> Result<(), Fail> {
    let mut table = [7; 6];
    let chain = chain()?;
    let solved = solve(&chain, &mut table)?;
    assert!(rt; table == [0, 1, 2, NONE, 0, 0]);
    assert_eq!(rt; solved.rounds, 3);
    assert_eq!(rt; solved.looks, 3);
    assert_eq!(rt; solved.tally.longest, 2);
    Ok(())
}

#[test]
fn runs_are_refused(rt: HostRuntime) -> Result<(), Fail> {
    let mut table = [7; 2];
    let empty = empty()?;
    let stuck = stuck()?;
    let chain = chain()?;
    assert_eq!(rt; can_begin(&empty, &table), Err(Unfit::Size));
    assert_eq!(rt; can_begin(&chain, &table), Err(Unfit::Words));
    assert_eq!(rt; can_begin(&stuck, &table), Err(Unfit::Unsound { place: 0 }));
    let mut run = begin(&stuck, &mut table);
    let told = run.round(&chain);
    run.abandon();
    assert_eq!(rt; told, Err(Unfit::Words));
    assert!(rt; table == [7, 7]);
    Ok(())
}

#[test]
fn refused_begins_touch_nothing(rt: HostRuntime) -> Result<(), Fail> {
    let mut table = [7; 2];
    let empty = empty()?;
    let stuck = stuck()?;
    let chain = chain()?;
    begin(&empty, &mut table).abandon();
    assert!(rt; table == [7, 7]);
    begin(&chain, &mut table).abandon();
    assert!(rt; table == [7, 7]);
    let finished = begin(&stuck, &mut table).finish(&stuck);
    assert!(rt; !finished.is_accepted());
    assert!(rt; finished.words().is_empty());
    assert!(rt; table == [7, 7]);
    Ok(())
}

#[test]
fn refused_rounds_change_nothing(rt: HostRuntime) -> Result<(), Fail> {
    let mut table = [7; 6];
    let empty = empty()?;
    let stuck = stuck()?;
    let astray = astray()?;
    let chain = chain()?;
    let mut run = begin(&chain, &mut table);
    let made = run.round(&chain);
    let told = [run.round(&empty), run.round(&stuck), run.round(&astray)];
    let open = run.can_finish(&astray);
    let more = [run.round(&chain), run.round(&chain)];
    let finished = run.finish(&chain);
    assert_eq!(rt; made, Ok(1));
    assert_eq!(rt; told[0], Err(Unfit::Size));
    assert_eq!(rt; told[1], Err(Unfit::Words));
    assert_eq!(rt; told[2], Err(Unfit::Unsound { place: 2 }));
    assert_eq!(rt;
        open,
        Err(FinishRefusal::Misfit(Unfit::Unsound { place: 2 }))
    );
    assert!(rt; more == [Ok(1), Ok(0)]);
    assert_eq!(rt; finished.rounds(), 3);
    assert_eq!(rt; finished.looks(), 3);
    assert!(rt; finished.words() == [0, 1, 2, NONE, 0, 0].as_slice());
    Ok(())
}

#[test]
fn finish_waits_for_the_end(rt: HostRuntime) -> Result<(), Fail> {
    let mut table = [7; 6];
    let chain = chain()?;
    let mut run = begin(&chain, &mut table);
    let early = run.can_finish(&chain);
    let first = run.round(&chain);
    let second = run.round(&chain);
    let late = run.can_finish(&chain);
    let third = run.round(&chain);
    let after = run.round(&chain);
    let settled = run.can_finish(&chain);
    let finished = run.finish(&chain);
    assert_eq!(rt; early, Err(FinishRefusal::Unsettled));
    assert_eq!(rt; first, Ok(1));
    assert_eq!(rt; second, Ok(1));
    assert_eq!(rt; late, Err(FinishRefusal::Unsettled));
    assert_eq!(rt; third, Ok(0));
    assert_eq!(rt; after, Ok(0));
    assert_eq!(rt; settled, Ok(()));
    assert_eq!(rt; finished.rounds(), 3);
    assert_eq!(rt; finished.looks(), 3);
    assert!(rt; finished.words() == [0, 1, 2, NONE, 0, 0].as_slice());
    Ok(())
}

#[test]
fn early_finish_abandons(rt: HostRuntime) -> Result<(), Fail> {
    let mut table = [7; 6];
    let chain = chain()?;
    let finished = begin(&chain, &mut table).finish(&chain);
    assert!(rt; !finished.is_accepted());
    assert!(rt; finished.words().is_empty());
    assert!(rt; table == [BLANK, BLANK, BLANK, NONE, NONE, NONE]);
    Ok(())
}

#[test]
fn told_another_arena(rt: HostRuntime) -> Result<(), Fail> {
    let mut table = [7; 6];
    let chain = chain()?;
    let stayer = stayer()?;
    let mut run = begin(&chain, &mut table);
    let own = run.round(&chain);
    let other = run.round(&stayer);
    let finished = run.finish(&stayer);
    assert_eq!(rt; own, Ok(1));
    assert_eq!(rt; other, Ok(0));
    assert!(rt; finished.words() == [0, 1, NEVER, NONE, 0, 1].as_slice());
    Ok(())
}
