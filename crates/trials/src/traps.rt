use crate::boards::two_spots;
use crate::lists::chain;
use checker::check as judge;
use gated::Gated;
use marks::mark::NONE;
use solver::solve::solve;
use std::test::Fail;
use trap::{TrapRefusal, Trapped};

#[test]
fn other_bytes_are_refused(rt: HostRuntime) -> Result<(), Fail> {
    let chain = chain()?;
    assert!(rt; matches!(Trapped::new(&chain, &[0; 2]), Err(TrapRefusal::Length)));
    assert!(rt; matches!(Trapped::new(&chain, &[0; 4]), Err(TrapRefusal::Length)));
    assert!(rt;
        matches!(
            Trapped::new(&chain, &[0, 2, 3]),
            Err(TrapRefusal::Byte { place: 1 })
        )
    );
    Ok(())
}

#[test]
fn a_trap_on_the_chain(rt: HostRuntime) -> Result<(), Fail> {
    let chain = chain()?;
    let trapped = Trapped::new(&chain, &[0, 1, 0])?;
    let mut table = [7; 6];
    assert!(rt; solve(&trapped, &mut table).is_ok());
    assert!(rt; table == [0, 0, 1, NONE, NONE, 0]);
    assert!(rt; judge(&trapped, &table).is_ok());
    assert!(rt; judge(&chain, &table).is_err());
    Ok(())
}

#[test]
fn traps_piled_twice(rt: HostRuntime) -> Result<(), Fail> {
    let heap = rt.alloc();
    let board = two_spots(heap)?;
    let arena = Gated::new(heap, board)?;
    let low = arena.trap_bytes(heap, &[1])?;
    let high = arena.trap_bytes(heap, &[0])?;
    let one = Trapped::new(&arena, low.as_slice())?;
    let both = Trapped::new(&one, high.as_slice())?;
    let mut table = [7; 32];
    assert!(rt; solve(&one, &mut table).is_ok());
    assert!(rt; judge(&one, &table).is_ok());
    assert!(rt; judge(&both, &table).is_err());
    assert!(rt; &table[0..4] == [0, 0, 3, 0].as_slice());
    assert!(rt; solve(&both, &mut table).is_ok());
    assert!(rt; judge(&both, &table).is_ok());
    assert!(rt; judge(&one, &table).is_err());
    assert!(rt; &table[0..16] == [0; 16].as_slice());
    Ok(())
}
