use crate::mark::{BLANK, NEVER};
use crate::pick::{Entry, PursuerPick, RunnerPick};
use crate::row::{pick, pursuer_pick, runner_pick, runner_pick_and_tally, tally};
use crate::tally::Tally;
use crate::wish::{Greatest, Least};
use joining::joining::Joining;
use joining::pair::Pair;
use joining::row::fold_parts;

fn at(mark: u32, position: u64) -> Option<Entry> {
    Some(Entry { mark, position })
}

fn tally_of(capture: u32, counted: u32, never: u32, longest: u32) -> Tally {
    Tally {
        capture,
        counted,
        never,
        longest,
    }
}

#[test]
fn ties_keep_the_left(rt: HostRuntime) {
    let row = [7, 3, 9, 3, 9];
    assert_eq!(rt; pursuer_pick(&row, 0).entry, at(3, 1));
    assert_eq!(rt; runner_pick(&row, 0).entry, at(9, 2));
}

#[test]
fn blanks_and_nevers_compare_as_numbers(rt: HostRuntime) {
    let row = [NEVER, BLANK, NEVER, BLANK];
    assert_eq!(rt; pursuer_pick(&row, 0).entry, at(BLANK, 1));
    assert_eq!(rt; runner_pick(&row, 0).entry, at(NEVER, 0));
}

#[test]
fn short_rows(rt: HostRuntime) {
    assert_eq!(rt; pick::<Least>(&[], 3).entry, None);
    assert_eq!(rt; pick::<Greatest>(&[], 3).entry, None);
    assert_eq!(rt; tally(&[]), tally_of(0, 0, 0, 0));
    assert_eq!(rt; pick::<Greatest>(&[0], 3).entry, at(0, 3));
}

#[test]
fn positions_wrap(rt: HostRuntime) {
    let last = u64::MAX;
    assert_eq!(rt; pursuer_pick(&[5, 4, 4], last).entry, at(4, 0));
    let parts: PursuerPick = fold_parts(&[5, 6], &[6, 4], last);
    assert_eq!(rt; parts.entry, at(4, 2));
}

#[test]
fn one_pass_for_two(rt: HostRuntime) {
    let both = runner_pick_and_tally(&[0, BLANK, 7, NEVER, 2, 0]);
    assert_eq!(rt; both.first.entry, at(NEVER, 3));
    assert_eq!(rt; both.second, tally_of(2, 2, 1, 7));
}

#[test]
fn sums_saturate(rt: HostRuntime) {
    let near = tally_of(4294967294, u32::MAX, 4294967290, 9);
    assert_eq!(rt;
        near.join(tally_of(2, 1, 5, 8)),
        tally_of(u32::MAX, u32::MAX, u32::MAX, 9)
    );
}

#[test]
fn empty_elements(rt: HostRuntime) {
    let empty: Pair<RunnerPick, Tally> = Pair::EMPTY;
    assert_eq!(rt; empty.first.entry, None);
    assert_eq!(rt; empty.second, Tally::EMPTY);
}
