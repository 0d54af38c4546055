use crate::admit::admitted;
use crate::interface::Arena;
use crate::kind::{Kind, UnknownKind};
use crate::listing::Listing;
use crate::listing_refusal::ListingRefusal;
use crate::player::Player;
use crate::unfit::Unfit;
use std::alloc::Global;
use std::test::Fail;

// The refusal of three rows, if they are refused.
fn refusal(kinds: &[u8], starts: &[u32], moves: &[u32]) -> Option<ListingRefusal> {
    Listing::new(kinds, starts, moves).err()
}

// What is told of three rows with so many words.
fn fit(kinds: &[u8], starts: &[u32], moves: &[u32], words: usize) -> Option<Result<(), Unfit>> {
    let listing = Listing::new(kinds, starts, moves).ok()?;
    Some(admitted(&listing, words))
}

// One runner's place that leads so many times to itself.
fn loops(heap: Global, count: u32) -> Result<Option<Result<(), Unfit>>, Fail> {
    let moves = vec![in heap; 0u32; count as usize]?;
    Ok(fit(&[0], &[0, count], moves.as_slice(), 2))
}

#[test]
fn chain_is_asked(rt: HostRuntime) -> Result<(), Fail> {
    let chain = Listing::new(&[3, 1, 1], &[0, 0, 1, 2], &[0, 1])?;
    assert_eq!(rt; chain.size(), 3);
    assert_eq!(rt; chain.owner(2), Some(Player::Pursuer));
    assert_eq!(rt; chain.owner(3), None);
    assert_eq!(rt; chain.is_capture(0), Some(true));
    assert_eq!(rt; chain.is_capture(1), Some(false));
    assert_eq!(rt; chain.is_capture(3), None);
    assert_eq!(rt; chain.move_count(0), Some(0));
    assert_eq!(rt; chain.move_count(2), Some(1));
    assert_eq!(rt; chain.move_at(2, 0), Some(1));
    assert_eq!(rt; chain.move_at(2, 1), None);
    assert_eq!(rt; chain.move_at(3, 0), None);
    assert_eq!(rt; chain.first_unsound(), None);
    Ok(())
}

#[test]
fn kinds_are_named(rt: HostRuntime) {
    let kind = |owner, capture| Ok(Kind { owner, capture });
    assert_eq!(rt; Kind::try_from(0), kind(Player::Runner, false));
    assert_eq!(rt; Kind::try_from(1), kind(Player::Pursuer, false));
    assert_eq!(rt; Kind::try_from(2), kind(Player::Runner, true));
    assert_eq!(rt; Kind::try_from(3), kind(Player::Pursuer, true));
    assert_eq!(rt; Kind::try_from(4), Err(UnknownKind(4)));
}

#[test]
fn kinds_are_refused(rt: HostRuntime) {
    let starts = [0, 0, 0, 0];
    assert_eq!(rt;
        refusal(&[4, 2, 9], &starts, &[]),
        Some(ListingRefusal::Kind { place: 0 })
    );
    assert_eq!(rt;
        refusal(&[2, 4, 9], &starts, &[]),
        Some(ListingRefusal::Kind { place: 1 })
    );
    assert_eq!(rt;
        refusal(&[2, 3, 255], &[7], &[]),
        Some(ListingRefusal::Kind { place: 2 })
    );
    assert_eq!(rt; refusal(&[2, 3, 2], &starts, &[]), None);
}

#[test]
fn starts_are_refused(rt: HostRuntime) {
    let kinds = [2, 2, 2];
    let why = Some(ListingRefusal::Starts);
    assert_eq!(rt; refusal(&kinds, &[0, 0, 0], &[]), why);
    assert_eq!(rt; refusal(&kinds, &[0, 0, 0, 0, 0], &[]), why);
    assert_eq!(rt; refusal(&kinds, &[], &[]), why);
    assert_eq!(rt; refusal(&kinds, &[1, 1, 1, 1], &[0]), why);
    assert_eq!(rt; refusal(&kinds, &[0, 1, 0, 1], &[0]), why);
    assert_eq!(rt; refusal(&kinds, &[0, 1, 1, 0], &[0]), why);
    assert_eq!(rt; refusal(&kinds, &[0, 0, 0, 1], &[0, 0]), why);
    assert_eq!(rt; refusal(&[], &[0], &[]), None);
}

#[test]
fn unfit_arenas_are_told(rt: HostRuntime) {
    assert_eq!(rt; fit(&[], &[0], &[], 0), Some(Err(Unfit::Size)));
    assert_eq!(rt; fit(&[2, 0], &[0, 0, 0], &[], 3), Some(Err(Unfit::Words)));
    assert_eq!(rt;
        fit(&[2, 0], &[0, 0, 0], &[], 4),
        Some(Err(Unfit::Unsound { place: 1 }))
    );
    assert_eq!(rt;
        fit(&[0, 2], &[0, 1, 1], &[2], 4),
        Some(Err(Unfit::Unsound { place: 0 }))
    );
    assert_eq!(rt; fit(&[0, 2], &[0, 1, 1], &[1], 4), Some(Ok(())));
}

#[test]
fn moves_are_limited(rt: HostRuntime) -> Result<(), Fail> {
    assert_eq!(rt; loops(rt.alloc(), 65535)?, Some(Ok(())));
    assert_eq!(rt;
        loops(rt.alloc(), 65536)?,
        Some(Err(Unfit::Unsound { place: 0 }))
    );
    Ok(())
}
