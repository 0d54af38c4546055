ghost use Rattle.std.specs.Prelude.{◌≡◌, None};
ghost use Rattle.std.proofs.Common.{rules};
ghost use Rattle.marks.specs.Picks.{better, picked, picking};

use crate::wish::{Greatest, Least, Wish};
use joining::joining::Joining;
use std::marker::PhantomData;

// One entry of a row.
#[derive(Clone, Copy, PartialEq, Eq, Debug)]
pub struct Entry {
    pub mark: u32,
    pub position: u64,
}

// The entry with the better mark, and of equal marks the left one.
fn better<W: Wish>(left: Option<Entry>, right: Option<Entry>) -> Option<Entry>
    ensures { result ≡ better W.order left right }
{
    match (left, right) {
        (None, _) => right,
        (_, None) => left,
        (Some(kept), Some(entry)) => {
            if W::beats(entry.mark, kept.mark) {
                right
            } else {
                left
            }
        }
    }
}

// The entry of a row that is picked by a wish, if the row has any: the best mark, at its first position.
#[derive(Clone, Copy, PartialEq, Eq, Debug)]
pub struct Pick<W> {
    pub entry: Option<Entry>,
    pub wish: PhantomData<W>,
}

// The least mark of a row.
pub type PursuerPick = Pick<Least>;

// The greatest mark of a row.
pub type RunnerPick = Pick<Greatest>;

impl<W: Wish> Joining for Pick<W> {
    const EMPTY: Pick<W> = Pick {
        entry: None,
        wish: PhantomData,
    };

    ghost EMPTY = { picked None };

    ghost meaning = { picking W.order };

    ghost empty_is_neutral = { Prim.search rules };

    ghost lawful = { Prim.search rules };

    fn join(self, other: Pick<W>) -> Pick<W> {
        Pick {
            entry: better::<W>(self.entry, other.entry),
            ..self
        }
    }

    fn count_as(mark: u32, position: u64) -> Pick<W> {
        Pick {
            entry: Some(Entry { mark, position }),
            ..Self::EMPTY
        }
    }
}
