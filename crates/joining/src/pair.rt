ghost use Rattle.joining.specs.Pairs.{paired, side_by_side};
ghost use Rattle.std.proofs.Common.{rules};

use crate::joining::Joining;

// Two joinings side by side, for one pass over a row.
#[derive(Clone, Copy)]
pub struct Pair<A, B> {
    pub first: A,
    pub second: B,
}

impl<A: Joining, B: Joining> Joining for Pair<A, B> {
    const EMPTY: Pair<A, B> = Pair {
        first: A::EMPTY,
        second: B::EMPTY,
    };

    ghost EMPTY = { paired A.Joining.EMPTY B.Joining.EMPTY };

    ghost meaning = { side_by_side A.meaning B.meaning };

    ghost empty_is_neutral = { Prim.search rules };

    ghost lawful = { Prim.search rules };

    fn join(self, other: Pair<A, B>) -> Pair<A, B> {
        Pair {
            first: self.first.join(other.first),
            second: self.second.join(other.second),
        }
    }

    fn count_as(mark: u32, position: u64) -> Pair<A, B> {
        Pair {
            first: A::count_as(mark, position),
            second: B::count_as(mark, position),
        }
    }
}
