ghost use Rattle.marks.specs.Tallies.{counting, no_marks};
ghost use Rattle.std.proofs.Common.{rules};

use crate::mark::{BLANK, NEVER};
use joining::joining::Joining;

// How many marks of each kind a row has, and its longest count. A blank adds nothing.
#[derive(Clone, Copy, PartialEq, Eq, Debug)]
pub struct Tally {
    pub capture: u32,
    pub counted: u32,
    pub never: u32,
    pub longest: u32,
}

impl Joining for Tally {
    const EMPTY: Tally = Tally {
        capture: 0,
        counted: 0,
        never: 0,
        longest: 0,
    };

    ghost EMPTY = { no_marks };

    ghost meaning = { counting };

    ghost empty_is_neutral = { Prim.search rules };

    ghost lawful = { Prim.search rules };

    fn join(self, other: Tally) -> Tally {
        Tally {
            capture: self.capture.saturating_add(other.capture),
            counted: self.counted.saturating_add(other.counted),
            never: self.never.saturating_add(other.never),
            longest: self.longest.max(other.longest),
        }
    }

    fn count_as(mark: u32, _position: u64) -> Tally {
        match mark {
            0 => Tally {
                capture: 1,
                ..Self::EMPTY
            },
            1..BLANK => Tally {
                counted: 1,
                longest: mark,
                ..Self::EMPTY
            },
            NEVER => Tally {
                never: 1,
                ..Self::EMPTY
            },
            _ => Self::EMPTY,
        }
    }
}
