ghost use Rattle.std.specs.Prelude.{MatchOption};
ghost use Rattle.arena.specs.Bytes.{AllUpTo, FirstAbove};

// The index of the first byte that is above the limit.
pub fn first_above(bytes: &[u8], most: u8) -> Option<usize>
    ensures { MatchOption result (AllUpTo most bytes.now) (FirstAbove most bytes.now) }
{
    bytes.iter().position(|byte| *byte > most)
}
