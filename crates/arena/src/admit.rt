ghost use Rattle.arena.specs.Unfit.{Cause, Exact, Fits};
ghost use Rattle.std.specs.Prelude.{◌≡◌, MatchResult};

use crate::interface::Arena;
use crate::unfit::Unfit;

pub const MOST_PLACES: usize = 1048576;

// Whether an arena and a table of so many words fit, or the first cause why not.
pub fn admitted<A: Arena>(arena: &A, words: usize) -> Result<(), Unfit>
    ensures { MatchResult result (λ _. Fits (A.Arena.game arena.now) words) (Cause (A.Arena.game arena.now) words) }
{
    let size = arena.size();
    if size == 0 || size > MOST_PLACES {
        return Err(Unfit::Size);
    }
    if words != 2 * size {
        return Err(Unfit::Words);
    }
    // from a place to a refusal: `map_or` would put the good case first, and read no plainer
    match arena.first_unsound() {
        Some(place) => Err(Unfit::Unsound { place }),
        None => Ok(()),
    }
}

// The causes exclude each other, and that the arena and the table fit.
pub fn refusals_exclude()
    ensures { Exact }
{
    ()
}
