ghost use Rattle.std.specs.Prelude.{◌≡◌, ℕ, ◌+◌, ◌*◌, ◌<◌, ◌≤◌, min, length, MatchResult};
ghost use Rattle.arena.specs.Sound.{PlacesSound};
ghost use Rattle.arena.specs.Unfit.{Cause, Fits};
ghost use Rattle.rounds.specs.Rounds.{MarksRound};
ghost use Rattle.rounds.specs.Words.{last_round};

use crate::made::Made;
use crate::scan::View;
use arena::unfit::Unfit;
use arena::{Arena, admitted};
use marks::mark::BLANK;

// The number of a round stays below the blank mark.
pub const LAST_ROUND: u32 = 4294967293;

fn mark_ready<A: Arena>(arena: &A, table: &mut [u32], round: u32) -> Made
    requires sound { PlacesSound (A.Arena.game arena.now) }
    requires fits { length table.old ≡ 2 * (A.Arena.game arena.now).size }
    requires few { (A.Arena.game arena.now).size ≤ 1048576 }
    requires number { round ≤ last_round }
    ensures { MarksRound (A.Arena.game arena.now) round table.old table.new result }
{
    let size = arena.size();
    let mut marked = 0;
    let mut looks = 0;
    // the scan reads the table that the loop writes, so no iterator can hold it
    for place in 0..size {
        if table[place] == BLANK {
            let seen = View {
                arena,
                table,
                place,
                cap: round,
            }
            .scan();
            looks += seen.looks;
            if seen.ready {
                table[place] = round;
                table[size + place] = seen.word;
                marked += 1;
            }
        }
    }
    Made { marked, looks }
}

// Makes the round of that number, or of the last one that there is; a table that does not fit is left as it is.
pub fn round_table<A: Arena>(arena: &A, table: &mut [u32], round: u32) -> Result<Made, Unfit>
    ensures { MatchResult result (λ made. Fits (A.Arena.game arena.now) (length table.old) × MarksRound (A.Arena.game arena.now) (min round last_round) table.old table.new made) (λ e. Cause (A.Arena.game arena.now) (length table.old) e × (table.new ≡ table.old)) }
{
    admitted(arena, table.len())?;
    Ok(mark_ready(arena, table, round.min(LAST_ROUND)))
}
