ghost use Rattle.std.specs.Prelude.{◌≡◌, ℕ, ◌+◌, ◌*◌, ◌<◌, ◌≤◌, length, MatchResult};
ghost use Rattle.arena.specs.Sound.{PlacesSound};
ghost use Rattle.arena.specs.Unfit.{Cause, Fits};
ghost use Rattle.rounds.specs.Words.{Finished};

use crate::scan::View;
use arena::unfit::Unfit;
use arena::{Arena, admitted};
use marks::mark::{BLANK, NEVER};

fn close_blanks<A: Arena>(arena: &A, table: &mut [u32])
    requires sound { PlacesSound (A.Arena.game arena.now) }
    requires fits { length table.old ≡ 2 * (A.Arena.game arena.now).size }
    requires few { (A.Arena.game arena.now).size ≤ 1048576 }
    ensures { Finished (A.Arena.game arena.now) table.old table.new }
{
    let size = arena.size();
    // the scan reads the table that the loop writes, so no iterator can hold it
    for place in 0..size {
        if table[place] == BLANK {
            let seen = View {
                arena,
                table,
                place,
                cap: BLANK,
            }
            .scan();
            table[place] = NEVER;
            table[size + place] = seen.word;
        }
    }
}

// Turns each blank mark to never, with its move word; a table that does not fit is left as it is.
pub fn finish_table<A: Arena>(arena: &A, table: &mut [u32]) -> Result<(), Unfit>
    ensures { MatchResult result (λ _. Fits (A.Arena.game arena.now) (length table.old) × Finished (A.Arena.game arena.now) table.old table.new) (λ e. Cause (A.Arena.game arena.now) (length table.old) e × (table.new ≡ table.old)) }
{
    admitted(arena, table.len())?;
    close_blanks(arena, table);
    Ok(())
}
