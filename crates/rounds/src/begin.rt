ghost use Rattle.std.specs.Prelude.{◌≡◌, ℕ, ◌+◌, ◌*◌, ◌<◌, ◌≤◌, length, if◌then◌else◌, MatchResult};
ghost use Rattle.arena.specs.Unfit.{Cause, Fits};
ghost use Rattle.rounds.specs.Words.{Begun, marks_of};

use arena::unfit::Unfit;
use arena::{Arena, admitted};
use marks::mark::{BLANK, NONE};

// The mark of a place before any round.
fn first_mark<A: Arena>(arena: &A, place: usize) -> u32
    requires { place < (A.Arena.game arena.now).size }
    ensures { result ≡ (if (A.Arena.game arena.now).rules.capture place then 0 else 4294967294) }
{
    match arena.is_capture(place) {
        Some(true) => 0,
        _ => BLANK,
    }
}

// Marks the capture places 0, and blanks the others.
fn mark_captures<A: Arena>(arena: &A, marks: &mut [u32])
    requires { length marks.old ≡ (A.Arena.game arena.now).size }
    ensures long { length marks.new ≡ length marks.old }
    ensures marked { (p : ℕ) → p < (A.Arena.game arena.now).size → marks_of marks.new p ≡ (if (A.Arena.game arena.now).rules.capture p then 0 else 4294967294) }
{
    for (place, mark) in marks.iter_mut().enumerate() {
        *mark = first_mark(arena, place);
    }
}

// Writes the table that a run on the arena begins with; a table that does not fit is left as it is.
pub fn begin_table<A: Arena>(arena: &A, table: &mut [u32]) -> Result<(), Unfit>
    ensures { MatchResult result (λ _. Fits (A.Arena.game arena.now) (length table.old) × Begun (A.Arena.game arena.now) table.new) (λ e. Cause (A.Arena.game arena.now) (length table.old) e × (table.new ≡ table.old)) }
{
    admitted(arena, table.len())?;
    let (marks, moves) = table.split_at_mut(arena.size());
    mark_captures(arena, marks);
    moves.fill(NONE);
    Ok(())
}
