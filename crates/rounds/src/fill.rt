ghost use Rattle.rounds.specs.Words.{fresh};
ghost use Rattle.std.specs.Prelude.{◌≡◌, length, replicate};

use marks::mark::{BLANK, NONE};

// Blanks every mark and names no move.
pub fn clear_table(table: &mut [u32])
    ensures { table.new ≡ fresh (length table.old) }
{
    let half = table.len() / 2;
    table[..half].fill(BLANK);
    table[half..].fill(NONE);
}
