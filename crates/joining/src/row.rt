ghost use Rattle.std.specs.Prelude.{◌≡◌, ◌+◌, ◌%◌, ◌^◌, ◌++◌, length};
ghost use Rattle.joining.specs.Rows.{folded, Cut};

use crate::joining::Joining;
use crate::pair::Pair;

// The join of what each mark of the row counts as, in order; positions go on from `first` and begin again at 0 after the last.
pub fn fold_row<J: Joining>(row: &[u32], first: u64) -> J
    ensures { result ≡ folded J.meaning first row.now }
{
    row.iter()
        .enumerate()
        .fold(J::start(), |all, (index, mark)| {
            all.join(J::count_as(*mark, first.wrapping_add(index as u64)))
        })
}

// The fold of a row that is given in two parts: the join of both folds, the second begun at the cut's position.
pub fn fold_parts<J: Joining>(front: &[u32], back: &[u32], first: u64) -> J
    ensures parts { result ≡ J.meaning.joined (folded J.meaning first front.now) (folded J.meaning ((first + length front.now) % 2 ^ 64) back.now) }
    ensures whole { result ≡ folded J.meaning first (front.now ++ back.now) }
    ensures cut { Cut J.meaning }
{
    let left: J = fold_row(front, first);
    left.join(fold_row(back, first.wrapping_add(front.len() as u64)))
}

// Two folds in one pass over the row.
pub fn fold_both<A: Joining, B: Joining>(row: &[u32], first: u64) -> Pair<A, B>
    ensures left { result.first ≡ folded A.meaning first row.now }
    ensures right { result.second ≡ folded B.meaning first row.now }
{
    fold_row(row, first)
}
