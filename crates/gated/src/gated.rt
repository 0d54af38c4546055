ghost use Rattle.std.specs.Prelude.{◌≡◌, ◌*◌, IfOk};
ghost use Rattle.board.specs.Boards.{gates_of, period_of, spots_of};
ghost use Rattle.gated.specs.Index.{Listed};

use crate::index::Index;
use board::board::Board;
use std::alloc::{AllocError, Global};

pub mod asked;
mod exits;
mod places;
mod traps;

// A board, with an index of the exits of every spot at every step.
#[derive(Drop)]
pub struct Gated {
    board: Board,
    index: Index,
    ghost listed: { Listed (period_of board) (gates_of board) (spots_of board * period_of board) index.exits.items index.starts.items },
}

impl Gated {
    // The arena of a board; only memory can fail.
    pub fn new(heap: Global, board: Board) -> Result<Gated, AllocError>
        ensures { IfOk result (λ a. a.board ≡ board) }
    {
        let index = Index::of(heap, &board)?;
        Ok(Gated { board, index })
    }

    // The board.
    pub fn board(&self) -> &Board
        ensures { result.now ≡ self.now.board }
    {
        &self.board
    }
}
