ghost use Rattle.std.specs.Prelude.{◌≡◌, ◌+◌, ◌*◌, ◌<◌, ◌≤◌, [], ◌∷◌, ◌++◌, length, IfOk, filter, OnOk};
ghost use Rattle.board.specs.Boards.{gates_of, period_of, spots_of};
ghost use Rattle.gated.specs.Exits.{exits_at, far, touches};
ghost use Rattle.gated.specs.Index.{Listed};
ghost use Rattle.std.specs.Option.{option_to_list};

use board::board::Board;
use board::gate::Gate;
use std::alloc::{AllocError, Global};

// Whether a spot is an end of a gate.
fn is_end(gate: &Gate, spot: u8) -> bool
    ensures { result ≡ touches spot gate.now }
{
    spot == gate.from || spot == gate.to
}

// The gates at a spot, in listed order.
fn gates_at(heap: Global, gates: &[Gate], spot: u8) -> Result<Vec<Gate>, AllocError>
    ensures { IfOk result (λ v. v.items ≡ filter (touches spot) gates.now) }
{
    gates
        .iter()
        .copied()
        .filter(|gate| is_end(gate, spot))
        .collect(heap)
}

// The far end of a gate from a spot, if it is open and the spot is one of its ends.
fn far_end(gate: &Gate, step: u32, spot: u8) -> Option<u8>
    ensures { option_to_list result ≡ far step spot gate.now }
{
    if !gate.pattern.is_open(step) {
        None
    } else if spot == gate.from {
        Some(gate.to)
    } else if spot == gate.to {
        Some(gate.from)
    } else {
        None
    }
}

// The exits of a spot at a step: itself, and the far ends of its open gates.
fn push_exits(exits: &mut Vec<u8>, gates: &[Gate], step: u32, spot: u8) -> Result<(), AllocError>
    ensures { OnOk result (exits.new.items ≡ exits.old.items ++ exits_at gates.now step spot) }
{
    exits.push(spot)?;
    exits.extend(gates.iter().filter_map(|gate| far_end(gate, step, spot)))
}

// The exits of every spot at every step, a row for each, and where each row starts. A `Vec` for each row was tried: at
// 262144 rows it takes 14 MB, not 3.5, and a look at a row takes twice the time.
#[derive(Drop)]
pub(crate) struct Index {
    pub(crate) exits: Vec<u8>,
    pub(crate) starts: Vec<u32>,
}

impl Index {
    // One row more: the exits of a spot at a step, by the gates at that spot.
    fn add_row(&mut self, near: &[Gate], step: u32, spot: u8) -> Result<(), AllocError>
        requires exits_len_bound { length self.old.exits.items ≤ 524288 * 257 }
        requires near_len_bound { length near.now ≤ 256 }
        ensures { OnOk result ((self.new.exits.items ≡ self.old.exits.items ++ exits_at near.now step spot) × (self.new.starts.items ≡ self.old.starts.items ++ (length self.new.exits.items ∷ []))) }
    {
        push_exits(&mut self.exits, near, step, spot)?;
        self.starts.push(self.exits.len() as u32)?;
        Ok(())
    }

    // The rows of one spot more, at every step.
    fn add_spot(
        &mut self,
        heap: Global,
        gates: &[Gate],
        spot: u8,
        period: u32,
    ) -> Result<(), AllocError>
        requires gates_len_bound { length gates.now ≤ 256 }
        requires period_bound { (spot + 1) * period ≤ 524288 }
        requires listed { Listed period gates.now (spot * period) self.old.exits.items self.old.starts.items }
        ensures { OnOk result (Listed period gates.now ((spot + 1) * period) self.new.exits.items self.new.starts.items) }
    {
        let near = gates_at(heap, gates, spot)?;
        for step in 0..period {
            self.add_row(near.as_slice(), step, spot)?;
        }
        Ok(())
    }

    // The index of a board.
    pub(crate) fn of(heap: Global, board: &Board) -> Result<Index, AllocError>
        ensures { IfOk result (λ x. Listed (period_of board.now) (gates_of board.now) (spots_of board.now * period_of board.now) x.exits.items x.starts.items) }
    {
        let mut starts = Vec::new(heap);
        starts.push(0)?;
        let mut index = Index {
            exits: Vec::new(heap),
            starts,
        };
        for spot in 0..board.spots() {
            index.add_spot(heap, board.gates(), spot, board.period())?;
        }
        Ok(index)
    }
}
