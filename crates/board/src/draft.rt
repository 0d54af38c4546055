ghost use Rattle.board.specs.Gates.{LawfulGates, LawfulSpots};
ghost use Rattle.board.specs.SpotsRefused.{Cause};
ghost use Rattle.std.specs.Prelude.{◌≡◌, [], MatchResult};

use crate::draft::refusal::SpotsRefusal;
use crate::gate::Gate;
use std::alloc::Global;

mod add;
mod close;
pub mod refusal;

// A board in the making: gates are added one by one.
#[derive(Drop)]
pub struct Draft {
    spots: u8,
    gates: Vec<Gate>,
    ghost sized: { LawfulSpots spots },
    ghost lawful: { LawfulGates spots gates.items },
}

impl Draft {
    // So many spots and no gate, or why not.
    pub fn new(heap: Global, spots: u8) -> Result<Draft, SpotsRefusal>
        ensures { MatchResult result (λ d. LawfulSpots spots × (d.spots ≡ spots) × (d.gates.items ≡ [])) (Cause spots) }
    {
        if spots == 0 || spots > 64 {
            return Err(SpotsRefusal::OutOfRange);
        }
        Ok(Draft {
            spots,
            gates: Vec::new(heap),
        })
    }

    // How many spots there are.
    pub fn spots(&self) -> u8
        ensures { result ≡ self.now.spots }
    {
        self.spots
    }

    // The gates so far.
    pub fn gates(&self) -> &[Gate]
        ensures { result.now ≡ self.now.gates.items }
    {
        self.gates.as_slice()
    }
}
