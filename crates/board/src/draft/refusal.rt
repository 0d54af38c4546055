ghost use Rattle.board.specs.GateRefused.{rule_told, told as gate_told};
ghost use Rattle.board.specs.SpotsRefused.{told as spots_told};
ghost use Rattle.board.specs.declared.draft.refusal.GateRefusal.TheVariants.{NoMemory};
ghost use Rattle.std.specs.Option.{option_map};
ghost use Rattle.std.specs.Prelude.{◌≡◌};

use crate::gate::Gate;
use std::alloc::AllocFailed;

// Why a number of spots makes no board.
#[derive(Clone, Copy, PartialEq, Eq, Debug)]
pub enum SpotsRefusal {
    // It is 0 or above 64.
    OutOfRange,
}

impl SpotsRefusal {
    // The refusal's number.
    pub fn number(self) -> u8
        ensures { result ≡ (spots_told self).0 }
    {
        match self {
            SpotsRefusal::OutOfRange => 7,
        }
    }
}

// Why a gate is not added.
#[derive(Clone, Copy, PartialEq, Eq, Debug)]
pub enum GateRefusal {
    // An end is no spot of the board.
    OffBoard,
    // Both ends are the same spot.
    EqualEnds,
    // A gate joins the same pair of spots already, in either order.
    RepeatedPair,
    // There are 256 gates already.
    TooMany,
    // There is no memory for it.
    NoMemory,
}

impl GateRefusal {
    // The refusal's number, plain as that of every other refusal; 0 for want of memory, which has none.
    pub fn number(self) -> u8
        ensures { result ≡ (gate_told self).0 }
    {
        match self {
            GateRefusal::OffBoard => 7,
            GateRefusal::EqualEnds | GateRefusal::RepeatedPair => 8,
            GateRefusal::TooMany => 9,
            GateRefusal::NoMemory => 0,
        }
    }

    // The number of the rule that is broken; want of memory breaks none.
    pub fn rule_number(self) -> Option<u8>
        ensures { result ≡ option_map (λ t. t.0) (rule_told self) }
    {
        match self {
            GateRefusal::NoMemory => None,
            _ => Some(self.number()),
        }
    }
}

// A gate that finds no memory is refused for want of it.
impl From<AllocFailed<Gate>> for GateRefusal {
    ghost from_gives = { λ _ e. e ≡ NoMemory };

    fn from(_failed: AllocFailed<Gate>) -> GateRefusal {
        GateRefusal::NoMemory
    }
}
