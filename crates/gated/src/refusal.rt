ghost use Rattle.gated.specs.TrapRefused.{rule_told, told};
ghost use Rattle.gated.specs.declared.refusal.TrapRefusal.TheVariants.{NoMemory};
ghost use Rattle.std.specs.Option.{option_map};
ghost use Rattle.std.specs.Prelude.{◌≡◌};

use std::alloc::AllocError;

// Why traps are not laid.
#[derive(Clone, Copy, PartialEq, Eq, Debug)]
pub enum TrapRefusal {
    // A trap is on no spot of the board.
    OffBoard,
    // There is no memory for the bytes.
    NoMemory,
}

impl TrapRefusal {
    // The refusal's number, plain as that of every other refusal; 0 for want of memory, which has none.
    pub fn number(self) -> u8
        ensures { result ≡ (told self).0 }
    {
        match self {
            TrapRefusal::OffBoard => 21,
            TrapRefusal::NoMemory => 0,
        }
    }

    // The number of the rule that is broken; want of memory breaks none.
    pub fn rule_number(self) -> Option<u8>
        ensures { result ≡ option_map (λ t. t.0) (rule_told self) }
    {
        match self {
            TrapRefusal::NoMemory => None,
            _ => Some(self.number()),
        }
    }
}

// Bytes that find no memory are refused for want of it.
impl From<AllocError> for TrapRefusal {
    ghost from_gives = { λ _ e. e ≡ NoMemory };

    fn from(_error: AllocError) -> TrapRefusal {
        TrapRefusal::NoMemory
    }
}
