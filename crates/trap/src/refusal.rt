ghost use Rattle.trap.specs.TrapRefused.{told};
ghost use Rattle.std.specs.Prelude.{◌≡◌};

// Why bytes lay no traps.
#[derive(Clone, Copy, PartialEq, Eq, Debug)]
pub enum TrapRefusal {
    // There is not one byte for each place.
    Length,
    // The first place whose byte is above 1.
    Byte { place: usize },
}

impl TrapRefusal {
    // The refusal's number.
    pub fn number(self) -> u8
        ensures { result ≡ (told self).0 }
    {
        match self {
            TrapRefusal::Length => 13,
            TrapRefusal::Byte { .. } => 14,
        }
    }
}
