ghost use Rattle.board.specs.PatternRefused.{told};
ghost use Rattle.std.specs.Prelude.{◌≡◌};

// Why bits and a length make no pattern.
#[derive(Clone, Copy, PartialEq, Eq, Debug)]
pub enum PatternRefusal {
    // The length is 0 or above 32.
    Length,
    // A bit at or above the length is set.
    BitPastLength,
    // No bit is set.
    NoBit,
}

impl PatternRefusal {
    // The refusal's number.
    pub fn number(self) -> u8
        ensures { result ≡ (told self).0 }
    {
        match self {
            PatternRefusal::Length => 1,
            PatternRefusal::BitPastLength => 2,
            PatternRefusal::NoBit => 3,
        }
    }
}
