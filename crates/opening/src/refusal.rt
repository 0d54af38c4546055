ghost use Rattle.opening.specs.Refused.{told};
ghost use Rattle.std.specs.Prelude.{◌≡◌};

// Why there is no opening or reply.
#[derive(Clone, Copy, PartialEq, Eq, Debug)]
pub enum OpeningRefusal {
    // The table is of another size than the board.
    Table,
    // The spot is not on the board.
    Spot,
}

impl OpeningRefusal {
    // The refusal's number.
    pub fn number(self) -> u8
        ensures { result ≡ (told self).0 }
    {
        match self {
            OpeningRefusal::Table => 20,
            OpeningRefusal::Spot => 21,
        }
    }
}
