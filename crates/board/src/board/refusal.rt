ghost use Rattle.board.specs.SizeRefused.{told};
ghost use Rattle.std.specs.Prelude.{◌≡◌};

// Why spots and lawful gates make no board.
#[derive(Clone, Copy, PartialEq, Eq, Debug)]
pub enum SizeRefusal {
    // There would be more than 1048576 places.
    TooLarge,
}

impl SizeRefusal {
    // The refusal's number.
    pub fn number(self) -> u8
        ensures { result ≡ (told self).0 }
    {
        match self {
            SizeRefusal::TooLarge => 10,
        }
    }
}
