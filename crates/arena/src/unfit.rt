ghost use Rattle.std.specs.Prelude.{◌≡◌};
ghost use Rattle.arena.specs.Unfit.{told};

// Why an arena and a table do not fit.
#[derive(Clone, Copy, PartialEq, Eq, Debug)]
pub enum Unfit {
    // The number of places is 0 or over the limit.
    Size,
    // The table has not two words for each place.
    Words,
    // The first place that is not sound.
    Unsound { place: usize },
}

impl Unfit {
    // The refusal's number.
    pub fn number(self) -> u8
        ensures { result ≡ (told self).0 }
    {
        match self {
            Unfit::Size => 15,
            Unfit::Words => 16,
            Unfit::Unsound { .. } => 17,
        }
    }
}
