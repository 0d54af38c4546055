ghost use Rattle.arena.specs.Listed.{told};
ghost use Rattle.std.specs.Prelude.{◌≡◌};

// Why three rows list no game.
#[derive(Clone, Copy, PartialEq, Eq, Debug)]
pub enum ListingRefusal {
    // The first place whose kind is above 3.
    Kind { place: usize },
    // The starts do not part the moves among the places.
    Starts,
}

impl ListingRefusal {
    // The refusal's number.
    pub fn number(self) -> u8
        ensures { result ≡ (told self).0 }
    {
        match self {
            ListingRefusal::Kind { .. } => 11,
            ListingRefusal::Starts => 12,
        }
    }
}
