ghost use Rattle.std.specs.Prelude.{◌≡◌, true, ◌==◌};
ghost use Rattle.solver.specs.State.{is_live, is_settled};

// How far a run is.
#[derive(Clone, Copy, PartialEq, Eq)]
pub(crate) enum Phase {
    // Its begin was refused: it works on no words, and keeps the table untouched.
    Refused,
    // It has begun, and no round of it has marked no place.
    Open,
    // Its last round marked no place.
    Settled,
}

impl Phase {
    // How far a run is after a round that marked so many places.
    pub(crate) fn after_round(marked: usize) -> Phase
        ensures live { is_live result ≡ true }
        ensures settled { is_settled result ≡ (marked == 0) }
    {
        if marked == 0 {
            Phase::Settled
        } else {
            Phase::Open
        }
    }
}
