ghost use Rattle.solver.specs.FinishRefused.{told};
ghost use Rattle.solver.specs.declared.finish_refusal.FinishRefusal.TheVariants.{Misfit};
ghost use Rattle.std.specs.Prelude.{◌≡◌};

use arena::unfit::Unfit;

// Why a run is not finished.
#[derive(Clone, Copy, PartialEq, Eq, Debug)]
pub enum FinishRefusal {
    // The arena told and the run's table do not fit.
    Misfit(Unfit),
    // The run is not settled.
    Unsettled,
}

impl FinishRefusal {
    // The refusal's number.
    pub fn number(self) -> u8
        ensures { result ≡ (told self).0 }
    {
        match self {
            FinishRefusal::Misfit(why) => why.number(),
            FinishRefusal::Unsettled => 18,
        }
    }
}

// A table that does not fit is not finished.
impl From<Unfit> for FinishRefusal {
    ghost from_gives = { λ why refusal. refusal ≡ Misfit why };

    fn from(why: Unfit) -> FinishRefusal {
        Self::Misfit(why)
    }
}
