ghost use Rattle.checker.specs.Verdicts.{told};
ghost use Rattle.checker.specs.declared.refusal.CheckRefusal.TheVariants.{Misfit};
ghost use Rattle.std.specs.Prelude.{◌≡◌};

use arena::unfit::Unfit;

// Why a table is not accepted.
#[derive(Clone, Copy, PartialEq, Eq, Debug)]
pub enum CheckRefusal {
    // The arena and the table do not fit.
    Misfit(Unfit),
    // The first place that breaks the table rules.
    Fault { place: usize },
}

// An arena and a table that do not fit are refused as a misfit.
impl From<Unfit> for CheckRefusal {
    ghost from_gives = { λ why refusal. refusal ≡ Misfit why };

    fn from(why: Unfit) -> CheckRefusal {
        Self::Misfit(why)
    }
}

impl CheckRefusal {
    // The refusal's number.
    pub fn number(self) -> u8
        ensures { result ≡ (told self).0 }
    {
        match self {
            CheckRefusal::Misfit(why) => why.number(),
            CheckRefusal::Fault { .. } => 19,
        }
    }
}
