ghost use Rattle.std.specs.Prelude.{◌≡◌, ◌≤◌, MatchResult};
ghost use Rattle.board.specs.Clock.{Period};
ghost use Rattle.board.specs.Drafts.{draft_gates, draft_spots};
ghost use Rattle.board.specs.Gates.{places};
ghost use Rattle.board.specs.SizeRefused.{Cause};

use crate::board::refusal::SizeRefusal;
use crate::clock::period_of;
use crate::draft::Draft;
use crate::gate::Gate;

pub mod refusal;

const MOST_PLACES: u64 = 1048576;

// A draft that is closed: its spots, the gates between them, and the clock that the gates keep.
#[derive(Drop)]
pub struct Board {
    draft: Draft,
    period: u32,
    ghost clock: { Period (draft_gates draft) period },
    ghost small: { places (draft_spots draft) period ≤ 1048576 },
}

impl Board {
    // The board of a draft, or why there is none.
    pub(crate) fn with(draft: Draft) -> Result<Board, SizeRefusal>
        ensures { MatchResult result (λ b. b.draft ≡ draft) (Cause (draft_spots draft) (draft_gates draft)) }
    {
        let n = u64::from(draft.spots());
        let period = period_of(draft.gates());
        if period * 2 * n * n > MOST_PLACES {
            return Err(SizeRefusal::TooLarge);
        }
        Ok(Board {
            draft,
            period: period as u32,
        })
    }

    // How many spots there are.
    pub fn spots(&self) -> u8
        ensures { result ≡ draft_spots self.now.draft }
    {
        self.draft.spots()
    }

    // How many steps the clock has.
    pub fn period(&self) -> u32
        ensures { result ≡ self.now.period }
    {
        self.period
    }

    // The gates, in listed order.
    pub fn gates(&self) -> &[Gate]
        ensures { result.now ≡ draft_gates self.now.draft }
    {
        self.draft.gates()
    }

    // How many places there are.
    pub fn places(&self) -> u32
        ensures { result ≡ places (draft_spots self.now.draft) self.now.period }
    {
        let steps = self.period;
        let n = u32::from(self.draft.spots());
        steps * 2 * n * n
    }
}
