ghost use Rattle.board.specs.PatternRefused.{Cause};
ghost use Rattle.board.specs.Patterns.{Lawful, opens};
ghost use Rattle.std.specs.Prelude.{◌≡◌, MatchResult};

use crate::pattern::refusal::PatternRefusal;

pub mod refusal;

// At which steps a gate is open: at step t, if bit (t mod steps) is set.
#[derive(Clone, Copy)]
pub struct Pattern {
    steps: u8,
    bits: u32,
    ghost lawful: { Lawful bits steps },
}

impl Pattern {
    // The pattern with these bits and so many steps, or the first cause why there is none.
    pub fn new(bits: u32, steps: u8) -> Result<Pattern, PatternRefusal>
        ensures { MatchResult result (λ p. Lawful bits steps × (p.bits ≡ bits) × (p.steps ≡ steps)) (Cause bits steps) }
    {
        if steps == 0 || steps > 32 {
            return Err(PatternRefusal::Length);
        }
        if bits as u64 >> steps != 0 {
            return Err(PatternRefusal::BitPastLength);
        }
        if bits == 0 {
            return Err(PatternRefusal::NoBit);
        }
        Ok(Pattern { steps, bits })
    }

    // How many steps it has.
    pub fn steps(&self) -> u8
        ensures { result ≡ self.now.steps }
    {
        self.steps
    }

    // Whether it is open at a step.
    pub fn is_open(&self, step: u32) -> bool
        ensures { result ≡ opens self.now.bits self.now.steps step }
    {
        (self.bits >> (step % self.steps as u32)) % 2 == 1
    }
}
