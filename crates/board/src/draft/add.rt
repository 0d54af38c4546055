ghost use Rattle.board.specs.Drafts.{draft_gates, draft_spots};
ghost use Rattle.board.specs.GateRefused.{Cause, Fits};
ghost use Rattle.board.specs.Gates.{repeats, same_pair};
ghost use Rattle.std.specs.Prelude.{◌≡◌, [], ◌∷◌, ◌++◌, MatchResult};

use crate::draft::Draft;
use crate::draft::refusal::GateRefusal;
use crate::gate::Gate;

const MOST_GATES: usize = 256;

// Whether two gates join the same pair of spots.
fn is_same_pair(one: &Gate, two: &Gate) -> bool
    ensures { result ≡ same_pair one.now two.now }
{
    (one.from == two.from && one.to == two.to) || (one.from == two.to && one.to == two.from)
}

// Whether some gate of a list joins the same pair of spots.
fn is_repeated(gate: &Gate, others: &[Gate]) -> bool
    ensures { result ≡ repeats gate.now others.now }
{
    others.iter().any(|other| is_same_pair(gate, other))
}

impl Draft {
    // One gate more, or why not; a refused gate leaves the draft as it was.
    pub fn add(&mut self, gate: Gate) -> Result<(), GateRefusal>
        ensures spots { draft_spots self.new ≡ draft_spots self.old }
        ensures gates { MatchResult result (λ _. Fits (draft_spots self.old) (draft_gates self.old) gate × (draft_gates self.new ≡ draft_gates self.old ++ (gate ∷ []))) (λ e. Cause (draft_spots self.old) (draft_gates self.old) gate e × (draft_gates self.new ≡ draft_gates self.old)) }
    {
        if gate.from >= self.spots || gate.to >= self.spots {
            return Err(GateRefusal::OffBoard);
        }
        if gate.from == gate.to {
            return Err(GateRefusal::EqualEnds);
        }
        if is_repeated(&gate, self.gates.as_slice()) {
            return Err(GateRefusal::RepeatedPair);
        }
        if self.gates.len() >= MOST_GATES {
            return Err(GateRefusal::TooMany);
        }
        self.gates.push(gate)?;
        Ok(())
    }
}
