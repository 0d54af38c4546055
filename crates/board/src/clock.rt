ghost use Rattle.std.specs.Prelude.{◌<◌, ◌≤◌};
ghost use Rattle.board.specs.Clock.{LeastCommon, Period};

use crate::gate::Gate;

// The least common multiple of two numbers.
fn least_common(a: u64, b: u8) -> u64
    requires a_nonzero { 0 < a }
    requires a_bound { a ≤ 144403552893600 }
    requires b_nonzero { 0 < b }
    requires b_bound { b ≤ 32 }
    ensures { LeastCommon a b result }
{
    let b = u64::from(b);
    let k = (1..b).find(|k| a * *k % b == 0).unwrap_or(b);
    a * k
}

// The least common multiple of the patterns' lengths; 144403552893600 is that of all numbers from 1 to 32.
pub(crate) fn period_of(gates: &[Gate]) -> u64
    ensures { Period gates.now result }
{
    // a fold would hand its closure a period with no bound, and the least common multiple asks for one
    let mut period = 1;
    for gate in gates {
        period = least_common(period, gate.pattern.steps());
    }
    period
}
