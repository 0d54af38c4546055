// No board has a longer clock: with one spot it would have more than 1048576 places.
const LONGEST: u64 = 524288;

// The greatest common divisor, by Euclid.
fn greatest_common(a: u64, b: u64) -> u64 {
    let (mut big, mut small) = (a, b);
    while small != 0 {
        (big, small) = (small, big % small);
    }
    big
}

// The least common multiple of a clock and a pattern's length; none if it is longer than any clock.
pub fn joint_clock(period: u64, steps: u32) -> Option<u64> {
    let steps = u64::from(steps);
    let times = steps.checked_div(greatest_common(period, steps))?;
    let joint = period.saturating_mul(times);
    (joint <= LONGEST).then_some(joint)
}
