use crate::answer::Row;
use crate::dice::Dice;
use crate::plan::{Entry, some_gate};
use std::alloc::{AllocError, Global};

// The gate with this number among those that join spots 0, 1 and so on to the spots 20 to 59 each.
fn fan_gate(number: u32) -> Row {
    Row {
        from: number / 40,
        to: (number % 40).saturating_add(20),
        bits: 1,
        steps: 1,
    }
}

// A board of 64 spots with about 256 gates, now and then a turned one more, which may be there already.
pub fn crowded_plan(heap: Global, dice: &mut Dice) -> Result<Vec<Entry>, AllocError> {
    let mut plan = Vec::new(heap);
    plan.push(Entry::Board { spots: 64 })?;
    let most = dice.below(5).saturating_add(254);
    plan.extend((0..most).map(|number| Entry::Gate(fan_gate(number))))?;
    if dice.below(3) == 0 {
        let more = fan_gate(dice.below(300));
        plan.push(Entry::Gate(Row {
            from: more.to,
            to: more.from,
            ..more
        }))?;
    }
    if dice.below(8) != 0 {
        plan.push(Entry::End)?;
    }
    Ok(plan)
}

// A board of so many spots, with a path of gates whose patterns have any lengths, so that the clock may be long. The
// lengths do not depend on the number of spots, but for gates that find no spot.
pub fn slow_plan(heap: Global, dice: &mut Dice, spots: u32) -> Result<Vec<Entry>, AllocError> {
    let most = dice.one_of(&[3, 4, 6, 40]);
    let mut plan = Vec::new(heap);
    plan.push(Entry::Board { spots })?;
    for from in 0..dice.below(most).min(spots.saturating_sub(1)) {
        let steps = dice.below(32).saturating_add(1);
        let row = some_gate(dice, spots, steps);
        plan.push(Entry::Gate(Row {
            from,
            to: from.saturating_add(1),
            ..row
        }))?;
    }
    plan.push(Entry::End)?;
    Ok(plan)
}
