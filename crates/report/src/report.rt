use marks::mark::NEVER;
use opening::Opening;
use solver::solve::Solved;
use std::fmt;

// What is printed of a solved board.
#[derive(Clone, Copy)]
pub struct Report {
    pub spots: u8,
    pub gates: usize,
    pub period: u32,
    pub places: u32,
    pub solved: Solved,
    pub opening: Opening,
}

impl fmt::Display for Report {
    fn fmt<W: fmt::Write>(&self, f: &mut fmt::Formatter<W>) -> fmt::Result {
        let tally = self.solved.tally;
        let (spots, gates, period) = (self.spots, self.gates, self.period);
        writeln!(f, "board {spots} {gates} {period}")?;
        let places = self.places;
        writeln!(f, "places {places}")?;
        let capture = tally.capture;
        writeln!(f, "capture {capture}")?;
        let counted = tally.counted;
        writeln!(f, "counted {counted}")?;
        let never = tally.never;
        writeln!(f, "never {never}")?;
        let longest = tally.longest;
        writeln!(f, "longest {longest}")?;
        let rounds = self.solved.rounds;
        writeln!(f, "rounds {rounds}")?;
        let looks = self.solved.looks;
        writeln!(f, "looks {looks}")?;
        let (pursuer, runner, mark) = (
            self.opening.pursuer,
            self.opening.runner,
            self.opening.mark,
        );
        if mark == NEVER {
            writeln!(f, "open {pursuer} {runner} -")
        } else {
            writeln!(f, "open {pursuer} {runner} {mark}")
        }
    }
}
