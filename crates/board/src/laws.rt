//! The laws of patterns, gates and clocks, each on the contract of a function that does nothing else.
ghost use Rattle.board.specs.Laws.{GateRefusalsExclude, OnePeriod, PatternRefusalsExclude};

// A pattern that is refused is not lawful, and refused for one cause.
pub fn pattern_refusals_exclude()
    ensures { PatternRefusalsExclude }
{
    ()
}

// A gate that is refused does not fit, but for want of memory, and is refused for one cause.
pub fn gate_refusals_exclude()
    ensures { GateRefusalsExclude }
{
    ()
}

// The gates of a board have one clock.
pub fn one_period()
    ensures { OnePeriod }
{
    ()
}
