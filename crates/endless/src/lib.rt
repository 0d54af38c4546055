//! The laws of gated boards, each on the contract of a function that does nothing else.
#![tactic(auto)]

ghost use Rattle.endless.specs.Laws.{BytesTell, EndlessFolds, EndlessPublished, MovesPublished, PilesFold, TrapsFold};

// The moves of a board's game are exactly the published ones.
pub fn moves_published()
    ensures { MovesPublished }
{
    ()
}

// So are those of the game with an endless clock.
pub fn endless_published()
    ensures { EndlessPublished }
{
    ()
}

// The game with an endless clock folds onto the board's.
pub fn endless_folds()
    ensures { EndlessFolds }
{
    ()
}

// With traps on spots too.
pub fn traps_fold()
    ensures { TrapsFold }
{
    ()
}

// With any pile of traps on places too.
pub fn piles_fold()
    ensures { PilesFold }
{
    ()
}

// The bytes of traps tell where the runner stands on one.
pub fn bytes_tell()
    ensures { BytesTell }
{
    ()
}
