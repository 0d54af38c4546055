//! The laws of places and boards, each on the contract of a function that does nothing else.
ghost use Rattle.gated.specs.Laws.{BoardsSound, NumbersInverse};

// Numbers and parts are inverse.
pub fn numbers_inverse()
    ensures { NumbersInverse }
{
    ()
}

// The game of every board is sound.
pub fn boards_sound()
    ensures { BoardsSound }
{
    ()
}
