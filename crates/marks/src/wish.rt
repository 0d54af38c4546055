ghost use Rattle.std.specs.Prelude.{◌≡◌};
ghost use Rattle.marks.specs.Picks.{Order, Least, Greatest, beats};

// Which mark of two is the better one for a player. Marks are compared as numbers, blank and never included.
pub trait Wish: Sized + Copy {
    ghost order: { Order };

    fn beats(mark: u32, other: u32) -> bool
        ensures { result ≡ beats order mark other };
}

// The least mark is best: the pursuer's wish.
#[derive(Clone, Copy, PartialEq, Eq, Debug)]
pub struct Least;

impl Wish for Least {
    ghost order = { Least };

    fn beats(mark: u32, other: u32) -> bool {
        mark < other
    }
}

// The greatest mark is best: the runner's wish.
#[derive(Clone, Copy, PartialEq, Eq, Debug)]
pub struct Greatest;

impl Wish for Greatest {
    ghost order = { Greatest };

    fn beats(mark: u32, other: u32) -> bool {
        mark > other
    }
}
