ghost use Rattle.std.specs.Prelude.{◌≡◌};
ghost use Rattle.joining.specs.Laws.{Laws};
ghost use Rattle.joining.specs.Meaning.{Meaning};

// Values that join in order: an empty one, the join of two, and what one mark at a position counts as.
pub trait Joining: Sized + Copy {
    // The empty element.
    const EMPTY: Self;

    ghost EMPTY: { Self };

    // The empty element, the join, what one mark counts as, and the values that the words of `Self` can hold.
    ghost meaning: { Meaning Self };

    // The empty element, where a function is wanted.
    fn start() -> Self
        ensures { result ≡ meaning.neutral }
    {
        Self::EMPTY
    }

    fn join(self, other: Self) -> Self
        ensures { result ≡ meaning.joined self other };

    fn count_as(mark: u32, position: u64) -> Self
        ensures { result ≡ meaning.single mark position };

    // What each `impl` proves.
    ghost empty_is_neutral: { EMPTY ≡ meaning.neutral };

    ghost lawful: { Laws meaning };
}
