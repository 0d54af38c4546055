use arena::Listing;
use arena::listing_refusal::ListingRefusal;

// A listing whose rows stand in the program.
pub type Fixed = Listing<'static, 'static, 'static>;

// A chain of pursuer places, 2 to 1 to 0, which is a capture place.
pub fn chain() -> Result<Fixed, ListingRefusal> {
    Listing::new(&[3, 1, 1], &[0, 0, 1, 2], &[0, 1])
}

// The same with place 2 the runner's, and able to stay.
pub fn stayer() -> Result<Fixed, ListingRefusal> {
    Listing::new(&[3, 1, 0], &[0, 0, 1, 3], &[0, 1, 2])
}

// One runner's place without a move that is no capture place.
pub fn stuck() -> Result<Fixed, ListingRefusal> {
    Listing::new(&[0], &[0, 0], &[])
}

// The chain, but place 2 leads to a place that there is not.
pub fn astray() -> Result<Fixed, ListingRefusal> {
    Listing::new(&[3, 1, 1], &[0, 0, 1, 2], &[0, 7])
}

// No place at all.
pub fn empty() -> Result<Fixed, ListingRefusal> {
    Listing::new(&[], &[0], &[])
}
