// Marks and move words stay plain numbers, with these for the kinds: each is one word of the table that the caller lends, and marks
// are compared as numbers.

// A place that has no mark yet.
pub const BLANK: u32 = 4294967294;

// A place from which capture is never forced.
pub const NEVER: u32 = 4294967295;

// A move word that names no move.
pub const NONE: u32 = 4294967295;
