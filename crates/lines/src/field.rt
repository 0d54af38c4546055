ghost use Rattle.lines.specs.Grammar.{Kind, Number as number, Pattern as pattern};
ghost use Rattle.lines.specs.Reading.{Longest};

use crate::step::{MOST_STEPS, step};

// The most digits that a number has.
const MOST_DIGITS: usize = 3;

// A kind of field, as a type.
pub(crate) trait Field {
    // The kind as the grammar has it.
    ghost kind: { Kind };

    // How many bytes at the front are a field; 0 where none is.
    fn field_len(body: &[u8]) -> usize
        ensures { Longest kind body.now result };
}

// The field of a number.
pub(crate) struct Number;

impl Field for Number {
    ghost kind = { number };

    fn field_len(body: &[u8]) -> usize {
        match body {
            [b'0', ..] => 1,
            _ => body
                .iter()
                .take(MOST_DIGITS)
                .take_while(|byte| byte.is_ascii_digit())
                .count(),
        }
    }
}

// The field of a pattern.
pub(crate) struct Pattern;

impl Field for Pattern {
    ghost kind = { pattern };

    fn field_len(body: &[u8]) -> usize {
        body.iter()
            .take(MOST_STEPS)
            .take_while(|byte| step(**byte).is_some())
            .count()
    }
}
