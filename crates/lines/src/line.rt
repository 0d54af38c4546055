use crate::part::Part;
pub use crate::read::read_line;

// What a line is.
#[derive(Clone, Copy)]
pub enum Mark {
    Board,
    Gate,
    Trap,
    End,
}

// What a line says, by its fields.
#[derive(Clone, Copy)]
pub enum Line<'a> {
    Board {
        n: Part<'a>,
    },
    Gate {
        u: Part<'a>,
        v: Part<'a>,
        pattern: Part<'a>,
    },
    Trap {
        v: Part<'a>,
    },
    End,
}

// A line with its whole text, and the offset of the next.
#[derive(Clone, Copy)]
pub struct Read<'a> {
    pub text: Part<'a>,
    pub line: Line<'a>,
    pub next: usize,
}
