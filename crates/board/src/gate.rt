use crate::pattern::Pattern;

// Two spots, and at which steps one may pass between them, either way.
#[derive(Clone, Copy)]
pub struct Gate {
    pub from: u8,
    pub to: u8,
    pub pattern: Pattern,
}
