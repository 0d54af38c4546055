ghost use Rattle.lines.specs.Values.{Numbered, Stepped};

use crate::step::{MOST_STEPS, step_bit};

// A part of a sheet, with the offset of its first byte.
#[derive(Clone, Copy)]
pub struct Part<'a> {
    pub bytes: &'a [u8],
    pub offset: usize,
}

impl Part<'_> {
    // The number that the digits write, or 65535 where it is more.
    pub fn number(self) -> u16
        ensures { Numbered self.entry.bytes.now result }
    {
        self.bytes.iter().fold(0u16, |number, byte| {
            number
                .saturating_mul(10)
                .saturating_add(u16::from(byte.saturating_sub(b'0')))
        })
    }

    // The open steps of a pattern as bits, the first step the lowest; none counts from the 33rd on.
    pub fn bits(self) -> u32
        ensures { Stepped self.entry.bytes.now result }
    {
        let most = self.bytes.len().min(MOST_STEPS);
        self.bytes[..most]
            .iter()
            .rev()
            .fold(0u32, |bits, byte| bits * 2 + step_bit(*byte))
    }
}
