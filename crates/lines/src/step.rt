ghost use Rattle.std.specs.Prelude.{◌≡◌};
ghost use Rattle.lines.specs.Reading.{Says};
ghost use Rattle.lines.specs.Values.{bit};

// The most steps that a pattern has.
pub(crate) const MOST_STEPS: usize = 32;

// Whether the step of a pattern's character is open; any other byte says nothing.
pub(crate) fn step(byte: u8) -> Option<bool>
    ensures { Says byte result }
{
    match byte {
        b'0' => Some(false),
        b'1' => Some(true),
        _ => None,
    }
}

// The bit of a pattern's character: 1 where its step is open.
pub(crate) fn step_bit(byte: u8) -> u32
    ensures { result ≡ bit byte }
{
    u32::from(step(byte) == Some(true))
}
