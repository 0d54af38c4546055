// Numbers that follow from a seed.
#[derive(Clone, Copy)]
pub struct Dice {
    state: u64,
}

impl Dice {
    // Neighbouring seeds are spread, and none is 0, which would stay so.
    pub fn new(seed: u64) -> Dice {
        Dice {
            state: seed.wrapping_mul(0x9e37_79b9_7f4a_7c15) | 1,
        }
    }

    fn roll(&mut self) -> u64 {
        let mut x = self.state;
        x ^= x.wrapping_shl(13);
        x ^= x >> 7;
        x ^= x.wrapping_shl(17);
        self.state = x;
        x.wrapping_mul(0x2545_f491_4f6c_dd1d) >> 16
    }

    // A number below `limit`, or 0 where that is 0.
    pub fn below(&mut self, limit: u32) -> u32 {
        let number = self.roll() % u64::from(limit.max(1));
        number as u32
    }

    // An index of a row of `len`, or 0 where that is empty.
    pub fn index(&mut self, len: usize) -> usize {
        (self.roll() % len.max(1) as u64) as usize
    }

    // One of the items, or the default where there is none.
    pub fn one_of<T: Copy + Default>(&mut self, items: &[T]) -> T {
        items
            .get(self.index(items.len()))
            .copied()
            .unwrap_or_default()
    }
}
