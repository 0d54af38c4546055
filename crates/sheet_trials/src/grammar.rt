// What a line is.
#[derive(Clone, Copy)]
pub enum Sort {
    Board,
    Gate,
    Trap,
    End,
}

#[derive(Clone, Copy)]
pub enum Field {
    Spots,
    From,
    To,
    Pattern,
    Trap,
}

// What the next byte of a sheet should be.
#[derive(Clone, Copy)]
pub enum Place {
    // A mark's first byte.
    LineStart,
    // A mark's second byte, after this first one.
    MarkEnd(u8),
    // The space ahead of a field.
    Space(Field),
    // A field's first character.
    First(Field),
    // A later character of a field, or what follows the field.
    More(Field),
    // A line's last byte.
    LineEnd(Sort),
    // Nothing: the last line was read.
    Over,
}

// What follows a mark of these two bytes, if there is such a mark.
pub fn after_mark(first: u8, second: u8) -> Option<Place> {
    match (first, second) {
        (b'b', b'd') => Some(Place::Space(Field::Spots)),
        (b'g', b't') => Some(Place::Space(Field::From)),
        (b't', b'r') => Some(Place::Space(Field::Trap)),
        (b'e', b'n') => Some(Place::LineEnd(Sort::End)),
        _ => None,
    }
}

impl Field {
    // What follows the field.
    pub fn after(self) -> Place {
        match self {
            Field::Spots => Place::LineEnd(Sort::Board),
            Field::From => Place::Space(Field::To),
            Field::To => Place::Space(Field::Pattern),
            Field::Pattern => Place::LineEnd(Sort::Gate),
            Field::Trap => Place::LineEnd(Sort::Trap),
        }
    }

    // The digit that a byte writes, if the field can have it.
    pub fn digit(self, byte: u8) -> Option<u32> {
        let base = match self {
            Field::Pattern => 2,
            _ => 10,
        };
        char::from(byte).to_digit(base)
    }

    // The most characters that the field can have.
    fn most(self) -> u32 {
        match self {
            Field::Pattern => 32,
            _ => 3,
        }
    }
}

// A field's characters so far: where they begin, how many they are and what they write.
#[derive(Clone, Copy)]
pub struct Word {
    pub offset: usize,
    pub length: u32,
    pub value: u32,
}

impl Word {
    // No character yet.
    pub fn new(offset: usize) -> Word {
        Word {
            offset,
            length: 0,
            value: 0,
        }
    }

    // The word with one digit more.
    pub fn with(self, field: Field, digit: u32) -> Word {
        let value = match field {
            Field::Pattern => self.value | digit.wrapping_shl(self.length),
            _ => self.value.wrapping_mul(10).wrapping_add(digit),
        };
        Word {
            offset: self.offset,
            length: self.length.saturating_add(1),
            value,
        }
    }

    // What should follow the word: nothing of the field after a 0 ahead or the last character.
    pub fn next(self, field: Field) -> Place {
        let is_zero = match field {
            Field::Pattern => false,
            _ => self.value == 0,
        };
        if is_zero || self.length >= field.most() {
            field.after()
        } else {
            Place::More(field)
        }
    }
}
