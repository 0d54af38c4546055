use crate::answer::{Answer, Row, Stop, Written, pair};
use crate::clock::joint_clock;
use crate::grammar::{Field, Place, Sort, Word, after_mark};
use lines::refusal::{Layer, Told};
use std::alloc::Global;
use std::collections::BTreeSet;

const MOST_SPOTS: u32 = 64;

const MOST_GATES: usize = 256;

const MOST_PLACES: u64 = 1048576;

// A rule that a sheet can break.
#[derive(Clone, Copy)]
enum Rule {
    Mark,
    Form,
    Order,
    Range,
    SomeStep,
    Once,
    Gates,
    Places,
}

// The answer that the rule is broken at the offset.
fn broken<T>(rule: Rule, offset: usize) -> Result<T, Stop> {
    let (number, layer) = match rule {
        Rule::SomeStep => (3, Layer::Pattern),
        Rule::Mark => (4, Layer::Line),
        Rule::Form => (5, Layer::Line),
        Rule::Order => (6, Layer::Board),
        Rule::Range => (7, Layer::Board),
        Rule::Once => (8, Layer::Board),
        Rule::Gates => (9, Layer::Board),
        Rule::Places => (10, Layer::Board),
    };
    Err(Stop::Broken(Told {
        number,
        offset,
        layer,
    }))
}

// An automaton that takes a sheet byte by byte. A line is judged at its last byte.
#[derive(Drop)]
struct Reader {
    place: Place,
    // Where the line begins, its first number, its second and its pattern.
    start: usize,
    one: Word,
    two: Word,
    steps: Word,
    // What the lines before it say; the period is none once it is longer than any board's.
    spots: Option<u32>,
    period: Option<u64>,
    joined: BTreeSet<(u32, u32)>,
    trapped: BTreeSet<u32>,
    gates: Vec<Row>,
    traps: Vec<u32>,
}

impl Reader {
    fn new(heap: Global) -> Reader {
        Reader {
            place: Place::LineStart,
            start: 0,
            one: Word::new(0),
            two: Word::new(0),
            steps: Word::new(0),
            spots: None,
            period: Some(1),
            joined: BTreeSet::new(heap),
            trapped: BTreeSet::new(heap),
            gates: Vec::new(heap),
            traps: Vec::new(heap),
        }
    }

    // The field's characters so far.
    fn slot(&mut self, field: Field) -> &mut Word {
        match field {
            Field::Spots | Field::From | Field::Trap => &mut self.one,
            Field::To => &mut self.two,
            Field::Pattern => &mut self.steps,
        }
    }

    // Goes on with a field that has come so far.
    fn put(&mut self, field: Field, word: Word) {
        *self.slot(field) = word;
        self.place = word.next(field);
    }

    // The board's line.
    fn take_board(&mut self) -> Result<(), Stop> {
        let spots = self.one.value;
        if spots < 1 || spots > MOST_SPOTS {
            return broken(Rule::Range, self.one.offset);
        }
        self.spots = Some(spots);
        Ok(())
    }

    // Whether a gate's line can stand on a board of so many spots.
    fn judge_gate(&self, spots: u32) -> Result<(), Stop> {
        let (from, to) = (self.one.value, self.two.value);
        if from >= spots {
            return broken(Rule::Range, self.one.offset);
        }
        if to >= spots {
            return broken(Rule::Range, self.two.offset);
        }
        if self.steps.value == 0 {
            return broken(Rule::SomeStep, self.steps.offset);
        }
        if from == to || self.joined.contains(&pair(from, to)) {
            return broken(Rule::Once, self.start);
        }
        if self.gates.len() >= MOST_GATES {
            return broken(Rule::Gates, self.start);
        }
        Ok(())
    }

    fn take_gate(&mut self, spots: u32) -> Result<(), Stop> {
        self.judge_gate(spots)?;
        let row = Row {
            from: self.one.value,
            to: self.two.value,
            bits: self.steps.value,
            steps: self.steps.length,
        };
        self.joined.insert(pair(row.from, row.to))?;
        if let Some(period) = self.period {
            self.period = joint_clock(period, row.steps);
        }
        self.gates.push(row)?;
        Ok(())
    }

    fn take_trap(&mut self, spots: u32) -> Result<(), Stop> {
        let spot = self.one.value;
        if spot >= spots {
            return broken(Rule::Range, self.one.offset);
        }
        if !self.trapped.insert(spot)? {
            return broken(Rule::Once, self.start);
        }
        self.traps.push(spot)?;
        Ok(())
    }

    // A line of this sort, up to its last byte.
    fn take_line(&mut self, sort: Sort) -> Result<(), Stop> {
        self.place = Place::LineStart;
        match (sort, self.spots) {
            (Sort::Board, None) => self.take_board(),
            (Sort::Gate, Some(spots)) => self.take_gate(spots),
            (Sort::Trap, Some(spots)) => self.take_trap(spots),
            (Sort::End, Some(_)) => {
                self.place = Place::Over;
                Ok(())
            }
            _ => broken(Rule::Order, self.start),
        }
    }

    // The byte at the offset, where the place wants a space or the line's end.
    fn part(&mut self, place: Place, at: usize, byte: u8) -> Result<(), Stop> {
        match (place, byte) {
            (Place::Space(field), b' ') => {
                self.place = Place::First(field);
                Ok(())
            }
            (Place::LineEnd(sort), b'\n') => self.take_line(sort),
            _ => broken(Rule::Form, at),
        }
    }

    // The byte at the offset, where a field has come so far: a character more, or what follows the field.
    fn character(&mut self, field: Field, word: Word, at: usize, byte: u8) -> Result<(), Stop> {
        match field.digit(byte) {
            Some(digit) => {
                self.put(field, word.with(field, digit));
                Ok(())
            }
            None if word.length == 0 => broken(Rule::Form, at),
            None => self.part(field.after(), at, byte),
        }
    }

    // The next byte, which stands at the offset. The place is an enum and no closure, which the reader could keep only boxed.
    fn take(&mut self, at: usize, byte: u8) -> Result<(), Stop> {
        match self.place {
            Place::LineStart => {
                self.start = at;
                self.place = Place::MarkEnd(byte);
                Ok(())
            }
            Place::MarkEnd(first) => match after_mark(first, byte) {
                Some(place) => {
                    self.place = place;
                    Ok(())
                }
                None => broken(Rule::Mark, self.start),
            },
            Place::First(field) => self.character(field, Word::new(at), at, byte),
            Place::More(field) => {
                let word = *self.slot(field);
                self.character(field, word, at, byte)
            }
            Place::Over => broken(Rule::Order, at),
            place => self.part(place, at, byte),
        }
    }

    // What a sheet writes that ended at the offset with its last line.
    fn close(self, at: usize) -> Answer {
        let Reader {
            spots,
            period,
            gates,
            traps,
            ..
        } = self;
        let (Some(spots), Some(period)) = (spots, period) else {
            return broken(Rule::Places, at);
        };
        let pairs = u64::from(spots).saturating_mul(u64::from(spots));
        if period.saturating_mul(2).saturating_mul(pairs) > MOST_PLACES {
            return broken(Rule::Places, at);
        }
        let Ok(period) = u32::try_from(period) else {
            return broken(Rule::Places, at);
        };
        Ok(Written {
            spots,
            period,
            gates,
            traps,
        })
    }

    // The sheet ends at the offset.
    fn finish(self, at: usize) -> Answer {
        match self.place {
            Place::LineStart => broken(Rule::Order, at),
            Place::MarkEnd(_) => broken(Rule::Mark, self.start),
            Place::Over => self.close(at),
            _ => broken(Rule::Form, at),
        }
    }
}

// What the automaton says of a sheet.
pub fn second_answer(heap: Global, sheet: &[u8]) -> Answer {
    let mut reader = Reader::new(heap);
    for (at, byte) in sheet.iter().enumerate() {
        reader.take(at, *byte)?;
    }
    reader.finish(sheet.len())
}
