ghost use Rattle.std.specs.Prelude.{◌≡◌, ◌+◌, [], ◌∷◌};
ghost use Rattle.lines.specs.Lines.{gate as gate_line, trap as trap_line, entry_of, fields, Formed, Laid};
ghost use Rattle.lines.specs.Single.{formed_single, laid_single};
ghost use Rattle.sheet.specs.Parts.{said, gate_refusal, Takes, Ended};
ghost use Rattle.sheet.specs.Rules.{GoesOn};

use crate::refusal::Refusal;
use crate::sheet::Sheet;
use board::board::refusal::SizeRefusal;
use board::draft::refusal::GateRefusal;
use board::{Draft, Gate, Pattern};
use lines::line::{Line, Read};
use lines::part::Part;

// A line that was read: its fields are in form, and lie in its text one after another.
#[derive(Drop)]
pub(crate) struct InForm<'a> {
    pub read: Read<'a>,
    ghost formed: { Formed (entry_of read.line) } by { formed_single (entry_of read.line) },
    ghost laid: { Laid (read.text.offset + 2) (fields read.line) } by { laid_single (read.text.offset + 2) (fields read.line) },
}

// What is read after the board's line.
#[derive(Drop)]
pub(crate) struct Reading {
    pub draft: Draft,
    pub traps: Vec<u8>,
}

// Why a gate's line at the offset `at` is refused. An end off the board is told ahead of this, at its number.
fn gate_refusal(why: GateRefusal, at: usize) -> Refusal
    ensures { result ≡ gate_refusal why at }
{
    match why {
        GateRefusal::OffBoard => Refusal::OutOfRange { offset: at },
        GateRefusal::EqualEnds => Refusal::Repeated { offset: at },
        GateRefusal::RepeatedPair => Refusal::Repeated { offset: at },
        GateRefusal::TooMany => Refusal::TooManyGates { offset: at },
        GateRefusal::NoMemory => Refusal::NoMemory,
    }
}

impl Reading {
    // One gate more, by its line at the offset `at`.
    fn add_gate(&mut self, at: usize, u: Part, v: Part, p: Part) -> Result<(), Refusal>
        requires formed { Formed (gate_line u.bytes.now v.bytes.now p.bytes.now) }
        requires laid { Laid (at + 2) (u ∷ v ∷ p ∷ []) }
        ensures { Takes (said self.old) at (gate_line u.entry.bytes.now v.entry.bytes.now p.entry.bytes.now) (said self.new) result }
    {
        let spots = u16::from(self.draft.spots());
        let (from, to) = (u.number(), v.number());
        if from >= spots {
            return Err(Refusal::OutOfRange { offset: u.offset });
        }
        if to >= spots {
            return Err(Refusal::OutOfRange { offset: v.offset });
        }
        let Ok(pattern) = Pattern::new(p.bits(), p.bytes.len() as u8) else {
            return Err(Refusal::NeverOpen { offset: p.offset });
        };
        let gate = Gate {
            from: from as u8,
            to: to as u8,
            pattern,
        };
        self.draft.add(gate).map_err(|why| gate_refusal(why, at))
    }

    // One trap more, by its line at the offset `at`.
    fn add_trap(&mut self, at: usize, v: Part) -> Result<(), Refusal>
        requires formed { Formed (trap_line v.bytes.now) }
        requires laid { Laid (at + 2) (v ∷ []) }
        ensures { Takes (said self.old) at (trap_line v.entry.bytes.now) (said self.new) result }
    {
        let spot = v.number();
        if spot >= u16::from(self.draft.spots()) {
            return Err(Refusal::OutOfRange { offset: v.offset });
        }
        let spot = spot as u8;
        if self.traps.contains(&spot) {
            return Err(Refusal::Repeated { offset: at });
        }
        self.traps.push(spot)?;
        Ok(())
    }

    // One line more; the last line adds nothing.
    pub(crate) fn take(&mut self, line: InForm) -> Result<(), Refusal>
        ensures { GoesOn (entry_of line.entry.read.line) → Takes (said self.old) line.entry.read.text.offset (entry_of line.entry.read.line) (said self.new) result }
    {
        let InForm { read } = line;
        let at = read.text.offset;
        match read.line {
            Line::Board { .. } => Err(Refusal::Misplaced { offset: at }),
            Line::Gate { u, v, pattern } => self.add_gate(at, u, v, pattern),
            Line::Trap { v } => self.add_trap(at, v),
            Line::End => Ok(()),
        }
    }

    // Ends a sheet of `len` bytes whose last line ends at the offset `stop`.
    pub(crate) fn close(self, stop: usize, len: usize) -> Result<Sheet, Refusal>
        ensures { Ended (said self) stop len result }
    {
        if stop < len {
            return Err(Refusal::Misplaced { offset: stop });
        }
        let Reading { draft, traps } = self;
        let board = draft
            .close()
            .map_err(|SizeRefusal::TooLarge| Refusal::TooLarge { offset: stop })?;
        Ok(Sheet { board, traps })
    }
}
