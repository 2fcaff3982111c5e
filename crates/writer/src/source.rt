// What the dynamic circuit is written from: the circuit's bytes and numbers, the pairs, and what is kept of the instructions.
ghost use Rattle.std.specs.Prelude.{◌≡◌, ℕ, ◌<◌, ◌≤◌, length};
ghost use Rattle.circuits.specs.Limits.{most_wires, most_instructions};
ghost use Rattle.writer.specs.Notes.{first_at, second_at};

use crate::notes::{Note, Notes};
use circuits::Circuit;
use pairs::Lenders;
use records::Wire;

#[derive(Clone, Copy)]
pub(crate) struct Source<'a> {
    pub circuit: &'a [u8],
    pub valid: Circuit,
    pub lenders: Lenders,
    pub notes: &'a Notes,
    ghost narrow: { valid.width ≤ most_wires },
    ghost few: { valid.instructions ≤ most_instructions },
    ghost sized: { length lenders.lenders ≡ most_wires },
    ghost low: { (k : ℕ) → k < valid.instructions → (first_at notes.now k < most_wires) × (second_at notes.now k < most_wires) },
}

impl<'a> Source<'a> {
    ghost use Rattle.std.specs.Prelude.{◌+◌};
    ghost use Rattle.pairs.specs.Lending.{lender_of};
    ghost use Rattle.writer.specs.Notes.{note_at, place_at};

    // The lender of a wire; read where it stands, since `lender_of` copies all.
    pub(crate) fn lender(&self, wire: Wire) -> Wire
        requires { wire.0 < most_wires }
        ensures { result.0 ≡ lender_of self.now.lenders.lenders wire.0 }
    {
        Wire(self.lenders.lenders[wire.0 as usize])
    }

    // What is kept of an instruction.
    pub(crate) fn note(&self, index: usize) -> Note
        requires { index < self.now.valid.instructions }
        ensures { result ≡ note_at self.now.notes.now index }
    {
        self.notes.all[index]
    }

    // The place where an instruction stands.
    pub(crate) fn place(&self, index: usize) -> usize
        requires { index < self.now.valid.instructions }
        ensures { result ≡ place_at self.now.notes.now index }
    {
        self.notes.places[index] as usize
    }

    // The place after it.
    pub(crate) fn place_after(&self, index: usize) -> usize
        requires { index < self.now.valid.instructions }
        ensures { result ≡ place_at self.now.notes.now (index + 1) }
    {
        self.notes.places[index + 1] as usize
    }
}
