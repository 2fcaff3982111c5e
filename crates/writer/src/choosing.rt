// What comes next: the least candidate. A wire's candidate is the index of its head where that may be written, and else the
// number of instructions. It is kept, and tested again only where a write can have changed it.
ghost use Rattle.std.specs.Prelude.{◌≡◌, ◌<◌, List, length, replicate};
ghost use Rattle.records.specs.declared.instructions.Instruction.{Instruction};
ghost use Rattle.circuits.specs.Limits.{most_wires, most_instructions};
ghost use Rattle.writer.specs.Notes.{first_at, second_at};
ghost use Rattle.writer.specs.Heads.{after_at, headed, is_free, may_write, tried, tried_below, tried_takers, tried_moved, tried_both, Least, Tabled, Linked};

use crate::heads::{After, Heads};
use crate::seeking::{link, of_wire, set_head, set_heads};
use crate::source::Source;
use circuits::Circuit;
use records::Wire;

impl Heads {
    // Whether a wire takes from nobody, or all on its lender is written.
    #[tactic(auto, using(std::proofs::lemmas::Bool::Decides::nat_tests), unfolding(crate::specs::Heads::is_free))]
    fn is_free(&self, source: &Source, wire: Wire) -> bool
        requires { wire.0 < most_wires }
        ensures { result ≡ is_free source.now self.now.indices wire.0 }
    {
        let lender = source.lender(wire);
        source.valid.width <= lender.0
            || of_wire(&self.indices, lender) as usize == source.valid.instructions
    }

    // Whether an instruction is the head of each of its wires, and the wire of a reset is free.
    #[tactic(auto, using(std::proofs::lemmas::Bool::Decides::nat_tests), unfolding(crate::specs::Heads::may_write))]
    fn may_write(&self, source: &Source, index: u16) -> bool
        requires { index < source.now.valid.instructions }
        ensures { result ≡ may_write source.now self.now.indices index }
    {
        let note = source.note(index as usize);
        of_wire(&self.indices, note.first) == index
            && of_wire(&self.indices, note.second) == index
            && (!note.form.is_reset() || self.is_free(source, note.first))
    }

    // Tests the head of a wire again and keeps what is found, for every wire of a head that may be written.
    #[tactic(auto, using(std::proofs::lemmas::Bool::Decides::nat_tests), unfolding(crate::specs::Heads::tried, crate::specs::Heads::candidate))]
    fn try_head(&mut self, source: &Source, wire: Wire)
        requires { wire.0 < most_wires }
        ensures same_indices { self.new.indices ≡ self.old.indices }
        ensures candidates_after { self.new.candidates ≡ tried source.now self.old.indices wire.0 self.old.candidates }
    {
        let index = of_wire(&self.indices, wire);
        if (index as usize) < source.valid.instructions && self.may_write(source, index) {
            let note = source.note(index as usize);
            set_heads(&mut self.candidates, note, After::both(index));
        } else {
            set_head(&mut self.candidates, wire, source.valid.instructions as u16);
        }
    }

    // Tests the heads of all wires.
    #[tactic(auto, unfolding(crate::specs::Heads::tried_below))]
    fn try_all(&mut self, source: &Source)
        ensures same_indices { self.new.indices ≡ self.old.indices }
        ensures candidates_after { self.new.candidates ≡ tried_below source.now self.old.indices source.now.valid.width self.old.candidates }
    {
        for x in 0..source.valid.width {
            self.try_head(source, Wire(x));
        }
    }

    // Tests again the heads of the wires that take from a wire. With `try_all` it shares a loop of one line; a test handed over as a
    // closure would be longer.
    #[tactic(auto, using(std::proofs::lemmas::Bool::Decides::nat_tests), unfolding(crate::specs::Heads::tried_takers))]
    fn try_takers(&mut self, source: &Source, lender: Wire)
        ensures same_indices { self.new.indices ≡ self.old.indices }
        ensures candidates_after { self.new.candidates ≡ tried_takers source.now self.old.indices lender.0 source.now.valid.width self.old.candidates }
    {
        for x in 0..source.valid.width {
            if source.lender(Wire(x)) == lender {
                self.try_head(source, Wire(x));
            }
        }
    }

    // Tests again what a wire's head decides, after it was moved: itself and, where all on the wire is written, its takers.
    #[tactic(auto, using(std::proofs::lemmas::Bool::Decides::nat_tests), unfolding(crate::specs::Heads::tried_moved))]
    fn try_moved(&mut self, source: &Source, wire: Wire)
        requires { wire.0 < most_wires }
        ensures same_indices { self.new.indices ≡ self.old.indices }
        ensures candidates_after { self.new.candidates ≡ tried_moved source.now self.old.indices wire.0 self.old.candidates }
    {
        self.try_head(source, wire);
        if source.valid.instructions <= of_wire(&self.indices, wire) as usize {
            self.try_takers(source, wire);
        }
    }

    // Moves the heads of an instruction's wires to what comes after it, and tests again what they decide.
    #[tactic(auto, using(std::proofs::lemmas::Bool::Decides::nat_tests), unfolding(crate::specs::Heads::tried_both))]
    pub(crate) fn move_on(&mut self, source: &Source, index: usize, after: After)
        requires { index < source.now.valid.instructions }
        ensures indices_after { self.new.indices ≡ headed (first_at source.now.notes.now index) (second_at source.now.notes.now index) after.first after.second self.old.indices }
        ensures candidates_after { self.new.candidates ≡ tried_both source.now self.new.indices (first_at source.now.notes.now index) (second_at source.now.notes.now index) self.old.candidates }
    {
        let note = source.note(index);
        set_heads(&mut self.indices, note, after);
        self.try_moved(source, note.first);
        if note.first != note.second {
            self.try_moved(source, note.second);
        }
    }

    // The heads before anything is written; keeps for each instruction the next on its wires.
    pub(crate) fn start(source: &Source, links: &mut [After; Circuit::MOST_INSTRUCTIONS]) -> Heads
        ensures linked { (is : List Instruction) → Tabled is source.now → Linked is 0 result.indices links.new }
        ensures candidates_value { result.candidates ≡ tried_below source.now result.indices source.now.valid.width (replicate most_wires source.now.valid.instructions) }
    {
        let many = source.valid.instructions as u16;
        let mut indices = [many; Circuit::MOST_WIRES];
        link(source, &mut indices, links);
        let mut heads = Heads {
            indices,
            candidates: [many; Circuit::MOST_WIRES],
        };
        heads.try_all(source);
        heads
    }

    // The least candidate.
    #[tactic(auto, using(crate::proofs::Candidates::least_first))]
    pub(crate) fn least(&self) -> u16
        ensures { Least self.now.candidates most_wires result }
    {
        let mut lowest = self.candidates[0];
        for x in 1..Circuit::MOST_WIRES {
            lowest = lowest.min(self.candidates[x]);
        }
        lowest
    }
}
