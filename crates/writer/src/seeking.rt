// The heads: for each wire the index of its first instruction that is not yet written, and for each instruction the next
// on its wires, by which the heads move.
ghost use Rattle.std.specs.Prelude.{◌≡◌, ℕ, ◌<◌, List, get_or, set, replicate};
ghost use Rattle.records.specs.declared.instructions.Instruction.{Instruction};
ghost use Rattle.circuits.specs.Limits.{most_wires};
ghost use Rattle.writer.specs.Notes.{first_at, second_at};
ghost use Rattle.writer.specs.Heads.{headed, Tabled, Linked};

use crate::heads::After;
use crate::notes::Note;
use crate::source::Source;
use circuits::Circuit;
use records::Wire;

// What is kept of a wire. That a wire is low is asked here and not told by `Wire`, which the reader hands out for any number.
pub(crate) fn of_wire(kept: &[u16; Circuit::MOST_WIRES], wire: Wire) -> u16
    requires { wire.0 < most_wires }
    ensures { result ≡ get_or kept.now wire.0 0 }
{
    kept[wire.0 as usize]
}

// Keeps an index for a wire.
pub(crate) fn set_head(kept: &mut [u16; Circuit::MOST_WIRES], wire: Wire, index: u16)
    requires { wire.0 < most_wires }
    ensures { kept.new ≡ set kept.old wire.0 index }
{
    kept[wire.0 as usize] = index;
}

// Keeps an index for each wire of an instruction.
pub(crate) fn set_heads(kept: &mut [u16; Circuit::MOST_WIRES], note: Note, after: After)
    requires { (note.first.0 < most_wires) × (note.second.0 < most_wires) }
    ensures { kept.new ≡ headed note.first.0 note.second.0 after.first after.second kept.old }
{
    set_head(kept, note.first, after.first);
    set_head(kept, note.second, after.second);
}

// Keeps for each instruction the next on its wires, from the last back, and leaves each wire's head at its first.
#[tactic(auto, using(crate::proofs::Links::linked_none))]
pub(crate) fn link(
    source: &Source,
    indices: &mut [u16; Circuit::MOST_WIRES],
    links: &mut [After; Circuit::MOST_INSTRUCTIONS],
)
    requires { indices.old ≡ replicate most_wires source.now.valid.instructions }
    ensures { (is : List Instruction) → Tabled is source.now → Linked is 0 indices.new links.new }
{
    for index in (0..source.valid.instructions).rev() {
        let note = source.note(index);
        links[index] = After {
            first: of_wire(indices, note.first),
            second: of_wire(indices, note.second),
        };
        set_heads(indices, note, After::both(index as u16));
    }
}
