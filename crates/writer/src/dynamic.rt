// The dynamic circuit written: its 02 record, then the instructions in the order of document 01, renamed.
ghost use Rattle.std.specs.Prelude.{◌≡◌, ◌+◌, ◌≤◌, List, length, replicate};
ghost use Rattle.writing.specs.Writing.{Wrote};
ghost use Rattle.records.specs.declared.instructions.Instruction.{Instruction};
ghost use Rattle.circuits.specs.Limits.{most_wires, most_instructions};
ghost use Rattle.writer.specs.Heads.{TrueSource, output_from, steps_from, Tabled, Linked, tried_below};

use crate::chaining::qubits_for;
use crate::copying::copy_renamed;
use crate::heads::{After, Heads};
use crate::renaming::Renaming;
use crate::source::Source;
use circuits::Circuit;
use records::{Record, write_record};

// Writes the instructions in their order, by the heads at the start and the links, and gives the place after them.
fn write_in_order(
    source: &Source,
    mut heads: Heads,
    links: &[After; Circuit::MOST_INSTRUCTIONS],
    out: &mut [u8],
    at: usize,
) -> usize
    requires told { TrueSource source.now }
    requires linked { (is : List Instruction) → Tabled is source.now → Linked is 0 heads.indices links.now }
    requires candidates_value { heads.candidates ≡ tried_below source.now heads.indices source.now.valid.width (replicate most_wires source.now.valid.instructions) }
    requires circuit_in_bounds { at + length (steps_from source.now) ≤ length out.old }
    ensures { Wrote out.old at (steps_from source.now) out.new result }
{
    let renaming = Renaming::by_chain(source.lenders, source.valid.width);
    let mut to = at;
    for _turn in 0..source.valid.instructions {
        let index = heads.least() as usize;
        if source.valid.instructions <= index {
            return to;
        }
        to = copy_renamed(source, index, renaming, out, to);
        heads.move_on(source, index, links[index]);
    }
    to
}

// Links the instructions, then writes them in their order.
fn write_steps(source: &Source, out: &mut [u8], at: usize) -> usize
    requires told { TrueSource source.now }
    requires circuit_in_bounds { at + length (steps_from source.now) ≤ length out.old }
    ensures { Wrote out.old at (steps_from source.now) out.new result }
{
    let mut links = [After::both(0); Circuit::MOST_INSTRUCTIONS];
    let heads = Heads::start(source, &mut links);
    write_in_order(source, heads, &links, out, at)
}

// Writes the dynamic circuit of a valid circuit from the start of the buffer, and gives the place after it.
pub(crate) fn write_dynamic(source: &Source, out: &mut [u8]) -> usize
    requires told { TrueSource source.now }
    requires circuit_in_bounds { length (output_from source.now) ≤ length out.old }
    ensures { Wrote out.old 0 (output_from source.now) out.new result }
{
    let width = source.valid.width;
    let qubits = qubits_for(source.lenders, width);
    let at = write_record(Record::DynamicWidth(qubits, width), out, 0);
    write_steps(source, out, at)
}
