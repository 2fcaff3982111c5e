// The compiler: the reader's refusal, the first refused pair, 31, or the dynamic circuit. Nothing is stored before all are
// accepted and there is room.
ghost use Rattle.std.specs.Prelude.{◌+◌, ◌≡◌, length};
ghost use Rattle.records.specs.Refusals.{outcome_of};
ghost use Rattle.writer.specs.Chains.{qubits};
ghost use Rattle.writer.specs.Heads.{TrueSource, output_from};
ghost use Rattle.writer.specs.Compiling.{dynamic, in_room, compiled, Compiled};

use crate::chaining::qubits_for;
use crate::dynamic::write_dynamic;
use crate::notes::Notes;
use crate::noting::note_all;
use crate::source::Source;
use pairs::read_pairs;
use records::{Cause, Refusal};
use table::{Sets, Table, table_from};

// How many bytes were written, and how many qubits and pairs the dynamic circuit has.
#[derive(Clone, Copy)]
pub struct Counts {
    pub bytes: usize,
    pub qubits: u8,
    pub pairs: usize,
}

// Writes the dynamic circuit where there is room for it: one byte more than the circuit has.
fn write_in_room(source: &Source, pairs: usize, out: &mut [u8]) -> Result<Counts, Refusal>
    requires told { TrueSource source.now }
    requires circuit_len { length (output_from source.now) ≡ length source.now.circuit.now + 1 }
    ensures { Compiled out.old (in_room (length out.old) (dynamic (output_from source.now) (qubits source.now.lenders.lenders source.now.valid.width) pairs)) (outcome_of result) out.new }
{
    let circuit = source.circuit;
    if out.len() <= circuit.len() {
        return Err(Cause::NoRoom.at(circuit.len() + 1));
    }
    let bytes = write_dynamic(source, out);
    let qubits = qubits_for(source.lenders, source.valid.width);
    Ok(Counts {
        bytes,
        qubits,
        pairs,
    })
}

// Writes the dynamic circuit of a circuit and a pair list from the start of the buffer.
pub fn compile(circuit: &[u8], list: &[u8], out: &mut [u8]) -> Result<Counts, Refusal>
    ensures { Compiled out.old (compiled circuit.now list.now (length out.old)) (outcome_of result) out.new }
{
    let mut notes = Notes::none();
    let mut rows = [0; Table::ROWS];
    let valid = note_all(circuit, &mut notes, &mut rows)?;
    let paired = read_pairs(table_from(valid.width, Sets { rows }), list)?;
    let source = Source {
        circuit,
        valid,
        lenders: paired.lenders,
        notes: &notes,
    };
    write_in_room(&source, paired.count, out)
}
