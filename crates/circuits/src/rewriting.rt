// The records of a valid circuit written again. Nothing is stored before the circuit is accepted and has room.
ghost use Rattle.std.specs.Prelude.{◌+◌, ◌≤◌, length};
ghost use Rattle.records.specs.Refusals.{outcome_of};
ghost use Rattle.writing.specs.Writing.{Wrote, Settled};
ghost use Rattle.circuits.specs.Limits.{most_instructions, header_length};
ghost use Rattle.circuits.specs.Stepping.{Steps};
ghost use Rattle.circuits.specs.Reading.{read_circuit};
ghost use Rattle.circuits.specs.Validity.{steps_bytes};
ghost use Rattle.circuits.specs.Rewriting.{rewritten, steps_of};

use crate::circuit::Circuit;
use crate::reading::read;
use crate::stepping::step_at;
use records::{Cause, Record, Refusal, write_record};

// Writes the instructions of a valid circuit from a place of the buffer on, and gives the place after them.
fn write_steps(circuit: &[u8], out: &mut [u8], from: usize) -> usize
    requires steps { Steps circuit.now header_length most_instructions (steps_of (read_circuit circuit.now)) }
    requires circuit_in_bounds { from + length (steps_bytes (steps_of (read_circuit circuit.now))) ≤ length out.old }
    ensures { Wrote out.old from (steps_bytes (steps_of (read_circuit circuit.now))) out.new result }
{
    let mut to = from;
    let mut at = Circuit::HEADER;
    let mut left = Circuit::MOST_INSTRUCTIONS;
    // A valid circuit has no fault.
    while let Some((instruction, next)) = step_at(circuit, at, left).unwrap_or(None) {
        to = write_record(Record::Step(instruction), out, to);
        at = next;
        left -= 1;
    }
    to
}

// Writes the records of a valid circuit again, from the start of the buffer, and says how many bytes they are.
pub fn rewrite(circuit: &[u8], out: &mut [u8]) -> Result<usize, Refusal>
    ensures { Settled out.old (rewritten circuit.now (length out.old)) (outcome_of result) out.new }
{
    let valid = read(circuit)?;
    if out.len() < circuit.len() {
        return Err(Cause::NoRoom.at(circuit.len()));
    }
    let from = write_record(Record::StaticWidth(valid.width), out, 0);
    Ok(write_steps(circuit, out, from))
}
