// The circuit is read, and what is kept of each instruction is noted on the way.
ghost use Rattle.std.specs.Prelude.{◌≡◌};
ghost use Rattle.basics.specs.Outcome.{done};
ghost use Rattle.records.specs.Refusals.{outcome_of};
ghost use Rattle.circuits.specs.Reading.{Static, header_of, read_circuit, summary};
ghost use Rattle.circuits.specs.Rewriting.{steps_of};
ghost use Rattle.table.specs.Starting.{no_rows, rows_pass};
ghost use Rattle.writer.specs.Notes.{Kept};

use crate::notes::Notes;
use circuits::{Circuit, States, close, read_header, take_step};
use records::Refusal;
use table::{Row, Table, join_sets};

// Reads the instructions after the header, and keeps what is needed of each.
fn note_steps(
    circuit: &[u8],
    width: u8,
    notes: &mut Notes,
    rows: &mut [Row; Table::ROWS],
) -> Result<Circuit, Refusal>
    requires circuit_value { header_of circuit.now ≡ done width }
    requires rows_value { rows.old ≡ no_rows }
    ensures result_value { outcome_of result ≡ summary (read_circuit circuit.now) }
    ensures kept { Kept circuit.now (steps_of (read_circuit circuit.now)) notes.new }
    ensures rows_after { (c : Static) → read_circuit circuit.now ≡ done c → rows.new ≡ rows_pass c.steps no_rows }
{
    let fresh = States::fresh();
    let mut progress = fresh.lines;
    let mut uses = fresh.bits;
    let mut at = Circuit::HEADER;
    let mut index = 0;
    while let Some((sketch, next)) = take_step(
        circuit,
        at,
        Circuit::MOST_INSTRUCTIONS - index,
        width,
        &mut progress,
        &mut uses,
    )? {
        join_sets(rows, sketch);
        notes.note(index, sketch, next);
        at = next;
        index += 1;
    }
    close(width, &progress, index)
}

// Reads the circuit: what `read` tells of it, what is kept of each instruction, and the sets of resets for its table.
pub(crate) fn note_all(
    circuit: &[u8],
    notes: &mut Notes,
    rows: &mut [Row; Table::ROWS],
) -> Result<Circuit, Refusal>
    requires rows_value { rows.old ≡ no_rows }
    ensures result_value { outcome_of result ≡ summary (read_circuit circuit.now) }
    ensures kept { Kept circuit.now (steps_of (read_circuit circuit.now)) notes.new }
    ensures rows_after { (c : Static) → read_circuit circuit.now ≡ done c → rows.new ≡ rows_pass c.steps no_rows }
{
    let width = read_header(circuit)?;
    note_steps(circuit, width, notes, rows)
}
