// The table at the start: one pass over a circuit's instructions with a set of resets for each wire.
ghost use Rattle.std.specs.Prelude.{◌≡◌, ◌||◌, eqb, get_or, set};
ghost use Rattle.bits.specs.Bits.{bit, pack};
ghost use Rattle.circuits.specs.Limits.{most_instructions, header_length};
ghost use Rattle.circuits.specs.Stepping.{Steps};
ghost use Rattle.circuits.specs.Reading.{read_circuit};
ghost use Rattle.circuits.specs.Rewriting.{steps_of};
ghost use Rattle.std.specs.Result.{result_unwrap_or};
ghost use Rattle.basics.specs.Outcome.{beside};
ghost use Rattle.records.specs.Refusals.{outcome_of};
ghost use Rattle.records.specs.Records.{line};
ghost use Rattle.circuits.specs.declared.sketching.Sketch.TheVariants as sketch;
ghost use Rattle.table.specs.Limits.{most_wires};
ghost use Rattle.table.specs.Marks.{empty_table};
ghost use Rattle.table.specs.Starting.{no_rows, rows_sketched, rows_pass, start_row, start_from, started};

use crate::rows::{unused, with};
use crate::tables::{Row, Table};
use circuits::{Circuit, Sketch, read, sketch_at, wire_of};
use records::{Refusal, Wire};

// For each wire the wires whose resets lead to what the pass has come by on it.
#[derive(Clone, Copy)]
pub struct Sets {
    pub rows: [Row; Table::ROWS],
}

// A wire's set; past the last wire none.
fn set_of(rows: &[Row], wire: Wire) -> Row
    ensures { result ≡ get_or rows.now wire.0 0 }
{
    rows.get(wire.0 as usize).copied().unwrap_or(0)
}

// Changes one wire's set.
fn change_set(rows: &mut [Row], wire: Wire, row: Row)
    ensures { rows.new ≡ set rows.old wire.0 row }
{
    // Not by `get_mut`: its contract does not say what the slice holds after the write.
    let n = wire.0 as usize;
    if n < rows.len() {
        rows[n] = row;
    }
}

// What the resets of both lead to, either leads to.
fn join(rows: &mut [Row], first: Wire, second: Wire)
    ensures { rows.new ≡ rows_sketched (sketch.Two (line first.0) (line second.0)) rows.old }
{
    let both = set_of(rows, first) | set_of(rows, second);
    change_set(rows, first, both);
    change_set(rows, second, both);
}

// Brings the sets on past an instruction.
pub fn join_sets(rows: &mut [Row], sketch: Sketch)
    ensures { rows.new ≡ rows_sketched sketch rows.old }
{
    match sketch {
        Sketch::Reset(line) => {
            let wire = wire_of(line);
            let row = with(set_of(rows, wire), wire);
            change_set(rows, wire, row);
        }
        Sketch::Measurement(_, _) => {}
        Sketch::One(_) => {}
        Sketch::Two(first, second) => join(rows, wire_of(first), wire_of(second)),
    }
}

// The sets after all instructions of a valid circuit.
fn all_sets(circuit: &[u8]) -> Sets
    requires { Steps circuit.now header_length most_instructions (steps_of (read_circuit circuit.now)) }
    ensures { result.rows ≡ rows_pass (steps_of (read_circuit circuit.now)) no_rows }
{
    let mut rows = [0; Table::ROWS];
    let mut at = Circuit::HEADER;
    let mut left = Circuit::MOST_INSTRUCTIONS;
    // A valid circuit has no fault.
    while let Some((sketch, next)) = sketch_at(circuit, at, left).unwrap_or(None) {
        join_sets(&mut rows, sketch);
        at = next;
        left -= 1;
    }
    Sets { rows }
}

// A lender's row: every wire whose reset does not lead to the lender's measurement.
fn start_row(width: u8, row: Row, lender: u8) -> Row
    ensures { result ≡ pack most_wires (start_row width row lender) }
{
    if lender < width {
        unused(width, row)
    } else {
        0
    }
}

// The table by the sets at the end of the pass.
pub fn table_from(width: u8, sets: Sets) -> Table
    ensures { result ≡ start_from width sets.rows }
{
    let mut rows = sets.rows;
    for (lender, row) in rows.iter_mut().enumerate() {
        *row = start_row(width, *row, lender as u8);
    }
    Table {
        width,
        rows,
        lending: 0,
        taking: 0,
    }
}

// The table of a circuit, or the reader's refusal; then the table of no wires stands beside it.
pub fn start(circuit: &[u8]) -> Result<Table, Refusal>
    ensures value { outcome_of result ≡ started circuit.now }
    ensures empty { result_unwrap_or result empty_table ≡ beside empty_table (started circuit.now) }
{
    let valid = read(circuit)?;
    Ok(table_from(valid.width, all_sets(circuit)))
}
