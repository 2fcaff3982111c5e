// An instruction copied from the circuit with qubits for its wires.
ghost use Rattle.std.specs.Prelude.{◌∷◌, ℕ, ◌+◌, ◌-◌, ◌<◌, ◌≤◌, length, get_or};
ghost use Rattle.writing.specs.Writing.{Wrote};
ghost use Rattle.records.specs.Bytes.{instruction_bytes};
ghost use Rattle.records.specs.declared.instructions.Instruction.{Instruction};
ghost use Rattle.writer.specs.Notes.{place_at, Noted};
ghost use Rattle.writer.specs.Outputs.{renamed, behind};

use crate::renaming::Renaming;
use crate::source::Source;
use records::Qubit;
use writing::put_bytes;

// Writes the kind, the qubit, and what stands behind them. One function with `copy_two` would take its qubits as a slice, and put them by
// one call more for each instruction.
fn copy_one(
    circuit: &[u8],
    from: usize,
    next: usize,
    qubit: Qubit,
    out: &mut [u8],
    to: usize,
) -> usize
    requires from_bound { (from + 2 ≤ next) × (next ≤ length circuit.now) }
    requires from_in_bounds { to + (next - from) ≤ length out.old }
    ensures { Wrote out.old to (get_or circuit.now from 0 ∷ qubit.0 ∷ behind circuit.now (from + 2) next) out.new result }
{
    out[to] = circuit[from];
    out[to + 1] = qubit.0;
    put_bytes(out, to + 2, &circuit[from + 2..next])
}

// Writes the kind, both qubits, and what stands behind them.
fn copy_two(
    circuit: &[u8],
    from: usize,
    next: usize,
    first: Qubit,
    second: Qubit,
    out: &mut [u8],
    to: usize,
) -> usize
    requires from_bound { (from + 3 ≤ next) × (next ≤ length circuit.now) }
    requires from_in_bounds { to + (next - from) ≤ length out.old }
    ensures { Wrote out.old to (get_or circuit.now from 0 ∷ first.0 ∷ second.0 ∷ behind circuit.now (from + 3) next) out.new result }
{
    out[to] = circuit[from];
    out[to + 1] = first.0;
    out[to + 2] = second.0;
    put_bytes(out, to + 3, &circuit[from + 3..next])
}

// Writes an instruction with qubits for its wires, and gives the place after it.
#[tactic(auto, using(crate::proofs::Copies::noted_one, crate::proofs::Copies::noted_two, crate::proofs::Copies::noted_within))]
pub(crate) fn copy_renamed(
    source: &Source,
    index: usize,
    renaming: Renaming,
    out: &mut [u8],
    to: usize,
) -> usize
    requires index_lt_instructions { index < source.now.valid.instructions }
    requires noted { (i : Instruction) × Noted source.now.circuit.now source.now.notes.now index i }
    requires from_in_bounds { to + (place_at source.now.notes.now (index + 1) - place_at source.now.notes.now index) ≤ length out.old }
    ensures { (i : Instruction) → Noted source.now.circuit.now source.now.notes.now index i → Wrote out.old to (instruction_bytes (renamed (λ x. get_or renaming.qubits x 0) i)) out.new result }
{
    let from = source.place(index);
    let next = source.place_after(index);
    let note = source.note(index);
    let first = renaming.qubit(note.first);
    if note.form.is_two() {
        copy_two(
            source.circuit,
            from,
            next,
            first,
            renaming.qubit(note.second),
            out,
            to,
        )
    } else {
        copy_one(source.circuit, from, next, first, out, to)
    }
}
