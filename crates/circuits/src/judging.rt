// An instruction judged after those before it: 6, 7, then for the first and then the second line 10 before 8 or 9, then
// 11, 12. The judge never sees bytes; it says which operand is at fault, and `place_of` alone says where that is.
ghost use Rattle.std.specs.Prelude.{◌≡◌, List, ℕ};
ghost use Rattle.records.specs.Refusals.{number_of};
ghost use Rattle.circuits.specs.Judging.{states_of, verdict_of, fault, place_of, live, judge_reset, judge_measurement, judge_gate, judge_two};
ghost use Rattle.circuits.specs.Sketching.{judge_sketch, advance_sketch};

use crate::sketching::Sketch;
use crate::states::{States, set_state, state_at};
use records::{Bit, Cause, Line};

// Why an instruction is refused, and which of its operands is at fault: 1 the first, 2 the second. A number, as `place_of` answers any.
#[derive(Clone, Copy)]
pub struct Fault {
    pub cause: Cause,
    pub operand: u8,
}

// It makes the answer, an `Err` with both values, so no `From` would be plainer.
fn at_fault(cause: Cause, operand: u8) -> Result<(), Fault>
    ensures { verdict_of result ≡ fault (number_of cause) operand }
{
    Err(Fault { cause, operand })
}

// The place that is reported for a fault of the instruction at a place: the instruction's. The number stays one: any is answered.
pub fn place_of(at: usize, number: u8, operand: u8) -> usize
    ensures { result ≡ place_of at number operand }
{
    at
}

// A gate or a measurement needs a line that is reset and not measured. It asks for no bit's state. This judge and the three below are no
// twins: each has its own numbers in its own order.
fn judge_live(progress: &[u8], line: Line, operand: u8) -> Result<(), Fault>
    ensures { (bs : List ℕ) → verdict_of result ≡ live operand (states_of progress.now bs) line }
{
    let state = state_at(progress, line.0);
    if state == States::DONE {
        return at_fault(Cause::AlreadyMeasured, operand);
    }
    if state == States::FRESH {
        return at_fault(Cause::NotYetReset, operand);
    }
    Ok(())
}

fn judge_reset(lines: u8, progress: &[u8], line: Line) -> Result<(), Fault>
    ensures { (bs : List ℕ) → verdict_of result ≡ judge_reset lines (states_of progress.now bs) line }
{
    if lines <= line.0 {
        return at_fault(Cause::LineOutside, 1);
    }
    let state = state_at(progress, line.0);
    if state == States::DONE {
        return at_fault(Cause::AlreadyMeasured, 1);
    }
    if state == States::IN_USE {
        return at_fault(Cause::AlreadyReset, 1);
    }
    Ok(())
}

fn judge_gate(lines: u8, progress: &[u8], line: Line) -> Result<(), Fault>
    ensures { (bs : List ℕ) → verdict_of result ≡ judge_gate lines (states_of progress.now bs) line }
{
    if lines <= line.0 {
        return at_fault(Cause::LineOutside, 1);
    }
    judge_live(progress, line, 1)
}

fn judge_measurement(
    lines: u8,
    bits: u8,
    progress: &[u8],
    uses: &[u8],
    line: Line,
    bit: Bit,
) -> Result<(), Fault>
    ensures { verdict_of result ≡ judge_measurement lines bits (states_of progress.now uses.now) line bit }
{
    judge_gate(lines, progress, line)?;
    if bits <= bit.0 {
        return at_fault(Cause::BitOutside, 2);
    }
    if state_at(uses, bit.0) == States::USED {
        return at_fault(Cause::BitAlreadyUsed, 2);
    }
    Ok(())
}

fn judge_two(lines: u8, progress: &[u8], first: Line, second: Line) -> Result<(), Fault>
    ensures { (bs : List ℕ) → verdict_of result ≡ judge_two lines (states_of progress.now bs) first second }
{
    if lines <= first.0 {
        return at_fault(Cause::LineOutside, 1);
    }
    if lines <= second.0 {
        return at_fault(Cause::LineOutside, 2);
    }
    if first == second {
        return at_fault(Cause::LineNamedTwice, 2);
    }
    judge_live(progress, first, 1)?;
    judge_live(progress, second, 2)
}

// The first fault of an instruction, known by its sketch, in a circuit of so many lines and bits.
pub fn judge(lines: u8, bits: u8, progress: &[u8], uses: &[u8], sketch: Sketch) -> Result<(), Fault>
    ensures { verdict_of result ≡ judge_sketch lines bits (states_of progress.now uses.now) sketch }
{
    match sketch {
        Sketch::Reset(line) => judge_reset(lines, progress, line),
        Sketch::Measurement(line, bit) => judge_measurement(lines, bits, progress, uses, line, bit),
        Sketch::One(line) => judge_gate(lines, progress, line),
        Sketch::Two(first, second) => judge_two(lines, progress, first, second),
    }
}

// Brings the states on past an instruction, known by its sketch.
pub fn advance(progress: &mut [u8], uses: &mut [u8], sketch: Sketch)
    ensures { states_of progress.new uses.new ≡ advance_sketch (states_of progress.old uses.old) sketch }
{
    match sketch {
        Sketch::Reset(line) => set_state(progress, line.0, States::IN_USE),
        Sketch::Measurement(line, bit) => {
            set_state(progress, line.0, States::DONE);
            set_state(uses, bit.0, States::USED);
        }
        Sketch::One(_) => {}
        Sketch::Two(_, _) => {}
    }
}
