// The reader: any byte string is a valid circuit, of which the width and the number of instructions are told, or is
// refused with a number of 1 to 13 and its place, the first fault deciding.
ghost use Rattle.std.specs.Prelude.{◌≡◌, ◌-◌, ◌<◌, IfSome, unwrap_or};
ghost use Rattle.records.specs.Refusals.{outcome_of};
ghost use Rattle.circuits.specs.Limits.{most_instructions, header_length};
ghost use Rattle.circuits.specs.Judging.{fresh_states, first_unfinished};
ghost use Rattle.circuits.specs.Reading.{static_kind, width_read, header_of, ending, read_from, counted, summary, read_circuit};

use crate::circuit::Circuit;
use crate::states::{States, state_at};
use crate::taking::take_step;
use records::{Cause, Form, Record, Refusal, record_at, shape};

// Whether a kind byte is that of a static width.
fn is_static(kind: u8) -> bool
    ensures { result ≡ static_kind kind }
{
    matches!(shape(kind), Some(outline) if outline.form == Form::StaticWidth)
}

// A width of 1 to the most wires, or 3.
#[tactic(auto, unfolding(crate::specs::Reading::width_read))]
fn header_of(width: u8) -> Result<u8, Refusal>
    ensures { outcome_of result ≡ width_read width }
{
    if width == 0 {
        return Err(Cause::WrongWidth.at(0));
    }
    if Circuit::MOST_WIRES < width as usize {
        return Err(Cause::WrongWidth.at(0));
    }
    Ok(width)
}

// The header: the width, or 1, 2, 3.
pub fn read_header(s: &[u8]) -> Result<u8, Refusal>
    ensures { outcome_of result ≡ header_of s.now }
{
    if s.is_empty() || !is_static(s[0]) {
        return Err(Cause::NoStaticWidth.at(0));
    }
    let Some((record, _)) = record_at(s, 0)? else {
        return Err(Cause::NoStaticWidth.at(0));
    };
    match record {
        Record::StaticWidth(width) => header_of(width),
        _ => Err(Cause::NoStaticWidth.at(0)),
    }
}

// The lowest line that is not measured, if there is one.
fn lowest_unfinished(width: u8, progress: &[u8]) -> Option<u8>
    ensures lowest { unwrap_or result width ≡ first_unfinished width progress.now 0 }
    ensures below { IfSome result (λ line. line < width) }
{
    for line in 0..width {
        if state_at(progress, line) != States::DONE {
            return Some(line);
        }
    }
    None
}

// The end of the input: the circuit, or 13.
pub fn close(width: u8, progress: &[u8], instructions: usize) -> Result<Circuit, Refusal>
    ensures { outcome_of result ≡ counted width instructions (ending width progress.now) }
{
    match lowest_unfinished(width, progress) {
        Some(line) => Err(Cause::NeverMeasured.at(line as usize)),
        None => Ok(Circuit {
            width,
            instructions,
        }),
    }
}

// The instructions after the header.
fn read_steps(s: &[u8], width: u8) -> Result<Circuit, Refusal>
    ensures { outcome_of result ≡ counted width 0 (read_from most_instructions s.now width fresh_states header_length) }
{
    let fresh = States::fresh();
    let mut progress = fresh.lines;
    let mut uses = fresh.bits;
    let mut at = Circuit::HEADER;
    let mut left = Circuit::MOST_INSTRUCTIONS;
    while let Some((_, next)) = take_step(s, at, left, width, &mut progress, &mut uses)? {
        at = next;
        left -= 1;
    }
    close(width, &progress, Circuit::MOST_INSTRUCTIONS - left)
}

pub fn read(s: &[u8]) -> Result<Circuit, Refusal>
    ensures { outcome_of result ≡ summary (read_circuit s.now) }
{
    let width = read_header(s)?;
    read_steps(s, width)
}
