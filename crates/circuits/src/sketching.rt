// An instruction without its kind's number and its angle: all that is needed to judge it. `sketch_at` finds it by one
// look at the kind and one test of the length, and reads one or two operands. It stands beside `step_at` and not on it, which would read
// for every step what no judge asks for.
ghost use Rattle.std.specs.Prelude.{◌≡◌, ◌+◌, ◌<◌, length};
ghost use Rattle.basics.specs.Outcome.{done};
ghost use Rattle.records.specs.Records.{stands, decode_at};
ghost use Rattle.circuits.specs.Stepping.{step_of, step_at};
ghost use Rattle.circuits.specs.Sketching.{glimpsed, in_sketch, operands_of};

use records::{Bit, Cause, Form, Line, Refusal, is_instruction, shape};

#[derive(Clone, Copy)]
pub enum Sketch {
    Reset(Line),
    Measurement(Line, Bit),
    // A gate on one line.
    One(Line),
    // A gate on two lines.
    Two(Line, Line),
}

// An instruction of a known form in sketch, and the place after it: its operands lie inside the bytes. No other record is a step.
fn sketch_in(
    form: Form,
    s: &[u8],
    at: usize,
    next: usize,
) -> Result<Option<(Sketch, usize)>, Refusal>
    requires { at + operands_of form < length s.now }
    ensures { glimpsed result ≡ in_sketch (step_of at (done (stands (decode_at form s.now at) next))) }
{
    let first = Line(s[at + 1]);
    let sketch = match form {
        Form::Reset => Sketch::Reset(first),
        Form::Measurement => Sketch::Measurement(first, Bit(s[at + 2])),
        Form::Gate => Sketch::One(first),
        Form::AngledGate => Sketch::One(first),
        Form::TwoLineGate => Sketch::Two(first, Line(s[at + 2])),
        Form::AngledTwoLineGate => Sketch::Two(first, Line(s[at + 2])),
        Form::StaticWidth => return Err(Cause::NoInstruction.at(at)),
        Form::DynamicWidth => return Err(Cause::NoInstruction.at(at)),
        Form::Reuse => return Err(Cause::NoInstruction.at(at)),
    };
    Ok(Some((sketch, next)))
}

// The step at a place in sketch and the place after it, where `left` more are allowed; nothing at the end of the input; or 5, 4, 2.
pub fn sketch_at(s: &[u8], at: usize, left: usize) -> Result<Option<(Sketch, usize)>, Refusal>
    ensures { glimpsed result ≡ in_sketch (step_at s.now at left) }
{
    if s.len() <= at {
        return Ok(None);
    }
    if left == 0 {
        return Err(Cause::TooManyInstructions.at(at));
    }
    match shape(s[at]) {
        Some(outline) if is_instruction(outline.form) => {
            if s.len() - at <= outline.body {
                return Err(Cause::CutBody.at(at));
            }
            sketch_in(outline.form, s, at, at + 1 + outline.body)
        }
        _ => Err(Cause::NoInstruction.at(at)),
    }
}
