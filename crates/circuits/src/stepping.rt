// The next instruction of a static circuit, whole. `rewrite` goes by `step_at`; the reader and the writer go by
// `take_step`, and the pass for the table by `sketch_at`.
ghost use Rattle.std.specs.Prelude.{◌≡◌};
ghost use Rattle.circuits.specs.Stepping.{found_of, kind_allowed, step_at};

use records::{Cause, Instruction, Record, Refusal, is_instruction, record_at, shape};

// Whether a kind byte is an instruction's.
fn allowed(kind: u8) -> bool
    ensures { result ≡ kind_allowed kind }
{
    matches!(shape(kind), Some(outline) if is_instruction(outline.form))
}

// The instruction at a place and the place after it, where `left` more are allowed; nothing at the end of the input; or 5, 4, 2.
pub fn step_at(s: &[u8], at: usize, left: usize) -> Result<Option<(Instruction, usize)>, Refusal>
    ensures { found_of result ≡ step_at s.now at left }
{
    if s.len() <= at {
        return Ok(None);
    }
    if left == 0 {
        return Err(Cause::TooManyInstructions.at(at));
    }
    if !allowed(s[at]) {
        return Err(Cause::NoInstruction.at(at));
    }
    let Some((record, next)) = record_at(s, at)? else {
        return Err(Cause::NoInstruction.at(at));
    };
    match record {
        Record::Step(instruction) => Ok(Some((instruction, next))),
        _ => Err(Cause::NoInstruction.at(at)),
    }
}
