// The next step of a static circuit, judged after those before it. Every pass that must know a circuit valid goes by
// `take_step`, and keeps of each sketch what it needs itself. Each has the `while let` over it: an iterator would have to hold the
// states, which the pass asks for at the end.
ghost use Rattle.std.specs.Prelude.{◌≡◌};
ghost use Rattle.circuits.specs.Judging.{states_of};
ghost use Rattle.circuits.specs.Sketching.{glimpsed, in_sketch};
ghost use Rattle.circuits.specs.Reading.{checked_at, states_after};

use crate::judging::{advance, judge, place_of};
use crate::sketching::{Sketch, sketch_at};
use records::Refusal;

// The next step in sketch. Where it passes, the states of the lines and of the bits are brought on past it; else they stay.
pub fn take_step(
    s: &[u8],
    at: usize,
    left: usize,
    width: u8,
    progress: &mut [u8],
    uses: &mut [u8],
) -> Result<Option<(Sketch, usize)>, Refusal>
    ensures result_value { glimpsed result ≡ in_sketch (checked_at s.now at left width (states_of progress.old uses.old)) }
    ensures uses_after { states_of progress.new uses.new ≡ states_after (states_of progress.old uses.old) (checked_at s.now at left width (states_of progress.old uses.old)) }
{
    let Some((sketch, next)) = sketch_at(s, at, left)? else {
        return Ok(None);
    };
    if let Err(fault) = judge(width, width, progress, uses, sketch) {
        let place = place_of(at, fault.cause.number(), fault.operand);
        return Err(fault.cause.at(place));
    }
    advance(progress, uses, sketch);
    Ok(Some((sketch, next)))
}
