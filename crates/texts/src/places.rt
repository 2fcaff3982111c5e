// What is printed of what stands at a place.
ghost use Rattle.std.specs.Prelude.{◌≡◌};
ghost use Rattle.writing.specs.Writing.{Placed};
ghost use Rattle.records.specs.Refusals.{number_of};
ghost use Rattle.records.specs.Records.{record_at};
ghost use Rattle.texts.specs.Lines.{awaited, text_at};

use crate::lines::put_line;
use crate::refusals::put_refusal;
use records::{Cause, record_at};

// Whether a refusal is of a body that is cut where more may follow.
fn is_awaited(cause: Cause, last: bool) -> bool
    ensures { result ≡ awaited (number_of cause) last }
{
    cause == Cause::CutBody && !last
}

// Puts what is printed of a place of `piece` into a buffer as `put_bytes` puts bytes. The piece is a part of an input, `place` is
// the place in the input, and `last` says that no piece follows: else a record that is cut is not printed yet.
#[tactic(auto, using(writing::proofs::Puts::placed_none))]
pub fn put_at(out: &mut [u8], to: usize, piece: &[u8], at: usize, place: usize, last: bool) -> usize
    ensures { Placed out.old to (text_at place last (record_at piece.now at)) out.new result }
{
    match record_at(piece, at) {
        Ok(None) => to,
        Ok(Some((record, _))) => put_line(out, to, place, record),
        Err(refusal) => {
            if is_awaited(refusal.cause, last) {
                return to;
            }
            put_refusal(out, to, refusal.cause.number(), place)
        }
    }
}
