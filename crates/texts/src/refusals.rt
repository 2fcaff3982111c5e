// The line of a refusal: its number and its place.
ghost use Rattle.writing.specs.Writing.{Placed};
ghost use Rattle.texts.specs.Lines.{refusal_line};

use crate::drafts::Draft;

// Room for the longest line.
const LONGEST_REFUSAL: usize = 36;

// Puts the line of a refusal into a buffer as `put_bytes` puts bytes.
pub fn put_refusal(out: &mut [u8], at: usize, number: u8, place: usize) -> usize
    ensures { Placed out.old at (refusal_line number place) out.new result }
{
    let mut line = Draft::<LONGEST_REFUSAL>::new();
    line.push(b"refused ");
    line.push_number(number as usize);
    line.push(b" at ");
    line.push_number(place);
    line.push(b"\n");
    line.put(out, at)
}
