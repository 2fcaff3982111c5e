// A refusal as a word.
ghost use Rattle.std.specs.Prelude.{◌≡◌, ◌%◌};
ghost use Rattle.basics.specs.Outcome.{refused};
ghost use Rattle.records.specs.Refusals.{number_of};
ghost use Rattle.thaksipho.specs.Words.{places_end, word};

use records::Refusal;

// How many values and places there are: a refusal's number stands above them.
const PLACES: u64 = 4294967296;

// A refusal's number, which may be any, and its place as a word. The places that are refused here all lie below `PLACES`, so the remainder
// is the place.
pub fn refusal_word(number: u8, place: usize) -> u64
    ensures { result ≡ word (refused number (place % places_end)) }
{
    number as u64 * PLACES + place as u64 % PLACES
}

// A refusal as a word.
pub(crate) fn word_of(r: Refusal) -> u64
    ensures { result ≡ word (refused (number_of r.cause) (r.place % places_end)) }
{
    refusal_word(r.cause.number(), r.place)
}
