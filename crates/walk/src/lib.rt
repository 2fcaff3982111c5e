// A walk over a lent circuit or pair list: it hands out one record and its place at a time, and copies nothing. It checks
// kinds and lengths and nothing else. The functions over `Walk` take it apart and leave the work to functions on the slice
// and the place, which any caller may use without a walk.
#![tactic(auto)]

ghost use Rattle.std.specs.Prelude.{◌≡◌};
ghost use Rattle.records.specs.Records.{record_at, answered};
ghost use Rattle.walk.specs.Walks.{place_after};

use records::{Record, Refusal, record_at};

// The circuit and a place in it.
#[derive(Clone, Copy)]
pub struct Walk<'a> {
    pub circuit: &'a [u8],
    pub at: usize,
}

// The place after the record at a place; at a fault or the end, that place: no `Option`, as `moved_to` says it.
pub fn place_after(circuit: &[u8], at: usize) -> usize
    ensures { result ≡ place_after circuit.now at }
{
    match record_at(circuit, at) {
        Ok(Some((_, next))) => next,
        Ok(None) => at,
        Err(_) => at,
    }
}

// A walk at the start of a circuit.
pub fn start<'a>(circuit: &'a [u8]) -> Walk<'a>
    ensures { (result.circuit ≡ circuit.entry) × (result.at ≡ 0) }
{
    Walk { circuit, at: 0 }
}

// The record at the walk's place.
pub fn here<'a>(w: Walk<'a>) -> Result<Option<(Record, usize)>, Refusal>
    ensures { answered result ≡ record_at w.entry.circuit.now w.entry.at }
{
    record_at(w.circuit, w.at)
}

// The walk past the record at its place; at a fault or the end it stays put.
pub fn past<'a>(w: Walk<'a>) -> Walk<'a>
    ensures { (result.circuit ≡ w.entry.circuit) × (result.at ≡ place_after w.entry.circuit.now w.entry.at) }
{
    Walk {
        circuit: w.circuit,
        at: place_after(w.circuit, w.at),
    }
}

// The first record of a circuit: a walk that is started and asked, for callers without one.
pub fn first(circuit: &[u8]) -> Result<Option<(Record, usize)>, Refusal>
    ensures { answered result ≡ record_at circuit.now 0 }
{
    here(start(circuit))
}
