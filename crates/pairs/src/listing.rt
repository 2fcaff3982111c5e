// The pairs of a list, left to right: 24, 25, and then what the table answers to the pair's offer, at the pair's index.
ghost use Rattle.std.specs.Prelude.{◌≡◌, ◌<◌};
ghost use Rattle.std.specs.Result.{result_unwrap_or};
ghost use Rattle.basics.specs.Outcome.{done, beside};
ghost use Rattle.records.specs.Refusals.{outcome_of};
ghost use Rattle.records.specs.Records.{stands};
ghost use Rattle.table.specs.Marks.{Clean};
ghost use Rattle.table.specs.Calls.{offered};
ghost use Rattle.pairs.specs.Listing.{found_pair, pair_kind, pair_of, pair_at, read_pairs, paired, unpaired};

use crate::lending::Lenders;
use records::{Cause, Form, Record, Refusal, Wire, record_at, shape};
use table::Table;

// What an accepted list leaves: how many pairs it has, the table after them, and each wire's lender.
#[derive(Clone, Copy)]
pub struct Paired {
    pub count: usize,
    pub table: Table,
    pub lenders: Lenders,
}

// Whether a kind byte is that of a reuse pair.
fn is_pair_kind(kind: u8) -> bool
    ensures { result ≡ pair_kind kind }
{
    matches!(shape(kind), Some(outline) if outline.form == Form::Reuse)
}

// A record as the next pair of the list: the lender, the taker, and the place after the record.
fn pair_of(item: Record, next: usize, index: usize) -> Result<Option<(Wire, Wire, usize)>, Refusal>
    ensures { found_pair result ≡ pair_of index (done (stands item next)) }
{
    match item {
        Record::Reuse(lender, taker) => Ok(Some((lender, taker, next))),
        _ => Err(Cause::NoPair.at(index)),
    }
}

// The pair at a place, nothing at the end of the list, or 24, 25.
#[tactic(auto, using(std::proofs::lemmas::Bool::Decides::nat_tests), unfolding(crate::specs::Listing::pair_at))]
fn pair_at(list: &[u8], at: usize, index: usize) -> Result<Option<(Wire, Wire, usize)>, Refusal>
    ensures { found_pair result ≡ pair_at list.now at index }
{
    if list.len() <= at {
        return Ok(None);
    }
    if !is_pair_kind(list[at]) {
        return Err(Cause::NoPair.at(index));
    }
    match record_at(list, at) {
        Ok(Some((item, next))) => pair_of(item, next, index),
        Ok(None) => Ok(None),
        Err(_) => Err(Cause::CutPair.at(index)),
    }
}

// The table after the offer of the pair of an index. After the first pair every mark of the table counts.
fn take(table: Table, index: usize, lender: Wire, taker: Wire) -> Result<Table, Refusal>
    requires { 0 < index → Clean table }
    ensures { outcome_of result ≡ offered table lender.0 taker.0 }
{
    if index == 0 {
        return table::offer(table, lender, taker);
    }
    table::offer_clean(table, lender, taker)
}

// Reads a pair list against a table: each pair is offered to the table as those before it leave it. Beside a refusal the table given and
// no lenders stand.
pub fn read_pairs(table: Table, list: &[u8]) -> Result<Paired, Refusal>
    ensures value { outcome_of result ≡ paired (read_pairs table list.now) }
    ensures kept { result_unwrap_or result (unpaired table) ≡ beside (unpaired table) (paired (read_pairs table list.now)) }
{
    let mut now = table;
    let mut lenders = Lenders::none();
    let mut at: usize = 0;
    let mut index: usize = 0;
    while let Some((lender, taker, next)) = pair_at(list, at, index)? {
        now = match take(now, index, lender, taker) {
            Ok(after) => after,
            Err(refusal) => return Err(refusal.cause.at(index)),
        };
        lenders = lenders.with_pair(lender, taker);
        at = next;
        index += 1;
    }
    Ok(Paired {
        count: index,
        table: now,
        lenders,
    })
}
