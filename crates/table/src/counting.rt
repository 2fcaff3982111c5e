// How many marks count, now or after an offer.
ghost use Rattle.std.specs.Prelude.{◌≡◌};
ghost use Rattle.records.specs.Refusals.{outcome_of};
ghost use Rattle.table.specs.Marks.{marks_of, mark_rows};
ghost use Rattle.table.specs.Calls.{count_of, score_of};

use crate::offering::{accept, judge, wrong_width};
use crate::rows::{counting, rows_below, unused};
use crate::tables::{Row, Table};
use records::{Cause, Refusal, Wire};

// The marks that count, a row for each lender.
pub fn all_marks(table: Table) -> [Row; Table::ROWS]
    ensures { result ≡ mark_rows table }
{
    let lenders = unused(table.width, table.lending);
    let takers = unused(table.width, table.taking);
    let end = rows_below(table.width);
    let mut rows = [0; Table::ROWS];
    for lender in 0..end {
        let row = table.rows[lender as usize];
        rows[lender as usize] = counting(lenders, takers, row, Wire(lender));
    }
    rows
}

// Not over the rows of `all_marks`: those are 32 at any width, which the count of a narrow table would pay for.
fn marks_of(table: Table) -> u32
    ensures { result ≡ marks_of table }
{
    let lenders = unused(table.width, table.lending);
    let takers = unused(table.width, table.taking);
    let end = rows_below(table.width);
    let mut n: u32 = 0;
    for lender in 0..end {
        let row = table.rows[lender as usize];
        n += counting(lenders, takers, row, Wire(lender)).count_ones();
    }
    n
}

// How many marks count.
#[tactic(auto, unfolding(crate::specs::Calls::count_of))]
pub fn count(table: Table) -> Result<u32, Refusal>
    ensures { outcome_of result ≡ count_of table }
{
    if wrong_width(table) {
        return Err(Cause::WrongTableWidth.at(0));
    }
    Ok(marks_of(table))
}

// How many marks are left after accepting a pair; a pair that is not yes is refused as its offer would be.
pub fn score(table: Table, lender: Wire, taker: Wire) -> Result<u32, Refusal>
    ensures { outcome_of result ≡ score_of table lender.0 taker.0 }
{
    judge(table, lender, taker)?;
    Ok(marks_of(accept(table, lender, taker)))
}
