// Whether a wire may lend to another, and what an offer makes of the table. The lender and the taker are two parameters, as C hands them
// in and as the definitions take them.
ghost use Rattle.std.specs.Prelude.{◌≡◌};
ghost use Rattle.std.specs.Result.{result_unwrap_or};
ghost use Rattle.basics.specs.Outcome.{beside};
ghost use Rattle.records.specs.Refusals.{outcome_of};
ghost use Rattle.bits.specs.Bits.{pack};
ghost use Rattle.table.specs.Limits.{most_wires};
ghost use Rattle.table.specs.Marks.{counts};
ghost use Rattle.table.specs.Rule.{accepted};
ghost use Rattle.table.specs.Changes.{change_of};
ghost use Rattle.table.specs.Calls.{wrong_width, outside_width, may_lend, judged, offered};

use crate::rows::{Change, counting, has, row_after, rows_below, unused, use_wire, without};
use crate::tables::{Row, Table};
use records::{Cause, Refusal, Wire};

// The marks of one lender's row that count.
pub fn marks(table: Table, lender: Wire) -> Row
    ensures { result ≡ pack most_wires (counts table lender.0) }
{
    if lender.0 < Table::MOST {
        let lenders = unused(table.width, table.lending);
        let takers = unused(table.width, table.taking);
        counting(lenders, takers, table.rows[lender.0 as usize], lender)
    } else {
        0
    }
}

// Whether the mark of a pair counts.
fn is_yes(table: Table, lender: Wire, taker: Wire) -> bool
    ensures { result ≡ counts table lender.0 taker.0 }
{
    has(marks(table, lender), taker)
}

// Whether document 01 refuses the table for its width.
pub fn wrong_width(table: Table) -> bool
    ensures { result ≡ wrong_width table }
{
    table.width == 0 || Table::MOST < table.width
}

// Whether the lender or the taker is not below the width.
fn outside(table: Table, lender: Wire, taker: Wire) -> bool
    ensures { result ≡ outside_width table lender.0 taker.0 }
{
    table.width <= lender.0 || table.width <= taker.0
}

// Whether the lender may lend to the taker; no for numbers at or above the width.
#[tactic(auto, unfolding(crate::specs::Calls::may_lend))]
pub fn may(table: Table, lender: Wire, taker: Wire) -> Result<bool, Refusal>
    ensures { outcome_of result ≡ may_lend table lender.0 taker.0 }
{
    if wrong_width(table) {
        return Err(Cause::WrongTableWidth.at(0));
    }
    Ok(is_yes(table, lender, taker))
}

// What becomes of an offer: it is taken, or refused.
#[tactic(auto, unfolding(crate::specs::Calls::judged))]
pub fn judge(table: Table, lender: Wire, taker: Wire) -> Result<(), Refusal>
    ensures { outcome_of result ≡ judged table lender.0 taker.0 }
{
    if wrong_width(table) {
        return Err(Cause::WrongTableWidth.at(0));
    }
    if outside(table, lender, taker) {
        return Err(Cause::PairOutside.at(0));
    }
    if has(table.lending, lender) {
        return Err(Cause::LenderAlreadyLends.at(0));
    }
    if has(table.taking, taker) {
        return Err(Cause::TakerAlreadyTakes.at(0));
    }
    if !is_yes(table, lender, taker) {
        return Err(Cause::ClosesLoop.at(0));
    }
    Ok(())
}

// What an offer is for every row.
fn change_of(table: Table, lender: Wire, taker: Wire) -> Change
    ensures { result ≡ change_of table lender.0 taker.0 }
{
    Change {
        lenders: without(unused(table.width, table.lending), lender),
        takers: unused(table.width, table.taking),
        given: marks(table, lender),
        taker,
    }
}

// The table after an offer that is taken.
pub fn accept(table: Table, lender: Wire, taker: Wire) -> Table
    ensures { result ≡ accepted table lender.0 taker.0 }
{
    let change = change_of(table, lender, taker);
    let lending = use_wire(table.width, table.lending, lender);
    let taking = use_wire(table.width, table.taking, taker);
    let end = rows_below(table.width);
    let mut rows = [0; Table::ROWS];
    for wire in 0..end {
        rows[wire as usize] = row_after(change, table.rows[wire as usize], Wire(wire));
    }
    Table {
        width: table.width,
        rows,
        lending,
        taking,
    }
}

// The table after the offer, or why the offer is refused; then the table given stands beside the refusal.
pub fn offer(table: Table, lender: Wire, taker: Wire) -> Result<Table, Refusal>
    ensures value { outcome_of result ≡ offered table lender.0 taker.0 }
    ensures kept { result_unwrap_or result table ≡ beside table (offered table lender.0 taker.0) }
{
    judge(table, lender, taker)?;
    Ok(accept(table, lender, taker))
}
