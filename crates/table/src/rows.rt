// Rows of marks, one at a time: which of them count, and what an accepted offer leaves of them.
ghost use Rattle.std.specs.Prelude.{◌≡◌, ◌&&◌, ◌||◌, not, ltb, eqb};
ghost use Rattle.bits.specs.Bits.{bit, pack};
ghost use Rattle.table.specs.Limits.{most_wires};
ghost use Rattle.table.specs.Marks.{used, free, counts_among, rows_below};
ghost use Rattle.table.specs.Rule.{row_after, used_after};
ghost use Rattle.table.specs.Changes.{changed};

use crate::tables::{Row, Table};
use records::Wire;

// What an accepted offer is for every row: the other free lenders, the free takers, the marks of the lender's own row
// that count, and the taker.
#[derive(Clone, Copy)]
pub struct Change {
    pub lenders: Row,
    pub takers: Row,
    pub given: Row,
    pub taker: Wire,
}

// The row of one mark, and of none past the last wire.
fn only(wire: Wire) -> Row
    ensures { result ≡ pack most_wires (λ v. eqb v wire.0) }
{
    if wire.0 < Table::MOST { 1 << wire.0 } else { 0 }
}

// The mark of one wire.
pub fn has(row: Row, wire: Wire) -> bool
    ensures { result ≡ bit wire.0 row }
{
    row & only(wire) != 0
}

// A row with the mark of one wire.
pub(crate) fn with(row: Row, wire: Wire) -> Row
    ensures { result ≡ pack most_wires (λ v. bit v row || eqb v wire.0) }
{
    row | only(wire)
}

// The wires below the width.
fn below(width: u8) -> Row
    ensures { result ≡ pack most_wires (λ i. ltb i width) }
{
    if width < Table::MOST {
        (1 << width) - 1
    } else {
        !0
    }
}

// How many rows there are of wires below the width: past them no mark counts.
pub fn rows_below(width: u8) -> u8
    ensures { result ≡ rows_below width }
{
    width.min(Table::MOST)
}

// A row without the mark of one wire.
pub fn without(row: Row, wire: Wire) -> Row
    ensures { result ≡ pack most_wires (λ v. not (eqb v wire.0) && bit v row) }
{
    !only(wire) & row
}

// The free wires of a set of used ones.
pub fn unused(width: u8, row: Row) -> Row
    ensures { result ≡ pack most_wires (free width row) }
{
    below(width) & !row
}

// The used wires, with one wire more.
pub fn use_wire(width: u8, row: Row, wire: Wire) -> Row
    ensures { result ≡ pack most_wires (used_after (used width row) wire.0) }
{
    only(wire) | (below(width) & row)
}

// The marks of a lender's row that count, by the free lenders and the free takers.
pub fn counting(lenders: Row, takers: Row, row: Row, lender: Wire) -> Row
    ensures { result ≡ pack most_wires (counts_among (λ i. bit i lenders) (λ i. bit i takers) row lender.0) }
{
    if has(lenders, lender) {
        without(row & takers, lender)
    } else {
        0
    }
}

// What an offer leaves of a row whose marks all count.
pub fn row_left(given: Row, row: Row, taker: Wire) -> Row
    ensures { result ≡ pack most_wires (row_after (λ v. bit v given) (λ v. bit v row) taker.0) }
{
    if has(row, taker) {
        without(row, taker)
    } else {
        row & given
    }
}

// The row of one wire after an accepted offer.
pub fn row_after(change: Change, row: Row, wire: Wire) -> Row
    ensures { result ≡ pack most_wires (changed change row wire.0) }
{
    let marks = counting(change.lenders, change.takers, row, wire);
    row_left(change.given, marks, change.taker)
}
