// An offer to a table in which every mark that is set counts, as it is in each table that took an offer.
ghost use Rattle.std.specs.Prelude.{◌≡◌, ◌<◌, get_or};
ghost use Rattle.std.specs.Result.{result_unwrap_or};
ghost use Rattle.basics.specs.Outcome.{beside};
ghost use Rattle.records.specs.Refusals.{outcome_of};
ghost use Rattle.table.specs.Limits.{most_wires};
ghost use Rattle.table.specs.Rule.{accepted_clean};
ghost use Rattle.table.specs.Calls.{offered_clean};

use crate::offering::judge;
use crate::rows::{row_left, use_wire};
use crate::tables::{Row, Table};
use records::{Refusal, Wire};

// A wire's row. It is read by a function of its own, so that the compiler copies no table for it.
fn row_of(table: Table, wire: Wire) -> Row
    requires { wire.0 < most_wires }
    ensures { result ≡ get_or table.rows wire.0 0 }
{
    table.rows[wire.0 as usize]
}

// The table after an offer that is taken. A row needs no test of its own: the rule goes by the marks that are set. So it is quicker than
// `accept`, which is for any table and cannot rest on it.
fn accept_clean(table: Table, lender: Wire, taker: Wire) -> Table
    requires { lender.0 < most_wires }
    ensures { result ≡ accepted_clean table lender.0 taker.0 }
{
    let given = row_of(table, lender);
    let lending = use_wire(table.width, table.lending, lender);
    let taking = use_wire(table.width, table.taking, taker);
    let mut rows = [0; Table::ROWS];
    for (wire, row) in rows.iter_mut().enumerate() {
        *row = row_left(given, table.rows[wire], taker);
    }
    rows[lender.0 as usize] = 0;
    Table {
        width: table.width,
        rows,
        lending,
        taking,
    }
}

// What `offer` answers to such a table, in less time.
#[tactic(auto, using(crate::proofs::Offers::taken_inside))]
pub fn offer_clean(table: Table, lender: Wire, taker: Wire) -> Result<Table, Refusal>
    ensures value { outcome_of result ≡ offered_clean table lender.0 taker.0 }
    ensures kept { result_unwrap_or result table ≡ beside table (offered_clean table lender.0 taker.0) }
{
    judge(table, lender, taker)?;
    Ok(accept_clean(table, lender, taker))
}
