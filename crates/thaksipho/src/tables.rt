// The calls on tables. A table is given and handed back as its bytes; missing bytes count as 0, and further ones are not read.
ghost use Rattle.std.specs.Prelude.{◌≡◌, length};
ghost use Rattle.basics.specs.Outcome.{done};
ghost use Rattle.table.specs.TableBytes.{table_of};
ghost use Rattle.table.specs.Calls.{may_lend, offered, count_of, score_of};
ghost use Rattle.records.specs.Refusals.{outcome_of};
ghost use Rattle.table.specs.Starting.{started};
ghost use Rattle.thaksipho.specs.Words.{word, flag, Worded};
ghost use Rattle.thaksipho.specs.Tables.{table_written, Small};

use crate::words::word_of;
use records::{Cause, Refusal, Wire};
use table::Table;

// Hands a table back, or 31.
fn hand_back(table: Table, out: &mut [u8]) -> u64
    ensures { Worded out.old (table_written (length out.old) (done table)) result out.new }
{
    if out.len() < Table::BYTES {
        return word_of(Cause::NoRoom.at(Table::BYTES));
    }
    table::write_table(table, out, 0) as u64
}

// Writes the table of a circuit. The value: how many bytes were written.
#[unsafe(no_mangle)]
pub extern "C" fn thaksipho_start(circuit: &[u8], out: &mut [u8]) -> u64
    ensures { Worded out.old (table_written (length out.old) (started circuit.now)) result out.new }
{
    match table::start(circuit) {
        Ok(table) => hand_back(table, out),
        Err(r) => word_of(r),
    }
}

// Whether the lender may lend to the taker. The value: 1 yes, 0 no.
#[unsafe(no_mangle)]
#[tactic(auto, using(crate::proofs::Fitting::refusal_tells, crate::proofs::TableWords::may_fits))]
pub extern "C" fn thaksipho_may(table: &[u8], lender: u8, taker: u8) -> u64
    ensures { result ≡ word (flag (may_lend (table_of table.now) lender taker)) }
{
    match table::may(table::table_of(table), Wire(lender), Wire(taker)) {
        Ok(yes) => yes as u64,
        Err(r) => word_of(r),
    }
}

// Offers a pair and writes the new table when it is taken. The value: how many bytes were written.
#[unsafe(no_mangle)]
pub extern "C" fn thaksipho_offer(table: &[u8], lender: u8, taker: u8, out: &mut [u8]) -> u64
    ensures { Worded out.old (table_written (length out.old) (offered (table_of table.now) lender taker)) result out.new }
{
    match table::offer(table::table_of(table), Wire(lender), Wire(taker)) {
        Ok(after) => hand_back(after, out),
        Err(r) => word_of(r),
    }
}

// A count as a word, or the refusal as one: the answer that C is given.
#[tactic(auto, using(crate::proofs::Fitting::kept))]
fn count_word(counted: Result<u32, Refusal>) -> u64
    requires { Small (outcome_of counted) }
    ensures { result ≡ word (outcome_of counted) }
{
    match counted {
        Ok(n) => n as u64,
        Err(r) => word_of(r),
    }
}

// How many marks count.
#[unsafe(no_mangle)]
#[tactic(auto, using(crate::proofs::Fitting::told_fits, crate::proofs::Fitting::fits_small, crate::proofs::TableWords::count_fits))]
pub extern "C" fn thaksipho_count(table: &[u8]) -> u64
    ensures { result ≡ word (count_of (table_of table.now)) }
{
    count_word(table::count(table::table_of(table)))
}

// How many marks are left after accepting a pair.
#[unsafe(no_mangle)]
#[tactic(auto, using(crate::proofs::Fitting::told_fits, crate::proofs::Fitting::fits_small, crate::proofs::TableWords::score_fits))]
pub extern "C" fn thaksipho_score(table: &[u8], lender: u8, taker: u8) -> u64
    ensures { result ≡ word (score_of (table_of table.now) lender taker) }
{
    count_word(table::score(table::table_of(table), Wire(lender), Wire(taker)))
}
