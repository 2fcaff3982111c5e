// The listing of a circuit: the pairs that are chosen greedily from its table, put into a lent buffer as text.
#![tactic(auto)]

ghost use Rattle.std.specs.Prelude.{◌≡◌, false, ◌+◌, ◌≤◌, length};
ghost use Rattle.writing.specs.Writing.{Placed, Wrote, Written};
ghost use Rattle.table.specs.Calls.{wrong_width};
ghost use Rattle.choosers.specs.Results.{pairs_of, Sized};
ghost use Rattle.listing.specs.Printing.{pair_lines, chosen_lines, printed, longest_listing};

use choosers::{PairList, greedy};
use table::Table;

// Room for any listing: the first line and the most pairs.
pub const LONGEST: usize = texts::LONGEST_COUNTS + PairList::MOST * texts::LONGEST_PAIR;

// Writes the lines of the pairs, in the order of the list.
#[tactic(auto, using(crate::proofs::Choices::lines_end))]
fn write_pairs(out: &mut [u8], at: usize, list: PairList) -> usize
    requires sized { Sized list }
    requires list_in_bounds { at + length (pair_lines (pairs_of list)) ≤ length out.old }
    ensures { Wrote out.old at (pair_lines (pairs_of list)) out.new result }
{
    let mut to = at;
    for pair in &list.pairs[..list.length] {
        to = texts::put_pair(out, to, pair.lender, pair.taker);
    }
    to
}

// Writes the listing of what is chosen from a table. Greedy refuses only a wrong width.
fn write_choice(out: &mut [u8], table: Table) -> usize
    requires table_value { wrong_width table ≡ false }
    requires longest_listing_in_bounds { longest_listing ≤ length out.old }
    ensures { Wrote out.old 0 (chosen_lines table) out.new result }
{
    let rounds = greedy(table).unwrap();
    let list = rounds.list;
    let to = texts::put_summary(
        out,
        0,
        table.width as usize,
        list.length,
        rounds.trials as usize,
    );
    write_pairs(out, to, list)
}

// Writes the listing of a circuit, or its refusal.
#[tactic(auto, using(crate::proofs::Choices::started_right))]
fn write_listing(out: &mut [u8], circuit: &[u8]) -> usize
    requires { longest_listing ≤ length out.old }
    ensures { Written out.old 0 longest_listing (printed circuit.now) out.new result }
{
    match table::start(circuit) {
        Ok(table) => write_choice(out, table),
        Err(refusal) => texts::put_refusal(out, 0, refusal.cause.number(), refusal.place),
    }
}

// Puts the listing of a circuit, or its refusal, into a buffer as `put_bytes` puts bytes.
pub fn put_listing(out: &mut [u8], at: usize, circuit: &[u8]) -> usize
    ensures { Placed out.old at (printed circuit.now) out.new result }
{
    let mut lines = [0u8; LONGEST];
    let length = write_listing(&mut lines, circuit);
    writing::put_bytes(out, at, &lines[..length])
}
