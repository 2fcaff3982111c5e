// A chooser's list as the 60 records of a pair list.
#![tactic(auto)]

ghost use Rattle.std.specs.Prelude.{◌≤◌, length};
ghost use Rattle.writing.specs.Writing.{Placed, Written};
ghost use Rattle.pairs.specs.Listing.{deciding_list_bytes};
ghost use Rattle.lists.specs.ListBytes.{list_bytes};

use choosers::PairList;
use records::{Record, write_record};

// The bytes of a pair's record.
pub const PAIR: usize = 3;

// The bytes of the records of the most pairs: so many first bytes decide a pair list.
pub const DECIDING: usize = PAIR * PairList::MOST;

// Writes the records of a list from the start of a buffer that has room for any list. A length past the last entry says no more
// pairs.
fn write_list(out: &mut [u8], list: PairList) -> usize
    requires { deciding_list_bytes ≤ length out.old }
    ensures { Written out.old 0 deciding_list_bytes (list_bytes list) out.new result }
{
    let count = list.length.min(PairList::MOST);
    let mut to = 0;
    for pair in &list.pairs[..count] {
        to = write_record(Record::Reuse(pair.lender, pair.taker), out, to);
    }
    to
}

// Puts the records of a list into a buffer as `put_bytes` puts bytes.
pub fn put_list(out: &mut [u8], at: usize, list: PairList) -> usize
    ensures { Placed out.old at (list_bytes list) out.new result }
{
    let mut records = [0u8; DECIDING];
    let length = write_list(&mut records, list);
    writing::put_bytes(out, at, &records[..length])
}
