// What a chooser hands back, by value.
ghost use Rattle.std.specs.Prelude.{◌≡◌, []};
ghost use Rattle.choosers.specs.Results.{list_of};

use records::Wire;
use table::Table;

#[derive(Clone, Copy)]
pub struct Pair {
    pub lender: Wire,
    pub taker: Wire,
}

// The pairs in the order chosen; the entries past the length are 0 to 0. An array and a length, since it is handed back by value and no
// call here has a heap.
#[derive(Clone, Copy)]
pub struct PairList {
    pub pairs: [Pair; PairList::MOST],
    pub length: usize,
}

impl PairList {
    // Each pair has a lender of its own.
    pub const MOST: usize = Table::ROWS;

    pub fn empty() -> PairList
        ensures { result ≡ list_of [] }
    {
        PairList {
            pairs: [Pair {
                lender: Wire(0),
                taker: Wire(0),
            }; PairList::MOST],
            length: 0,
        }
    }
}

// What the rounds of a choice leave: the list, the table as the accepted offers leave it, and the number of trials.
#[derive(Clone, Copy)]
pub struct Rounds {
    pub list: PairList,
    pub table: Table,
    pub trials: u32,
}
