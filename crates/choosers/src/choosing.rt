// The greedy choice: in each round every yes pair is tried, and the one with the highest score is accepted. Each step asks for a table of
// a right width; that is no type of its own, since `greedy` is handed any table and hands one back.
ghost use Rattle.std.specs.Prelude.{◌≡◌, false, ◌+◌, ◌<◌, ◌≤◌, length};
ghost use Rattle.basics.specs.Outcome.{beside};
ghost use Rattle.std.specs.Result.{result_unwrap_or};
ghost use Rattle.records.specs.Refusals.{outcome_of};
ghost use Rattle.bits.specs.Bits.{pack};
ghost use Rattle.table.specs.Limits.{most_wires};
ghost use Rattle.table.specs.Marks.{counts};
ghost use Rattle.table.specs.Calls.{wrong_width, count_of};
ghost use Rattle.choosers.specs.Trying.{better, try_takers, try_lenders, score_in, best_pair};
ghost use Rattle.choosers.specs.Greedy.{greedy_from, ended};
ghost use Rattle.choosers.specs.Results.{most_pairs, trials_limit, best_said, tried_of, other_rows, marks_left, stored, round_after, handed_back, greedy_of};

use crate::answers::{Pair, PairList, Rounds};
use records::{Refusal, Wire};
use table::{Row, Table, all_marks, count, offer, row_left};

// A pair that was tried, and its score.
#[derive(Clone, Copy)]
struct Tried {
    pair: Pair,
    score: u32,
}

// The best of the pair found so far, if any, and a new one: the highest score wins, and on a tie the pair that was tried before.
fn better_of(best: Option<Tried>, new: Tried) -> Option<Tried>
    ensures { best_said result ≡ better (best_said best) (tried_of new) }
{
    match best {
        Some(old) if new.score <= old.score => Some(old),
        _ => Some(new),
    }
}

// How many marks the rows of the other lenders keep once a lender with these marks lends to the taker. The rows that are left are stored
// nowhere, so `count` cannot be asked.
#[tactic(auto, unfolding(bits::specs::Bits::total))]
fn marks_left(rows: &[Row; Table::ROWS], width: u8, given: Row, taker: Wire) -> u32
    requires rows_len { length rows.now ≡ most_wires }
    requires width_le_most_wires { width ≤ most_wires }
    ensures { result ≡ marks_left rows.now width given taker.0 }
{
    let mut n: u32 = 0;
    for row in &rows[..width as usize] {
        n += row_left(given, *row, taker).count_ones();
    }
    n
}

// Tries the takers of one lender, rising. Its own marks are given, and its row is empty. Most lenders have no marks left in the later
// rounds, so that is tested once and not for each taker.
#[tactic(auto, using(crate::proofs::Scores::tries_none, crate::proofs::Scores::tries_yes, crate::proofs::Scores::tries_not), unfolding(crate::specs::Trying::try_takers))]
fn try_takers(
    table: Table,
    rows: &[Row; Table::ROWS],
    given: Row,
    lender: Wire,
    best: Option<Tried>,
) -> Option<Tried>
    requires table_value { wrong_width table ≡ false }
    requires rows_value { rows.now ≡ other_rows table lender.0 }
    requires given_value { given ≡ pack most_wires (counts table lender.0) }
    ensures { best_said result ≡ try_takers (counts table) (score_in table) lender.0 table.width (best_said best) }
{
    if given == 0 {
        return best;
    }
    let mut now = best;
    for taker in 0..table.width {
        if (given >> taker) % 2 == 1 {
            let score = marks_left(rows, table.width, given, Wire(taker));
            let pair = Pair {
                lender,
                taker: Wire(taker),
            };
            now = better_of(now, Tried { pair, score });
        }
    }
    now
}

// Tries every pair, by rising lender, then rising taker.
#[tactic(auto, using(crate::proofs::Scores::own_row, crate::proofs::Scores::set_aside, crate::proofs::Scores::put_back), unfolding(crate::specs::Trying::try_lenders))]
fn try_pairs(table: Table) -> Option<Tried>
    requires { wrong_width table ≡ false }
    ensures { best_said result ≡ try_lenders (counts table) (score_in table) table.width table.width }
{
    let mut rows = all_marks(table);
    let mut best = None;
    for lender in 0..table.width {
        let at = lender as usize;
        let given = rows[at];
        rows[at] = 0;
        best = try_takers(table, &rows, given, Wire(lender), best);
        rows[at] = given;
    }
    best
}

// One pair more.
fn push(list: &mut PairList, pair: Pair)
    requires { list.old.length < most_pairs }
    ensures { list.new ≡ stored list.old pair }
{
    list.pairs[list.length] = pair;
    list.length += 1;
}

// The yes marks at a round's start: so many pairs are tried in it.
fn yes_marks(table: Table) -> u32
    ensures { result ≡ beside 0 (count_of table) }
{
    count(table).unwrap_or(0)
}

// One round: the best pair is accepted.
#[tactic(auto, unfolding(crate::specs::Trying::best_pair))]
fn round(rounds: Rounds, marks: u32) -> Rounds
    requires table_value { wrong_width rounds.table ≡ false }
    requires length_lt_most_pairs { rounds.list.length < most_pairs }
    requires marks_bound { rounds.trials + marks < trials_limit }
    ensures { result ≡ round_after rounds marks (best_pair rounds.table) }
{
    let table = rounds.table;
    let Some(tried) = try_pairs(table) else {
        return rounds;
    };
    let mut list = rounds.list;
    push(&mut list, tried.pair);
    Rounds {
        list,
        // A yes is taken.
        table: offer(table, tried.pair.lender, tried.pair.taker).unwrap(),
        trials: rounds.trials + marks,
    }
}

// Rounds until no yes is left. The loop counts nothing.
#[tactic(auto, using(crate::proofs::Underway::underway_first, crate::proofs::Underway::underway_more))]
fn all_rounds(table: Table) -> Rounds
    requires { wrong_width table ≡ false }
    ensures { result ≡ handed_back (greedy_from table) }
{
    let mut rounds = Rounds {
        list: PairList::empty(),
        table,
        trials: 0,
    };
    let mut marks = yes_marks(table);
    while 0 < marks {
        rounds = round(rounds, marks);
        marks = yes_marks(rounds.table);
    }
    rounds
}

// Chooses pairs greedily from a table: the list, the table as the accepted offers leave it, and the number of trials; or 27, beside which
// an empty list, the table given and no trials stand.
pub fn greedy(table: Table) -> Result<Rounds, Refusal>
    ensures value { outcome_of result ≡ greedy_of table }
    ensures ended { result_unwrap_or result (handed_back (ended table)) ≡ beside (handed_back (ended table)) (greedy_of table) }
{
    // The count is refused exactly where the choice is.
    count(table)?;
    Ok(all_rounds(table))
}
