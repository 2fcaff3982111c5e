// The greedy choice over bytes: the list is handed back as 60 records.
ghost use Rattle.basics.specs.Outcome.{done};
ghost use Rattle.table.specs.TableBytes.{table_of};
ghost use Rattle.choosers.specs.Results.{Sized, greedy_of};
ghost use Rattle.thaksipho.specs.Lists.{Listed};

use crate::words::word_of;
use choosers::Rounds;
use records::Cause;

// Hands a list back with the number of the trials and of its pairs, or 31.
fn hand_list(rounds: Rounds, out: &mut [u8]) -> u64
    requires { Sized rounds.list }
    ensures { Listed out.old (done rounds) result out.new }
{
    let list = rounds.list;
    let count = list.length;
    if out.len() < count * lists::PAIR {
        return word_of(Cause::NoRoom.at(count * lists::PAIR));
    }
    lists::put_list(out, 0, list);
    rounds.trials as u64 * 256 + count as u64
}

// Chooses pairs greedily and writes the list as 60 records. The value: trials * 256 + pairs.
#[unsafe(no_mangle)]
#[tactic(auto, using(choosers::proofs::HandedLists::greedy_sized))]
pub extern "C" fn thaksipho_greedy(table: &[u8], out: &mut [u8]) -> u64
    ensures { Listed out.old (greedy_of (table_of table.now)) result out.new }
{
    match choosers::greedy(table::table_of(table)) {
        Ok(rounds) => hand_list(rounds, out),
        Err(r) => word_of(r),
    }
}
