// Choosers: pairs chosen from the table alone, never from the circuit.
#![tactic(auto)]

pub mod answers;
mod choosing;

pub use answers::{Pair, PairList, Rounds};
pub use choosing::greedy;
