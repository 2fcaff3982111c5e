// A pair list read against a table: its refusal, or the table after all pairs and the lender of each wire.
#![tactic(auto)]

pub mod lending;
mod listing;

pub use lending::Lenders;
pub use listing::{Paired, read_pairs};
