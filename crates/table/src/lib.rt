// The table of possible reuse pairs: which wire may lend to which, what an offer makes of it, and its bytes.
#![tactic(auto)]

mod clean_offers;
mod counting;
mod offering;
mod rows;
mod saving;
mod starting;
pub mod tables;

pub use clean_offers::offer_clean;
pub use counting::{all_marks, count, score};
pub use offering::{may, offer};
pub use rows::row_left;
pub use saving::{table_of, write_table};
pub use starting::{Sets, join_sets, start, table_from};
pub use tables::{Row, Table};
