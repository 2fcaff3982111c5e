// Lines of text for programs to print, put into a lent buffer as bytes are.
#![tactic(auto)]

mod drafts;
pub mod lines;
pub mod listings;
pub mod places;
pub mod refusals;

pub use lines::put_line;
pub use listings::{LONGEST_COUNTS, LONGEST_PAIR, put_compiled, put_pair, put_summary};
pub use places::put_at;
pub use refusals::put_refusal;
