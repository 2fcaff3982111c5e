// Static circuits: the reader, which answers any byte string, and the records of a valid circuit written again.
#![tactic(auto)]

pub mod circuit;
pub mod judging;
pub mod lines;
pub mod reading;
pub mod rewriting;
pub mod sketching;
pub mod states;
pub mod stepping;
pub mod taking;

pub use circuit::Circuit;
pub use judging::{Fault, advance, judge, place_of};
pub use lines::wire_of;
pub use reading::{close, read, read_header};
pub use rewriting::rewrite;
pub use sketching::{Sketch, sketch_at};
pub use states::States;
pub use stepping::step_at;
pub use taking::take_step;
