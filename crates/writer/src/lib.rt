// The compiler and the dynamic circuit: chains of wires, the qubit of each wire, and the instructions in the one order of
// document 01.
#![tactic(auto)]

mod chaining;
mod choosing;
mod compiling;
mod copying;
mod dynamic;
mod heads;
mod notes;
mod noting;
mod renaming;
mod seeking;
mod source;

pub use compiling::{Counts, compile};
