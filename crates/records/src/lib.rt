// Circuit records: their kinds, what stands at a place of a circuit or a pair list, and their bytes.
#![tactic(auto)]

pub mod encoding;
pub mod instructions;
pub mod kinds;
pub mod numbers;
pub mod reading;
pub mod refusals;

pub use encoding::{Encoded, encode, write_record};
pub use instructions::{Instruction, Record};
pub use kinds::{Form, Outline, is_instruction, shape};
pub use numbers::{Angle, Bit, Line, Qubit, Wire};
pub use reading::record_at;
pub use refusals::{Cause, Refusal};
