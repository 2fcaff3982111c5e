// The library that C and Rust link: numbers and byte slices only. Each call returns one word: the refusal's number times 2^32
// plus its place, or, when done, a value below 2^32. A call is one match, since each tells another value.
#![tactic(auto)]

mod choosing;
mod compiling;
mod tables;
mod words;

ghost use Rattle.std.specs.Prelude.{◌≡◌, length};
ghost use Rattle.circuits.specs.Reading.{summary, read_circuit};
ghost use Rattle.circuits.specs.Rewriting.{rewritten};
ghost use Rattle.thaksipho.specs.Words.{word, circuit_value, Worded};

use crate::words::word_of;
use circuits::{read, rewrite};

// Reads a static circuit. The value: instructions * 256 + wires.
#[unsafe(no_mangle)]
#[tactic(auto, using(crate::proofs::Fitting::told_fits, crate::proofs::Fitting::read_fits, crate::proofs::Fitting::refusal_tells))]
pub extern "C" fn thaksipho_read(circuit: &[u8]) -> u64
    ensures { result ≡ word (circuit_value (summary (read_circuit circuit.now))) }
{
    match read(circuit) {
        Ok(c) => c.instructions as u64 * 256 + c.width as u64,
        Err(r) => word_of(r),
    }
}

// Writes the records of a static circuit again. The value: how many bytes were written.
#[unsafe(no_mangle)]
pub extern "C" fn thaksipho_rewrite(circuit: &[u8], out: &mut [u8]) -> u64
    ensures { Worded out.old (rewritten circuit.now (length out.old)) result out.new }
{
    match rewrite(circuit, out) {
        Ok(n) => n as u64,
        Err(r) => word_of(r),
    }
}
