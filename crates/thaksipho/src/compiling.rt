// The call of the compiler.
ghost use Rattle.std.specs.Prelude.{length};
ghost use Rattle.writer.specs.Compiling.{compiled, bytes_of};
ghost use Rattle.thaksipho.specs.Words.{Worded};

use crate::words::word_of;
use writer::compile;

// Writes the dynamic circuit of a static circuit and a pair list. The value: how many bytes were written.
#[unsafe(no_mangle)]
pub extern "C" fn thaksipho_compile(circuit: &[u8], pairs: &[u8], out: &mut [u8]) -> u64
    ensures { Worded out.old (bytes_of (compiled circuit.now pairs.now (length out.old))) result out.new }
{
    match compile(circuit, pairs, out) {
        Ok(counts) => counts.bytes as u64,
        Err(r) => word_of(r),
    }
}
