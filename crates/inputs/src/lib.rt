// Bytes read into a lent buffer, and what to say of a file or a pipe that cannot be read or written.
#![tactic(auto)]

mod reason;

ghost use Rattle.std.specs.Prelude.{◌<◌, ◌≤◌, length, take, OnOk};
ghost use Rattle.std.specs.Io.KnownBytes.{Consumes, IsAtEnd};

pub use reason::Reason;
use std::io;
use std::io::Read;

// How many bytes were read, and whether all could be, or why not. The count stands beside the `Result`: `within` and `bytes` of `fill` are
// of what was read before a failure too.
#[derive(Clone, Copy)]
pub struct Input {
    pub count: usize,
    pub whole: io::Result<()>,
}

// Reads until the buffer is full or the input ends. The loop stays, for the clause `bytes`: of an input that ends or fails early
// `read_exact` does not say what was read, and `read_to_end` needs a heap.
pub fn fill<R: Read>(reader: &mut R, buffer: &mut [u8]) -> Input
    ensures within { result.count ≤ length buffer.new }
    ensures bytes { Consumes (R.remaining reader.old) (R.remaining reader.new) (take result.count buffer.new) }
    ensures whole { OnOk result.whole (result.count < length buffer.new → IsAtEnd (R.remaining reader.new)) }
{
    let mut count = 0;
    while count < buffer.len() {
        match reader.read(&mut buffer[count..]) {
            Ok(0) => break,
            Ok(more) => count += more,
            Err(e) => {
                return Input {
                    count,
                    whole: Err(e),
                };
            }
        }
    }
    Input {
        count,
        whole: Ok(()),
    }
}
