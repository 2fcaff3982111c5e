// Reads a static circuit on standard input and prints its listing: how many wires, qubits, pairs and trials there are, then the
// pairs that are chosen greedily; of a circuit that is refused only the refusal.
#![tactic(auto)]

ghost use Rattle.std.specs.Prelude.{◌≡◌, ◌≤◌, length, take, IfOk, IfSome};
ghost use Rattle.listing.specs.Printing.{printed, longest_listing};

use circuits::Circuit;
use inputs::Reason;
use std::io;
use std::io::Read;

// Reads a circuit and puts its listing, or its refusal, at the front of a buffer that has room for any. Of the input no more is read
// than decides: nothing behind that changes what is printed.
fn list<R: Read>(reader: &mut R, lines: &mut [u8]) -> io::Result<usize>
    requires { longest_listing ≤ length lines.old }
    ensures within { IfOk result (λ count. count ≤ length lines.new) }
    ensures listed { IfOk result (λ count. IfSome (R.remaining reader.old) (λ circuit. take count lines.new ≡ printed circuit)) }
{
    let mut buffer = [0u8; Circuit::DECIDING];
    let input = inputs::fill(reader, &mut buffer);
    input.whole?;
    let count = input.count;
    Ok(listing::put_listing(lines, 0, &buffer[..count]))
}

fn main(rt: HostRuntime) {
    let mut lines = [0u8; listing::LONGEST];
    let length = match list(&mut rt.stdin(), &mut lines) {
        Ok(length) => length,
        Err(e) => {
            let _ = eprintln!(rt; "standard input: {}", Reason(e));
            return;
        }
    };
    if let Err(e) = rt.write_all(&lines[..length]) {
        let _ = eprintln!(rt; "standard output: {}", Reason(e));
    }
}
