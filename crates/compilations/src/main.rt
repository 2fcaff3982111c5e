// Document 01's circuits that concern compiling, run: a line each, with what is answered and the bytes that are written.
#![tactic(auto)]

ghost use Rattle.std.specs.Prelude.{◌≤◌};

use std::fmt;
use std::fmt::{Display, Formatter, Write};
use writer::compile;

// Room for any of the circuits here, compiled.
const ROOM: usize = 32;

// Bytes in hexadecimal, each behind a space.
#[derive(Clone, Copy)]
struct Hexadecimal<'a>(&'a [u8]);

impl Display for Hexadecimal<'_> {
    fn fmt<W: Write>(&self, f: &mut Formatter<W>) -> fmt::Result {
        for byte in self.0 {
            write!(f, " {byte:02X}")?;
        }
        Ok(())
    }
}

// A name, and what is answered where the circuit is compiled with the pair list into so much room. What cannot be written is
// missed where the output is compared.
fn show(rt: &impl Print, name: &str, circuit: &[u8], list: &[u8], room: usize)
    requires { room ≤ ROOM }
{
    let mut buffer = [0u8; ROOM];
    let out = &mut buffer[..room];
    let _ = match compile(circuit, list, out) {
        Ok(counts) => {
            let bytes = counts.bytes;
            let qubits = counts.qubits;
            let pairs = counts.pairs;
            let written = Hexadecimal(out.get(..bytes).unwrap_or(&[]));
            println!(rt; "{name}: bytes {bytes} qubits {qubits} pairs {pairs}:{written}")
        }
        Err(r) => println!(rt; "{name}: {r}"),
    };
}

fn show_worked(rt: &impl Print) {
    let a =
        b"\x01\x03\x10\x00\x10\x01\x10\x02\x40\x00\x01\x40\x01\x02\x11\x00\x00\x11\x01\x01\x11\x02\x02";
    let b = b"\x01\x03\x10\x00\x10\x01\x10\x02\x11\x00\x00\x11\x01\x01\x11\x02\x02";
    show(rt, "P1", a, b"\x60\x00\x02", ROOM);
    show(rt, "P2", a, b"\x60\x01\x02", ROOM);
    show(rt, "P3", b, b"\x60\x00\x01\x60\x01\x02", ROOM);
    show(rt, "P4", b, b"\x60\x00\x01\x60\x01\x02\x60\x02\x00", ROOM);
    show(rt, "P6", b"\x01\x01\x10\x00\x11\x00\x00", b"", ROOM);
    show(rt, "P1 in 23 bytes", a, b"\x60\x00\x02", 23);
    show(rt, "P1 in 24 bytes", a, b"\x60\x00\x02", 24);
}

fn show_p11(rt: &impl Print) {
    let circuit =
        b"\x01\x04\x10\x00\x10\x01\x10\x02\x10\x03\x40\x00\x01\x40\x02\x03\x11\x00\x00\x11\x01\x01\x11\x02\x02\x11\x03\x03";
    show(rt, "P11", circuit, b"\x60\x00\x02\x60\x03\x01", ROOM);
    show(rt, "P11, 3 to 1 alone", circuit, b"\x60\x03\x01", ROOM);
}

fn main(rt: HostRuntime) {
    show_worked(&rt);
    show_p11(&rt);
}
