// Document 01's circuits that concern reading and writing again, run: a line each, with what is answered.
#![tactic(auto)]

ghost use Rattle.std.specs.Prelude.{◌≤◌, length};

use circuits::{read, rewrite};
use writing::put_bytes;

// Room for the most instructions on one wire, and one more.
const ROOM: usize = 4200;

// A name, and what the reader answers. What cannot be written is missed where the output is compared.
fn show_reading(rt: &impl Print, name: &str, circuit: &[u8]) {
    let _ = match read(circuit) {
        Ok(c) => println!(rt; "{name}: wires {} instructions {}", c.width, c.instructions),
        Err(r) => println!(rt; "{name}: {r}"),
    };
}

// A name, and what is answered where the circuit is to be written again into this room. With `show_reading` it shares no line but that of
// a refusal.
fn show_rewriting(rt: &impl Print, name: &str, circuit: &[u8], out: &mut [u8]) {
    let _ = match rewrite(circuit, out) {
        Ok(n) => println!(rt; "{name}: bytes {n}"),
        Err(r) => println!(rt; "{name}: {r}"),
    };
}

// Puts a piece into a buffer so many times, one after the other.
fn repeat(out: &mut [u8], from: usize, piece: &[u8], times: usize) -> usize
    requires { from ≤ length out.old }
    ensures { result ≤ length out.new }
{
    let mut to = from;
    for _ in 0..times {
        to = put_bytes(out, to, piece);
    }
    to
}

// One wire with so many gates between its reset and its measurement.
fn show_gates(rt: &impl Print, name: &str, gates: usize) {
    let mut circuit = [0u8; ROOM];
    let begin = put_bytes(&mut circuit, 0, b"\x01\x01\x10\x00");
    let last = repeat(&mut circuit, begin, b"\x20\x00", gates);
    let end = put_bytes(&mut circuit, last, b"\x11\x00\x00");
    show_reading(rt, name, &circuit[..end]);
}

fn show_worked(rt: &impl Print) {
    show_reading(
        rt,
        "A",
        b"\x01\x03\x10\x00\x10\x01\x10\x02\x40\x00\x01\x40\x01\x02\x11\x00\x00\x11\x01\x01\x11\x02\x02",
    );
    show_reading(
        rt,
        "B",
        b"\x01\x03\x10\x00\x10\x01\x10\x02\x11\x00\x00\x11\x01\x01\x11\x02\x02",
    );
    show_reading(rt, "P6", b"\x01\x01\x10\x00\x11\x00\x00");
    show_reading(rt, "P7", b"\x01\x01");
    show_reading(rt, "P8", b"\x01\x01\x20\x00");
    show_reading(rt, "P9", b"\x01\x01\x10\x00\x11\x00\x00\x20\x00");
    show_reading(
        rt,
        "P10",
        b"\x01\x02\x10\x00\x10\x01\x11\x00\x00\x11\x01\x00",
    );
    show_reading(rt, "P12", b"");
}

fn show_run(rt: &impl Print) {
    show_reading(rt, "width 0", b"\x01\x00");
    show_reading(rt, "width 33", b"\x01\x21");
    show_reading(rt, "a cut reset", b"\x01\x01\x10");
    show_reading(rt, "an unknown kind", b"\x01\x01\x7F");
    show_reading(rt, "reset twice", b"\x01\x01\x10\x00\x10\x00");
    show_reading(
        rt,
        "32 wires, no gates",
        b"\x01\x20\x10\x00\x11\x00\x00\x10\x01\x11\x01\x01\x10\x02\x11\x02\x02\x10\x03\x11\x03\x03\x10\x04\x11\x04\x04\x10\x05\x11\x05\x05\x10\x06\x11\x06\x06\x10\x07\x11\x07\x07\x10\x08\x11\x08\x08\x10\x09\x11\x09\x09\x10\x0a\x11\x0a\x0a\x10\x0b\x11\x0b\x0b\x10\x0c\x11\x0c\x0c\x10\x0d\x11\x0d\x0d\x10\x0e\x11\x0e\x0e\x10\x0f\x11\x0f\x0f\x10\x10\x11\x10\x10\x10\x11\x11\x11\x11\x10\x12\x11\x12\x12\x10\x13\x11\x13\x13\x10\x14\x11\x14\x14\x10\x15\x11\x15\x15\x10\x16\x11\x16\x16\x10\x17\x11\x17\x17\x10\x18\x11\x18\x18\x10\x19\x11\x19\x19\x10\x1a\x11\x1a\x1a\x10\x1b\x11\x1b\x1b\x10\x1c\x11\x1c\x1c\x10\x1d\x11\x1d\x1d\x10\x1e\x11\x1e\x1e\x10\x1f\x11\x1f\x1f",
    );
    show_gates(rt, "2,048 instructions", 2046);
    show_gates(rt, "2,049 instructions", 2047);
}

fn main(rt: HostRuntime) {
    show_worked(&rt);
    show_run(&rt);
    let mut short = [0u8; 6];
    show_rewriting(
        &rt,
        "P6 again, in 6 bytes",
        b"\x01\x01\x10\x00\x11\x00\x00",
        &mut short,
    );
    let mut exact = [0u8; 7];
    show_rewriting(
        &rt,
        "P6 again, in 7 bytes",
        b"\x01\x01\x10\x00\x11\x00\x00",
        &mut exact,
    );
    let mut room = [0u8; 8];
    show_rewriting(&rt, "P7 again", b"\x01\x01", &mut room);
}
