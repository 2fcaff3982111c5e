// The bytes of a record.
ghost use Rattle.std.specs.Prelude.{◌≡◌};
ghost use Rattle.writing.specs.Writing.{Placed};
ghost use Rattle.records.specs.Bytes.{instruction_bytes, record_bytes, encoded};

use crate::instructions::{Instruction, Record};

// A record's bytes at the front, 0 behind them, and how many they are. An array and a length, since no call here has a heap.
#[derive(Clone, Copy)]
pub struct Encoded {
    pub bytes: [u8; Encoded::MOST],
    pub length: usize,
}

impl Encoded {
    // The longest record: a kind, two lines and an angle.
    pub const MOST: usize = 11;
}

// One arm for each kind, since their operands differ.
fn encode_instruction(i: Instruction) -> Encoded
    ensures { result ≡ encoded (instruction_bytes i) }
{
    match i {
        Instruction::Reset(line) => Encoded {
            bytes: [0x10, line.0, 0, 0, 0, 0, 0, 0, 0, 0, 0],
            length: 2,
        },
        Instruction::Measurement(line, bit) => Encoded {
            bytes: [0x11, line.0, bit.0, 0, 0, 0, 0, 0, 0, 0, 0],
            length: 3,
        },
        Instruction::Gate(kind, line) => Encoded {
            bytes: [kind, line.0, 0, 0, 0, 0, 0, 0, 0, 0, 0],
            length: 2,
        },
        Instruction::AngledGate(kind, line, a) => Encoded {
            bytes: [kind, line.0, a.0, a.1, a.2, a.3, a.4, a.5, a.6, a.7, 0],
            length: 10,
        },
        Instruction::TwoLineGate(kind, first, second) => Encoded {
            bytes: [kind, first.0, second.0, 0, 0, 0, 0, 0, 0, 0, 0],
            length: 3,
        },
        Instruction::AngledTwoLineGate(kind, first, second, a) => Encoded {
            bytes: [
                kind, first.0, second.0, a.0, a.1, a.2, a.3, a.4, a.5, a.6, a.7,
            ],
            length: 11,
        },
    }
}

// The bytes of any record.
pub fn encode(r: Record) -> Encoded
    ensures { result ≡ encoded (record_bytes r) }
{
    match r {
        Record::StaticWidth(wires) => Encoded {
            bytes: [0x01, wires, 0, 0, 0, 0, 0, 0, 0, 0, 0],
            length: 2,
        },
        Record::DynamicWidth(qubits, bits) => Encoded {
            bytes: [0x02, qubits, bits, 0, 0, 0, 0, 0, 0, 0, 0],
            length: 3,
        },
        Record::Step(i) => encode_instruction(i),
        Record::Reuse(lender, taker) => Encoded {
            bytes: [0x60, lender.0, taker.0, 0, 0, 0, 0, 0, 0, 0, 0],
            length: 3,
        },
    }
}

// Puts a record's bytes into a buffer from a place on and gives the place after them; where there is no room
// nothing is stored and the place stays.
pub fn write_record(r: Record, out: &mut [u8], at: usize) -> usize
    ensures { Placed out.old at (record_bytes r) out.new result }
{
    let e = encode(r);
    let bytes = e.bytes;
    let length = e.length;
    writing::put_bytes(out, at, &bytes[..length])
}
