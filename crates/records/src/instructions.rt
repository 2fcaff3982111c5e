// Instructions and the other records, with their operands. A gate carries its kind byte: its form has sixteen, and `encode` and
// `write_record` answer any byte, so a type of their names would ask for more.
use crate::numbers::{Angle, Bit, Line, Wire};

#[derive(Clone, Copy)]
pub enum Instruction {
    Reset(Line),
    Measurement(Line, Bit),
    Gate(u8, Line),
    AngledGate(u8, Line, Angle),
    TwoLineGate(u8, Line, Line),
    AngledTwoLineGate(u8, Line, Line, Angle),
}

#[derive(Clone, Copy)]
pub enum Record {
    // How many wires.
    StaticWidth(u8),
    // How many qubits, and how many bits.
    DynamicWidth(u8, u8),
    Step(Instruction),
    // The lender, then the taker.
    Reuse(Wire, Wire),
}
