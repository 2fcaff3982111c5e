// What is told of a valid circuit, and the limits.
use records::Encoded;

// How many wires, and how many instructions.
#[derive(Clone, Copy)]
pub struct Circuit {
    pub width: u8,
    pub instructions: usize,
}

impl Circuit {
    pub const MOST_WIRES: usize = 32;

    pub const MOST_INSTRUCTIONS: usize = 2048;

    // The bytes of the width record, after which the instructions begin.
    pub const HEADER: usize = 2;

    // So many first bytes decide a reading: the header, the most and the longest instructions, and one byte more.
    pub const DECIDING: usize = Circuit::HEADER + Circuit::MOST_INSTRUCTIONS * Encoded::MOST + 1;
}
