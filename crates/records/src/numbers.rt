// The numberings of document 01, each a type of its own, so that a number of one is never read as a number of another.

// A line of the circuit in which a record stands; the circuit's header says whether that is a wire or a qubit.
#[derive(Clone, Copy, PartialEq, Eq)]
pub struct Line(pub u8);

// A line of the static circuit.
#[derive(Clone, Copy, PartialEq, Eq)]
pub struct Wire(pub u8);

// A line of the dynamic circuit.
#[derive(Clone, Copy)]
pub struct Qubit(pub u8);

// What receives one measurement.
#[derive(Clone, Copy)]
pub struct Bit(pub u8);

// The eight bytes of an angle, in the order in which they stand. Nothing here reads them. No array: in a definition that is a list of
// any length, and `round_trip` is of every instruction.
#[derive(Clone, Copy)]
pub struct Angle(
    pub u8,
    pub u8,
    pub u8,
    pub u8,
    pub u8,
    pub u8,
    pub u8,
    pub u8,
);
