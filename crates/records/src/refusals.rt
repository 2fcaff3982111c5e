// Refusals: document 01's table of what is refused, and the place that is told with it.
ghost use Rattle.std.specs.Prelude.{◌≡◌, Some};
ghost use Rattle.records.specs.Refusals.{number_of, refusal_at};

use std::fmt;

#[derive(Clone, Copy, PartialEq, Eq)]
pub enum Cause {
    NoStaticWidth = 1,
    CutBody = 2,
    WrongWidth = 3,
    NoInstruction = 4,
    TooManyInstructions = 5,
    LineOutside = 6,
    LineNamedTwice = 7,
    NotYetReset = 8,
    AlreadyReset = 9,
    AlreadyMeasured = 10,
    BitOutside = 11,
    BitAlreadyUsed = 12,
    NeverMeasured = 13,
    PairOutside = 20,
    LenderAlreadyLends = 21,
    TakerAlreadyTakes = 22,
    ClosesLoop = 23,
    NoPair = 24,
    CutPair = 25,
    WrongTableWidth = 27,
    NoRoom = 31,
}

impl Cause {
    // The number in document 01's table.
    pub fn number(self) -> u8
        ensures { result ≡ number_of self }
    {
        self as u8
    }

    // Refused at a place.
    pub fn at(self, place: usize) -> Refusal
        ensures { result ≡ refusal_at self place }
    {
        Refusal { cause: self, place }
    }
}

#[derive(Clone, Copy)]
pub struct Refusal {
    pub cause: Cause,
    pub place: usize,
}

impl fmt::Display for Refusal {
    ghost use Rattle.records.specs.RefusalTexts.{words_of};

    ghost output = { λ r. Some (words_of r) };

    fn fmt<W: fmt::Write>(&self, f: &mut fmt::Formatter<W>) -> fmt::Result {
        write!(f, "refused {} at {}", self.cause.number(), self.place)
    }
}
