// The heads, and what they move to.
ghost use Rattle.std.specs.Prelude.{◌≡◌, length};
ghost use Rattle.circuits.specs.Limits.{most_wires};

use circuits::Circuit;

// The index of the next instruction on each wire of one; the number of instructions where there is none.
#[derive(Clone, Copy)]
pub(crate) struct After {
    pub first: u16,
    pub second: u16,
}

#[derive(Clone, Copy)]
pub(crate) struct Heads {
    // For each wire the index of its first instruction that is not yet written; the number of instructions where all are.
    pub indices: [u16; Circuit::MOST_WIRES],
    // For each wire that index where it may be written, else the number of instructions: no `Option`, so that the next one is the least
    // of numbers.
    pub candidates: [u16; Circuit::MOST_WIRES],
    ghost sized: { length indices ≡ most_wires },
    ghost sized_candidates: { length candidates ≡ most_wires },
}

impl After {
    // The same for both wires.
    pub(crate) fn both(index: u16) -> After
        ensures { (result.first ≡ index) × (result.second ≡ index) }
    {
        After {
            first: index,
            second: index,
        }
    }
}
