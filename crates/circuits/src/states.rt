// What the lines and the bits of a circuit have been through, from its start up to some instruction. States are numbers, and two slices of
// them are lent: `judge`, `advance`, `take_step` and `close` answer slices of any length with any bytes, so an enum of three states or a
// struct of both lists would ask for more.
ghost use Rattle.std.specs.Prelude.{◌≡◌, get_or, set};
ghost use Rattle.circuits.specs.Judging.{fresh, fresh_states};

use crate::circuit::Circuit;

#[derive(Clone, Copy)]
pub struct States {
    // For each line: fresh, in use (reset and not measured), or done (measured).
    pub lines: [u8; Circuit::MOST_WIRES],
    // For each bit: 1 where a measurement has used it.
    pub bits: [u8; Circuit::MOST_WIRES],
}

impl States {
    pub const FRESH: u8 = 0;

    pub const IN_USE: u8 = 1;

    pub const DONE: u8 = 2;

    pub const USED: u8 = 1;

    pub fn fresh() -> States
        ensures { result ≡ fresh_states }
    {
        States {
            lines: [States::FRESH; Circuit::MOST_WIRES],
            bits: [0u8; Circuit::MOST_WIRES],
        }
    }
}

// The state of a line among the lines', or of a bit among the bits'; past the last it is 0, a fresh line's and an unused bit's.
pub(crate) fn state_at(states: &[u8], number: u8) -> u8
    ensures { result ≡ get_or states.now number fresh }
{
    states
        .get(number as usize)
        .copied()
        .unwrap_or(States::FRESH)
}

// Changes one state; past the last nothing.
pub(crate) fn set_state(states: &mut [u8], number: u8, state: u8)
    ensures { states.new ≡ set states.old number state }
{
    let n = number as usize;
    // By `get_mut` the proof did not close: what is stored through the element is not told of the slice.
    if n < states.len() {
        states[n] = state;
    }
}
