// Chains: the first wire of a wire's chain, how many chains begin below a wire or below each, and how many there are.
ghost use Rattle.std.specs.Prelude.{◌≡◌, ◌≤◌};
ghost use Rattle.bits.specs.Bits.{each};
ghost use Rattle.circuits.specs.Limits.{most_wires};
ghost use Rattle.writer.specs.Chains.{first_of, begins, firsts_below, qubits};

use circuits::Circuit;
use pairs::Lenders;
use records::Wire;

// The first wire of a wire's chain.
#[tactic(auto, unfolding(crate::specs::Chains::first_from))]
pub fn first_of(lenders: Lenders, width: u8, wire: Wire) -> Wire
    ensures { result.0 ≡ first_of lenders.lenders width wire.0 }
{
    let mut first = wire;
    for _turn in 0..width {
        if !lenders.takes(width, first) {
            return first;
        }
        first = lenders.lender_of(first);
    }
    first
}

// 1 where a chain begins at a wire, else 0.
fn begins(lenders: Lenders, width: u8, wire: Wire) -> u8
    ensures value { result ≡ begins lenders.lenders width wire.0 }
    ensures few { result ≤ 1 }
{
    if lenders.takes(width, wire) { 0 } else { 1 }
}

// How many first wires are lower than a wire. It is asked of the width too, which `all_firsts_below` has no entry for.
#[tactic(auto, unfolding(crate::specs::Chains::firsts_below))]
pub fn firsts_below(lenders: Lenders, width: u8, wire: Wire) -> u8
    ensures { result ≡ firsts_below lenders.lenders width wire.0 }
{
    let mut count: u8 = 0;
    for x in 0..wire.0 {
        count += begins(lenders, width, Wire(x));
    }
    count
}

// How many first wires are lower than each wire, in one pass.
#[tactic(auto, using(bits::proofs::Lists::each_eq), unfolding(crate::specs::Chains::firsts_below))]
pub fn all_firsts_below(lenders: Lenders, width: u8) -> [u8; Circuit::MOST_WIRES]
    ensures { result ≡ each most_wires (firsts_below lenders.lenders width) }
{
    let mut counts = [0; Circuit::MOST_WIRES];
    let mut count: u8 = 0;
    for x in 0..Circuit::MOST_WIRES {
        counts[x] = count;
        count += begins(lenders, width, Wire(x as u8));
    }
    counts
}

// How many qubits there are: one for each chain.
pub fn qubits_for(lenders: Lenders, width: u8) -> u8
    ensures { result ≡ qubits lenders.lenders width }
{
    firsts_below(lenders, width, Wire(width))
}
