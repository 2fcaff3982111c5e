// The renaming by chain: the only way from wire to qubit. The counts are lent beside the lenders that they are counted from, so that they
// are counted once.
ghost use Rattle.std.specs.Prelude.{◌≡◌, ℕ, ◌<◌, None, get_or};
ghost use Rattle.bits.specs.Bits.{each};
ghost use Rattle.circuits.specs.Limits.{most_wires};
ghost use Rattle.writer.specs.Chains.{firsts_below, qubit_of, Tells};
ghost use Rattle.writer.specs.Outputs.{Renames};

use crate::chaining::{all_firsts_below, first_of, firsts_below};
use circuits::Circuit;
use pairs::Lenders;
use records::{Qubit, Wire};

// The qubit of a wire by those of the lower wires, where its lender is one of them and that one's is known.
fn tell(
    counts: &[u8; Circuit::MOST_WIRES],
    told: &[Option<Qubit>; Circuit::MOST_WIRES],
    lenders: Lenders,
    width: u8,
    wire: Wire,
) -> Option<Qubit>
    requires wire_lt_most_wires { wire.0 < most_wires }
    requires counts_value { counts.now ≡ each most_wires (firsts_below lenders.lenders width) }
    requires by_index { (x : ℕ) → x < wire.0 → Tells lenders.lenders width x (get_or told.now x None) }
    ensures { Tells lenders.lenders width wire.0 result }
{
    if lenders.takes(width, wire) {
        let lender = lenders.lender_of(wire);
        if lender.0 < wire.0 {
            told[lender.0 as usize]
        } else {
            None
        }
    } else {
        Some(Qubit(counts[wire.0 as usize]))
    }
}

// The qubits of the wires whose way to the first wire leads down, in one pass: most pairs lend to a higher wire.
fn tell_all(
    counts: &[u8; Circuit::MOST_WIRES],
    lenders: Lenders,
    width: u8,
) -> [Option<Qubit>; Circuit::MOST_WIRES]
    requires { counts.now ≡ each most_wires (firsts_below lenders.lenders width) }
    ensures { (x : ℕ) → x < most_wires → Tells lenders.lenders width x (get_or result x None) }
{
    let mut told = [None; Circuit::MOST_WIRES];
    for x in 0..Circuit::MOST_WIRES {
        let qubit = tell(counts, &told, lenders, width, Wire(x as u8));
        told[x] = qubit;
    }
    told
}

// The qubit of a wire: the number of its chain, as it was told, or by the way to its first wire.
#[tactic(auto, using(crate::proofs::Chains::count_at), unfolding(crate::specs::Chains::qubit_of))]
fn qubit_of(
    told: Option<Qubit>,
    counts: &[u8; Circuit::MOST_WIRES],
    lenders: Lenders,
    width: u8,
    wire: Wire,
) -> Qubit
    requires tells { Tells lenders.lenders width wire.0 told }
    requires counts_value { counts.now ≡ each most_wires (firsts_below lenders.lenders width) }
    ensures { result.0 ≡ qubit_of lenders.lenders width wire.0 }
{
    if let Some(qubit) = told {
        return qubit;
    }
    let first = first_of(lenders, width, wire);
    let at = first.0 as usize;
    if at < Circuit::MOST_WIRES {
        return Qubit(counts[at]);
    }
    Qubit(firsts_below(lenders, width, first))
}

#[derive(Clone, Copy)]
pub struct Renaming {
    // For each wire the number of its qubit: `Renames`, in the clause of `by_chain`, says the numbers.
    pub qubits: [u8; Circuit::MOST_WIRES],
}

impl Renaming {
    // The renaming by chain.
    #[tactic(auto, using(bits::proofs::Lists::each_eq))]
    pub fn by_chain(lenders: Lenders, width: u8) -> Renaming
        ensures { Renames lenders.lenders width result.qubits }
    {
        let counts = all_firsts_below(lenders, width);
        let told = tell_all(&counts, lenders, width);
        let mut qubits = [0; Circuit::MOST_WIRES];
        for x in 0..Circuit::MOST_WIRES {
            qubits[x] = qubit_of(told[x], &counts, lenders, width, Wire(x as u8)).0;
        }
        Renaming { qubits }
    }

    // The qubit of a wire.
    pub(crate) fn qubit(self, wire: Wire) -> Qubit
        requires { wire.0 < most_wires }
        ensures { result.0 ≡ get_or self.qubits wire.0 0 }
    {
        Qubit(self.qubits[wire.0 as usize])
    }
}
