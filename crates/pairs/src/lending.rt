// The pairs as the lender of each wire.
ghost use Rattle.std.specs.Prelude.{◌≡◌};
ghost use Rattle.pairs.specs.Lending.{nobody_lends, lender_of, takes, lent};

use circuits::Circuit;
use records::Wire;

#[derive(Clone, Copy)]
pub struct Lenders {
    // For each taker its lender; a number that is no wire's stands for nobody. No `Option`: `nobody_lends`, `lender_of` and `takes` are of
    // lists of numbers, and `Renames` and the theorems of `promises` are said by them.
    pub lenders: [u8; Circuit::MOST_WIRES],
}

impl Lenders {
    // No wire's number.
    pub const NOBODY: u8 = 255;

    // No pairs.
    pub fn none() -> Lenders
        ensures { result.lenders ≡ nobody_lends }
    {
        Lenders {
            lenders: [Lenders::NOBODY; Circuit::MOST_WIRES],
        }
    }

    // The lender of a wire; nobody past the last wire.
    pub fn lender_of(self, taker: Wire) -> Wire
        ensures { result.0 ≡ lender_of self.lenders taker.0 }
    {
        let lender = self.lenders.get(taker.0 as usize);
        Wire(lender.copied().unwrap_or(Lenders::NOBODY))
    }

    // Whether a wire takes from another of so many wires.
    pub fn takes(self, width: u8, wire: Wire) -> bool
        ensures { result ≡ takes self.lenders width wire.0 }
    {
        self.lender_of(wire).0 < width
    }

    // The lenders with one pair more.
    pub fn with_pair(self, lender: Wire, taker: Wire) -> Lenders
        ensures { result.lenders ≡ lent self.lenders lender.0 taker.0 }
    {
        let n = taker.0 as usize;
        if n < Circuit::MOST_WIRES {
            let mut more = self;
            more.lenders[n] = lender.0;
            return more;
        }
        self
    }
}
