// The lines of a listing: how many wires, qubits, pairs and trials there are, then each pair; and the line of what was compiled.
ghost use Rattle.std.specs.Prelude.{◌≤◌, length};
ghost use Rattle.writing.specs.Writing.{Placed};
ghost use Rattle.texts.specs.Listings.{counts_line, summary_line, compiled_line, pair_line, longest_word};

use crate::drafts::Draft;
use records::Wire;

// Room for the longest line of counts.
pub const LONGEST_COUNTS: usize = 110;

// Room for the longest line of a pair.
pub const LONGEST_PAIR: usize = 17;

// How many wires come in, how many qubits go out, and how many pairs there are.
#[derive(Clone, Copy)]
struct Counts {
    wires: usize,
    qubits: usize,
    pairs: usize,
}

// Puts a line of counts into a buffer as `put_bytes` puts bytes: the counts, and a number behind its word.
fn put_counts(out: &mut [u8], at: usize, counts: Counts, word: &[u8], last: usize) -> usize
    requires { length word.now ≤ longest_word }
    ensures { Placed out.old at (counts_line counts.wires counts.qubits counts.pairs word.now last) out.new result }
{
    let mut line = Draft::<LONGEST_COUNTS>::new();
    line.push(b"wires ");
    line.push_number(counts.wires);
    line.push(b" qubits ");
    line.push_number(counts.qubits);
    line.push(b" pairs ");
    line.push_number(counts.pairs);
    line.push(word);
    line.push_number(last);
    line.push(b"\n");
    line.put(out, at)
}

// Puts a listing's first line into a buffer as `put_bytes` puts bytes. Each pair saves a qubit.
pub fn put_summary(out: &mut [u8], at: usize, wires: usize, pairs: usize, trials: usize) -> usize
    ensures { Placed out.old at (summary_line wires pairs trials) out.new result }
{
    let counts = Counts {
        wires,
        qubits: wires.saturating_sub(pairs),
        pairs,
    };
    put_counts(out, at, counts, b" trials ", trials)
}

// Puts the line of what was compiled into a buffer as `put_bytes` puts bytes.
pub fn put_compiled(
    out: &mut [u8],
    at: usize,
    wires: usize,
    qubits: usize,
    pairs: usize,
    bytes: usize,
) -> usize
    ensures { Placed out.old at (compiled_line wires qubits pairs bytes) out.new result }
{
    let counts = Counts {
        wires,
        qubits,
        pairs,
    };
    put_counts(out, at, counts, b" bytes ", bytes)
}

// Puts the line of a pair into a buffer as `put_bytes` puts bytes.
pub fn put_pair(out: &mut [u8], at: usize, lender: Wire, taker: Wire) -> usize
    ensures { Placed out.old at (pair_line lender.0 taker.0) out.new result }
{
    let mut line = Draft::<LONGEST_PAIR>::new();
    line.push_number(lender.0 as usize);
    line.push(b" lends to ");
    line.push_number(taker.0 as usize);
    line.push(b"\n");
    line.put(out, at)
}
