// Bytes and numbers put into a lent buffer. One function stores; every writer of records and texts goes by it.
#![tactic(auto)]

ghost use Rattle.std.specs.Prelude.{◌+◌, ◌≤◌, length};
ghost use Rattle.writing.specs.Writing.{Placed, Wrote};
ghost use Rattle.writing.specs.Decimals.{decimal};

// Stores the bytes one after the other, where there is room for all of them. Not by `copy_from_slice`: that asks the linker for
// `memmove`, and the archive is promised to need `memcpy` and `memset` alone (`include/thaksipho.h`).
fn copy(out: &mut [u8], at: usize, bytes: &[u8]) -> usize
    requires { at + length bytes.now ≤ length out.old }
    ensures { Wrote out.old at bytes.now out.new result }
{
    let mut to = at;
    for byte in bytes {
        out[to] = *byte;
        to += 1;
    }
    to
}

// Puts bytes into a buffer from a place on and gives the place after them. Where there is not room for all of
// them nothing is stored and the place stays: `Placed` says it of this and of all that put by it, so none answers an `Option`.
#[tactic(auto, using(crate::proofs::Puts::no_room, crate::proofs::Puts::wrote_placed))]
pub fn put_bytes(out: &mut [u8], at: usize, bytes: &[u8]) -> usize
    ensures { Placed out.old at bytes.now out.new result }
{
    let count = bytes.len();
    if out.len() < count || out.len() - count < at {
        return at;
    }
    copy(out, at, bytes)
}

// The digits of the largest number.
const MOST_DIGITS: usize = 20;

// Puts a number in decimal into a buffer as `put_bytes` puts bytes. Its digits are found from the last one on. Not by `InlineText` of
// `std`, which was tried and did not prove: by its contract the text may be cut even where it fits.
#[tactic(auto, using(crate::proofs::Spelling::spelling_room))]
pub fn put_number(out: &mut [u8], at: usize, n: usize) -> usize
    ensures { Placed out.old at (decimal n) out.new result }
{
    let mut digits = [0u8; MOST_DIGITS];
    let mut from = MOST_DIGITS;
    let mut rest = n;
    while rest > 9 {
        from -= 1;
        digits[from] = b'0' + (rest % 10) as u8;
        rest /= 10;
    }
    from -= 1;
    digits[from] = b'0' + rest as u8;
    put_bytes(out, at, &digits[from..])
}
