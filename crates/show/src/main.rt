// Prints the records of a circuit or a pair list on standard input, one a line, as docs/SHOW.md says. The input may be of any
// length: it is read in pieces, and a record that is cut at a piece's end is kept for the next one.
#![tactic(auto)]

ghost use Rattle.std.specs.Prelude.{◌≤◌, length, IfOk, IfSome};

use inputs::Reason;
use std::fmt::{Display, Formatter, Write};
use std::io::Read;
use std::{fmt, io};

// How many bytes are held at a time.
const BUFFER: usize = 4096;

// Room for any line.
const LINE: usize = 96;

// Why no more is printed.
#[derive(Clone, Copy)]
enum Failure {
    Input(io::Error),
    Output(io::Error),
}

impl Display for Failure {
    fn fmt<W: Write>(&self, f: &mut Formatter<W>) -> fmt::Result {
        match self {
            Failure::Input(e) => write!(f, "standard input: {}", Reason(*e)),
            Failure::Output(e) => write!(f, "standard output: {}", Reason(*e)),
        }
    }
}

// A piece of the input: its bytes are the buffer's first `count`, and the first of them is at `place` of the input.
#[derive(Clone, Copy)]
struct Piece {
    buffer: [u8; BUFFER],
    count: usize,
    place: usize,
    ghost inside: { count ≤ length buffer },
}

impl Piece {
    // Before anything is read.
    fn empty() -> Piece {
        Piece {
            buffer: [0; BUFFER],
            count: 0,
            place: 0,
        }
    }

    // Reads once behind the bytes, and gives how many more there are.
    fn read<R: Read>(&mut self, reader: &mut R) -> io::Result<usize> {
        let more = reader.read(&mut self.buffer[self.count..])?;
        self.count += more;
        Ok(more)
    }

    // Prints what stands at a place of the piece. Gives false where nothing does, or a record that is cut where more may follow;
    // `last` says that no piece follows.
    fn print_at(&self, rt: &impl Print, at: usize, last: bool) -> io::Result<bool> {
        let mut line = [0u8; LINE];
        let bytes = &self.buffer[..self.count];
        let place = self.place.wrapping_add(at);
        let length = texts::put_at(&mut line, 0, bytes, at, place, last);
        if length == 0 {
            return Ok(false);
        }
        rt.write_all(&line[..length])?;
        Ok(true)
    }

    // Prints the records, and after them a refusal. Gives the place up to where they are printed, or nothing where no more is read.
    #[tactic(auto, using(crate::proofs::Places::place_inside))]
    fn print(&self, rt: &impl Print, last: bool) -> io::Result<Option<usize>>
        ensures { IfOk result (λ printed. IfSome printed (λ at. at ≤ self.now.count)) }
    {
        let mut at = 0;
        // A record has a byte at least, so there are not more of them than bytes.
        for _ in 0..self.count {
            if !self.print_at(rt, at, last)? {
                break;
            }
            let next = walk::place_after(&self.buffer[..self.count], at);
            if next == at {
                return Ok(None);
            }
            at = next;
        }
        Ok((!last).then_some(at))
    }

    // Keeps the bytes from a place on.
    fn keep(&mut self, from: usize)
        requires { from ≤ self.old.count }
    {
        self.buffer.copy_within(from..self.count, 0);
        self.count -= from;
        self.place = self.place.wrapping_add(from);
    }

    // Reads once more, prints, and keeps what is cut. Says whether to go on.
    fn show_more<R: Read>(&mut self, rt: &impl Print, reader: &mut R) -> Result<bool, Failure> {
        let more = self.read(reader).map_err(Failure::Input)?;
        let Some(at) = self.print(rt, more == 0).map_err(Failure::Output)? else {
            return Ok(false);
        };
        self.keep(at);
        Ok(true)
    }
}

// A proved loop has to end, and nothing says that an input does: the turns are counted, up to a number that no run reaches.
fn show<R: Read>(rt: &impl Print, reader: &mut R) -> Result<(), Failure> {
    let mut piece = Piece::empty();
    for _ in 0..u64::MAX {
        if !piece.show_more(rt, reader)? {
            break;
        }
    }
    Ok(())
}

fn main(rt: HostRuntime) {
    if let Err(failure) = show(&rt, &mut rt.stdin()) {
        let _ = eprintln!(rt; "{failure}");
    }
}
