// Why a file or a pipe could not be read or written, in the system's words.
ghost use Rattle.std.specs.Io.{StartsWith};

use arrayvec::ArrayString;
use std::fmt::{Display, Formatter, Write};
use std::{fmt, io};

// Room for any words of the system, and the number that follows them.
const ROOM: usize = 320;

// What stands before the number.
const NUMBER: &str = " (os error ";

// An error as its words alone: `Is a directory`, and not `Is a directory (os error 21)`.
#[derive(Clone, Copy)]
pub struct Reason(pub io::Error);

impl Display for Reason {
    fn fmt<W: Write>(&self, f: &mut Formatter<W>) -> fmt::Result {
        let mut text: ArrayString<ROOM> = ArrayString::new();
        write!(text, "{}", self.0)?;
        f.write_str(without_number(text.as_str()))
    }
}

// The words before the number, where there is one.
fn without_number(text: &str) -> &str
    ensures { StartsWith text.now result.now }
{
    text.rsplit_once(NUMBER).map_or(text, |(words, _)| words)
}
