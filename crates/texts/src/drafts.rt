// A line that is put together before it is put into a buffer as a whole.
ghost use Rattle.std.specs.Prelude.{◌≡◌};
ghost use Rattle.writing.specs.Writing.{Placed};
ghost use Rattle.writing.specs.Decimals.{decimal};
ghost use Rattle.texts.specs.Drafts.{blank, drafted};

// The bytes so far, in room for so many.
#[derive(Clone, Copy)]
pub(crate) struct Draft<const ROOM: usize> {
    pub(crate) bytes: [u8; ROOM],
    pub(crate) length: usize,
}

impl<const ROOM: usize> Draft<ROOM> {
    pub(crate) fn new() -> Draft<ROOM>
        ensures { result ≡ blank ROOM }
    {
        Draft {
            bytes: [0; ROOM],
            length: 0,
        }
    }

    // Adds bytes where there is room for them.
    pub(crate) fn push(&mut self, bytes: &[u8])
        ensures { Placed self.old.bytes self.old.length bytes.now self.new.bytes self.new.length }
    {
        self.length = writing::put_bytes(&mut self.bytes, self.length, bytes);
    }

    // Adds a number in decimal where there is room for it.
    pub(crate) fn push_number(&mut self, n: usize)
        ensures { Placed self.old.bytes self.old.length (decimal n) self.new.bytes self.new.length }
    {
        self.length = writing::put_number(&mut self.bytes, self.length, n);
    }

    // Puts all of them into a buffer as `put_bytes` puts bytes. A length past the end says no more bytes.
    pub(crate) fn put(&self, out: &mut [u8], at: usize) -> usize
        ensures { Placed out.old at (drafted self.now) out.new result }
    {
        let length = self.length.min(ROOM);
        writing::put_bytes(out, at, &self.bytes[..length])
    }
}
