//! A pen: a text goes to a sink in pieces.
ghost use Rattle.std.specs.Prelude.{◌≡◌, ◌<◌, ◌++◌, ◌∷◌, [], false, length};
ghost use Rattle.std.specs.Fmt.{decimal};
ghost use Rattle.ac_cert_text.specs.Text.{end_at};
ghost use Rattle.ac_cert_print.specs.Pages.{page, Wrote};

use ac_io::Sink;
use arrayvec::ArrayVec;
use itoa::Buffer;

/// The byte behind item i of n: a line feed behind the last, and else a space.
pub fn end_at(n: usize, i: usize) -> u8
    requires { i < n }
    ensures { result ≡ end_at n i }
{
    if i + 1 == n { b'\n' } else { b' ' }
}

/// The bytes that are still to be written, and whether a write failed: from then on nothing is written.
#[derive(Drop)]
pub struct Pen {
    pub buffer: ArrayVec<u8, 512>,
    pub failed: bool,
}

impl Pen {
    /// Nothing is to be written, and no write failed.
    pub fn new() -> Pen
        ensures kept { result.buffer.items ≡ [] }
        ensures well { result.failed ≡ false }
    {
        Pen {
            buffer: ArrayVec::new(),
            failed: false,
        }
    }

    /// Writes what is kept.
    pub fn flush<O: Sink>(&mut self, out: &mut O)
        ensures wrote { Wrote [] (page O.held O.faults self.old out.old) (page O.held O.faults self.new out.new) }
        ensures none { self.new.failed ≡ false → self.new.buffer.items ≡ [] }
    {
        if self.failed {
            return;
        }
        match out.write(self.buffer.as_slice()) {
            Ok(()) => self.buffer.clear(),
            Err(_) => self.failed = true,
        }
    }

    /// Makes room for a byte.
    fn room<O: Sink>(&mut self, out: &mut O)
        ensures wrote { Wrote [] (page O.held O.faults self.old out.old) (page O.held O.faults self.new out.new) }
        ensures room { self.new.failed ≡ false → length self.new.buffer.items < 512 }
    {
        if self.buffer.is_full() {
            self.flush(out);
        }
    }

    /// Writes a byte.
    pub fn put<O: Sink>(&mut self, out: &mut O, byte: u8)
        ensures { Wrote (byte ∷ []) (page O.held O.faults self.old out.old) (page O.held O.faults self.new out.new) }
    {
        self.room(out);
        if self.failed {
            return;
        }
        self.buffer.push(byte);
    }

    /// Writes these bytes.
    pub fn word<O: Sink>(&mut self, out: &mut O, bytes: &[u8])
        ensures { Wrote bytes.now (page O.held O.faults self.old out.old) (page O.held O.faults self.new out.new) }
    {
        for byte in bytes {
            self.put(out, *byte);
        }
    }

    /// Writes a number in decimal digits.
    pub fn digits<O: Sink>(&mut self, out: &mut O, n: u64)
        ensures { Wrote (decimal n) (page O.held O.faults self.old out.old) (page O.held O.faults self.new out.new) }
    {
        let mut buffer = Buffer::new();
        self.word(out, buffer.format(n).as_bytes());
    }

    /// Writes a number in decimal digits, and the byte behind it.
    fn number<O: Sink>(&mut self, out: &mut O, n: u64, end: u8)
        ensures { Wrote (decimal n ++ end ∷ []) (page O.held O.faults self.old out.old) (page O.held O.faults self.new out.new) }
    {
        self.digits(out, n);
        self.put(out, end);
    }

    /// Writes a number of 8 bits in decimal digits.
    pub fn place<O: Sink>(&mut self, out: &mut O, n: u8)
        ensures { Wrote (decimal n) (page O.held O.faults self.old out.old) (page O.held O.faults self.new out.new) }
    {
        self.digits(out, u64::from(n));
    }

    /// Writes a number of 8 bits, and the byte behind it.
    pub fn small<O: Sink>(&mut self, out: &mut O, n: u8, end: u8)
        ensures { Wrote (decimal n ++ end ∷ []) (page O.held O.faults self.old out.old) (page O.held O.faults self.new out.new) }
    {
        self.number(out, u64::from(n), end);
    }

    /// Writes a number of 16 bits, and the byte behind it.
    pub fn medium<O: Sink>(&mut self, out: &mut O, n: u16, end: u8)
        ensures { Wrote (decimal n ++ end ∷ []) (page O.held O.faults self.old out.old) (page O.held O.faults self.new out.new) }
    {
        self.number(out, u64::from(n), end);
    }

    /// Writes a number of 32 bits, and the byte behind it.
    pub fn large<O: Sink>(&mut self, out: &mut O, n: u32, end: u8)
        ensures { Wrote (decimal n ++ end ∷ []) (page O.held O.faults self.old out.old) (page O.held O.faults self.new out.new) }
    {
        self.number(out, u64::from(n), end);
    }
}
