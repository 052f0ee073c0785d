//! A place in a text.
ghost use Rattle.std.specs.Prelude.{◌≡◌, ◌^◌, ◌<◌, ◌≤◌, IfOk};
ghost use Rattle.std.specs.Fmt.{decimal};
ghost use Rattle.ac_cert_text.specs.Codec.{Gives, begins, word_read, word, number, flag};

use crate::fault::Fault;
use crate::number::number_of;
use itoa::Buffer;

/// The bytes that are still to be read.
#[derive(Clone, Copy)]
pub struct Cursor<'a> {
    pub rest: &'a [u8],
}

impl<'a> Cursor<'a> {
    /// Whether the next byte is this one.
    pub fn begins(&self, byte: u8) -> bool
        ensures { result ≡ begins byte self.now.rest.now }
    {
        match self.rest.split_first() {
            Some((first, _)) => *first == byte,
            None => false,
        }
    }

    /// Reads these bytes.
    pub fn word(&mut self, bytes: &[u8]) -> Result<(), Fault>
        ensures { Gives result self.new.rest.now (word_read bytes.now self.old.rest.now) }
    {
        match self.rest.strip_prefix(bytes) {
            Some(rest) => {
                self.rest = rest;
                Ok(())
            }
            None => Err(Fault::Bad),
        }
    }

    /// Reads this number, which the place demands.
    pub fn place(&mut self, n: u32) -> Result<(), Fault>
        ensures { Gives result self.new.rest.now (word_read (decimal n) self.old.rest.now) }
    {
        let mut buffer = Buffer::new();
        self.word(buffer.format(n).as_bytes())
    }

    /// Reads a number below a limit, and the byte behind it.
    #[tactic(auto, unfolding(crate::specs::Codec::number))]
    pub fn number(&mut self, limit: u64, end: u8) -> Result<u64, Fault>
        requires { limit ≤ 2 ^ 32 }
        ensures value { Gives result self.new.rest.now ((number limit end).read self.old.rest.now) }
        ensures bound { IfOk result (λ n. n < limit) }
    {
        match number_of(self.rest, limit, end) {
            Some((n, rest)) => {
                self.rest = rest;
                Ok(n)
            }
            None => Err(Fault::Bad),
        }
    }

    /// Reads a number of 8 bits.
    pub fn small(&mut self, end: u8) -> Result<u8, Fault>
        ensures { Gives result self.new.rest.now ((number 256 end).read self.old.rest.now) }
    {
        let n = self.number(256, end)?;
        Ok(n as u8)
    }

    /// Reads a number of 16 bits.
    pub fn medium(&mut self, end: u8) -> Result<u16, Fault>
        ensures { Gives result self.new.rest.now ((number 65536 end).read self.old.rest.now) }
    {
        let n = self.number(65536, end)?;
        Ok(n as u16)
    }

    /// Reads a number of 32 bits.
    pub fn large(&mut self, end: u8) -> Result<u32, Fault>
        ensures { Gives result self.new.rest.now ((number (2 ^ 32) end).read self.old.rest.now) }
    {
        let n = self.number(1 << 32, end)?;
        Ok(n as u32)
    }

    /// Reads 0 or 1.
    #[tactic(auto, unfolding(crate::specs::Codec::flag))]
    pub fn flag(&mut self, end: u8) -> Result<bool, Fault>
        ensures { Gives result self.new.rest.now ((flag end).read self.old.rest.now) }
    {
        let n = self.number(2, end)?;
        Ok(n == 1)
    }
}
