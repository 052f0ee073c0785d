//! The fields of a `fmt ` chunk, and the tests that they must pass.
ghost use Rattle.std.specs.Prelude.{◌≡◌, ◌≤◌, ◌<◌, ◌+◌, Option, Some, None, IfSome, true};
ghost use Rattle.ac_riff.specs.Format.{number_at, fields_of, IsOfField, is_extensible, common_tests, extension_tests, first_failing, fault_of, layout_of};

use crate::fault::{Field, WavKind};
use crate::layout;
use byteorder::{ByteOrder, LittleEndian};

/// The fields of a `fmt ` chunk. Those past its end are 0.
#[derive(Clone, Copy, Debug, PartialEq, Eq)]
pub struct Format {
    /// The number of the chunk's bytes.
    pub size: u32,
    pub tag: u16,
    pub channels: u16,
    pub rate: u32,
    pub align: u16,
    pub bits: u16,
    pub extra: u16,
    pub mask: u32,
    pub subformat: u128,
}

/// Why a `fmt ` chunk is refused, and how far behind its first byte.
#[derive(Clone, Copy, Debug, PartialEq, Eq)]
pub struct Fault {
    pub kind: WavKind,
    pub place: u64,
}

/// The subformat of PCM.
const PCM: u128 = 0x719B3800_AA000080_00100000_00000001;

/// The number in the two bytes from this place on.
fn short_at(body: &[u8; 40], place: usize) -> u16
    requires { place ≤ 38 }
    ensures { result ≡ number_at place 2 body.now }
{
    LittleEndian::read_u16(&body[place..])
}

/// The number in the four bytes from this place on.
fn long_at(body: &[u8; 40], place: usize) -> u32
    requires { place ≤ 36 }
    ensures { result ≡ number_at place 4 body.now }
{
    LittleEndian::read_u32(&body[place..])
}

/// The number in the last 16 bytes.
fn last_of(body: &[u8; 40]) -> u128
    ensures { result ≡ number_at 24 16 body.now }
{
    LittleEndian::read_u128(&body[24..])
}

fn bad(field: Field, place: u64) -> Option<Fault>
    ensures { result ≡ Some (record { kind = WavKind.BadFmt field; place = place }) }
{
    Some(Fault {
        kind: WavKind::BadFmt(field),
        place,
    })
}

fn unsupported(field: Field, value: u32, place: u64) -> Option<Fault>
    ensures { result ≡ Some (record { kind = WavKind.Unsupported field value; place = place }) }
{
    Some(Fault {
        kind: WavKind::Unsupported(field, value),
        place,
    })
}

impl Format {
    /// The fields of a chunk of this size, whose first bytes stand in `body`.
    pub fn read(size: u32, body: &[u8; 40]) -> Format
        ensures { result ≡ fields_of size body.now }
    {
        Format {
            size,
            tag: short_at(body, 0),
            channels: short_at(body, 2),
            rate: long_at(body, 4),
            align: short_at(body, 12),
            bits: short_at(body, 14),
            extra: short_at(body, 16),
            mask: long_at(body, 20),
            subformat: last_of(body),
        }
    }

    /// Whether the chunk has the extensible form.
    fn is_extensible(&self) -> bool
        ensures { result ≡ is_extensible self.now }
    {
        self.tag == 0xFFFE
    }

    /// The first test of every format that this one fails.
    fn common_fault(&self) -> Option<Fault>
        ensures value { result ≡ first_failing (common_tests self.now) }
        ensures kind { IfSome result (λ fault. IsOfField fault.kind) }
        ensures near { IfSome result (λ fault. fault.place ≤ 8 + self.now.size) }
        ensures long { result ≡ None → is_extensible self.now ≡ true → 40 ≤ self.now.size }
    {
        if self.size < 16 {
            return bad(Field::Size, 4);
        }
        if self.tag != 1 && !self.is_extensible() {
            return unsupported(Field::Tag, u32::from(self.tag), 8);
        }
        if self.is_extensible() && self.size < 40 {
            return bad(Field::Size, 4);
        }
        if self.channels < 1 || self.channels > 6 {
            return unsupported(Field::Channels, u32::from(self.channels), 10);
        }
        if self.rate != 48000 && self.rate != 44100 && self.rate != 32000 {
            return unsupported(Field::Rate, self.rate, 12);
        }
        if self.bits != 16 && self.bits != 24 {
            return unsupported(Field::Bits, u32::from(self.bits), 22);
        }
        if self.align != self.channels * (self.bits / 8) {
            return bad(Field::Align, 20);
        }
        None
    }

    /// The first test of the extension that this one fails.
    fn extension_fault(&self) -> Option<Fault>
        requires { 40 ≤ self.now.size }
        ensures value { result ≡ first_failing (extension_tests self.now) }
        ensures kind { IfSome result (λ fault. IsOfField fault.kind) }
        ensures near { IfSome result (λ fault. fault.place ≤ 8 + self.now.size) }
    {
        if self.extra < 22 {
            return bad(Field::Extra, 24);
        }
        let acmod = layout::acmod(self.mask);
        if self.mask != 0 && acmod == 0 {
            return unsupported(Field::Mask, self.mask, 28);
        }
        let named = layout::channels(acmod, layout::names_lfe(self.mask));
        if self.mask != 0 && u16::from(named) != self.channels {
            return bad(Field::Mask, 28);
        }
        if self.subformat != PCM {
            return unsupported(Field::Subformat, (self.subformat % (1 << 32)) as u32, 32);
        }
        None
    }

    /// The first test that this format fails.
    pub fn fault(&self) -> Option<Fault>
        ensures value { result ≡ fault_of self.now }
        ensures kind { IfSome result (λ fault. IsOfField fault.kind) }
        ensures near { IfSome result (λ fault. fault.place ≤ 8 + self.now.size) }
    {
        if let Some(fault) = self.common_fault() {
            return Some(fault);
        }
        if self.is_extensible() {
            self.extension_fault()
        } else {
            None
        }
    }

    /// The mask that the channels have.
    pub fn layout(&self) -> u32
        requires { self.now.channels ≤ 6 }
        ensures { result ≡ layout_of self.now }
    {
        if self.is_extensible() && self.mask != 0 {
            self.mask
        } else {
            layout::usual_mask(self.channels)
        }
    }
}
