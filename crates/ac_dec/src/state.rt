//! What a decoder keeps between two frames.
ghost use Rattle.std.specs.Prelude.{◌≡◌, ℕ, ◌+◌, ◌*◌, ◌^◌, ◌<◌, ◌≤◌, [], pos, slice_index_or, Err, IfOk, IfErr, IsOk};
ghost use Rattle.std.specs.Option.{ForSome};
ghost use Rattle.ac_base.specs.Shape.{full_of, count_of};
ghost use Rattle.ac_base.specs.Sigma.{Within};
ghost use Rattle.ac_reading.specs.Framed.{Reading};
ghost use Rattle.ac_record.specs.declared.codes.FrameFault.{FrameFault};
ghost use Rattle.ac_record.specs.Readings.{IsReading};
ghost use Rattle.ac_rows.specs.Filled.{HasSpans};
ghost use Rattle.ac_dec.specs.Decoding.{IsHeard, kind_of, Decodes, IsRefusal};
ghost use Rattle.ac_dec.specs.Heard.{block_at, channels_of, heard_of};
ghost use Rattle.ac_dec.specs.Inside.{IsAccepted, decoding_in};
ghost use Rattle.ac_dec.specs.Sound.{block_list, delay_at, sample_at};
ghost use Rattle.ac_dec.specs.Values.{AreReadable};

use crate::change::{first_change, kind};
use crate::kind::{Heard, Kind};
use crate::mantissas::values;
use crate::separating::separate;
use crate::sounding::sound;
use ac_base::{Coefs, code_words};
use ac_reading::read;
use ac_record::{FrameCodes, FrameFault};
use ac_rows::full_channels;
use ac_wav::Pcm;

/// What a decoder keeps, and the arrays that it works in.
#[derive(Clone, Copy)]
pub struct State {
    /// What is the same in all frames, once the first is accepted.
    pub first: Option<Kind>,
    /// What the last block of each channel left.
    pub delays: [[i64; 256]; 6],
    /// The reading of a frame.
    pub codes: FrameCodes,
    /// The coefficients of a frame.
    pub coefs: Coefs,
}

/// What is told of a frame.
fn heard(codes: &FrameCodes) -> Heard
    requires sampling { codes.now.head.fscod ≤ 2 }
    requires code { codes.now.head.frmsizecod ≤ 37 }
    ensures { IsHeard codes.now result }
{
    Heard {
        fscod: codes.head.fscod,
        acmod: codes.head.acmod,
        lfe: codes.head.lfeon,
        size: 2 * code_words(codes.head.fscod, codes.head.frmsizecod),
    }
}

/// The samples of a frame that was read, behind what stood before, into the front rows.
fn decode(codes: &FrameCodes, coefs: &mut Coefs, delays: &mut [[i64; 256]; 6], out: &mut Pcm)
    requires modes { codes.now.head.acmod ≤ 7 }
    requires spans { (b : ℕ) → b < 6 → HasSpans codes.now.head (block_at codes.now b) }
    requires readable { AreReadable codes.now }
    requires delays { (c : ℕ) → c < 6 → Within (2 ^ 55) 256 (slice_index_or delays.old c []) }
    ensures samples { (c b t : ℕ) → c < channels_of codes.now → b < 6 → t < 256
        → slice_index_or (slice_index_or out.new.s c []) (256 * b + t) (pos 0)
        ≡ sample_at (slice_index_or delays.old c []) (block_list (heard_of codes.now c)) b t }
    ensures delays { (c t : ℕ) → c < channels_of codes.now → t < 256
        → slice_index_or (slice_index_or delays.new c []) t (pos 0)
        ≡ delay_at (slice_index_or delays.old c []) (block_list (heard_of codes.now c)) 6 t }
    ensures bound { (c : ℕ) → c < 6 → Within (2 ^ 55) 256 (slice_index_or delays.new c []) }
    ensures rest { (c : ℕ) → channels_of codes.now ≤ c → slice_index_or out.new.s c [] ≡ slice_index_or out.old.s c [] }
{
    values(codes, coefs);
    let used = separate(codes, coefs);
    sound(
        coefs,
        usize::from(full_channels(codes.head.acmod)),
        codes.head.lfeon,
        &used,
        delays,
        &mut out.s,
    );
}

impl State {
    ghost use Rattle.ac_dec.specs.Inside.{IsState};

    /// Reads a frame, and tests whether it belongs to those before.
    fn accept(&mut self, bytes: &[u8]) -> Result<Kind, FrameFault>
        ensures value { IfOk result (λ kind. IsAccepted bytes.now self.old.first self.new.codes kind) }
        ensures complete { (g : Reading) → IsReading bytes.now g → ForSome self.old.first (λ k. k ≡ kind_of g) → IsOk result }
        ensures cause { IfErr result (λ fault. IsRefusal (decoding_in self.old) bytes.now fault) }
        ensures refused { (fault : FrameFault) → IsRefusal (decoding_in self.old) bytes.now fault → result ≡ Err fault }
        ensures same_first { self.new.first ≡ self.old.first }
        ensures same_delays { self.new.delays ≡ self.old.delays }
    {
        match read(bytes, &mut self.codes) {
            Ok(()) => {}
            Err(fault) => return Err(fault),
        }
        let kind = kind(&self.codes.head);
        match self.first {
            None => Ok(kind),
            Some(first) => match first_change(&first, &kind) {
                None => Ok(kind),
                Some(row) => Err(FrameFault::Changed(row)),
            },
        }
    }

    /// Decodes a frame.
    pub fn frame(&mut self, bytes: &[u8], out: &mut Pcm) -> Result<Heard, FrameFault>
        requires state { IsState self.old }
        ensures value { IfOk result (λ heard. (g : Reading)
            × Decodes bytes.now (decoding_in self.old) g heard out.new (decoding_in self.new)) }
        ensures bound { IfOk result (λ heard. (c : ℕ) → c < full_of heard.acmod + count_of heard.lfe
            → Within (2 ^ 23) 1536 (slice_index_or out.new.s c [])) }
        ensures rest { IfOk result (λ heard. (c : ℕ) → full_of heard.acmod + count_of heard.lfe ≤ c
            → slice_index_or out.new.s c [] ≡ slice_index_or out.old.s c []) }
        ensures complete { (g : Reading) → IsReading bytes.now g → ForSome self.old.first (λ k. k ≡ kind_of g) → IsOk result }
        ensures cause { IfErr result (λ fault. IsRefusal (decoding_in self.old) bytes.now fault) }
        ensures refused { (fault : FrameFault) → IsRefusal (decoding_in self.old) bytes.now fault → result ≡ Err fault }
        ensures kept { IfErr result (λ _. (decoding_in self.new ≡ decoding_in self.old) × (out.new ≡ out.old)) }
        ensures state { IsState self.new }
    {
        match self.accept(bytes) {
            Ok(kind) => {
                decode(&self.codes, &mut self.coefs, &mut self.delays, out);
                self.first = Some(kind);
                Ok(heard(&self.codes))
            }
            Err(fault) => Err(fault),
        }
    }
}
