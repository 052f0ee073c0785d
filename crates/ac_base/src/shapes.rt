//! The shape of a frame: its rate of sampling, channels, bandwidth, coupling and size.
ghost use Rattle.std.specs.Prelude.{◌≡◌, ◌<◌, ◌≤◌, ◌+◌, ◌↔◌, Option, Some, None, IsSome, IfSome};
ghost use Rattle.ac_base.specs.Allocation.{bins};
ghost use Rattle.ac_base.specs.Sizes.{least_words, most_words};
ghost use Rattle.ac_base.specs.Shape.{IsShape, IsCoupling, full_of, coded_of, span_of, IsSpan};

use crate::sizes::{LEAST_WORDS, MOST_WORDS};
use crate::spans::{Span, coupled_span, coupling_span, free_span, low_span};

/// The full-bandwidth channels by acmod (A/52 Table 5.8).
static FULL: [u8; 8] = [2, 1, 2, 3, 3, 4, 4, 5];

fn full_channels(acmod: u8) -> u8
    requires { acmod ≤ 7 }
    ensures { result ≡ full_of acmod }
{
    FULL[usize::from(acmod)]
}

/// What is the same in all blocks of a frame.
#[derive(Clone, Copy, Debug, PartialEq, Eq)]
pub struct Shape {
    /// The rate of sampling: 0 for 48, 1 for 44.1, 2 for 32 kHz (A/52 5.4.1.3).
    pub fscod: u8,
    /// The full-bandwidth channels, from 1 to 7 (A/52 5.4.2.3).
    pub acmod: u8,
    /// Whether there is a low-frequency channel (A/52 5.4.2.7).
    pub lfe: bool,
    /// chbwcod of each channel that isn't coupled, at most 60 (A/52 5.4.3.24).
    pub bw: u8,
    /// cplbegf and cplendf, where all full-bandwidth channels are coupled (A/52 5.4.3.11, 5.4.3.12).
    pub couple: Option<(u8, u8)>,
    /// The size of the frame in words of 16 bits, from 64 to 1920.
    pub words: u16,
    pub ghost sampling: { fscod ≤ 2 },
    pub ghost some_channel: { 1 ≤ acmod },
    pub ghost channels: { acmod ≤ 7 },
    pub ghost bandwidth: { bw ≤ 60 },
    pub ghost coupling: { IsCoupling acmod couple },
    pub ghost least_size: { least_words ≤ words },
    pub ghost most_size: { words ≤ most_words },
}

impl Shape {
    /// The shape of these fields, or None exactly where one of them is out of its range, or the
    /// coupling has one channel alone or no subband.
    pub fn new(
        fscod: u8,
        acmod: u8,
        lfe: bool,
        bw: u8,
        couple: Option<(u8, u8)>,
        words: u16,
    ) -> Option<Shape>
        ensures cause { IsSome result ↔ IsShape fscod acmod bw couple words }
        ensures sampling { IfSome result (λ s. s.fscod ≡ fscod) }
        ensures channels { IfSome result (λ s. s.acmod ≡ acmod) }
        ensures low { IfSome result (λ s. s.lfe ≡ lfe) }
        ensures bandwidth { IfSome result (λ s. s.bw ≡ bw) }
        ensures coupling { IfSome result (λ s. s.couple ≡ couple) }
        ensures size { IfSome result (λ s. s.words ≡ words) }
    {
        if fscod > 2
            || acmod < 1
            || acmod > 7
            || bw > 60
            || words < LEAST_WORDS
            || words > MOST_WORDS
        {
            return None;
        }
        if let Some((begin, end)) = couple
            && (acmod < 2 || begin > 15 || end > 15 || begin > end + 2)
        {
            return None;
        }
        Some(Shape {
            fscod,
            acmod,
            lfe,
            bw,
            couple,
            words,
        })
    }

    /// The number of full-bandwidth channels.
    pub fn full(&self) -> u8
        ensures value { result ≡ full_of self.now.acmod }
        ensures least { 1 ≤ result }
        ensures most { result ≤ 5 }
    {
        full_channels(self.acmod)
    }

    /// The number of coded channels: the full-bandwidth channels in coding order, then the
    /// coupling channel if there is one, then LFE if there is one.
    pub fn coded(&self) -> u8
        ensures value { result ≡ coded_of self.now.acmod self.now.lfe self.now.couple }
        ensures bound { result ≤ 7 }
    {
        self.full() + u8::from(self.couple.is_some()) + u8::from(self.lfe)
    }

    /// The bins of coded channel c.
    pub fn span(&self, c: u8) -> Span
        requires { c < coded_of self.now.acmod self.now.lfe self.now.couple }
        ensures value { result ≡ span_of self.now.acmod self.now.bw self.now.couple c }
        ensures coded { IsSpan result }
        ensures some { result.start < result.end }
        ensures bound { result.end ≤ bins }
    {
        let full = self.full();
        match self.couple {
            None if c < full => free_span(self.bw),
            Some((begin, _)) if c < full => coupled_span(begin),
            Some((begin, end)) if c == full => coupling_span(begin, end),
            _ => low_span(),
        }
    }
}

#[cfg(test)]
mod tests;
