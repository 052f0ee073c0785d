//! The bins of a coded channel, and the bands of a coupling and of rematrixing.
ghost use Rattle.std.specs.Prelude.{◌≡◌, ◌≤◌, ◌+◌, Some};
ghost use Rattle.ac_base.specs.Shape.{free_span, coupled_span, coupling_span, low_span, subbands, rematrix_bands, IsSpan};

/// What a coded channel is.
#[derive(Clone, Copy, Debug, PartialEq, Eq)]
pub enum Lead {
    /// A full-bandwidth channel that isn't coupled.
    Free,
    /// A full-bandwidth channel whose bins end at the coupling start.
    Coupled,
    /// The coupling channel.
    Coupling,
    /// The low-frequency channel (LFE).
    Low,
}

/// The bins of a coded channel: from `start` up to but not `end` (A/52 7.1.3).
#[derive(Clone, Copy, Debug, PartialEq, Eq)]
pub struct Span {
    /// The first bin.
    pub start: u8,
    /// The bin behind the last.
    pub end: u8,
    /// What the channel is.
    pub lead: Lead,
}

/// The bins of a full-bandwidth channel that isn't coupled, by chbwcod, at most 60 (A/52 5.4.3.24, 7.1.3).
pub fn free_span(chbwcod: u8) -> Span
    requires { chbwcod ≤ 60 }
    ensures value { result ≡ free_span chbwcod }
    ensures coded { IsSpan result }
{
    Span {
        start: 0,
        end: 37 + 3 * (chbwcod + 12),
        lead: Lead::Free,
    }
}

/// The bins of a coupled channel, by cplbegf, at most 15 (A/52 5.4.3.11, 7.1.3).
pub fn coupled_span(cplbegf: u8) -> Span
    requires { cplbegf ≤ 15 }
    ensures value { result ≡ coupled_span cplbegf }
    ensures coded { IsSpan result }
{
    Span {
        start: 0,
        end: 37 + 12 * cplbegf,
        lead: Lead::Coupled,
    }
}

/// The bins of the coupling channel, by cplbegf and cplendf, each at most 15, that give at least one subband
/// (A/52 5.4.3.11, 5.4.3.12, 7.1.3).
pub fn coupling_span(cplbegf: u8, cplendf: u8) -> Span
    requires begin { cplbegf ≤ 15 }
    requires end { cplendf ≤ 15 }
    requires some { cplbegf ≤ cplendf + 2 }
    ensures value { result ≡ coupling_span cplbegf cplendf }
    ensures coded { IsSpan result }
{
    Span {
        start: 37 + 12 * cplbegf,
        end: 37 + 12 * (cplendf + 3),
        lead: Lead::Coupling,
    }
}

/// The bins of LFE (A/52 7.1.3).
pub fn low_span() -> Span
    ensures value { result ≡ low_span }
    ensures coded { IsSpan result }
{
    Span {
        start: 0,
        end: 7,
        lead: Lead::Low,
    }
}

/// The subbands of a coupling, from 1 to 18: ncplsubnd (A/52 5.4.3.12). Each of cplbegf and cplendf is at most 15.
pub fn coupling_subbands(cplbegf: u8, cplendf: u8) -> u8
    requires begin { cplbegf ≤ 15 }
    requires end { cplendf ≤ 15 }
    requires some { cplbegf ≤ cplendf + 2 }
    ensures value { result ≡ subbands (Some (cplbegf, cplendf)) }
    ensures least { 1 ≤ result }
    ensures most { result ≤ 18 }
{
    3 + cplendf - cplbegf
}

/// The rematrixing bands of two channels, by cplbegf and cplendf where they are coupled: nrematbd (A/52 5.4.3.19, 7.5.2).
pub fn rematrix_bands(couple: Option<(u8, u8)>) -> u8
    ensures value { result ≡ rematrix_bands couple }
    ensures least { 2 ≤ result }
    ensures most { result ≤ 4 }
{
    match couple {
        Some((0, _)) => 2,
        Some((1 | 2, _)) => 3,
        _ => 4,
    }
}

#[cfg(test)]
mod tests;
