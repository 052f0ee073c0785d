//! The bins and the bands of a coupling.
ghost use Rattle.std.specs.Prelude.{◌≡◌, ◌+◌, ◌*◌, ◌≤◌};
ghost use Rattle.ac_base.specs.Shape.{subbands};
ghost use Rattle.ac_coupling.specs.Coupling.{start_of, end_by};

use ac_base::{Shape, coupling_span, coupling_subbands};

/// The bins of the coupling channel, in bands of 12. None without coupling.
#[derive(Clone, Copy)]
pub struct Range {
    /// The first bin.
    pub start: u8,
    /// The bin behind the last.
    pub end: u8,
    /// The number of bands.
    pub bands: u8,
    pub ghost whole: { end ≡ start + 12 * bands },
    pub ghost within: { end ≤ 253 },
    pub ghost few: { bands ≤ 18 },
}

impl Range {
    /// The range of a shape.
    pub fn of(coupled: &Shape) -> Range
        ensures start { result.start ≡ start_of coupled.now.couple }
        ensures end { result.end ≡ end_by coupled.now.couple }
        ensures bands { result.bands ≡ subbands coupled.now.couple }
    {
        match coupled.couple {
            Some((begin, end)) => {
                let span = coupling_span(begin, end);
                Range {
                    start: span.start,
                    end: span.end,
                    bands: coupling_subbands(begin, end),
                }
            }
            None => Range {
                start: 0,
                end: 0,
                bands: 0,
            },
        }
    }
}
