//! Whether there is something to reuse.
ghost use Rattle.std.specs.Prelude.{◌≡◌, ◌<◌, ◌&&◌};
ghost use Rattle.ac_rows.specs.Filled.{channel_end};
ghost use Rattle.ac_rows.specs.Known.{may_keep_coordinates, may_keep_shared, may_keep_channel};

use crate::groups::{Coupling, Known};

/// Whether a channel's latest coordinates are for as many bands.
pub fn may_keep_coordinates(known: &Known, c: &Coupling, i: usize) -> bool
    requires { i < 5 }
    ensures { result ≡ may_keep_coordinates known.now c.now i }
{
    match known.coordinates[i] {
        Some(bands) => bands == c.bands,
        None => false,
    }
}

/// Whether the latest exponents of the coupling channel begin at its start and go up to its end.
pub fn may_keep_shared(known: &Known, c: &Coupling) -> bool
    ensures { result ≡ may_keep_shared known.now c.now }
{
    match known.sent {
        Some((begin, end)) => match c.range {
            Some((now, last)) => begin == now && last <= end,
            None => false,
        },
        None => false,
    }
}

/// The bin behind the last of a full channel with this bandwidth, unless it is coupled.
pub fn channel_end(c: &Coupling, i: usize, chbwcod: Option<u8>) -> Option<usize>
    requires { i < 5 }
    ensures { result ≡ channel_end c.now i chbwcod }
{
    if c.coupled[i] {
        let begin = match c.range {
            Some((begin, _)) => begin,
            None => 0,
        };
        Some(37 + 12 * usize::from(begin))
    } else {
        match chbwcod {
            Some(w) => Some(37 + 3 * (usize::from(w) + 12)),
            None => None,
        }
    }
}

/// Whether the latest exponents of a full channel go up to its end, which is known.
pub fn may_keep_channel(known: &Known, c: &Coupling, i: usize) -> bool
    requires { i < 5 }
    ensures { result ≡ may_keep_channel known.now c.now i }
{
    match known.ends[i] {
        Some(sent) => match channel_end(c, i, known.widths[i]) {
            Some(end) => end <= sent,
            None => false,
        },
        None => false,
    }
}
