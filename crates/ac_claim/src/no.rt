//! What a check of a certificate answers.

use ac_base::{Part, Run};

/// What a certificate claims.
#[derive(Clone, Copy, Debug, PartialEq, Eq)]
pub struct Verdict {
    /// At this SNR offset its assignment fits.
    pub offset: u16,
    /// Above this one no assignment fits.
    pub upper: u16,
}

/// Why a certificate is refused: the first test that fails, with its two sides. Bounds and rooms of `Loose` and the sides of
/// `Potential` are in sixths of a bit.
#[derive(Clone, Copy, Debug, PartialEq, Eq)]
pub enum No {
    /// A line of a text with which no text of a certificate can begin any more, counted from 1.
    BadText {
        line: u32,
    },
    /// A line of a text in which a 43rd bracket stands open at once, counted from 1.
    Deep {
        line: u32,
    },
    /// A raw exponent is over 24.
    BadRaw {
        channel: u8,
        block: u8,
        bin: u8,
    },
    /// A code of LFE's word is over 1.
    BadWord {
        channel: u8,
    },
    /// The offset, the upper, the top and 1023 aren't in this order: low should be at most high.
    BadClaim {
        low: u16,
        high: u16,
    },
    /// The assignment needs more bits at its offset than the part has room for.
    Unfit {
        part: Part,
        needed: u32,
        room: u32,
    },
    /// There are not as many levels as offsets above the upper up to the top; or the potentials above the top are missing below
    /// 1023, or there at 1023: then both numbers are 0 or 1.
    Missing {
        have: u32,
        want: u32,
    },
    /// A potential is more than a run and the potential at its end.
    Potential {
        offset: u16,
        channel: u8,
        part: Part,
        run: Run,
        left: u64,
        right: u64,
    },
    /// A bound isn't over the room.
    Loose {
        offset: u16,
        part: Part,
        bound: u64,
        room: u64,
    },
    /// A node has not as many children as runs may come next.
    Children {
        offset: u16,
        have: u32,
        want: u32,
    },
}
