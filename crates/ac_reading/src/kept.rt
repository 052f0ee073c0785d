//! What the rows of the block before were made from, so that those made from the same stay.
ghost use Rattle.std.specs.Prelude.{◌≡◌, ◌<◌, true};

use ac_base::{Lead, Span};
use ac_rows::Block;

/// What the exponents and the pointers of a block were made from.
#[derive(Clone, Copy)]
pub struct Kept {
    /// How many coded channels it has; none where there is no block.
    pub count: usize,
    /// The filled block.
    pub block: Block,
    /// The bins of its coded channels.
    pub spans: [Span; 7],
}

impl Kept {
    ghost use Rattle.ac_reading.specs.Mantissas.{span_at};

    /// Of no block.
    pub fn nothing(block: &Block) -> Kept
        ensures { result.count ≡ 0 }
    {
        let blank = Span {
            start: 0,
            end: 0,
            lead: Lead::Free,
        };
        Kept {
            count: 0,
            block: *block,
            spans: [blank; 7],
        }
    }

    /// Whether coded channel `c` had these bins.
    pub fn has(&self, c: usize, span: &Span) -> bool
        requires { c < 7 }
        ensures there { result ≡ true → c < self.now.count }
        ensures span { result ≡ true → span_at self.now.spans c ≡ span.now }
    {
        if c < self.count {
            self.spans[c] == *span
        } else {
            false
        }
    }
}
