//! Strategy words.
ghost use Rattle.std.specs.Prelude.{◌≡◌, ◌↔◌, ℕ, ◌<◌, ◌≤◌, List, Option, None, IsTrue, IsSome, IfSome, slice_index};
ghost use Rattle.ac_base.specs.Words.{IsWord};
ghost use Rattle.ac_expo.specs.Words.{word_list};

use std::marker::Model;

/// The exponent strategy codes of a channel in the six blocks of a frame: 0 for reuse, 1 for D15, 2 for D25, 3 for D45;
/// block 0 sends exponents (A/52 5.4.3.21 to 5.4.3.23).
#[derive(Clone, Copy, Debug, PartialEq, Eq)]
pub struct Word {
    codes: [u8; 6],
}

impl Model for Word {
    ghost use Rattle.std.specs.Prelude.{ℕ, List, refl};

    ghost Value = { List ℕ };

    ghost use Rattle.ac_expo.specs.Words.{codes_of, IsCoded, inside_of};

    ghost view = { codes_of };

    ghost invariant = { IsCoded };

    ghost inverse = { inside_of };

    ghost inverse_ok = { λ a h. refl };
}

/// Whether codes are at most 3.
fn are_small(codes: &[u8; 6]) -> bool
    ensures { IsTrue result ↔ ((block : ℕ) → block < 6 → slice_index codes.now block ≤ 3) }
{
    codes.iter().all(|code| *code <= 3)
}

impl Word {
    /// The word of six codes; none where block 0 sends nothing or a code is over 3.
    pub fn new(codes: [u8; 6]) -> Option<Word>
        ensures cause { IsSome result ↔ IsWord codes }
        ensures value { IfSome result (λ word. word ≡ codes) }
    {
        if codes[0] == 0 || !are_small(&codes) {
            return None;
        }
        Some(Word { codes })
    }

    /// The six codes.
    pub fn codes(&self) -> [u8; 6]
        ensures value { result ≡ self.now }
        ensures word { IsWord result }
    {
        self.codes
    }

    /// The code of a block.
    pub fn code(&self, block: u8) -> u8
        requires { block ≤ 5 }
        ensures value { result ≡ slice_index self.now block }
        ensures bound { result ≤ 3 }
    {
        self.codes[usize::from(block)]
    }
}

/// The word of a number: the first code less 1, then the other codes, as a number in base 4.
pub fn word_at(i: u16) -> Word
    requires { i ≤ 3071 }
    ensures { result ≡ word_list i }
{
    Word {
        codes: [
            (i / 1024 + 1) as u8,
            (i / 256 % 4) as u8,
            (i / 64 % 4) as u8,
            (i / 16 % 4) as u8,
            (i / 4 % 4) as u8,
            (i % 4) as u8,
        ],
    }
}

/// The words of the coded channels of a frame.
#[derive(Clone, Copy, Debug, PartialEq, Eq)]
pub struct Assign {
    pub w: [Word; 7],
}

#[cfg(test)]
mod tests;
