//! The code of a frame's size.
ghost use Rattle.std.specs.Prelude.{◌≡◌, ◌≤◌, ◌↔◌, ℕ, Option, Some, IfSome, IsTrue};
ghost use Rattle.ac_sent.specs.Asked.{IsSizeCode};

use ac_base::code_words;

/// Whether this encoder writes this code for a frame of so many words.
fn is_code(fscod: u8, words: u16, code: u8) -> bool
    requires sampling { fscod ≤ 2 }
    requires known { code ≤ 37 }
    ensures { IsTrue result ↔ IsSizeCode fscod words code }
{
    (fscod == 1 || code % 2 == 0) && code_words(fscod, code) == words
}

/// frmsizecod of a frame of so many words, by fscod, at most 2: at 48 and 32 kHz the even one of the two codes of its rate, at
/// 44.1 kHz the only one. None exactly where no frame has that size (A/52 5.4.1.4, Table 5.18).
pub fn frame_code(fscod: u8, words: u16) -> Option<u8>
    requires sampling { fscod ≤ 2 }
    ensures ok { IfSome result (λ code. IsSizeCode fscod words code) }
    ensures complete { (code : ℕ) → IsSizeCode fscod words code → result ≡ Some code }
{
    for code in 0..38 {
        if is_code(fscod, words, code) {
            return Some(code);
        }
    }
    None
}

#[cfg(test)]
mod tests;
