//! Runs of blocks that share exponents.
ghost use Rattle.std.specs.Prelude.{◌≡◌, ◌+◌, ◌≤◌, drop};
ghost use Rattle.std.specs.List.{All};
ghost use Rattle.ac_base.specs.Words.{zeros, runs_of, IsRun};

use crate::word::Word;
use ac_base::Run;
use arrayvec::ArrayVec;

/// The first block from `from` on that sends exponents, or 6.
fn stop_of(codes: &[u8; 6], from: u8) -> u8
    requires { from ≤ 6 }
    ensures value { result ≡ from + zeros (drop from codes.now) }
    ensures low { from ≤ result }
    ensures bound { result ≤ 6 }
{
    let mut at = from;
    while at < 6 && codes[usize::from(at)] == 0 {
        at += 1;
    }
    at
}

/// The runs of a word: from each block that sends exponents up to the next one, or to the end of the frame.
pub fn runs(word: &Word) -> ArrayVec<Run, 6>
    ensures value { result.items ≡ runs_of word.now }
    ensures each { All IsRun result.items }
{
    let codes = word.codes();
    let mut list = ArrayVec::new();
    for from in 0..6u8 {
        let kind = codes[usize::from(from)];
        if kind != 0 {
            let to = stop_of(&codes, from + 1);
            list.push(Run { from, to, kind });
        }
    }
    list
}
