//! The words of an assignment, read off its runs.
ghost use Rattle.std.specs.Prelude.{◌≡◌, ◌<◌, ◌+◌, ◌*◌, ℕ, [], ◌∷◌, slice_index, slice_index_or};
ghost use Rattle.std.specs.List.{AllByRecursion};
ghost use Rattle.ac_base.specs.Words.{IsWord, word_of};
ghost use Rattle.ac_seek.specs.Walks.{IsInPlace, row_of};
ghost use Rattle.ac_seek.specs.Words.{code_at};

use crate::path::Path;
use ac_expo::{Assign, Word, word_at};

/// D15 in block 0 and reuse after it, for each of seven channels.
static START: [u8; 42] = [
    1, 0, 0, 0, 0, 0, 1, 0, 0, 0, 0, 0, 1, 0, 0, 0, 0, 0, 1, 0, 0, 0, 0, 0, 1, 0, 0, 0, 0, 0, 1, 0,
    0, 0, 0, 0, 1, 0, 0, 0, 0, 0,
];

/// The codes of seven words, six of each; a channel with no runs has D15 in block 0 and reuse after it.
pub fn codes(path: &Path) -> [u8; 42]
    requires { AllByRecursion IsInPlace path.now }
    ensures { (c b : ℕ) → c < 7 → b < 6 → slice_index result (6 * c + b) ≡ code_at path.now c b }
{
    let mut codes = START;
    for step in path.steps() {
        codes[6 * usize::from(step.channel) + usize::from(step.run.from)] = step.run.kind;
    }
    codes
}

/// The word of a channel.
fn word(codes: &[u8; 42], c: usize) -> Word
    requires channel { c < 7 }
    requires word { IsWord (row_of codes.now c) }
    ensures { result ≡ row_of codes.now c }
{
    let at = 6 * c;
    let word = [
        codes[at],
        codes[at + 1],
        codes[at + 2],
        codes[at + 3],
        codes[at + 4],
        codes[at + 5],
    ];
    Word::new(word).unwrap_or(word_at(0))
}

/// The words of seven lists of codes.
pub fn assignment(codes: &[u8; 42]) -> Assign
    requires { (c : ℕ) → c < 7 → IsWord (row_of codes.now c) }
    ensures { let row = row_of codes.now in
        result.w ≡ row 0 ∷ row 1 ∷ row 2 ∷ row 3 ∷ row 4 ∷ row 5 ∷ row 6 ∷ [] }
{
    Assign {
        w: [
            word(codes, 0),
            word(codes, 1),
            word(codes, 2),
            word(codes, 3),
            word(codes, 4),
            word(codes, 5),
            word(codes, 6),
        ],
    }
}

/// The codes of seven words.
pub fn word_codes(a: &Assign) -> [[u8; 6]; 7]
    ensures value { (c : ℕ) → c < 7 → slice_index_or result c [] ≡ word_of a.now.w c }
    ensures words { (c : ℕ) → c < 7 → IsWord (word_of a.now.w c) }
{
    let mut codes = [[0; 6]; 7];
    for c in 0..7usize {
        codes[c] = a.w[c].codes();
    }
    codes
}
