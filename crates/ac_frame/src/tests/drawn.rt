//! Frames whose values are drawn by chance: layout, LFE, bandwidth, coupling, rate, coefficients, words, offset, flags and coordinates.
ghost use Rattle.std.specs.Prelude.{◌<◌, ◌≤◌, ◌≡◌, ◌*◌, ℕ, [], slice_index_or, unsigned_abs, IsTrue, IfSome};
ghost use Rattle.ac_base.specs.Words.{IsWord, word_of};
ghost use Rattle.ac_expo.specs.Raw.{AreSmallInRow, AreSmallInBlocks, AreSmall};
ghost use Rattle.ac_cost.specs.Runs.{IsAssignmentOf, TakesLow};
ghost use Rattle.ac_cost.specs.Records.{exponents};
ghost use Rattle.ac_cost.specs.Parts.{FitsAt};

use ac_base::{Coefs, Shape, Span, frame_words, rate};
use ac_bits::FRAME_BYTES;
use ac_coding::code_frame;
use ac_coordinates::{Coordinate, Coordinates};
use ac_cost::{RunLists, cheapest};
use ac_expo::{Assign, RawExps, Word, word_at};
use ac_sent::{Quantised, frame_code};

// ---- what is asked of the values of a frame, each as a test

/// Whether the coefficients of a row are below 2^24 in magnitude.
fn is_small_row(row: &[i32; 256], span: &Span) -> bool
    requires { span.now.end ≤ 253 }
    ensures { IsTrue result → AreSmallInRow span.now row.now }
{
    for k in usize::from(span.start)..usize::from(span.end) {
        if row[k].unsigned_abs() >= 1 << 24 {
            return false;
        }
    }
    true
}

/// Whether those of the blocks of a channel are.
fn are_small_rows(rows: &[[i32; 256]; 6], span: &Span) -> bool
    requires { span.now.end ≤ 253 }
    ensures { IsTrue result → AreSmallInBlocks span.now rows.now }
{
    for b in 0..6usize {
        if !is_small_row(&rows[b], span) {
            return false;
        }
    }
    true
}

/// Whether those of all coded channels are.
fn are_small(shape: &Shape, coefs: &Coefs) -> bool
    ensures { IsTrue result → AreSmall shape.now coefs.now.c }
{
    for c in 0..shape.coded() {
        if !are_small_rows(&coefs.c[usize::from(c)], &shape.span(c)) {
            return false;
        }
    }
    true
}

/// The codes of the words.
fn codes(assign: &Assign) -> [[u8; 6]; 7]
    ensures { (c : ℕ) → c < 7 → IsWord (word_of assign.now.w c) }
{
    let mut codes = [[0; 6]; 7];
    for c in 0..7usize {
        codes[c] = assign.w[c].codes();
    }
    codes
}

/// Whether LFE's codes are 0 and 1.
fn takes_low(shape: &Shape, assign: &Assign) -> bool
    ensures { IsTrue result → TakesLow shape.now assign.now.w }
{
    if !shape.lfe {
        return true;
    }
    let last = shape.coded() - 1;
    last < 7
        && assign.w[usize::from(last)]
            .codes()
            .iter()
            .all(|code| *code <= 1)
}

/// Whether each coded channel takes its word.
fn is_assignment(shape: &Shape, assign: &Assign) -> bool
    ensures assigned { IsTrue result → IsAssignmentOf shape.now assign.now.w }
    ensures low { IsTrue result → TakesLow shape.now assign.now.w }
{
    let _ = codes(assign);
    takes_low(shape, assign)
}

/// Whether the coordinates of a channel have 4 bits.
fn is_small_channel(row: &[Coordinate; 18]) -> bool
    ensures { IsTrue result → (k : ℕ) → ((slice_index_or row.now k (record { exp = 0; mant = 0 })).exp ≤ 15)
        × ((slice_index_or row.now k (record { exp = 0; mant = 0 })).mant ≤ 15) }
{
    for k in 0..18usize {
        if row[k].exp > 15 || row[k].mant > 15 {
            return false;
        }
    }
    true
}

/// Whether those of all channels have.
fn are_coordinates(rows: &[[Coordinate; 18]; 5]) -> bool
    ensures { IsTrue result → (i k : ℕ)
        → ((slice_index_or (slice_index_or rows.now i []) k (record { exp = 0; mant = 0 })).exp ≤ 15)
        × ((slice_index_or (slice_index_or rows.now i []) k (record { exp = 0; mant = 0 })).mant ≤ 15) }
{
    for i in 0..5usize {
        if !is_small_channel(&rows[i]) {
            return false;
        }
    }
    true
}

// ---- draws

/// Draws numbers.
#[derive(Drop)]
pub struct Draws {
    state: u64,
}

impl Draws {
    /// Draws that begin with a number.
    pub fn new(seed: u64) -> Draws {
        Draws { state: seed }
    }

    /// One from 0 to 65535.
    fn next(&mut self) -> u32
        ensures { result < 65536 }
    {
        self.state = self
            .state
            .wrapping_mul(6364136223846793005)
            .wrapping_add(1442695040888963407);
        (self.state >> 48) as u32
    }

    /// One below `n`.
    fn below(&mut self, n: u32) -> u32
        requires { 0 < n }
        ensures { result < n }
    {
        self.next() % n
    }

    /// One below `n`.
    fn byte(&mut self, n: u8) -> u8
        requires { 0 < n }
        ensures { result < n }
    {
        self.below(u32::from(n)) as u8
    }

    /// Either.
    fn either(&mut self) -> bool {
        self.below(2) == 1
    }
}

/// A coupling, in half of the cases that may have one.
fn couple(draws: &mut Draws, acmod: u8) -> Option<(u8, u8)> {
    let is_on = draws.either();
    let begin = draws.byte(16);
    let end = draws.byte(16);
    if is_on && acmod >= 2 && begin <= end + 2 {
        Some((begin, end))
    } else {
        None
    }
}

/// The shape of frame 0 of a stream.
fn shape(draws: &mut Draws) -> Option<Shape> {
    let acmod = 1 + draws.byte(7);
    let lfe = draws.either();
    let fscod = draws.byte(3);
    let bw = draws.byte(61);
    let couple = couple(draws, acmod);
    let rate = rate(draws.byte(19));
    Shape::new(fscod, acmod, lfe, bw, couple, frame_words(rate, fscod, 0))
}

/// The coefficients of a block: a floor that falls with the bins, and peaks.
fn fill_block(draws: &mut Draws, slope: u32, level: u32, block: &mut [i32; 256])
    requires slope { 0 < slope }
    requires level { level ≤ 12 }
{
    for k in 0..256usize {
        let shift = (level + k as u32 / slope + draws.below(4)).min(24);
        block[k] = ((draws.next() as i32 - 32768) * 256) >> shift;
    }
}

/// The coefficients of a channel.
fn fill(draws: &mut Draws, rows: &mut [[i32; 256]; 6]) {
    let slope = 1 + draws.below(60);
    let level = draws.below(12);
    let still = draws.either();
    fill_block(draws, slope, level, &mut rows[0]);
    for b in 1..6usize {
        if still && draws.either() {
            rows[b] = rows[b - 1];
        } else {
            fill_block(draws, slope, level, &mut rows[b]);
        }
    }
}

/// A word for LFE.
fn low_word(draws: &mut Draws) -> Word {
    let mut codes = [1, 0, 0, 0, 0, 0];
    for b in 1..6usize {
        codes[b] = draws.byte(2);
    }
    match Word::new(codes) {
        Some(word) => word,
        None => word_at(0),
    }
}

/// A word for each channel.
fn assignment(draws: &mut Draws, shape: &Shape) -> Assign {
    let mut assign = Assign {
        w: [word_at(2048); 7],
    };
    for c in 0..7usize {
        assign.w[c] = word_at(draws.below(3072) as u16);
    }
    let coded = usize::from(shape.coded());
    if shape.lfe && coded >= 1 {
        assign.w[coded - 1] = low_word(draws);
    }
    assign
}

/// D45 in block 0 and reuse after it, in LFE D15.
fn least(shape: &Shape) -> Assign {
    let mut assign = Assign {
        w: [word_at(2048); 7],
    };
    let coded = usize::from(shape.coded());
    if shape.lfe && coded >= 1 {
        assign.w[coded - 1] = word_at(0);
    }
    assign
}

fn coordinates(draws: &mut Draws) -> Coordinates {
    let mut coords = Coordinates {
        of: [[Coordinate { exp: 0, mant: 0 }; 18]; 5],
    };
    for i in 0..5usize {
        for k in 0..18usize {
            coords.of[i][k] = Coordinate {
                exp: 1 + draws.byte(15),
                mant: draws.byte(16),
            };
        }
    }
    coords
}

// ---- a frame

/// These values of a frame, but for its exponents and codes, which are 0.
pub fn handed_in(
    shape: Shape,
    t: u16,
    assign: Assign,
    flags: [bool; 4],
    coords: Coordinates,
) -> Quantised {
    let exps = [[[0; 256]; 6]; 7];
    let codes = [[[0; 256]; 6]; 7];
    Quantised::new(shape, t, assign, exps, codes, flags, coords)
}

/// Whether an assignment fits at an offset.
fn fits(shape: &Shape, raw: &RawExps, lists: &RunLists, t: u16, assign: &Assign) -> bool
    requires { lists.now ≡ exponents shape.now raw.now.e }
    ensures { IsTrue result → FitsAt shape.now raw.now.e t assign.now.w }
{
    t <= 1023 && takes_low(shape, assign) && lists.at(t).fits(assign)
}

/// The greatest of some offsets up to `most` at which the assignment fits; 0 where it fits at none of them.
fn offset(shape: &Shape, raw: &RawExps, lists: &RunLists, assign: &Assign, most: u16) -> u16
    requires { lists.now ≡ exponents shape.now raw.now.e }
{
    let mut t = most;
    while t > 0 && !fits(shape, raw, lists, t, assign) {
        t = t.saturating_sub(80);
    }
    t
}

/// Words that fit at offset 0, and an offset at which they fit, if there is one.
fn choose(draws: &mut Draws, shape: &Shape, coefs: &Coefs) -> Option<(Assign, u16)> {
    if !are_small(shape, coefs) {
        return None;
    }
    let raw = RawExps::of(shape, coefs);
    let lists = RunLists::of(shape, &raw);
    let mut assign = assignment(draws, shape);
    if !fits(shape, &raw, &lists, 0, &assign) {
        assign = least(shape);
    }
    let most = if draws.below(8) == 0 {
        0
    } else {
        1023 - draws.below(300) as u16
    };
    let t = offset(shape, &raw, &lists, &assign, most);
    Some((assign, t))
}

/// The values of a frame of a shape, and the coefficients of its channels; None where its cheapest assignment doesn't fit.
pub fn draw_in(draws: &mut Draws, shape: Shape, coefs: &mut Coefs) -> Option<Quantised> {
    if !cheapest(&shape).fit(shape.words) {
        return None;
    }
    for c in 0..7usize {
        fill(draws, &mut coefs.c[c]);
    }
    let Some((assign, t)) = choose(draws, &shape, coefs) else {
        return None;
    };
    let flags = [
        draws.either(),
        draws.either(),
        draws.either(),
        draws.either(),
    ];
    let coords = coordinates(draws);
    Some(handed_in(shape, t, assign, flags, coords))
}

/// Those of some shape.
pub fn draw(seed: u64, coefs: &mut Coefs) -> Option<Quantised> {
    let mut draws = Draws::new(seed);
    match shape(&mut draws) {
        Some(shape) => draw_in(&mut draws, shape, coefs),
        None => None,
    }
}

/// Writes the frame of these coefficients by the shape, the offset, the words, the flags and the coordinates of `q` to the front of
/// `out`, and answers how many bytes it has; None where there is no such frame. `q` then has the exponents and codes too.
pub fn code(coefs: &Coefs, q: &mut Quantised, out: &mut [u8; FRAME_BYTES]) -> Option<usize>
    ensures { IfSome result (λ count. count ≤ 3840) }
{
    let shape = q.shape;
    let assign = q.assign;
    let t = q.t;
    if !are_small(&shape, coefs) || !is_assignment(&shape, &assign) {
        return None;
    }
    if t > 1023 || !are_coordinates(&q.coords.of) {
        return None;
    }
    let Some(_) = frame_code(shape.fscod, shape.words) else {
        return None;
    };
    let raw = RawExps::of(&shape, coefs);
    let lists = RunLists::of(&shape, &raw);
    if !fits(&shape, &raw, &lists, t, &assign) {
        return None;
    }
    Some(code_frame(coefs, &raw, t, &assign, q, out))
}
