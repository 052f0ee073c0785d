//! Frames whose raw exponents are drawn, by a program in another language.
ghost use Rattle.std.specs.Prelude.{◌<◌};

use ac_base::{Shape, Span};
use ac_expo::RawExps;
use std::process::Abort;

/// Raw exponents of silence.
pub static SILENCE: RawExps = RawExps {
    e: [[[24; 256]; 6]; 7],
};

/// Draws numbers from 0 to 65535.
#[derive(Drop)]
struct Draws {
    x: u64,
}

impl Draws {
    /// The next one.
    fn next(&mut self) -> u32
        ensures { result < 65536 }
    {
        self.x = self
            .x
            .wrapping_mul(6364136223846793005)
            .wrapping_add(1442695040888963407);
        (self.x >> 48) as u32
    }
}

/// A frame, how its raw exponents are drawn, and the offsets that another program found by a complete search.
#[derive(Clone, Copy, Debug)]
pub struct Case {
    /// fscod, acmod, 1 with LFE, chbwcod, cplbegf and cplendf, both 255 without coupling.
    pub fields: [u8; 6],
    /// The words of the frame.
    pub words: u16,
    /// Where the draws begin.
    pub seed: u64,
    /// Base, tilt, roughness and noise.
    pub numbers: [u32; 4],
    /// What is added in each block.
    pub shift: [i32; 6],
    /// 1 where a block has its bins the other way round.
    pub flip: [u8; 6],
    /// The root offset, and the greatest at which some assignment fits.
    pub offsets: [u16; 2],
    /// The nodes of the trees from the root offset down to the one above the last of these, and 0 for the rest.
    pub sizes: [u32; 5],
}

/// What the blocks of a channel have in common: base, tilt and roughness.
fn draw_profile(case: &Case, draws: &mut Draws, profile: &mut [u32]) {
    let [base, tilt, rough, _] = case.numbers;
    let lift = draws.next() % 4;
    let mut i = 0u32;
    for place in profile.iter_mut() {
        *place = base
            .wrapping_add(lift)
            .wrapping_add(i.wrapping_mul(tilt) / 64)
            .wrapping_add(draws.next() % rough.saturating_add(1));
        i = i.wrapping_add(1);
    }
}

/// One bin of a block.
fn bin(value: u32, shift: i32, drawn: u32) -> u8 {
    let sum = i64::from(value) + i64::from(shift) + i64::from(drawn);
    sum.clamp(0, 24) as u8
}

/// The raw exponents of a block.
fn draw_block(
    profile: &[u32],
    shift: i32,
    flip: bool,
    noise: u32,
    draws: &mut Draws,
    out: &mut [u8],
) {
    let count = profile.len();
    for i in 0..count {
        let value = if flip {
            profile[count - 1 - i]
        } else {
            profile[i]
        };
        let drawn = draws.next() % noise.saturating_add(1);
        if i < out.len() {
            out[i] = bin(value, shift, drawn);
        }
    }
}

/// The raw exponents of a channel.
fn draw_channel(case: &Case, span: &Span, draws: &mut Draws, out: &mut [[u8; 256]; 6]) {
    let from = usize::from(span.start);
    let to = usize::from(span.end);
    if from > to || to > 256 {
        return;
    }
    let mut profile = [0; 256];
    draw_profile(case, draws, &mut profile[from..to]);
    for b in 0..6 {
        draw_block(
            &profile[from..to],
            case.shift[b],
            case.flip[b] == 1,
            case.numbers[3],
            draws,
            &mut out[b][from..to],
        );
    }
}

/// The raw exponents of a frame.
pub fn draw_raw(shape: &Shape, case: &Case) -> RawExps {
    let silence = &SILENCE;
    let mut raw = *silence;
    let mut draws = Draws { x: case.seed };
    for c in 0..shape.coded() {
        draw_channel(case, &shape.span(c), &mut draws, &mut raw.e[c as usize]);
    }
    raw
}

/// The shape of a case.
pub fn shape_of(rt: &impl Abort, case: &Case) -> Shape {
    let [fscod, acmod, lfe, bw, begin, end] = case.fields;
    let couple = if begin == 255 {
        None
    } else {
        Some((begin, end))
    };
    Shape::new(fscod, acmod, lfe == 1, bw, couple, case.words).expect(rt, "the shape is one")
}

/// Names of the frames in that program: 1-05, 1-08 and 2-13.
pub static CASES: [Case; 3] = [
    Case {
        fields: [0, 1, 0, 48, 255, 255],
        words: 320,
        seed: 3484163503,
        numbers: [6, 5, 0, 1],
        shift: [-1, 0, 1, 2, 3, 4],
        flip: [0, 0, 0, 0, 0, 0],
        offsets: [342, 339],
        sizes: [34, 34, 34, 0, 0],
    },
    Case {
        fields: [0, 1, 0, 7, 255, 255],
        words: 224,
        seed: 1106388483,
        numbers: [8, 4, 3, 0],
        shift: [0, -3, 0, 0, 0, 0],
        flip: [0, 0, 1, 0, 0, 0],
        offsets: [336, 331],
        sizes: [55, 55, 55, 55, 94],
    },
    Case {
        fields: [1, 1, 1, 36, 255, 255],
        words: 208,
        seed: 1289087522,
        numbers: [4, 0, 5, 4],
        shift: [3, 3, 3, 3, 3, 0],
        flip: [0, 0, 0, 0, 0, 0],
        offsets: [240, 238],
        sizes: [33, 77, 0, 0, 0],
    },
];
