// Costs of silence, which are worked out by hand, and of assignments by a program in another language.
ghost use Rattle.std.specs.Prelude.{◌≡◌, ◌<◌, IsTrue};
ghost use Rattle.ac_base.specs.Spans.{greatest_kind};
ghost use Rattle.ac_cost.specs.Runs.{TakesLow};

use crate::{RunTable, assignment_laws, cheapest};
use ac_base::{Lead, Parts, Run, Shape, Span, side_bits};
use ac_expo::{Assign, RawExps, Word, runs, word_at};
use std::process::Abort;

mod cases;

use cases::{EXACT, FITS, FLIPS, OFFSETS, RECIPES, SEEDS, SHAPES, SHIFTS, SIXTHS, SIZES, WORDS};

/// Raw exponents of silence.
static SILENCE: RawExps = RawExps {
    e: [[[24; 256]; 6]; 7],
};

/// D45 in block 0 and reuse after it, in each channel.
fn coarse() -> Assign {
    Assign {
        w: [word_at(2048); 7],
    }
}

/// Mono of the widest band at 32 kHz.
fn mono(rt: &impl Abort, words: u16) -> Shape {
    Shape::new(2, 1, false, 60, None, words).expect(rt, "the shape is one")
}

/// Whether LFE's codes are 0 and 1.
fn takes_low(shape: &Shape, a: &Assign) -> bool
    ensures { IsTrue result → TakesLow shape.now a.now.w }
{
    if !shape.lfe {
        return true;
    }
    let last = shape.coded() - 1;
    last < 7 && a.w[last as usize].codes().iter().all(|code| *code <= 1)
}

fn parts(rt: &impl Abort, shape: &Shape, raw: &RawExps, t: u16, a: &Assign) -> Parts {
    assert!(rt; t <= 1023);
    assert!(rt; takes_low(shape, a));
    RunTable::build(shape, raw, t).parts(a)
}

fn fits(rt: &impl Abort, shape: &Shape, raw: &RawExps, t: u16, a: &Assign) -> bool {
    assert!(rt; t <= 1023);
    assert!(rt; takes_low(shape, a));
    RunTable::build(shape, raw, t).fits(a)
}

#[test]
fn silence_parts_top(rt: HostRuntime) {
    let top = parts(&rt, &mono(&rt, 1920), &SILENCE, 1023, &coarse());
    assert_eq!(rt; top.front, 8365);
    assert_eq!(rt; top.total, 24615);
    assert_eq!(rt; top.last, 4048);
    assignment_laws();
}

#[test]
fn silence_parts_zero(rt: HostRuntime) {
    let zero = parts(&rt, &mono(&rt, 1920), &SILENCE, 0, &coarse());
    assert_eq!(rt; zero.front, 269);
    assert_eq!(rt; zero.total, 327);
    assert_eq!(rt; zero.last, 0);
}

#[test]
fn silence_unfit_smaller_frame(rt: HostRuntime) {
    assert!(rt; fits(&rt, &mono(&rt, 1920), &SILENCE, 1023, &coarse()));
    assert!(rt; !fits(&rt, &mono(&rt, 1536), &SILENCE, 1023, &coarse()));
}

#[test]
fn silence_run_counts(rt: HostRuntime) {
    let table = RunTable::build(&mono(&rt, 1920), &SILENCE, 1023);
    let whole = Run {
        from: 0,
        to: 6,
        kind: 3,
    };
    let counts = table.run_counts(0, &whole);
    assert_eq!(rt; counts.linear, 4048);
    assert_eq!(rt; counts.n1, 0);
    assert_eq!(rt; counts.n2, 0);
    assert_eq!(rt; counts.n4, 0);
    assert_eq!(rt; table.run_exponents(0, &whole), 159);
}

#[test]
fn stereo_silence_parts(rt: HostRuntime) {
    let shape = Shape::new(2, 2, false, 0, None, 1920).expect(&rt, "the shape is one");
    let top = parts(&rt, &shape, &SILENCE, 1023, &coarse());
    assert_eq!(rt; top.front, 4913);
    assert_eq!(rt; top.total, 14335);
    assert_eq!(rt; top.last, 2336);
}

#[test]
fn cheapest_of_layouts(rt: HostRuntime) {
    for (acmod, lfe, bw, couple, words, front, total) in [
        (1, false, 60, None, 1920, 269, 327),
        (7, true, 0, None, 64, 471, 597),
        (2, false, 20, Some((8, 12)), 160, 508, 606),
    ] {
        let shape = Shape::new(0, acmod, lfe, bw, couple, words).expect(&rt, "the shape is one");
        let parts = cheapest(&shape);
        assert_eq!(rt; parts.front, front, "{acmod}");
        assert_eq!(rt; parts.total, total, "{acmod}");
        assert_eq!(rt; parts.last, 0, "{acmod}");
    }
}

/// Draws numbers from 0 to 65535.
#[derive(Drop)]
struct Draws {
    x: u64,
}

impl Draws {
    /// The next one.
    fn next(&mut self) -> u32
        ensures { result < 65536 }
    {
        self.x = self
            .x
            .wrapping_mul(6364136223846793005)
            .wrapping_add(1442695040888963407);
        (self.x >> 48) as u32
    }
}

/// How raw exponents are drawn.
#[derive(Drop)]
struct Recipe {
    numbers: [u32; 4],
    shift: [i32; 6],
    flip: [u8; 6],
}

/// What the blocks of a channel have in common: base, tilt and roughness.
fn draw_profile(recipe: &Recipe, draws: &mut Draws, profile: &mut [u32]) {
    let [base, tilt, rough, _] = recipe.numbers;
    let lift = draws.next() % 4;
    let mut i = 0u32;
    for place in profile.iter_mut() {
        *place = base
            .wrapping_add(lift)
            .wrapping_add(i.wrapping_mul(tilt) / 64)
            .wrapping_add(draws.next() % rough.saturating_add(1));
        i = i.wrapping_add(1);
    }
}

/// One bin of a block.
fn bin(value: u32, shift: i32, drawn: u32) -> u8 {
    let sum = i64::from(value) + i64::from(shift) + i64::from(drawn);
    sum.clamp(0, 24) as u8
}

/// The raw exponents of a block.
fn draw_block(
    profile: &[u32],
    shift: i32,
    flip: bool,
    noise: u32,
    draws: &mut Draws,
    out: &mut [u8],
) {
    let count = profile.len();
    for i in 0..count {
        let value = if flip {
            profile[count - 1 - i]
        } else {
            profile[i]
        };
        let drawn = draws.next() % noise.saturating_add(1);
        if i < out.len() {
            out[i] = bin(value, shift, drawn);
        }
    }
}

/// The raw exponents of a channel.
fn draw_channel(recipe: &Recipe, span: &Span, draws: &mut Draws, out: &mut [[u8; 256]; 6]) {
    let from = usize::from(span.start);
    let to = usize::from(span.end);
    if from > to || to > 256 {
        return;
    }
    let mut profile = [0; 256];
    draw_profile(recipe, draws, &mut profile[from..to]);
    for b in 0..6 {
        draw_block(
            &profile[from..to],
            recipe.shift[b],
            recipe.flip[b] == 1,
            recipe.numbers[3],
            draws,
            &mut out[b][from..to],
        );
    }
}

/// The raw exponents of a frame.
fn draw_raw(shape: &Shape, recipe: &Recipe, seed: u64) -> RawExps {
    let silence = &SILENCE;
    let mut raw = *silence;
    let mut draws = Draws { x: seed };
    for c in 0..shape.coded() {
        draw_channel(recipe, &shape.span(c), &mut draws, &mut raw.e[c as usize]);
    }
    raw
}

/// A word of its codes as decimal digits.
fn word(rt: &impl Abort, digits: u32) -> Word {
    let code = |place: u32| (digits / place % 10) as u8;
    Word::new([
        code(100000),
        code(10000),
        code(1000),
        code(100),
        code(10),
        code(1),
    ])
    .expect(rt, "the word is one")
}

fn assign(rt: &impl Abort, words: &[u32; 7]) -> Assign {
    let mut w = [word_at(2048); 7];
    for c in 0..7 {
        w[c] = word(rt, words[c]);
    }
    Assign { w }
}

fn shape_of(rt: &impl Abort, fields: &[u8; 6], words: u16) -> Shape {
    let [fscod, acmod, lfe, bw, begin, end] = *fields;
    let couple = if begin == 255 {
        None
    } else {
        Some((begin, end))
    };
    Shape::new(fscod, acmod, lfe == 1, bw, couple, words).expect(rt, "the shape is one")
}

/// The coarsest kind of a channel.
fn kinds(lead: Lead) -> u8
    ensures { result ≡ greatest_kind lead }
{
    match lead {
        Lead::Low => 1,
        Lead::Free | Lead::Coupled | Lead::Coupling => 3,
    }
}

/// The sixths of a run in each part.
fn sixths_of_run(rt: &impl Abort, table: &RunTable, shape: &Shape, c: u8, run: &Run) -> [u32; 3]
    requires { table.now.shape ≡ shape.now }
{
    assert!(rt; c < shape.coded());
    assert!(rt; run.from < run.to && run.to <= 6);
    assert!(rt; 1 <= run.kind && run.kind <= kinds(shape.span(c).lead));
    table.run_sixths(c, run)
}

/// The sixths of an assignment in a part: the side bits, and all its runs.
fn sixths_of(rt: &impl Abort, table: &RunTable, shape: &Shape, a: &Assign, part: usize) -> u32
    requires shape { table.now.shape ≡ shape.now }
    requires part { part < 3 }
{
    let side = side_bits(shape);
    let mut sum = match part {
        0 => side.front.wrapping_mul(6),
        1 => side.total.wrapping_mul(6),
        _ => 0,
    };
    for c in 0..shape.coded() {
        for run in runs(&a.w[c as usize]).as_slice() {
            sum = sum.wrapping_add(sixths_of_run(rt, table, shape, c, run)[part]);
        }
    }
    sum
}

/// The costs of one case.
fn case(rt: &impl Abort, i: usize) {
    assert!(rt; i < 60 && OFFSETS[i] <= 1023);
    let shape = shape_of(rt, &SHAPES[i], SIZES[i]);
    let recipe = Recipe {
        numbers: RECIPES[i],
        shift: SHIFTS[i],
        flip: FLIPS[i],
    };
    let raw = draw_raw(&shape, &recipe, SEEDS[i]);
    let a = assign(rt, &WORDS[i]);
    assert!(rt; takes_low(&shape, &a));
    let table = RunTable::build(&shape, &raw, OFFSETS[i]);
    let parts = table.parts(&a);
    assert_eq!(rt; parts.front, EXACT[i][0], "front of {i}");
    assert_eq!(rt; parts.total, EXACT[i][1], "total of {i}");
    assert_eq!(rt; parts.last, EXACT[i][2], "last of {i}");
    assert_eq!(rt; table.fits(&a), FITS[i], "fit of {i}");
    for part in 0..3 {
        assert_eq!(rt;
            sixths_of(rt, &table, &shape, &a, part),
            SIXTHS[i][part],
            "part {part} of {i}"
        );
    }
}

#[test]
fn costs_of_assignments(rt: HostRuntime) {
    for i in 0..60 {
        case(&rt, i);
    }
}
