// Frames of silence, whose bytes are those of an encoder of strings of bits in Python, and frames that are drawn by chance.
ghost use Rattle.std.specs.Prelude.{◌<◌};

use crate::{FrameCodes, FrameFault, Quantised, padding_law, plain_law, read};
use ac_base::{Coefs, Shape};
use ac_bits::FRAME_BYTES;
use ac_codec::Refused;
use ac_coordinates::{Coordinate, Coordinates};
use ac_cost::cheapest;
use ac_expo::{Assign, word_at};
use std::process::Abort;

mod drawn;

use drawn::{code, draw, handed_in};

/// Mono silence of the widest band at offset 0, D45 in block 0 and reuse after it.
fn silence(rt: &impl Abort, fscod: u8, words: u16) -> Quantised {
    let shape = Shape::new(fscod, 1, false, 60, None, words).expect(rt, "the shape is one");
    let assign = Assign {
        w: [word_at(2048); 7],
    };
    let coords = Coordinates {
        of: [[Coordinate { exp: 0, mant: 0 }; 18]; 5],
    };
    handed_in(shape, 0, assign, [false; 4], coords)
}

const SILENCE_FRONT: [u8; 40] = [
    0x0b, 0x77, 0xa7, 0x16, 0x14, 0x40, 0x2f, 0x84, 0x0b, 0xf3, 0xfe, 0x75, 124, 249, 243, 231,
    207, 159, 62, 124, 249, 243, 231, 207, 159, 62, 124, 249, 241, 151, 240, 2, 0, 0, 0, 0, 0, 0,
    14, 228,
];

/// 2,280 aux bits stand behind block 5: what its skip field, of 9 bits and 441 bytes, and all other fields leave of the frame.
#[test]
fn silence_frame_bytes(rt: HostRuntime) {
    let mut q = silence(&rt, 0, 384);
    let mut out = [0xff; FRAME_BYTES];
    let size = code(&Coefs::zeros(), &mut q, &mut out).expect(&rt, "silence has a frame");
    assert_eq!(rt; size, 768);
    assert!(rt; out.starts_with(&SILENCE_FRONT));
    assert!(rt; out[40..768].iter().all(|b| *b == 0));
    assert!(rt; out[768..].iter().all(|b| *b == 0xff));
    let mut codes = FrameCodes::empty();
    assert_eq!(rt; read(&out[..size], &mut codes), Ok(()));
    assert_eq!(rt; codes.block[4].skipl, None);
    assert_eq!(rt; codes.block[5].skipl, Some(441));
    assert_eq!(rt; cheapest(&q.shape).total, 6144 - (9 + 8 * 441) - 2280);
    plain_law();
    padding_law();
}

/// The bits of the generator without its first are the remainder of one wrong bit at the end of a part.
#[test]
fn turned_bits(rt: HostRuntime) {
    let mut out = [0; FRAME_BYTES];
    let mut q = silence(&rt, 2, 1920);
    assert_eq!(rt; code(&Coefs::zeros(), &mut q, &mut out), Some(3840));
    let mut codes = FrameCodes::empty();
    assert_eq!(rt; read(&out, &mut codes), Ok(()));
    out[3839] ^= 1;
    assert_eq!(rt; read(&out, &mut codes), Err(FrameFault::BadCrc2(0x8005)));
    out[2399] ^= 1;
    assert_eq!(rt; read(&out, &mut codes), Err(FrameFault::BadCrc1(0x8005)));
    out[0] ^= 0x80;
    assert_eq!(rt;
        read(&out, &mut codes),
        Err(FrameFault::Field(Refused::BadSync))
    );
}

// ---- what is read is what was packed

/// The exponents and the codes of a block of a channel.
fn is_same_row(q: &Quantised, codes: &FrameCodes, c: u8, b: usize) -> bool
    requires { b < 6 }
{
    if c >= q.shape.coded() {
        return true;
    }
    let span = q.shape.span(c);
    let at = usize::from(c);
    for k in usize::from(span.start)..usize::from(span.end) {
        if codes.exps[at][b][k] != q.exps[at][b][k] || codes.codes[at][b][k] != q.codes[at][b][k] {
            return false;
        }
    }
    true
}

/// Those of all channels.
fn are_same_rows(q: &Quantised, codes: &FrameCodes, b: usize) -> bool
    requires { b < 6 }
{
    for c in 0..7u8 {
        if !is_same_row(q, codes, c, b) {
            return false;
        }
    }
    true
}

/// The strategies of a block.
fn are_same_strategies(q: &Quantised, codes: &FrameCodes, b: u8) -> bool
    requires { b < 6 }
{
    let block = &codes.block[usize::from(b)];
    let full = q.shape.full();
    for i in 0..full {
        if block.chexpstr[usize::from(i)] != q.assign.w[usize::from(i)].code(b) {
            return false;
        }
    }
    let shared = q.assign.w[usize::from(full)].code(b);
    let low = q.assign.w[usize::from(full) + usize::from(q.shape.couple.is_some())].code(b);
    (q.shape.couple.is_none() || block.cplexpstr == Some(shared))
        && (!q.shape.lfe || block.lfeexpstr == Some(low > 0))
}

/// The offset and the flags.
fn are_same_numbers(q: &Quantised, codes: &FrameCodes) -> bool {
    let block = &codes.block[0];
    for k in 0..4usize {
        if block.rematflg[k].is_some() && block.rematflg[k] != Some(q.remat[k]) {
            return false;
        }
    }
    let coarse = u16::from(block.csnroffst.unwrap_or(64));
    let fine = u16::from(block.fsnroffst[0].unwrap_or(16));
    16 * coarse + fine == q.t && (q.shape.acmod == 2) == block.rematflg[0].is_some()
}

/// The coordinates of a channel.
fn are_same_coordinates(q: &Quantised, codes: &FrameCodes, i: usize) -> bool
    requires { i < 5 }
{
    let block = &codes.block[0];
    for k in 0..18usize {
        let x = q.coords.of[i][k];
        if block.cplcoexp[i][k].is_some()
            && (block.cplcoexp[i][k] != Some(x.exp) || block.cplcomant[i][k] != Some(x.mant))
        {
            return false;
        }
    }
    (q.shape.couple.is_some() && i < usize::from(q.shape.full())) == block.cplcoexp[i][0].is_some()
}

fn is_back(q: &Quantised, codes: &FrameCodes) -> bool {
    for i in 0..5usize {
        if !are_same_coordinates(q, codes, i) {
            return false;
        }
    }
    for b in 0..6u8 {
        if !are_same_rows(q, codes, usize::from(b)) || !are_same_strategies(q, codes, b) {
            return false;
        }
    }
    are_same_numbers(q, codes)
}

#[test]
fn reading_a_packed_frame_gives_it_back(rt: HostRuntime) {
    let mut coefs = Coefs::zeros();
    let mut codes = FrameCodes::empty();
    let mut seen = [false; 8];
    for seed in 0..100u64 {
        let Some(mut q) = draw(seed, &mut coefs) else {
            continue;
        };
        let mut out = [0; FRAME_BYTES];
        let size = code(&coefs, &mut q, &mut out).expect(&rt, "these values have a frame");
        assert_eq!(rt; read(&out[..size], &mut codes), Ok(()), "seed {seed}");
        assert!(rt; is_back(&q, &codes), "seed {seed}");
        seen[usize::from(q.shape.acmod)] = true;
    }
    assert_eq!(rt; seen, [false, true, true, true, true, true, true, true]);
}
