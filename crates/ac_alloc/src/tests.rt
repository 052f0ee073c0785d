// Values of the standard's running form, by a program in another language, and of silence.
ghost use Rattle.std.specs.Prelude.{◌≤◌, ◌<◌, ℕ, slice_index};
ghost use Rattle.ac_base.specs.Shape.{IsSpan};

use crate::{Mask, Params, address, allocation_laws, bap_of, baps, key_laws, level, psd};
use ac_base::{Shape, Span, band_of};
use std::process::Abort;

/// A coded channel of two full channels with LFE.
fn span_at(rt: &impl Abort, chbwcod: u8, couple: Option<(u8, u8)>, channel: u8) -> Span
    ensures { IsSpan result }
{
    let shape = Shape::new(0, 2, true, chbwcod, couple, 768).expect(rt, "the shape is one");
    assert!(rt; channel < shape.coded());
    shape.span(channel)
}

/// Lists of exponents.
#[derive(Clone, Copy)]
enum Exponents {
    /// All 0.
    Zero,
    /// Those of silence by D45: 15, and two more each step of four bins, up to 24.
    Silence,
    /// By a seed, rising from low to high bins with steps of up to 2.
    Slope(u32),
    /// By a seed, of all sizes.
    Spread(u32),
}

impl Exponents {
    fn seed(self) -> u32 {
        match self {
            Exponents::Zero | Exponents::Silence => 0,
            Exponents::Slope(seed) | Exponents::Spread(seed) => seed,
        }
    }

    /// The exponent of a bin, by the number that was drawn for it.
    fn at(self, k: u32, drawn: u32) -> u8
        requires { k < 256 }
        ensures { result ≤ 24 }
    {
        match self {
            Exponents::Zero => 0,
            Exponents::Silence if k == 0 => 15,
            Exponents::Silence => (17 + (k - 1) / 4 * 2).min(24) as u8,
            Exponents::Slope(_) => (k / 12 + drawn % 3).min(24) as u8,
            Exponents::Spread(_) => (drawn % 25) as u8,
        }
    }

    fn list(self) -> [u8; 256]
        ensures { (k : ℕ) → k < 256 → slice_index result k ≤ 24 }
    {
        let mut exps = [0u8; 256];
        let mut x = self.seed();
        for k in 0..256u32 {
            x = x.wrapping_mul(1664525).wrapping_add(1013904223);
            exps[k as usize] = self.at(k, x >> 16);
        }
        exps
    }
}

/// Of the masks of a channel, by their order.
fn mask_checksum(mask: &Mask, span: &Span) -> u32
    requires { IsSpan span.now }
{
    let mut sum: u32 = 0;
    for b in band_of(span.start)..band_of(span.end - 1) + 1 {
        sum = sum
            .wrapping_mul(31)
            .wrapping_add(mask.m[b as usize].unsigned_abs());
    }
    sum
}

/// Of the pointers of a channel, by their order.
fn bap_checksum(pointers: &[u8; 256], span: &Span) -> u32 {
    let mut sum: u32 = 0;
    for k in span.start..span.end {
        sum = sum
            .wrapping_mul(31)
            .wrapping_add(u32::from(pointers[k as usize]));
    }
    sum
}

/// The parameters of nine codes.
fn params(rt: &impl Abort, codes: [u8; 9]) -> Params {
    let [
        fscod,
        sdcycod,
        fdcycod,
        sgaincod,
        dbpbcod,
        floorcod,
        fgaincod,
        cplfleak,
        cplsleak,
    ] = codes;
    assert!(rt; fscod <= 2 && sdcycod <= 3 && fdcycod <= 3 && sgaincod <= 3 && dbpbcod <= 3);
    assert!(rt; floorcod <= 7 && fgaincod <= 7 && cplfleak <= 7 && cplsleak <= 7);
    Params {
        fscod,
        sdcycod,
        fdcycod,
        sgaincod,
        dbpbcod,
        floorcod,
        fgaincod,
        cplfleak,
        cplsleak,
    }
}

#[test]
fn masks_and_baps_of_the_running_form(rt: HostRuntime) {
    for (chbwcod, couple, channel, codes, seed, slope, t, masks, pointers) in [
        (
            0,
            None,
            0,
            [0, 1, 2, 3, 0, 1, 7, 4, 5],
            0,
            true,
            270,
            2853223799,
            3920309679,
        ),
        (
            0,
            None,
            0,
            [1, 1, 1, 2, 2, 4, 7, 5, 5],
            0,
            false,
            238,
            1743071617,
            2420587863,
        ),
        (
            28,
            None,
            0,
            [2, 2, 3, 3, 2, 4, 5, 0, 0],
            1,
            true,
            300,
            122316252,
            2920980202,
        ),
        (
            28,
            None,
            0,
            [2, 1, 3, 2, 2, 7, 0, 5, 4],
            1,
            false,
            242,
            718949735,
            3478692481,
        ),
        (
            60,
            None,
            0,
            [0, 1, 3, 3, 0, 0, 3, 4, 4],
            2,
            true,
            233,
            1877027321,
            1341882794,
        ),
        (
            60,
            None,
            0,
            [1, 0, 1, 0, 1, 5, 2, 7, 1],
            2,
            false,
            340,
            3536984266,
            1569685471,
        ),
        (
            60,
            Some((0, 0)),
            0,
            [2, 0, 0, 3, 0, 0, 5, 0, 4],
            3,
            true,
            314,
            674254287,
            1044820263,
        ),
        (
            60,
            Some((0, 0)),
            0,
            [1, 1, 0, 3, 3, 3, 4, 5, 3],
            3,
            false,
            205,
            3733037969,
            3422053860,
        ),
        (
            60,
            Some((2, 15)),
            0,
            [1, 2, 2, 2, 2, 7, 4, 4, 2],
            4,
            true,
            197,
            427843989,
            2312011014,
        ),
        (
            60,
            Some((2, 15)),
            0,
            [1, 2, 2, 3, 2, 4, 2, 2, 0],
            4,
            false,
            258,
            1904538820,
            1518294911,
        ),
        (
            60,
            Some((15, 13)),
            0,
            [0, 1, 0, 3, 1, 7, 0, 2, 1],
            5,
            true,
            361,
            4267881158,
            3391731466,
        ),
        (
            60,
            Some((15, 13)),
            0,
            [1, 1, 2, 3, 2, 1, 2, 3, 4],
            5,
            false,
            266,
            4275206041,
            1722692936,
        ),
        (
            60,
            Some((0, 0)),
            2,
            [1, 2, 2, 0, 2, 2, 0, 6, 1],
            6,
            true,
            404,
            186255900,
            1502457536,
        ),
        (
            60,
            Some((0, 0)),
            2,
            [1, 0, 2, 1, 3, 6, 1, 6, 1],
            6,
            false,
            284,
            4195425383,
            1237246246,
        ),
        (
            60,
            Some((2, 15)),
            2,
            [2, 1, 0, 1, 0, 0, 7, 7, 0],
            7,
            true,
            289,
            2752568391,
            2442303618,
        ),
        (
            60,
            Some((2, 15)),
            2,
            [2, 1, 0, 0, 0, 0, 7, 7, 0],
            7,
            false,
            342,
            2758267926,
            4201959856,
        ),
        (
            60,
            Some((15, 15)),
            2,
            [0, 2, 3, 3, 1, 2, 0, 0, 7],
            8,
            true,
            302,
            88112,
            0,
        ),
        (
            60,
            Some((15, 15)),
            2,
            [0, 0, 0, 3, 2, 5, 7, 0, 7],
            8,
            false,
            413,
            81425,
            3928363406,
        ),
        (
            60,
            None,
            2,
            [2, 0, 0, 2, 3, 5, 4, 3, 0],
            9,
            true,
            162,
            1267450690,
            2751264420,
        ),
        (
            60,
            None,
            2,
            [2, 3, 1, 1, 3, 3, 2, 0, 6],
            9,
            false,
            242,
            3942579005,
            3697928,
        ),
        (
            60,
            Some((0, 15)),
            3,
            [1, 2, 2, 0, 3, 2, 2, 0, 3],
            10,
            true,
            404,
            2686986752,
            580936778,
        ),
        (
            60,
            Some((0, 15)),
            3,
            [2, 2, 2, 0, 3, 5, 5, 0, 2],
            10,
            false,
            197,
            2567018297,
            923676,
        ),
    ] {
        let span = span_at(&rt, chbwcod, couple, channel);
        let p = params(&rt, codes);
        let exps = if slope {
            Exponents::Slope(seed).list()
        } else {
            Exponents::Spread(seed).list()
        };
        let mask = Mask::of(&p, &span, &exps);
        assert_eq!(rt;
            mask_checksum(&mask, &span),
            masks,
            "masks of {span:?} by {p:?}"
        );
        let mut out = [9u8; 256];
        assert!(rt; t <= 1023);
        baps(&mask, &span, &exps, t, false, &mut out);
        assert_eq!(rt;
            bap_checksum(&out, &span),
            pointers,
            "baps of {span:?} by {p:?} at {t}"
        );
        assert!(rt; out[253] == 9);
    }
    allocation_laws();
    key_laws();
}

// As the encoder's frames carry them in block 0.
#[test]
fn codes_of_the_encoder(rt: HostRuntime) {
    for fscod in 0..3u8 {
        assert!(rt; Params::encoder(fscod) == params(&rt, [fscod, 2, 1, 1, 3, 7, 4, 0, 0]));
    }
}

#[test]
fn lfe_masks(rt: HostRuntime) {
    let span = span_at(&rt, 60, None, 2);
    let mask = Mask::of(&Params::encoder(0), &span, &Exponents::Zero.list());
    for b in 0..7 {
        assert_eq!(rt; mask.m[b], 2432, "band {b}");
    }
}

/// The pointers of LFE at 48 kHz for exponents of 0, among nines.
fn lfe_pointers(rt: &impl Abort, t: u16, silent: bool) -> [u8; 256]
    requires { t ≤ 1023 }
{
    let span = span_at(rt, 60, None, 2);
    let exps = Exponents::Zero.list();
    let mask = Mask::of(&Params::encoder(0), &span, &exps);
    let mut out = [9u8; 256];
    baps(&mask, &span, &exps, t, silent, &mut out);
    out
}

#[test]
fn lfe_baps(rt: HostRuntime) {
    for (t, want) in [(0, 0), (240, 7), (400, 12), (1023, 15)] {
        assert!(rt; t <= 1023);
        let out = lfe_pointers(&rt, t, false);
        for k in 0..7 {
            assert_eq!(rt; out[k], want, "bin {k} at {t}");
        }
        assert_eq!(rt; out[7], 9);
        let at_level = bap_of(level(2432, -2048, t), psd(0));
        assert_eq!(rt; at_level, want, "by the level at {t}");
    }
}

#[test]
fn lfe_baps_silenced(rt: HostRuntime) {
    for t in [0, 240, 1023] {
        assert!(rt; t <= 1023);
        let out = lfe_pointers(&rt, t, true);
        for k in 0..7 {
            assert_eq!(rt; out[k], 0, "bin {k} at {t}");
        }
        assert_eq!(rt; out[7], 9);
    }
}

#[test]
fn silence_baps_top(rt: HostRuntime) {
    let exps = Exponents::Silence.list();
    let span = span_at(&rt, 60, None, 0);
    let mask = Mask::of(&Params::encoder(2), &span, &exps);
    let mut out = [9u8; 256];
    baps(&mask, &span, &exps, 1023, false, &mut out);
    for k in 0..253 {
        assert_eq!(rt; out[k], 15, "bin {k}");
    }
    assert_eq!(rt; out[253], 9);
}

#[test]
fn addresses_of_lfe(rt: HostRuntime) {
    for (t, want) in [
        (0, 0),
        (240, 20),
        (400, 40),
        (576, 62),
        (584, 63),
        (592, 63),
        (1023, 63),
    ] {
        assert!(rt; t <= 1023);
        let place = address(2432, -2048, 3072, t);
        assert_eq!(rt; place, want, "at {t}");
    }
}
