ghost use Rattle.std.specs.Prelude.{◌≡◌, ◌<◌, ◌^◌, ℕ, [], ◌∷◌, Some, None, true, unsigned_abs};
ghost use Rattle.ac_energy.specs.Coefficients.{entry};
ghost use Rattle.ac_energy.specs.Energy.{AreSmallIn};
ghost use Rattle.ac_rows.specs.declared.head.Head.{Head};
ghost use Rattle.ac_rows.specs.Filled.{spans_of, HasSpans};

use super::{uncouple, unrematrix};
use ac_base::{Coefs, Lead, Span};
use ac_rows::Block;

/// Each coefficient 0.
fn silence() -> Coefs
    ensures { (c : ℕ) → AreSmallIn (entry result.c c) 0 256 }
{
    Coefs::zeros()
}

fn put(coefs: &mut Coefs, c: usize, k: usize, x: i32)
    requires channel { c < 7 }
    requires bin { k < 256 }
    requires small { unsigned_abs x < 2 ^ 24 }
    requires before { (c : ℕ) → AreSmallIn (entry coefs.old.c c) 0 256 }
    ensures { (c : ℕ) → AreSmallIn (entry coefs.new.c c) 0 256 }
{
    coefs.c[c][1][k] = x;
}

/// Two channels that are coupled in three subbands from bin 49 on, in a function of its own since the coordinates are of any type here.
fn two_coupled<C: Copy>(cplcoexp: [[C; 18]; 5], cplcomant: [[C; 18]; 5]) -> Block<C>
    ensures used { result.cplinu ≡ Some true }
    ensures coupled { result.chincpl ≡ Some true ∷ Some true ∷ None ∷ None ∷ None ∷ [] }
    ensures begin { result.cplbegf ≡ Some 1 }
    ensures end { result.cplendf ≡ Some 1 }
{
    Block {
        blksw: [false; 5],
        dithflag: [false; 5],
        dynrnge: false,
        dynrng: None,
        cplstre: true,
        cplinu: Some(true),
        chincpl: [Some(true), Some(true), None, None, None],
        phsflginu: Some(true),
        cplbegf: Some(1),
        cplendf: Some(1),
        cplbndstrc: [None; 18],
        cplcoe: [None; 5],
        mstrcplco: [None; 5],
        cplcoexp,
        cplcomant,
        phsflg: [None; 18],
        rematstr: None,
        rematflg: [None; 4],
        cplexpstr: None,
        chexpstr: [0; 5],
        lfeexpstr: None,
        chbwcod: [None; 5],
        cplabsexp: None,
        exps: [None; 5],
        gainrng: [None; 5],
        lfeexps: None,
        baie: false,
        sdcycod: None,
        fdcycod: None,
        sgaincod: None,
        dbpbcod: None,
        floorcod: None,
        snroffste: false,
        csnroffst: None,
        cplfsnroffst: None,
        cplfgaincod: None,
        fsnroffst: [None; 5],
        fgaincod: [None; 5],
        lfefsnroffst: None,
        lfefgaincod: None,
        cplleake: None,
        cplfleak: None,
        cplsleak: None,
        deltbaie: false,
        skiple: false,
        skipl: None,
    }
}

/// The same with its spans.
fn with_spans() -> (Block, [Span; 7])
    ensures { (h : Head) × (result.1 ≡ spans_of h result.0) × HasSpans h result.0 }
{
    let blank = Span {
        start: 0,
        end: 0,
        lead: Lead::Free,
    };
    let own = Span {
        start: 0,
        end: 49,
        lead: Lead::Coupled,
    };
    let shared = Span {
        start: 49,
        end: 85,
        lead: Lead::Coupling,
    };
    let block = two_coupled([[None; 18]; 5], [[None; 18]; 5]);
    (block, [own, own, shared, blank, blank, blank, blank])
}

/// By hand: factors 4 and 15 / 2^16 of the left channel, 3 / 8 and 1 / 2 of the right one, which is turned in the second band.
#[test]
fn coupled_channels_by_band(rt: HostRuntime) {
    let (mut block, spans) = with_spans();
    block.cplbndstrc[1] = Some(true);
    block.cplbndstrc[2] = Some(false);
    block.phsflg[0] = Some(false);
    block.phsflg[1] = Some(true);
    block.mstrcplco[0] = Some(0);
    block.cplcoexp[0][0] = Some(0);
    block.cplcomant[0][0] = Some(0);
    block.cplcoexp[0][1] = Some(15);
    block.cplcomant[0][1] = Some(15);
    block.mstrcplco[1] = Some(1);
    block.cplcoexp[1][0] = Some(1);
    block.cplcomant[1][0] = Some(8);
    block.cplcoexp[1][1] = Some(0);
    block.cplcomant[1][1] = Some(0);
    let cases = [
        (48, 5, 0, 0),
        (49, 10, 40, 3),
        (50, 4194305, 16777216, 1572864),
        (51, -4194305, -16777216, -1572865),
        (60, -10, -40, -4),
        (61, 7, 28, 2),
        (72, -7, -28, -3),
        (73, 8739, 2, -4369),
        (84, -8739, -3, 4370),
        (85, 5, 0, 0),
    ];
    let mut values = silence();
    for (bin, shared, _, _) in cases {
        if bin < 256 && shared < 1 << 24 && shared > -(1 << 24) {
            put(&mut values, 2, bin, shared);
        }
    }
    uncouple(&mut values, &block, &spans, 1);
    for (bin, shared, left, right) in cases {
        if bin < 256 {
            assert_eq!(rt;
                values.c[2][1][bin],
                shared,
                "the coupling channel at bin {bin}"
            );
            assert_eq!(rt; values.c[0][1][bin], left, "left at bin {bin}");
            assert_eq!(rt; values.c[1][1][bin], right, "right at bin {bin}");
        }
    }
}

/// By hand: the first and the third band have sum and difference, and the third one is cut where the coupling channel begins. Of
/// 7 and 4, and of -3 and 8, halves were sent.
#[test]
fn rematrixed_channels_by_band(rt: HostRuntime) {
    let (mut block, spans) = with_spans();
    block.rematflg = [Some(true), Some(false), Some(true), None];
    let cases = [
        (12, 5, 1, 5, 1),
        (13, 5, 1, 6, 4),
        (14, 2, -6, -4, 8),
        (15, 16777215, 2, 16777216, 16777213),
        (16, -16777215, 5, -16777210, -16777216),
        (24, -7, 3, -4, -10),
        (25, 5, 1, 5, 1),
        (36, 5, 1, 5, 1),
        (37, 5, 2, 7, 3),
        (48, 5, 2, 7, 3),
        (49, 5, 1, 5, 1),
    ];
    let mut values = silence();
    for (bin, l, r, _, _) in cases {
        if bin < 256 && l < 1 << 24 && l > -(1 << 24) && r < 1 << 24 && r > -(1 << 24) {
            put(&mut values, 0, bin, l);
            put(&mut values, 1, bin, r);
        }
    }
    unrematrix(&mut values, &block, &spans, 1);
    for (bin, _, _, left, right) in cases {
        if bin < 256 {
            assert_eq!(rt; values.c[0][1][bin], left, "left at bin {bin}");
            assert_eq!(rt; values.c[1][1][bin], right, "right at bin {bin}");
        }
    }
}
