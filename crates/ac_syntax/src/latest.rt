//! The latest value of each field that may be reused (A/52 5.4.3).
ghost use Rattle.std.specs.Prelude.{◌≡◌, ◌<◌, [], Option, None, slice_index_or};
ghost use Rattle.std.specs.Option.{option_or};
ghost use Rattle.ac_rows.specs.Filled.{entry, listed};
ghost use Rattle.ac_syntax.specs.Latest.{over, latest_block};

use ac_expo::Spelled;
use ac_rows::Block;

/// Channel by channel, its own value or else the one kept.
#[tactic(auto, unfolding(ac_rows::specs::Filled::listed))]
fn flags(own: &[Option<bool>; 5], kept: &[Option<bool>; 5]) -> [Option<bool>; 5]
    ensures { result ≡ listed 5 0 (λ i. option_or (entry own.now i) (entry kept.now i)) }
{
    [
        own[0].or(kept[0]),
        own[1].or(kept[1]),
        own[2].or(kept[2]),
        own[3].or(kept[3]),
        own[4].or(kept[4]),
    ]
}

/// The same of numbers.
#[tactic(auto, unfolding(ac_rows::specs::Filled::listed))]
fn numbers(own: &[Option<u8>; 5], kept: &[Option<u8>; 5]) -> [Option<u8>; 5]
    ensures { result ≡ listed 5 0 (λ i. option_or (entry own.now i) (entry kept.now i)) }
{
    [
        own[0].or(kept[0]),
        own[1].or(kept[1]),
        own[2].or(kept[2]),
        own[3].or(kept[3]),
        own[4].or(kept[4]),
    ]
}

/// The same of exponents.
#[tactic(auto, unfolding(ac_rows::specs::Filled::listed))]
fn lists(own: &[Option<Spelled>; 5], kept: &[Option<Spelled>; 5]) -> [Option<Spelled>; 5]
    ensures { result ≡ listed 5 0 (λ i. option_or (entry own.now i) (entry kept.now i)) }
{
    [
        own[0].or(kept[0]),
        own[1].or(kept[1]),
        own[2].or(kept[2]),
        own[3].or(kept[3]),
        own[4].or(kept[4]),
    ]
}

/// The same by rematrix band.
#[tactic(auto, unfolding(ac_rows::specs::Filled::listed))]
fn rematrix_flags(own: &[Option<bool>; 4], kept: &[Option<bool>; 4]) -> [Option<bool>; 4]
    ensures { result ≡ listed 4 0 (λ i. option_or (entry own.now i) (entry kept.now i)) }
{
    [
        own[0].or(kept[0]),
        own[1].or(kept[1]),
        own[2].or(kept[2]),
        own[3].or(kept[3]),
    ]
}

/// The same by band or subband.
fn band_flags(own: &[Option<bool>; 18], kept: &[Option<bool>; 18]) -> [Option<bool>; 18]
    ensures { result ≡ listed 18 0 (λ k. option_or (entry own.now k) (entry kept.now k)) }
{
    let mut all = [None; 18];
    for k in 0..18 {
        all[k] = own[k].or(kept[k]);
    }
    all
}

/// The same by band or subband.
fn band_numbers(own: &[Option<u8>; 18], kept: &[Option<u8>; 18]) -> [Option<u8>; 18]
    ensures { result ≡ listed 18 0 (λ k. option_or (entry own.now k) (entry kept.now k)) }
{
    let mut all = [None; 18];
    for k in 0..18 {
        all[k] = own[k].or(kept[k]);
    }
    all
}

/// The same by channel and band.
#[tactic(auto, unfolding(ac_rows::specs::Filled::listed))]
fn coordinates(own: &[[Option<u8>; 18]; 5], kept: &[[Option<u8>; 18]; 5]) -> [[Option<u8>; 18]; 5]
    ensures { result ≡ listed 5 0 (λ i. listed 18 0
        (λ k. option_or (entry (slice_index_or own.now i []) k) (entry (slice_index_or kept.now i []) k))) }
{
    [
        band_numbers(&own[0], &kept[0]),
        band_numbers(&own[1], &kept[1]),
        band_numbers(&own[2], &kept[2]),
        band_numbers(&own[3], &kept[3]),
        band_numbers(&own[4], &kept[4]),
    ]
}

/// The values kept so far, under those of one block more: its own where it has them.
fn over(b: &Block, kept: &Block) -> Block
    ensures { result ≡ over b.now kept.now }
{
    let mut all = *kept;
    all.cplinu = b.cplinu.or(kept.cplinu);
    all.chincpl = flags(&b.chincpl, &kept.chincpl);
    all.phsflginu = b.phsflginu.or(kept.phsflginu);
    all.cplbegf = b.cplbegf.or(kept.cplbegf);
    all.cplendf = b.cplendf.or(kept.cplendf);
    all.cplbndstrc = band_flags(&b.cplbndstrc, &kept.cplbndstrc);
    all.mstrcplco = numbers(&b.mstrcplco, &kept.mstrcplco);
    all.cplcoexp = coordinates(&b.cplcoexp, &kept.cplcoexp);
    all.cplcomant = coordinates(&b.cplcomant, &kept.cplcomant);
    all.phsflg = band_flags(&b.phsflg, &kept.phsflg);
    all.rematflg = rematrix_flags(&b.rematflg, &kept.rematflg);
    all.chbwcod = numbers(&b.chbwcod, &kept.chbwcod);
    all.cplabsexp = b.cplabsexp.or(kept.cplabsexp);
    all.exps = lists(&b.exps, &kept.exps);
    all.lfeexps = b.lfeexps.or(kept.lfeexps);
    all.sdcycod = b.sdcycod.or(kept.sdcycod);
    all.fdcycod = b.fdcycod.or(kept.fdcycod);
    all.sgaincod = b.sgaincod.or(kept.sgaincod);
    all.dbpbcod = b.dbpbcod.or(kept.dbpbcod);
    all.floorcod = b.floorcod.or(kept.floorcod);
    all.csnroffst = b.csnroffst.or(kept.csnroffst);
    all.cplfsnroffst = b.cplfsnroffst.or(kept.cplfsnroffst);
    all.cplfgaincod = b.cplfgaincod.or(kept.cplfgaincod);
    all.fsnroffst = numbers(&b.fsnroffst, &kept.fsnroffst);
    all.fgaincod = numbers(&b.fgaincod, &kept.fgaincod);
    all.lfefsnroffst = b.lfefsnroffst.or(kept.lfefsnroffst);
    all.lfefgaincod = b.lfefgaincod.or(kept.lfefgaincod);
    all.cplfleak = b.cplfleak.or(kept.cplfleak);
    all.cplsleak = b.cplsleak.or(kept.cplsleak);
    all
}

/// None of these.
#[tactic(auto, unfolding(ac_rows::specs::Filled::listed))]
fn no_flags() -> [Option<bool>; 5]
    ensures { result ≡ listed 5 0 (λ _. None) }
{
    [None; 5]
}

/// None of these.
#[tactic(auto, unfolding(ac_rows::specs::Filled::listed))]
fn no_numbers() -> [Option<u8>; 5]
    ensures { result ≡ listed 5 0 (λ _. None) }
{
    [None; 5]
}

/// None of these.
#[tactic(auto, unfolding(ac_rows::specs::Filled::listed))]
fn no_lists() -> [Option<Spelled>; 5]
    ensures { result ≡ listed 5 0 (λ _. None) }
{
    [None; 5]
}

/// None of these.
#[tactic(auto, unfolding(ac_rows::specs::Filled::listed))]
fn no_band_flags() -> [Option<bool>; 18]
    ensures { result ≡ listed 18 0 (λ _. None) }
{
    [None; 18]
}

/// None of these.
#[tactic(auto, unfolding(ac_rows::specs::Filled::listed))]
fn no_rematrix_flags() -> [Option<bool>; 4]
    ensures { result ≡ listed 4 0 (λ _. None) }
{
    [None; 4]
}

/// No coordinates.
#[tactic(auto, unfolding(ac_rows::specs::Filled::listed))]
fn no_coordinates() -> [[Option<u8>; 18]; 5]
    ensures { result ≡ listed 5 0 (λ i. listed 18 0 (λ k. None)) }
{
    [[None; 18]; 5]
}

/// Nothing kept; the fields that aren't reused are those of the block.
#[tactic(auto, unfolding(crate::specs::Latest::latest_block, ac_rows::specs::Filled::listed, ac_rows::specs::Filled::latest_in))]
fn nothing(block: &Block) -> Block
    ensures { result ≡ latest_block block.now [] }
{
    let mut all = *block;
    all.cplinu = None;
    all.chincpl = no_flags();
    all.phsflginu = None;
    all.cplbegf = None;
    all.cplendf = None;
    all.cplbndstrc = no_band_flags();
    all.mstrcplco = no_numbers();
    all.cplcoexp = no_coordinates();
    all.cplcomant = no_coordinates();
    all.phsflg = no_band_flags();
    all.rematflg = no_rematrix_flags();
    all.chbwcod = no_numbers();
    all.cplabsexp = None;
    all.exps = no_lists();
    all.lfeexps = None;
    all.sdcycod = None;
    all.fdcycod = None;
    all.sgaincod = None;
    all.dbpbcod = None;
    all.floorcod = None;
    all.csnroffst = None;
    all.cplfsnroffst = None;
    all.cplfgaincod = None;
    all.fsnroffst = no_numbers();
    all.fgaincod = no_numbers();
    all.lfefsnroffst = None;
    all.lfefgaincod = None;
    all.cplfleak = None;
    all.cplsleak = None;
    all
}

/// What these blocks have last; the fields that aren't reused are those of the block.
pub fn latest(block: &Block, earlier: &[Block]) -> Block
    ensures { result ≡ latest_block block.now earlier.now }
{
    let mut kept = nothing(block);
    for before in earlier {
        kept = over(before, &kept);
    }
    kept
}
