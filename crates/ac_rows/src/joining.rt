//! A block of its groups.
ghost use Rattle.std.specs.Prelude.{◌≡◌};
ghost use Rattle.ac_rows.specs.Groups.{block_of, block_with};

use crate::block::Block;
use crate::groups::{Allocation, Codes, Exponents, Rest, Shared, Start, Strategy};
use ac_expo::Spelled;

/// A block with these coordinates, in a function of its own since its arrays are of any type here.
fn join_with<C: Copy>(
    a: &Start,
    b: &Strategy,
    c: &Shared,
    d: &Codes,
    e: &Exponents,
    f: &Allocation,
    g: &Rest,
    exps: [Option<Spelled>; 5],
    cplcoexp: [[C; 18]; 5],
    cplcomant: [[C; 18]; 5],
) -> Block<C>
    requires { exps ≡ e.now.exps }
    ensures { result ≡ block_with a.now b.now c.now d.now e.now f.now g.now cplcoexp cplcomant }
{
    Block {
        blksw: a.blksw,
        dithflag: a.dithflag,
        dynrnge: a.dynrnge,
        dynrng: a.dynrng,
        cplstre: b.cplstre,
        cplinu: b.cplinu,
        chincpl: b.chincpl,
        phsflginu: b.phsflginu,
        cplbegf: b.cplbegf,
        cplendf: b.cplendf,
        cplbndstrc: b.cplbndstrc,
        cplcoe: c.cplcoe,
        mstrcplco: c.mstrcplco,
        cplcoexp,
        cplcomant,
        phsflg: c.phsflg,
        rematstr: d.rematstr,
        rematflg: d.rematflg,
        cplexpstr: d.cplexpstr,
        chexpstr: d.chexpstr,
        lfeexpstr: d.lfeexpstr,
        chbwcod: d.chbwcod,
        cplabsexp: e.cplabsexp,
        exps,
        gainrng: e.gainrng,
        lfeexps: e.lfeexps,
        baie: f.baie,
        sdcycod: f.sdcycod,
        fdcycod: f.fdcycod,
        sgaincod: f.sgaincod,
        dbpbcod: f.dbpbcod,
        floorcod: f.floorcod,
        snroffste: f.snroffste,
        csnroffst: f.csnroffst,
        cplfsnroffst: f.cplfsnroffst,
        cplfgaincod: f.cplfgaincod,
        fsnroffst: f.fsnroffst,
        fgaincod: f.fgaincod,
        lfefsnroffst: f.lfefsnroffst,
        lfefgaincod: f.lfefgaincod,
        cplleake: f.cplleake,
        cplfleak: f.cplfleak,
        cplsleak: f.cplsleak,
        deltbaie: g.deltbaie,
        skiple: g.skiple,
        skipl: g.skipl,
    }
}

/// A block of its groups.
pub fn join(
    a: &Start,
    b: &Strategy,
    c: &Shared,
    d: &Codes,
    e: &Exponents,
    f: &Allocation,
    g: &Rest,
) -> Block
    ensures { result ≡ block_of a.now b.now c.now d.now e.now f.now g.now }
{
    let [first, second, third, fourth, fifth] = e.exps;
    let exps = [first, second, third, fourth, fifth];
    join_with(a, b, c, d, e, f, g, exps, c.cplcoexp, c.cplcomant)
}
