//! A reading of nothing.
ghost use Rattle.std.specs.Prelude.{◌≡◌};
ghost use Rattle.ac_record.specs.Empty.{empty_head, empty_block, block_with};

use crate::codes::FrameCodes;
use ac_rows::{Block, Head};

/// No field.
fn no_head() -> Head
    ensures { result ≡ empty_head }
{
    Head {
        syncword: 0,
        crc1: 0,
        fscod: 0,
        frmsizecod: 0,
        bsid: 0,
        bsmod: 0,
        acmod: 0,
        cmixlev: None,
        surmixlev: None,
        dsurmod: None,
        lfeon: false,
        dialnorm: 0,
        compre: false,
        compr: None,
        langcode: false,
        langcod: None,
        audprodie: false,
        mixlevel: None,
        roomtyp: None,
        copyrightb: false,
        origbs: false,
        timecod1e: false,
        timecod1: None,
        timecod2e: false,
        timecod2: None,
        addbsie: false,
        addbsil: None,
    }
}

/// No field but these coordinates, in a function of its own since they are of any type here.
fn no_field_but<C: Copy>(cplcoexp: [[C; 18]; 5], cplcomant: [[C; 18]; 5]) -> Block<C>
    ensures { result ≡ block_with cplcoexp cplcomant }
{
    Block {
        blksw: [false; 5],
        dithflag: [false; 5],
        dynrnge: false,
        dynrng: None,
        cplstre: false,
        cplinu: None,
        chincpl: [None; 5],
        phsflginu: None,
        cplbegf: None,
        cplendf: None,
        cplbndstrc: [None; 18],
        cplcoe: [None; 5],
        mstrcplco: [None; 5],
        cplcoexp,
        cplcomant,
        phsflg: [None; 18],
        rematstr: None,
        rematflg: [None; 4],
        cplexpstr: None,
        chexpstr: [0; 5],
        lfeexpstr: None,
        chbwcod: [None; 5],
        cplabsexp: None,
        exps: [None; 5],
        gainrng: [None; 5],
        lfeexps: None,
        baie: false,
        sdcycod: None,
        fdcycod: None,
        sgaincod: None,
        dbpbcod: None,
        floorcod: None,
        snroffste: false,
        csnroffst: None,
        cplfsnroffst: None,
        cplfgaincod: None,
        fsnroffst: [None; 5],
        fgaincod: [None; 5],
        lfefsnroffst: None,
        lfefgaincod: None,
        cplleake: None,
        cplfleak: None,
        cplsleak: None,
        deltbaie: false,
        skiple: false,
        skipl: None,
    }
}

/// No field.
fn no_field() -> Block
    ensures { result ≡ empty_block }
{
    no_field_but([[None; 18]; 5], [[None; 18]; 5])
}

/// A reading of these parts, in a function of its own since they are of any type here.
fn made<B: Copy, R: Copy, C: Copy>(
    head: Head,
    block: [B; 6],
    rows: [R; 7],
    codes: [C; 7],
) -> FrameCodes<B, R, C>
    ensures { result ≡ record { head = head; block = block; exps = rows; baps = rows; codes = codes } }
{
    FrameCodes {
        head,
        block,
        exps: rows,
        baps: rows,
        codes,
    }
}

impl FrameCodes {
    ghost use Rattle.ac_record.specs.Empty.{empty_codes};

    /// A reading of nothing: 0, false and None everywhere.
    pub fn empty() -> FrameCodes
        ensures { result ≡ empty_codes }
    {
        let block = no_field();
        made(
            no_head(),
            [block; 6],
            [[[0; 256]; 6]; 7],
            [[[0; 256]; 6]; 7],
        )
    }
}
