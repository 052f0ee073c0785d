ghost use Rattle.std.specs.Prelude.{◌≡◌, ◌≤◌, ◌+◌, length, replicate, false, IfOk};
ghost use Rattle.ac_rows.specs.HeadRows.{head_fields, whole_head, addbsi_bits};
ghost use Rattle.ac_rows.specs.BlockRows.{block_fields, whole_block, skip_bits, AreLawful};

use super::*;
use ac_bits::{BitSink, BitSource};
use ac_expo::Spelled;
use ac_rows::channels::{center, full_channels, stereo, surround};
use ac_rows::free_bits::{extra, skipped};
use ac_rows::span::{full_span, next_span};

mod frames;
mod refusals;

use frames::*;
use refusals::*;

// Digests are FNV-1a of 64 bits over the fields as numbers of eight bytes, least significant byte first; 9999 stands for a
// field that isn't there.

fn push(mut h: u64, mut n: u64) -> u64 {
    for _i in 0..8 {
        h = (h ^ (n % 256)).wrapping_mul(0x100000001b3);
        n /= 256;
    }
    h
}

fn push_flag(h: u64, b: bool) -> u64 {
    push(h, b as u64)
}

fn push_number(h: u64, o: Option<u8>) -> u64 {
    match o {
        Some(v) => push(h, v as u64),
        None => push(h, 9999)
    }
}

fn push_wide(h: u64, o: Option<u16>) -> u64 {
    match o {
        Some(v) => push(h, v as u64),
        None => push(h, 9999)
    }
}

fn push_option(h: u64, o: Option<bool>) -> u64 {
    match o {
        Some(v) => push(h, v as u64),
        None => push(h, 9999)
    }
}

fn bytes_digest(bs: &[u8]) -> u64 {
    let mut h: u64 = 0xcbf29ce484222325;
    for b in bs {
        h = (h ^ (*b as u64)).wrapping_mul(0x100000001b3);
    }
    h
}

fn push_spelled(h: u64, o: &Option<Spelled>) -> u64 {
    match o {
        Some(s) => {
            let h = push(h, s.first() as u64);
            let h = push(h, s.len() as u64);
            push(h, bytes_digest(s.groups()))
        }
        None => {
            let h = push(h, 9999);
            let h = push(h, 0);
            push(h, 0)
        }
    }
}

fn flags5(h: u64, x: &[bool; 5]) -> u64 {
    let mut h = h;
    for b in x {
        h = push_flag(h, *b);
    }
    h
}

fn options5(h: u64, x: &[Option<bool>; 5]) -> u64 {
    let mut h = h;
    for b in x {
        h = push_option(h, *b);
    }
    h
}

fn numbers5(h: u64, x: &[Option<u8>; 5]) -> u64 {
    let mut h = h;
    for b in x {
        h = push_number(h, *b);
    }
    h
}

fn options18(h: u64, x: &[Option<bool>; 18]) -> u64 {
    let mut h = h;
    for b in x {
        h = push_option(h, *b);
    }
    h
}

fn numbers18(h: u64, x: &[Option<u8>; 18]) -> u64 {
    let mut h = h;
    for b in x {
        h = push_number(h, *b);
    }
    h
}

fn head_digest(x: &Head) -> u64 {
    let h: u64 = 0xcbf29ce484222325;
    let h = push(h, x.syncword as u64);
    let h = push(h, x.crc1 as u64);
    let h = push(h, x.fscod as u64);
    let h = push(h, x.frmsizecod as u64);
    let h = push(h, x.bsid as u64);
    let h = push(h, x.bsmod as u64);
    let h = push(h, x.acmod as u64);
    let h = push_number(h, x.cmixlev);
    let h = push_number(h, x.surmixlev);
    let h = push_number(h, x.dsurmod);
    let h = push_flag(h, x.lfeon);
    let h = push(h, x.dialnorm as u64);
    let h = push_flag(h, x.compre);
    let h = push_number(h, x.compr);
    let h = push_flag(h, x.langcode);
    let h = push_number(h, x.langcod);
    let h = push_flag(h, x.audprodie);
    let h = push_number(h, x.mixlevel);
    let h = push_number(h, x.roomtyp);
    let h = push_flag(h, x.copyrightb);
    let h = push_flag(h, x.origbs);
    let h = push_flag(h, x.timecod1e);
    let h = push_wide(h, x.timecod1);
    let h = push_flag(h, x.timecod2e);
    let h = push_wide(h, x.timecod2);
    let h = push_flag(h, x.addbsie);
    push_number(h, x.addbsil)
}

fn block_digest(b: &Block) -> u64 {
    let h: u64 = 0xcbf29ce484222325;
    let h = flags5(h, &b.blksw);
    let h = flags5(h, &b.dithflag);
    let h = push_flag(h, b.dynrnge);
    let h = push_number(h, b.dynrng);
    let h = push_flag(h, b.cplstre);
    let h = push_option(h, b.cplinu);
    let h = options5(h, &b.chincpl);
    let h = push_option(h, b.phsflginu);
    let h = push_number(h, b.cplbegf);
    let h = push_number(h, b.cplendf);
    let h = options18(h, &b.cplbndstrc);
    let h = options5(h, &b.cplcoe);
    let h = numbers5(h, &b.mstrcplco);
    let mut h = h;
    for i in 0..5 {
        h = numbers18(h, &b.cplcoexp[i]);
    }
    for i in 0..5 {
        h = numbers18(h, &b.cplcomant[i]);
    }
    let h = options18(h, &b.phsflg);
    let h = push_option(h, b.rematstr);
    let mut h = h;
    for i in 0..4 {
        h = push_option(h, b.rematflg[i]);
    }
    let h = push_number(h, b.cplexpstr);
    let mut h = h;
    for i in 0..5 {
        h = push(h, b.chexpstr[i] as u64);
    }
    let h = push_option(h, b.lfeexpstr);
    let h = numbers5(h, &b.chbwcod);
    let h = push_spelled(h, &b.cplabsexp);
    let mut h = h;
    for i in 0..5 {
        h = push_spelled(h, &b.exps[i]);
    }
    let h = numbers5(h, &b.gainrng);
    let h = push_spelled(h, &b.lfeexps);
    let h = push_flag(h, b.baie);
    let h = push_number(h, b.sdcycod);
    let h = push_number(h, b.fdcycod);
    let h = push_number(h, b.sgaincod);
    let h = push_number(h, b.dbpbcod);
    let h = push_number(h, b.floorcod);
    let h = push_flag(h, b.snroffste);
    let h = push_number(h, b.csnroffst);
    let h = push_number(h, b.cplfsnroffst);
    let h = push_number(h, b.cplfgaincod);
    let h = numbers5(h, &b.fsnroffst);
    let h = numbers5(h, &b.fgaincod);
    let h = push_number(h, b.lfefsnroffst);
    let h = push_number(h, b.lfefgaincod);
    let h = push_option(h, b.cplleake);
    let h = push_number(h, b.cplfleak);
    let h = push_number(h, b.cplsleak);
    let h = push_flag(h, b.deltbaie);
    let h = push_flag(h, b.skiple);
    push_wide(h, b.skipl)
}

fn pass_over(source: &mut BitSource, count: u32) {
    for _i in 0..count {
        let _ = source.take(1);
    }
}

/// Reads a block and passes over its mantissas.
fn next(
    head: &Head,
    earlier: &[Block],
    source: &mut BitSource,
    mants: u32,
) -> Result<Block, Refused>
    requires head { head_fields.Lawful head.now }
    requires earlier { AreLawful head.now earlier.now }
    requires count { length earlier.now ≤ 5 }
    ensures lawful { IfOk result (λ b. (block_fields head.now earlier.now).Lawful b) }
    ensures len { IfOk result (λ b. length ((whole_block head.now earlier.now).spell (
      b,
      replicate
          (skip_bits b) false,
    )) ≤ length source.old) }
{
    let block = read_block(head, earlier, source)?;
    pass_over(source, mants);
    Ok(block)
}

fn heads(source: &mut BitSource) -> Result<Head, Refused>
    ensures lawful { IfOk result (λ h. head_fields.Lawful h) }
    ensures len { IfOk result (λ h. length source.old
        ≡ length (whole_head.spell (h, replicate (addbsi_bits h) false)) + length source.new) }
{
    read_head(source)
}

/// The bits before the last 18 of a frame.
fn source_of(bytes: &[u8]) -> BitSource<'_>
    ensures { length result ≤ 30702 }
{
    let count = bytes.len().min(3840);
    BitSource::new(bytes, (8 * count as u32).saturating_sub(18))
}

/// The digests of the fields of the head and of each block, where the blocks have so many bits of mantissas.
fn digests(bytes: &[u8], mants: &[u32; 6]) -> Result<(u64, [u64; 6]), Refused> {
    let mut source = source_of(bytes);
    let head = heads(&mut source)?;
    let a = next(&head, &[], &mut source, mants[0])?;
    let b = next(&head, &[a], &mut source, mants[1])?;
    let c = next(&head, &[a, b], &mut source, mants[2])?;
    let d = next(&head, &[a, b, c], &mut source, mants[3])?;
    let e = next(&head, &[a, b, c, d], &mut source, mants[4])?;
    let f = next(&head, &[a, b, c, d, e], &mut source, mants[5])?;
    Ok((
        head_digest(&head),
        [
            block_digest(&a),
            block_digest(&b),
            block_digest(&c),
            block_digest(&d),
            block_digest(&e),
            block_digest(&f),
        ],
    ))
}

/// The first refusal in the head and in block 0.
fn first(bytes: &[u8]) -> Option<Refused> {
    let mut source = if bytes.len() == 6 {
        BitSource::new(bytes, 48)
    } else {
        source_of(bytes)
    };
    match heads(&mut source) {
        Ok(head) => match read_block(&head, &[], &mut source) {
            Ok(_) => None,
            Err(e) => Some(e),
        },
        Err(e) => Some(e),
    }
}

#[test]
fn fields_of_frames(rt: HostRuntime) {
    for i in 0..60usize {
        let from = ENDS[i];
        let to = ENDS[i + 1];
        assert!(rt; from <= to && to <= FRAMES.len());
        let found = &FOUND[i];
        assert_eq!(rt;
            digests(&FRAMES[from..to], &found.mantissas),
            Ok((found.head, found.blocks)),
            "frame {i}"
        );
    }
}

#[test]
fn first_refused_fields(rt: HostRuntime) {
    for i in 0..60usize {
        let from = STREAM_ENDS[i];
        let to = STREAM_ENDS[i + 1];
        assert!(rt; from <= to && to <= STREAMS.len());
        assert_eq!(rt; first(&STREAMS[from..to]), Some(REFUSALS[i]), "stream {i}");
    }
}

/// Head and block 0 of a frame have 264 bits, of which none are free.
#[test]
fn fields_written_back(rt: HostRuntime) {
    let frame = &FRAMES[..140];
    let mut source = source_of(frame);
    if let Ok(head) = heads(&mut source)
        && let Ok(block) = next(&head, &[], &mut source, 0)
    {
        let mut sink = BitSink::new();
        write_head(&head, &mut sink);
        write_block(&head, &[], &block, &mut sink);
        assert_eq!(rt; sink.len(), 264);
        let mut out = [0; 3840];
        let count = sink.bytes(&mut out);
        assert_eq!(rt; &out[..count], &frame[..33]);
    } else {
        assert!(rt; false);
    }
}

/// Six bytes of a second program whose bsid is 10: it stands behind 40 bits.
#[test]
fn source_stands_where_the_refused_field_began(rt: HostRuntime) {
    let bytes = [11, 119, 1, 2, 0, 80];
    let mut source = BitSource::new(&bytes, 48);
    assert_eq!(rt; read_head(&mut source), Err(Refused::BadBsid(10)));
    assert_eq!(rt; source.left(), 8);
}

/// A/52 Table 5.8, and the fields that 5.4.2.4 to 5.4.2.6 ask for by it.
#[test]
fn channels_by_acmod(rt: HostRuntime) {
    let full = [2, 1, 2, 3, 3, 4, 4, 5];
    let two = [false, false, true, false, false, false, false, false];
    let centers = [false, false, false, true, false, true, false, true];
    let surrounds = [false, false, false, false, true, true, true, true];
    for acmod in 0..8u8 {
        let i = usize::from(acmod);
        assert_eq!(rt; full_channels(acmod), full[i]);
        assert_eq!(rt; stereo(acmod), two[i]);
        assert_eq!(rt; center(acmod), centers[i]);
        assert_eq!(rt; surround(acmod), surrounds[i]);
    }
}

/// A/52 5.4.2.30 and 5.4.3.59: addbsil + 1 bytes, and skipl bytes.
#[test]
fn free_bits_by_their_counts(rt: HostRuntime) {
    assert_eq!(rt; extra(None), 0);
    assert_eq!(rt; extra(Some(0)), 8);
    assert_eq!(rt; extra(Some(63)), 512);
    assert_eq!(rt; skipped(None), 0);
    assert_eq!(rt; skipped(Some(0)), 0);
    assert_eq!(rt; skipped(Some(511)), 4088);
}

/// A/52 7.1.3: bins 0 to 252 at chbwcod 60, to 36 below a coupling from subband 0, and 37 to 252 for all its subbands.
#[test]
fn spans_by_coupling(rt: HostRuntime) {
    let free = full_span(None, 60);
    assert_eq!(rt; (free.start, free.end), (0, 253));
    let coupled = full_span(Some((0, 15)), 0);
    assert_eq!(rt; (coupled.start, coupled.end), (0, 37));
    let shared = next_span(Some((0, 15)));
    assert_eq!(rt; (shared.start, shared.end), (37, 253));
    let low = next_span(None);
    assert_eq!(rt; (low.start, low.end), (0, 7));
}
