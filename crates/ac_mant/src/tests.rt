ghost use Rattle.std.specs.Prelude.{◌≡◌, ◌-◌, ◌*◌, ◌<◌, ◌≤◌, ◌^◌, true, unsigned_abs, IfSome};
ghost use Rattle.ac_base.specs.Counts.{tally_of, exact_of};
ghost use Rattle.ac_mant.specs.Counts.{AreWithin};
ghost use Rattle.ac_mant.specs.Groups.{AreCoded, IsCoded, pointers};

use crate::ahead::own_limit;
use crate::{Coded, Counts, MantFault, exact, pack_block, quantise, sixths, unpack_block, value};
use ac_bits::{BitSink, BitSource};

mod vectors;

/// Whether this is a mantissa.
fn is_coded(x: Coded) -> bool
    ensures { result ≡ true → IsCoded x }
{
    x.bap <= 15 && u32::from(x.code) < own_limit(x.bap)
}

/// Whether each count may grow.
fn are_few(counts: &Counts) -> bool
    ensures { result ≡ true → AreWithin (2 ^ 20 - 1) counts.now }
{
    counts.linear < 1 << 20 && counts.n1 < 1 << 20 && counts.n2 < 1 << 20 && counts.n4 < 1 << 20
}

/// The bits that mantissas cost, where they are mantissas.
fn cost_of(list: &[Coded]) -> Option<u32>
    ensures { IfSome result (λ cost. AreCoded list.now × (cost ≡ exact_of (tally_of (pointers list.now)))) }
{
    let mut counts = Counts::default();
    for i in (0..list.len()).rev() {
        if !is_coded(list[i]) || !are_few(&counts) {
            return None;
        }
        counts.add(list[i].bap);
    }
    if !are_few(&counts) {
        return None;
    }
    Some(exact(&counts))
}

/// Whether a coefficient is one that may be quantised so.
fn is_quantised(c: i32, e: u8, bap: u8) -> bool
    ensures { result ≡ true → (e ≤ 24) × (bap ≤ 15) × (unsigned_abs c * 2 ^ e < 2 ^ 24) }
{
    e <= 24 && bap <= 15 && u64::from(c.unsigned_abs()) * (1 << e) < 1 << 24
}

/// Whether a coefficient has this code, and the code this value.
fn agrees(c: i32, e: u8, bap: u8, code: u16, of_code: i32) -> bool {
    if !is_quantised(c, e, bap) {
        return false;
    }
    let got = quantise(c, e, bap);
    got == code && value(got, bap, e) == of_code
}

#[test]
fn codes_and_values(rt: HostRuntime) {
    use vectors::{CODES, COEFS, EXPONENTS, POINTERS, VALUES};
    for i in 0..400usize {
        assert!(rt;
            agrees(COEFS[i], EXPONENTS[i], POINTERS[i], CODES[i], VALUES[i]),
            "line {i}"
        );
    }
}

#[test]
fn impulse_codes(rt: HostRuntime) {
    assert_eq!(rt; quantise(23241, 9, 1), 2);
    assert_eq!(rt; quantise(23241, 9, 5), 12);
    assert_eq!(rt; quantise(23241, 9, 6), 11);
    assert!(rt; agrees(23241, 9, 5, 12, 21845));
    assert!(rt; agrees(23241, 9, 6, 11, 22528));
}

#[test]
fn exact_cost_falls(rt: HostRuntime) {
    let before = Counts {
        n1: 1,
        n2: 2,
        ..Counts::default()
    };
    assert_eq!(rt; (exact(&before), sixths(&before)), (12, 38));
    let after = Counts {
        n2: 3,
        ..Counts::default()
    };
    assert_eq!(rt; (exact(&after), sixths(&after)), (7, 42));
}

/// The mantissas of these pairs of a pointer and a code, into the front of `list`.
fn fill(pairs: &[[u16; 2]], list: &mut [Coded]) {
    for (place, pair) in list.iter_mut().zip(pairs) {
        *place = Coded {
            bap: pair[0].to_le_bytes()[0],
            code: pair[1],
        };
    }
}

/// Whether the mantissas are packed to these bits, the last byte filled with zeros.
fn packs(list: &[Coded], bits: u32, bytes: &[u8]) -> bool {
    let Some(cost) = cost_of(list) else {
        return false;
    };
    let mut sink = BitSink::new();
    if cost > 30000 {
        return false;
    }
    pack_block(list, &mut sink);
    let long = sink.len();
    sink.put(0, (8 - long % 8) % 8);
    let mut out = [0; 3840];
    let count = sink.bytes(&mut out);
    cost == bits && long == bits && &out[..count] == bytes
}

#[test]
fn mantissa_groups(rt: HostRuntime) {
    let coded = |bap, code| Coded { bap, code };
    assert!(rt; packs(&[coded(1, 2), coded(1, 0), coded(1, 1)], 5, &[19 << 3]));
    assert!(rt; packs(&[coded(2, 4), coded(2, 0), coded(2, 3)], 7, &[103 << 1]));
    assert!(rt; packs(&[coded(4, 10), coded(4, 3)], 7, &[113 << 1]));
}

#[test]
fn packed_blocks(rt: HostRuntime) {
    use vectors::{PACKED, PACKED_BITS, PACKED_BYTE_ENDS, PACKED_BYTES, PACKED_ENDS};
    let mut from = 0;
    let mut at = 0;
    for i in 0..40usize {
        let to = PACKED_ENDS[i];
        let end = PACKED_BYTE_ENDS[i];
        assert!(rt;
            from <= to && to <= 914 && to - from <= 128 && at <= end && end <= PACKED_BYTES.len()
        );
        let mut list = [Coded { bap: 0, code: 0 }; 128];
        fill(&PACKED[from..to], &mut list);
        assert!(rt;
            packs(&list[..to - from], PACKED_BITS[i], &PACKED_BYTES[at..end]),
            "block {i}"
        );
        from = to;
        at = end;
    }
}

/// What reading so many bits gives: the codes, a number that stands for none at a place, or want of bits.
fn reads(baps: &[u8], bits: u32, bytes: &[u8], answer: u8, place: u16, codes: &[u16]) -> bool {
    let mut out = [0; 64];
    if baps.len() > 64
        || bits.div_ceil(8) as usize > bytes.len()
        || baps.iter().any(|bap| *bap > 15)
    {
        return false;
    }
    let mut source = BitSource::new(bytes, bits);
    match unpack_block(baps, &mut out[..baps.len()], &mut source) {
        Ok(()) => answer == 0 && &out[..baps.len()] == codes,
        Err(MantFault::BadGroup { place: at }) => answer == 1 && at == place,
        Err(MantFault::OutOfBits) => answer == 2,
    }
}

#[test]
fn refused_groups(rt: HostRuntime) {
    assert!(rt; reads(&[0, 1], 5, &[27 << 3], 1, 1, &[]));
    assert!(rt; reads(&[2], 7, &[125 << 1], 1, 0, &[]));
    assert!(rt; reads(&[4], 7, &[121 << 1], 1, 0, &[]));
}

#[test]
fn bad_seven_level_code(rt: HostRuntime) {
    assert!(rt; reads(&[3], 3, &[0xe0], 1, 0, &[]));
}

#[test]
fn cut_group(rt: HostRuntime) {
    assert!(rt; reads(&[1, 1], 4, &[0], 2, 0, &[]));
}

#[test]
fn read_blocks(rt: HostRuntime) {
    use vectors::{
        READ_ANSWERS, READ_BITS, READ_BYTE_ENDS, READ_BYTES, READ_CODES, READ_ENDS, READ_PLACES,
        READ_POINTERS,
    };
    let mut from = 0;
    let mut at = 0;
    for i in 0..30usize {
        let to = READ_ENDS[i];
        let end = READ_BYTE_ENDS[i];
        assert!(rt; from <= to && to <= 304 && at <= end && end <= READ_BYTES.len());
        assert!(rt;
            reads(
                &READ_POINTERS[from..to],
                READ_BITS[i],
                &READ_BYTES[at..end],
                READ_ANSWERS[i],
                READ_PLACES[i],
                &READ_CODES[from..to]
            ),
            "block {i}"
        );
        from = to;
        at = end;
    }
}
