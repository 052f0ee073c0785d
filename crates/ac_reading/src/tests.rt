ghost use Rattle.std.specs.Prelude.{◌<◌};

use super::*;
use ac_codec::Refused;

mod frames;
mod refusals;

use frames::*;
use refusals::*;

/// A byte more of a digest, FNV-1a of 64 bits.
fn push(h: u64, byte: u8) -> u64 {
    (h ^ u64::from(byte)).wrapping_mul(0x100000001b3)
}

fn digest(row: &[u8; 256], from: u8, to: u8) -> u64 {
    let mut h = 0xcbf29ce484222325;
    for k in from..to {
        h = push(h, row[usize::from(k)]);
    }
    h
}

fn digest_wide(row: &[u16; 256], from: u8, to: u8) -> u64 {
    let mut h = 0xcbf29ce484222325;
    for k in from..to {
        let [low, high] = row[usize::from(k)].to_le_bytes();
        h = push(push(h, low), high);
    }
    h
}

fn push_all(h: u64, n: u64) -> u64 {
    let mut h = h;
    for byte in n.to_le_bytes() {
        h = push(h, byte);
    }
    h
}

/// The digest of the digests of a block's coded channels, with these bins, as the second program has them.
fn found(codes: &FrameCodes, b: usize, bins: &[u8; 84]) -> u64
    requires { b < 6 }
{
    let mut h = 0xcbf29ce484222325;
    for c in 0..7usize {
        let from = bins[14 * b + 2 * c];
        let to = bins[14 * b + 2 * c + 1];
        if to > 0 {
            h = push_all(h, digest(&codes.exps[c][b], from, to));
            h = push_all(h, digest(&codes.baps[c][b], from, to));
            h = push_all(h, digest_wide(&codes.codes[c][b], from, to));
        }
    }
    h
}

#[test]
fn frames_of_a_second_program(rt: HostRuntime) {
    let mut codes = FrameCodes::empty();
    for i in 0..60usize {
        let from = ENDS[i];
        let to = ENDS[i + 1];
        assert!(rt; from <= to && to <= FRAMES.len());
        let bytes = &FRAMES[from..to];
        assert_eq!(rt; read(bytes, &mut codes), Ok(()), "frame {i}");
        for b in 0..6usize {
            assert_eq!(rt;
                found(&codes, b, &BINS[i]),
                FOUND[i][b],
                "frame {i} block {b}"
            );
        }
    }
}

#[test]
fn faults_of_a_second_program(rt: HostRuntime) {
    let mut codes = FrameCodes::empty();
    for i in 0..181usize {
        let from = STREAM_ENDS[i];
        let to = STREAM_ENDS[i + 1];
        assert!(rt; from <= to && to <= STREAMS.len());
        let bytes = &STREAMS[from..to];
        assert_eq!(rt; read(bytes, &mut codes), Err(FAULTS[i]), "stream {i}");
    }
}

#[test]
fn sizes(rt: HostRuntime) {
    assert_eq!(rt;
        size(&[0x0B, 0x77, 0x00, 0x00, 0x14, 0x48]),
        Err(Refused::BadBsid(9))
    );
    assert_eq!(rt; size(&[0x0B, 0x77, 0x00, 0x00, 0x14, 0x40]), Ok(768));
}

#[test]
fn a_byte_short(rt: HostRuntime) {
    let mut codes = FrameCodes::empty();
    let mut bytes = [0; 768];
    bytes[..6].copy_from_slice(&[0x0B, 0x77, 0x00, 0x00, 0x14, 0x40]);
    assert_eq!(rt;
        read(&bytes[..767], &mut codes),
        Err(FrameFault::Short { have: 767 })
    );
}

/// A frame of 140 bytes with one bit turned behind the part that crc1 covers, and one in it.
#[test]
fn turned_bits(rt: HostRuntime) {
    let mut codes = FrameCodes::empty();
    let mut bytes = [0; 140];
    bytes.copy_from_slice(&FRAMES[..140]);
    assert_eq!(rt; read(&bytes, &mut codes), Ok(()));
    bytes[139] ^= 1;
    assert_eq!(rt; read(&bytes, &mut codes), Err(FrameFault::BadCrc2(0x8005)));
    bytes[20] ^= 1;
    assert!(rt; matches!(read(&bytes, &mut codes), Err(FrameFault::BadCrc1(_))));
    assert_eq!(rt; codes.head.bsid, 0);
    assert_eq!(rt; codes.exps[0][0][0], 0);
}
