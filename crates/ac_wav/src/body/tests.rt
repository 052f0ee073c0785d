ghost use Rattle.std.specs.Prelude.{◌≡◌, ◌≤◌, ◌%◌};
ghost use Rattle.ac_riff.specs.Form.{IsOfProfile};

use super::*;
use crate::law::wav_law;
use ac_io::StdSource;
use std::io::{self, ErrorKind, Read};

/// A head of this many channels and bits, whose data begin at byte 44.
fn head(acmod: u8, lfe: bool, bits: u8, size: Option<u32>) -> WavHead
    requires acmod_least { 1 ≤ acmod }
    requires acmod_most { acmod ≤ 7 }
    requires bits_least { 16 ≤ bits }
    requires bits_most { bits ≤ 24 }
    requires bits_whole { bits % 8 ≡ 0 }
    ensures profile { IsOfProfile result }
    ensures taken { result.taken ≡ 44 }
{
    WavHead {
        fscod: 0,
        acmod,
        lfe,
        bits,
        channels: ac_riff::layout::channels(acmod, lfe),
        order: ac_riff::layout::order(acmod, lfe),
        size,
        taken: 44,
    }
}

#[test]
fn samples_of_16_bits(rt: HostRuntime) {
    let bytes = [0, 128, 255, 127, 1, 0, 255, 255, 9];
    let mut source = StdSource::new(bytes.as_slice());
    let mut body = WavBody::new(&head(1, false, 16, Some(9)), 1000);
    let mut out = [[7; 1536]; 6];
    assert_eq!(rt; body.samples(&mut source, &mut out), Ok(4));
    assert!(rt; out[0][..5] == [-8388608, 8388352, 256, -256, 0]);
    assert!(rt; out[0][1535] == 0 && out[1][0] == 0 && out[5][1535] == 0);
    // after the end, without a read
    let mut more = StdSource::new(bytes.as_slice());
    assert_eq!(rt; body.samples(&mut more, &mut out), Ok(0));
    assert!(rt; out[0][0] == 0);
    let mut rest = [0; 10];
    assert_eq!(rt; ac_io::fill(&mut more, &mut rest), Ok(9));
}

#[test]
fn samples_of_24_bits_in_coding_order(rt: HostRuntime) {
    // 3/2 with LFE: L R C LFE SL SR in the WAV; and a rest of less than one align
    let bytes = [
        0, 0, 128, 255, 255, 127, 1, 0, 0, 2, 0, 0, 255, 255, 255, 4, 0, 0, 9, 9,
    ];
    let mut source = StdSource::new(bytes.as_slice());
    let mut body = WavBody::new(&head(7, true, 24, None), 1000);
    let mut out = [[7; 1536]; 6];
    assert_eq!(rt; body.samples(&mut source, &mut out), Ok(1));
    for (c, sample) in [-8388608, 1, 8388607, -1, 4, 2].iter().enumerate() {
        assert!(rt; c < 6 && out[c][0] == *sample && out[c][1] == 0, "{c}");
    }
}

#[test]
fn extremes_of_24_bits(rt: HostRuntime) {
    let bytes = [
        0, 0, 128, 1, 0, 128, 255, 255, 127, 254, 255, 127, 255, 255, 255, 0, 0, 0,
    ];
    let mut source = StdSource::new(bytes.as_slice());
    let mut body = WavBody::new(&head(1, false, 24, Some(18)), 62);
    let mut out = [[7; 1536]; 6];
    assert_eq!(rt; body.samples(&mut source, &mut out), Ok(6));
    assert!(rt; out[0][..7] == [-8388608, -8388607, 8388607, 8388606, -1, 0, 0]);
}

#[test]
fn whole_wav_and_what_follows(rt: HostRuntime) {
    wav_law();
    // mono of 16 bits: five bytes of data, of which the last is no sample, and bytes that aren't looked at
    let bytes = [
        82, 73, 70, 70, 0, 0, 0, 0, 87, 65, 86, 69, 102, 109, 116, 32, 16, 0, 0, 0, 1, 0, 1, 0,
        128, 187, 0, 0, 0, 119, 1, 0, 2, 0, 16, 0, 100, 97, 116, 97, 5, 0, 0, 0, 1, 0, 2, 0, 9, 0,
        8, 8,
    ];
    let mut source = StdSource::new(bytes.as_slice());
    let read = WavHead::read(&mut source, 49);
    assert!(rt; read.is_ok());
    if let Ok(head) = read {
        let mut body = WavBody::new(&head, 49);
        let mut out = [[7; 1536]; 6];
        assert_eq!(rt; body.samples(&mut source, &mut out), Ok(2));
        assert!(rt; out[0][..3] == [256, 512, 0]);
        let mut rest = [0; 4];
        assert_eq!(rt; ac_io::fill(&mut source, &mut rest), Ok(3));
        assert!(rt; rest == [0, 8, 8, 0]);
    }
}

#[test]
fn whole_frames_and_a_rest(rt: HostRuntime) {
    let bytes = [1; 3072 + 3];
    let mut source = StdSource::new(bytes.as_slice());
    let mut body = WavBody::new(&head(1, false, 16, None), 44 + 3075);
    let mut out = [[0; 1536]; 6];
    assert_eq!(rt; body.samples(&mut source, &mut out), Ok(1536));
    assert!(rt; out[0][1535] == 257 * 256);
    assert_eq!(rt; body.samples(&mut source, &mut out), Ok(1));
    assert!(rt; out[0][0] == 257 * 256 && out[0][1] == 0);
    assert_eq!(rt; body.samples(&mut source, &mut out), Ok(0));
}

/// A WAV of one channel of 16 bits at 48 kHz: a head of 44 bytes, and 8 bytes of data.
static FOUR: [u8; 52] = [
    82, 73, 70, 70, 0, 0, 0, 0, 87, 65, 86, 69, 102, 109, 116, 32, 16, 0, 0, 0, 1, 0, 1, 0, 128,
    187, 0, 0, 0, 119, 1, 0, 2, 0, 16, 0, 100, 97, 116, 97, 8, 0, 0, 0, 1, 0, 2, 0, 3, 0, 4, 0,
];

/// Reads a head and the samples behind it.
fn first_samples(bytes: &[u8], limit: u64, out: &mut [[i32; 1536]; 6]) -> Result<usize, WavFault> {
    let mut source = StdSource::new(bytes);
    let head = WavHead::read(&mut source, limit)?;
    WavBody::new(&head, limit).samples(&mut source, out)
}

#[test]
fn samples_past_limit(rt: HostRuntime) {
    let mut out = [[0; 1536]; 6];
    assert_eq!(rt; first_samples(&FOUR, 50, &mut out), Err(WavFault::TooLong));
}

#[test]
fn samples_within_limit(rt: HostRuntime) {
    let mut out = [[7; 1536]; 6];
    assert_eq!(rt; first_samples(&FOUR, 52, &mut out), Ok(4));
    assert!(rt; out[0][..5] == [256, 512, 768, 1024, 0]);
}

#[test]
fn samples_short(rt: HostRuntime) {
    let mut out = [[0; 1536]; 6];
    assert_eq!(rt;
        first_samples(&FOUR[..50], 50, &mut out),
        Err(WavFault::Bad(WavKind::Short, 50))
    );
}

#[test]
fn refusal_kept(rt: HostRuntime) {
    let mut source = StdSource::new(FOUR.as_slice());
    let read = WavHead::read(&mut source, 50);
    assert!(rt; read.is_ok());
    if let Ok(head) = read {
        let mut body = WavBody::new(&head, 50);
        let mut out = [[0; 1536]; 6];
        assert_eq!(rt; body.samples(&mut source, &mut out), Err(WavFault::TooLong));
        // the same refusal, without a further read
        let mut more = StdSource::new(FOUR.as_slice());
        assert_eq!(rt; body.samples(&mut more, &mut out), Err(WavFault::TooLong));
        let mut rest = [0; 53];
        assert_eq!(rt; ac_io::fill(&mut more, &mut rest), Ok(52));
    }
}

/// Fails at every read.
#[derive(Drop)]
struct Broken;

impl Read for Broken {
    fn read(&mut self, _buf: &mut [u8]) -> io::Result<usize> {
        Err(io::Error::from(ErrorKind::Other))
    }
}

#[test]
fn a_failed_read_is_kept(rt: HostRuntime) {
    let bytes = [1, 0];
    let mut source = StdSource::new(bytes.as_slice().chain(Broken));
    let mut body = WavBody::new(&head(1, false, 16, Some(4)), 1000);
    let mut out = [[0; 1536]; 6];
    assert_eq!(rt;
        body.samples(&mut source, &mut out),
        Err(WavFault::ReadFault)
    );
    assert_eq!(rt;
        body.samples(&mut source, &mut out),
        Err(WavFault::ReadFault)
    );
}
