ghost use Rattle.std.specs.Prelude.{◌<◌};

use crate::{Decoder, FrameFault, Heard, Pcm, sound_law};
use ac_codec::{Refused, Row};
use ac_wav::{wav_head, wav_samples};
use std::process::Abort;

mod streams;

use streams::*;

/// How many streams of a second program there are.
const COUNT: usize = 6;

/// No samples.
fn no_samples() -> Pcm {
    Pcm { s: [[0; 1536]; 6] }
}

/// The digest, FNV-1a of 64 bits, of more bytes.
fn push(h: u64, bytes: &[u8]) -> u64 {
    let mut h = h;
    for byte in bytes {
        h = (h ^ u64::from(*byte)).wrapping_mul(0x100000001b3);
    }
    h
}

/// The digest with the bytes of the next frame's samples, and before those of the first frame with the WAV's head.
fn push_frame(rt: &impl Abort, h: u64, is_first: bool, heard: &Heard, pcm: &Pcm) -> u64 {
    assert!(rt; 1 <= heard.acmod && heard.acmod <= 7 && heard.fscod <= 2);
    let mut h = h;
    if is_first {
        let mut head = [0; 68];
        wav_head(heard.acmod, heard.lfe, heard.fscod, &mut head);
        h = push(h, &head);
    }
    let mut samples = [0; 27648];
    let count = wav_samples(heard.acmod, heard.lfe, pcm, &mut samples);
    assert!(rt; count <= 27648);
    push(h, &samples[..count])
}

/// The digest of the WAV to which a stream of at most three frames is decoded.
fn wav_of(rt: &impl Abort, decoder: &mut Decoder, stream: &[u8]) -> u64 {
    let mut pcm = no_samples();
    let mut left = stream;
    let mut h = 0xcbf29ce484222325;
    for i in 0..3usize {
        if !left.is_empty() {
            let Ok(heard) = decoder.frame(left, &mut pcm) else {
                panic!(rt; "frame {i} is refused");
            };
            h = push_frame(rt, h, i == 0, &heard, &pcm);
            assert!(rt; usize::from(heard.size) <= left.len());
            left = &left[usize::from(heard.size)..];
        }
    }
    h
}

#[test]
fn streams_of_a_second_program(rt: HostRuntime) {
    sound_law();
    for i in 0..COUNT {
        let from = ENDS[i];
        let to = ENDS[i + 1];
        assert!(rt; from <= to && to <= STREAMS.len());
        let Ok(mut decoder) = Decoder::new(rt.alloc()) else {
            return;
        };
        assert_eq!(rt;
            wav_of(&rt, &mut decoder, &STREAMS[from..to]),
            WAVS[i],
            "stream {i}"
        );
    }
}

/// A frame of mono silence at 32 kHz and 640 kbit/s, of 3,840 bytes.
fn silence() -> [u8; 3840] {
    let mut frame = [0; 3840];
    frame[..26].copy_from_slice(&[
        11, 119, 19, 237, 164, 64, 47, 132, 11, 3, 223, 62, 124, 249, 243, 227, 47, 224, 4, 0, 0,
        0, 0, 0, 0, 0,
    ]);
    frame
}

/// The frame is read, as the next one.
fn look(rt: &impl Abort, decoder: &mut Decoder, frame: &[u8]) {
    let mut pcm = no_samples();
    assert_eq!(rt;
        decoder.frame(frame, &mut pcm),
        Ok(Heard {
            fscod: 2,
            acmod: 1,
            lfe: false,
            size: 3840
        })
    );
}

/// With a bit of this byte turned it is refused for this fault, and then the true frame is read.
fn turn(rt: &impl Abort, decoder: &mut Decoder, at: usize, bit: u8, fault: FrameFault)
    requires { at < 3840 }
{
    let mut frame = silence();
    let mut pcm = no_samples();
    frame[at] ^= bit;
    assert_eq!(rt; decoder.frame(&frame, &mut pcm), Err(fault));
    look(rt, decoder, &silence());
}

// A bit turned at the end of a part that a CRC word covers leaves the generator's low bits, 0x8005 (A/52 7.10.1).
#[test]
fn turned_bits(rt: HostRuntime) {
    let Ok(mut decoder) = Decoder::new(rt.alloc()) else {
        panic!(rt; "out of memory");
    };
    look(&rt, &mut decoder, &silence());
    turn(&rt, &mut decoder, 3839, 1, FrameFault::BadCrc2(0x8005));
    turn(&rt, &mut decoder, 2399, 1, FrameFault::BadCrc1(0x8005));
    turn(
        &rt,
        &mut decoder,
        0,
        128,
        FrameFault::Field(Refused::BadSync),
    );
}

/// How many streams there are whose second frame is of another kind.
const PAIR_COUNT: usize = 3;

/// The first frame is read, the second is another, and the first is read again.
fn look_pair(rt: &impl Abort, decoder: &mut Decoder, pair: &[u8], size: u16, row: Row) {
    let mut pcm = no_samples();
    assert!(rt; usize::from(size) <= pair.len());
    for _ in 0..2 {
        let Ok(heard) = decoder.frame(pair, &mut pcm) else {
            panic!(rt; "the first frame is refused");
        };
        assert_eq!(rt; heard.size, size);
        assert_eq!(rt;
            decoder.frame(&pair[usize::from(size)..], &mut pcm),
            Err(FrameFault::Changed(row))
        );
    }
}

#[test]
fn changes_of_a_second_program(rt: HostRuntime) {
    for i in 0..PAIR_COUNT {
        let from = PAIR_ENDS[i];
        let to = PAIR_ENDS[i + 1];
        assert!(rt; from <= to && to <= PAIRS.len());
        let Ok(mut decoder) = Decoder::new(rt.alloc()) else {
            return;
        };
        let (size, row) = CHANGES[i];
        look_pair(&rt, &mut decoder, &PAIRS[from..to], size, row);
    }
}
