ghost use Rattle.std.specs.Prelude.{◌≡◌, ◌≤◌, ◌<◌, ◌+◌, ◌^◌, ℕ, [], slice_index_or};
ghost use Rattle.std.specs.Option.{ForSome};
ghost use Rattle.ac_base.specs.Rates.{IsRate};
ghost use Rattle.ac_base.specs.Sigma.{Within};
ghost use Rattle.ac_riff.specs.Form.{IsOfProfile};
ghost use Rattle.ac_words.specs.Lawful.{AreOptions, IsRange};

use crate::{Couple, Encoder, Mark, NewFault, Options, frame_law};
use ac_base::{Part, is_rate};
use ac_bits::FRAME_BYTES;
use ac_riff::{WavHead, layout};
use std::process::Abort;

/// The head of a sound of one channel.
fn mono(fscod: u8) -> WavHead
    requires { fscod ≤ 2 }
    ensures fscod { result.fscod ≡ fscod }
    ensures profile { IsOfProfile result }
{
    WavHead {
        fscod,
        acmod: 1,
        lfe: false,
        bits: 16,
        channels: 1,
        order: layout::order(1, false),
        size: None,
        taken: 44,
    }
}

/// The head of a sound of two channels at 32 kHz.
fn stereo() -> WavHead
    ensures { IsOfProfile result }
{
    WavHead {
        fscod: 2,
        acmod: 2,
        lfe: false,
        bits: 16,
        channels: 2,
        order: layout::order(2, false),
        size: None,
        taken: 44,
    }
}

/// The head of a sound of five channels and LFE at 48 kHz.
fn six_channels() -> WavHead
    ensures { IsOfProfile result }
{
    WavHead {
        fscod: 0,
        acmod: 7,
        lfe: true,
        bits: 16,
        channels: 6,
        order: layout::order(7, true),
        size: None,
        taken: 44,
    }
}

/// The options at a rate and a bandwidth.
fn options(rate: u16, bw: Option<u8>, couple: Couple) -> Options
    requires rate { IsRate rate }
    requires bandwidth { ForSome bw (λ b. b ≤ 60) }
    requires couple { IsRange couple }
    ensures { AreOptions result }
{
    Options {
        rate,
        nodes: 20_000,
        bw,
        couple,
    }
}

/// A frame's samples, each 0.
fn silence() -> [[i32; 1536]; 6]
    ensures { (c : ℕ) → c < 6 → Within (2 ^ 23) 1536 (slice_index_or result c []) }
{
    [[0; 1536]; 6]
}

/// The next frame of silence has this size and, behind crc1, these codes; what stands behind it stays.
fn look(rt: &impl Abort, encoder: &mut Encoder, size: usize, codes: u8)
    requires few { encoder.old.frames < 10 }
    ensures { encoder.new.frames ≡ encoder.old.frames + 1 }
{
    let mut out = [0xff; FRAME_BYTES];
    let done = encoder.frame(&silence(), &mut out);
    assert_eq!(rt; done.size, size);
    assert_eq!(rt; [out[0], out[1], out[4]], [0x0b, 0x77, codes]);
    assert!(rt; out[done.size..].iter().all(|byte| *byte == 0xff));
}

/// Goes over a frame of silence.
fn pass(encoder: &mut Encoder)
    requires few { encoder.old.frames < 10 }
    ensures { encoder.new.frames ≡ encoder.old.frames + 1 }
{
    encoder.pass(&silence());
}

/// The next frame of silence has the greatest offset there is.
fn look_top(rt: &impl Abort, encoder: &mut Encoder)
    requires few { encoder.old.frames < 10 }
{
    let mut out = [0xff; FRAME_BYTES];
    let done = encoder.frame(&silence(), &mut out);
    assert_eq!(rt; done.size, 3840);
    assert_eq!(rt; done.plan.offset, 1023);
    assert_eq!(rt; done.plan.mark, Mark::Best);
}

// At 640 kbit/s and 32 kHz a frame has 30,720 bits, and D45 with reuse takes 24,615 of them at the greatest offset there is.
#[test]
fn silence_best_top(rt: HostRuntime) {
    assert!(rt; is_rate(640));
    let Ok(mut encoder) = Encoder::new(rt.alloc(), options(640, None, Couple::Auto), &mono(2))
    else {
        return;
    };
    look_top(&rt, &mut encoder);
}

// At 640 kbit/s and 32 kHz, with the bandwidth code 0, two channels take 14,335 bits.
#[test]
fn stereo_silence_best_top(rt: HostRuntime) {
    assert!(rt; is_rate(640));
    let Ok(mut encoder) = Encoder::new(rt.alloc(), options(640, Some(0), Couple::Auto), &stereo())
    else {
        return;
    };
    look_top(&rt, &mut encoder);
}

// A/52 Table 5.18: at 192 kbit/s and 44.1 kHz a frame has 417 or 418 words, with the codes 20 and 21 behind fscod 1. The bytes
// behind a frame stay.
#[test]
fn alternating_frame_sizes(rt: HostRuntime) {
    frame_law();
    assert!(rt; is_rate(192));
    let Ok(mut encoder) = Encoder::new(rt.alloc(), options(192, None, Couple::Auto), &mono(1))
    else {
        return;
    };
    look(&rt, &mut encoder, 834, 64 + 20);
    look(&rt, &mut encoder, 836, 64 + 21);
}

// A frame that is passed over counts, so that the second of two frames has the size of a second frame.
#[test]
fn a_passed_frame_counts(rt: HostRuntime) {
    assert!(rt; is_rate(192));
    let Ok(mut encoder) = Encoder::new(rt.alloc(), options(192, None, Couple::Auto), &mono(1))
    else {
        return;
    };
    pass(&mut encoder);
    look(&rt, &mut encoder, 836, 64 + 21);
}

// At 32 kbit/s and 48 kHz a frame has 64 words, so 1,024 bits; with the bandwidth code 60 five channels and LFE take 1,122 at least.
#[test]
fn rate_too_low(rt: HostRuntime) {
    assert!(rt; is_rate(32));
    let Err(fault) = Encoder::new(
        rt.alloc(),
        options(32, Some(60), Couple::Off),
        &six_channels(),
    ) else {
        panic!(rt; "the rate is enough");
    };
    assert_eq!(rt;
        fault,
        NewFault::RateTooLow {
            part: Part::Total,
            needed: 1122,
            room: 1024
        }
    );
}

// With the bandwidth by the rate they fit; the frame says fscod 0, the code 0, acmod 7 and LFE (A/52 5.3.1, 5.3.2).
#[test]
fn lowest_rate_fits(rt: HostRuntime) {
    assert!(rt; is_rate(32));
    let Ok(mut encoder) = Encoder::new(rt.alloc(), options(32, None, Couple::Auto), &six_channels())
    else {
        panic!(rt; "the rate is too low");
    };
    look(&rt, &mut encoder, 128, 0);
}
