//! Sounds of one channel, whose plans are the best: the offsets were found by trying every assignment, in other programs.
use super::{Left, NONE, WIDE, head_of, left_by, reports, silence, spoken, texts, write};
use crate::Status;
use std::alloc::{AllocError, Global};
use std::test::Fail;

/// How a sound goes on.
#[derive(Clone, Copy, PartialEq, Eq)]
enum Wave {
    /// Two levels in turn, each for so many samples.
    Square(u16),
    /// Noise at the level, and weaker noise over it.
    Same,
    /// The same, each half as strong and as strong as that.
    Opposite,
    /// Noise that falls by half after so many samples, eight times, and then begins again.
    Burst(u16),
}

/// A sound of one channel, the words of its encode, and the bytes and the report that are wanted of it.
struct Job {
    wave: Wave,
    seed: u64,
    level: i16,
    sampling: u16,
    samples: u16,
    /// 24 bits, and else 16.
    is_wide: bool,
    rate: &'static str,
    size: usize,
    report: &'static str,
}

const JOBS: [Job; 6] = [
    Job {
        wave: Wave::Square(200),
        seed: 1001,
        level: 31_000,
        sampling: 48_000,
        samples: 1000,
        is_wide: false,
        rate: "32",
        size: 128,
        report: "frame 0 size 128 best 142\nstatus 0 ok\n",
    },
    Job {
        wave: Wave::Same,
        seed: 1002,
        level: 1200,
        sampling: 48_000,
        samples: 4100,
        is_wide: false,
        rate: "64",
        size: 768,
        report: "frame 0 size 256 best 190\nframe 1 size 256 best 190\nframe 2 size 256 best 190\nstatus 0 ok\n",
    },
    Job {
        wave: Wave::Opposite,
        seed: 1003,
        level: 31_000,
        sampling: 48_000,
        samples: 1000,
        is_wide: false,
        rate: "192",
        size: 768,
        report: "frame 0 size 768 best 258\nstatus 0 ok\n",
    },
    Job {
        wave: Wave::Square(300),
        seed: 1004,
        level: 31_000,
        sampling: 48_000,
        samples: 2700,
        is_wide: false,
        rate: "640",
        size: 5120,
        report: "frame 0 size 2560 best 558\nframe 1 size 2560 best 554\nstatus 0 ok\n",
    },
    Job {
        wave: Wave::Square(40),
        seed: 1005,
        level: 31_000,
        sampling: 44_100,
        samples: 2700,
        is_wide: false,
        rate: "96",
        size: 834,
        report: "frame 0 size 416 best 235\nframe 1 size 418 best 220\nstatus 0 ok\n",
    },
    Job {
        wave: Wave::Burst(300),
        seed: 1027,
        level: 9000,
        sampling: 32_000,
        samples: 1000,
        is_wide: true,
        rate: "112",
        size: 672,
        report: "frame 0 size 672 best 304\nstatus 0 ok\n",
    },
];

/// The next of a row of numbers, and what is kept for those behind it.
fn draw(state: u64) -> (i16, u64) {
    let next = state
        .wrapping_mul(6364136223846793005)
        .wrapping_add(1442695040888963407);
    let [low, high] = ((next >> 48) as u16).wrapping_sub(0x8000).to_le_bytes();
    (i16::from_le_bytes([low, high]), next)
}

/// A number at a level, less so many halves.
fn scaled(number: i16, level: i16, halves: u16) -> i32 {
    (i32::from(number) * i32::from(level)) >> (halves % 32)
}

/// A sample, of two draws.
fn sample_of(job: &Job, common: i16, own: i16, place: u16) -> i32 {
    match job.wave {
        Wave::Square(half) if place / half.max(1) % 2 == 1 => 0i32.wrapping_sub(i32::from(
            job.level,
        )),
        Wave::Square(_) => i32::from(job.level),
        Wave::Same => scaled(common, job.level, 15).wrapping_add(scaled(own, job.level, 20)),
        Wave::Opposite => scaled(common, job.level, 16).wrapping_add(scaled(own, job.level, 19)),
        Wave::Burst(step) => scaled(own, job.level, 15 + place / step.max(1) % 8),
    }
}

/// The head of a job's WAV.
fn head_bytes(alloc: Global, job: &Job) -> Result<Vec<u8>, AllocError> {
    let mut bytes = if job.is_wide {
        Vec::from_slice(alloc, &WIDE)?
    } else {
        Vec::from_slice(alloc, &head_of(2 * u32::from(job.samples)))?
    };
    write(&mut bytes, 24, &job.sampling.to_le_bytes());
    Ok(bytes)
}

/// A job's WAV.
fn wav(alloc: Global, job: &Job) -> Result<Vec<u8>, AllocError> {
    let mut bytes = head_bytes(alloc, job)?;
    let mut state = job.seed;
    for place in 0..job.samples {
        let (common, later) = draw(state);
        let (own, next) = draw(later);
        state = next;
        if job.is_wide {
            bytes.push(place.wrapping_mul(37).to_le_bytes()[0])?;
        }
        let sample = sample_of(job, common, own, place).to_le_bytes();
        bytes.extend_from_slice(&sample[..2])?;
    }
    Ok(bytes)
}

/// The words of a job's encode, with so many nodes of the search; the wide one has a bandwidth and a range of coupling.
fn words_of(alloc: Global, job: &Job, nodes: &str) -> Result<Vec<String>, AllocError> {
    let mut words = texts(alloc, &["encode", "--nodes"])?;
    words.push(String::from_str(alloc, nodes)?)?;
    words.push(String::from_str(alloc, "--rate")?)?;
    words.push(String::from_str(alloc, job.rate)?)?;
    if job.is_wide {
        for word in ["--bw", "33", "--couple", "11,11"] {
            words.push(String::from_str(alloc, word)?)?;
        }
    }
    for word in ["-", "-", "-"] {
        words.push(String::from_str(alloc, word)?)?;
    }
    Ok(words)
}

fn encode_job(rt: HostRuntime, job: &Job, nodes: &str) -> Result<Left, Fail> {
    let bytes = again!(rt; wav(rt.alloc(), job));
    let words = again!(rt; words_of(rt.alloc(), job, nodes));
    left_by(rt, &words, &bytes, NONE)
}

/// Whether a run left this report, and frames of so many bytes.
fn leaves(left: &Left, bytes: usize, report: &str) -> bool {
    left.status == Status::Ok && left.output.bytes().len() == bytes && reports(left, report)
}

#[test]
fn report_lines_with_best(rt: HostRuntime) -> Result<(), Fail> {
    for job in &JOBS {
        let left = encode_job(rt, job, "20000")?;
        assert!(rt; leaves(&left, job.size, job.report), "{}", job.seed);
    }
    Ok(())
}

// One channel takes no node of the search.
#[test]
fn mono_always_best(rt: HostRuntime) -> Result<(), Fail> {
    for job in &JOBS {
        let left = encode_job(rt, job, "0")?;
        assert!(rt; leaves(&left, job.size, job.report), "{}", job.seed);
    }
    Ok(())
}

// Where there is room for all of it the offset is the greatest.
#[test]
fn silence_best_top(rt: HostRuntime) -> Result<(), Fail> {
    let mut bytes = silence(rt, 1000)?;
    write(&mut bytes, 24, &32_000u16.to_le_bytes());
    let words = spoken(rt, &["encode", "--rate", "640", "-", "-", "-"])?;
    let left = left_by(rt, &words, &bytes, NONE)?;
    assert!(rt; leaves(&left, 3840, "frame 0 size 3840 best 1023\nstatus 0 ok\n"));
    Ok(())
}
