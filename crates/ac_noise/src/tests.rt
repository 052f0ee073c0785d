use crate::Noise;
use crate::draws::{next, top};

/// The first four draws.
fn draws_of(seed: u64) -> [i32; 4] {
    let a = next(seed);
    let b = next(a);
    let c = next(b);
    let d = next(c);
    [top(a), top(b), top(c), top(d)]
}

/// A frame of the sound, from number 0 on.
fn fill_frame(seed: u64, frames: u32, number: u32, rows: &mut [[i32; 1536]; 6]) {
    let mut noise = Noise::new(seed, frames);
    for done in 0..number {
        noise.frame(rows);
    }
    noise.frame(rows);
}

#[test]
fn first_draws(rt: HostRuntime) {
    assert_eq!(rt; draws_of(0), [5125, 6664, -25866, 26294]);
    assert_eq!(rt; draws_of(u64::MAX), [-17485, -20055, -28686, 27496]);
}

#[test]
fn samples_of_ten_frames(rt: HostRuntime) {
    let mut rows = [[1; 1536]; 6];
    for (seed, number, at, left, right) in [
        (0, 0, 0, 1_312_000, 1_508_864),
        (0, 0, 1, -6_621_696, 54_784),
        (0, 7, 100, 35_840, 47_872),
        (0, 9, 5, -1_909_248, 1_081_600),
        (0, 9, 1279, -3_155_968, 262_912),
        (u64::MAX, 0, 0, -4_476_160, -4_805_120),
        (u64::MAX, 9, 5, 2_247_936, 2_464_512),
        (u64::MAX, 9, 1279, 3_979_520, 265_984),
    ] {
        fill_frame(seed, 10, number, &mut rows);
        assert_eq!(rt; rows[0].get(at), Some(&left), "frame {number} of {seed}");
        assert_eq!(rt; rows[1].get(at), Some(&right), "frame {number} of {seed}");
    }
}

#[test]
fn other_channels_and_the_end_are_silent(rt: HostRuntime) {
    let mut rows = [[1; 1536]; 6];
    fill_frame(0, 10, 9, &mut rows);
    assert!(rt; rows[0][1279] != 0);
    for row in &rows {
        assert_eq!(rt; row[1280], 0);
        assert_eq!(rt; row[1535], 0);
    }
    for row in &rows[2..] {
        assert!(rt; row.iter().all(|x| *x == 0));
    }
    fill_frame(0, 10, 10, &mut rows);
    for row in &rows {
        assert!(rt; row.iter().all(|x| *x == 0));
    }
}
