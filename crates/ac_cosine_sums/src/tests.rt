ghost use Rattle.std.specs.Prelude.{◌≤◌, ◌<◌, ◌^◌, unsigned_abs};
ghost use Rattle.ac_base.specs.Sigma.{Within};

use super::cosine_sums;
use ac_base::{cosine, dot, quarter};

/// The cosines at the phases 5^`from` to 5^(`from` + 255).
fn fill_cosines(from: u32, out: &mut [i32; 256])
    requires { from < 256 }
    ensures { Within (2 ^ 30) 256 out.new }
{
    let quarter = quarter();
    let mut phase = power_of_five(from);
    for i in 0..256usize {
        out[i] = cosine(quarter, phase);
        phase = phase * 5 % 2048;
    }
}

/// 5^`n` modulo 2048.
fn power_of_five(n: u32) -> u32
    requires { n < 256 }
    ensures { result < 2048 }
{
    let mut power = 1;
    for _turn in 0..n {
        power = power * 5 % 2048;
    }
    power
}

fn extreme(positive: bool) -> i32
    ensures { unsigned_abs result ≤ 2 ^ 24 }
{
    if positive { 1 << 24 } else { -(1 << 24) }
}

fn noise(state: u32) -> i32
    ensures { unsigned_abs result ≤ 2 ^ 24 }
{
    ((state >> 6) % (1 << 25)) as i32 - (1 << 24)
}

fn fill_noise(start: u32, out: &mut [i32; 256])
    ensures { Within (2 ^ 24) 256 out.new }
{
    let mut state = start;
    for i in 0..256usize {
        state = state.wrapping_mul(1103515245).wrapping_add(12345) % (1 << 31);
        out[i] = noise(state);
    }
}

fn fill_alternating(period: usize, out: &mut [i32; 256])
    requires { 1 ≤ period }
    ensures { Within (2 ^ 24) 256 out.new }
{
    for i in 0..256usize {
        out[i] = extreme(i % period == 0);
    }
}

/// The greatest magnitudes with the signs of the cosines, which give the greatest sum at `from`.
fn fill_signs(from: u32, out: &mut [i32; 256])
    requires { from < 256 }
    ensures { Within (2 ^ 24) 256 out.new }
{
    let mut row = [0; 256];
    fill_cosines(from, &mut row);
    for i in 0..256usize {
        out[i] = extreme(row[i] >= 0);
    }
}

/// Whether each quick sum is the plain sum of 256 products.
fn all_equal(block: &[i32; 256]) -> bool
    requires { Within (2 ^ 24) 256 block.now }
{
    let mut quick = [0; 256];
    cosine_sums(block, &mut quick);
    let mut row = [0; 256];
    let mut equal = true;
    for k in 0..256usize {
        fill_cosines(k as u32, &mut row);
        equal = equal && quick[k] == dot(block, &row);
    }
    equal
}

#[test]
fn quick_sums_equal_plain_ones(rt: HostRuntime) {
    let mut block = [0; 256];
    for start in [1, 20261201, 77] {
        fill_noise(start, &mut block);
        assert!(rt; all_equal(&block), "noise from {start}");
    }
    for period in [1, 2, 3, 255] {
        fill_alternating(period, &mut block);
        assert!(rt; all_equal(&block), "a greatest number each {period}");
    }
    for from in [0, 100, 255] {
        fill_signs(from, &mut block);
        assert!(rt; all_equal(&block), "the signs of the cosines from {from}");
    }
}
