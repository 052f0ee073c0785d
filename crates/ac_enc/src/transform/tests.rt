ghost use Rattle.std.specs.Prelude.{◌≤◌, ◌^◌, unsigned_abs};
ghost use Rattle.ac_base.specs.Sigma.{Within};

use super::*;

fn first_or_zero(is_first: bool) -> i32
    ensures { unsigned_abs result ≤ 2 ^ 23 }
{
    if is_first { 4_194_304 } else { 0 }
}

/// One sample, and zeros behind it.
fn fill_impulse(pcm: &mut [i32; 1536])
    ensures { Within (2 ^ 23) 1536 pcm.new }
{
    for n in 0..1536usize {
        pcm[n] = first_or_zero(n == 0);
    }
}

// Coefficient 0 of the first block is 23,241.
#[test]
fn impulse_coefficient(rt: HostRuntime) {
    let mut pcm = [0; 1536];
    fill_impulse(&mut pcm);
    let mut rows = [[0; 256]; 6];
    transform(&[0; 256], &pcm, &mut rows);
    assert_eq!(rt; rows[0][0], 23_241);
}
