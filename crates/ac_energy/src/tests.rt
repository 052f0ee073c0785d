ghost use Rattle.std.specs.Prelude.{◌<◌, ◌≤◌, ◌*◌, ◌^◌, ℕ, [], slice_index_or, unsigned_abs};
ghost use Rattle.ac_base.specs.Sigma.{Within};

use super::energy;

/// 10 b + k, and its negative where b is odd.
fn coefficient(b: usize, k: usize) -> i32
    requires block { b < 6 }
    requires bin { k < 256 }
    ensures { unsigned_abs result ≤ 2 ^ 23 }
{
    let size = (10 * b + k) as i32;
    if b % 2 == 0 { size } else { -size }
}

fn fill_block(b: usize, row: &mut [i32; 256])
    requires { b < 6 }
    ensures { Within (2 ^ 23) 256 row.new }
{
    for k in 0..256usize {
        row[k] = coefficient(b, k);
    }
}

fn fill(rows: &mut [[i32; 256]; 6])
    ensures { (b : ℕ) → b < 6 → Within (2 ^ 23) 256 (slice_index_or rows.new b []) }
{
    for b in 0..6usize {
        fill_block(b, &mut rows[b]);
    }
}

/// In block b the squares of 10 b + 3, 10 b + 4 and 10 b + 5: 300 b^2 + 240 b + 50.
#[test]
fn squares_of_six_blocks(rt: HostRuntime) {
    let mut rows = [[0; 256]; 6];
    fill(&mut rows);
    assert_eq!(rt; energy(&rows, 3, 6), 20400);
    assert_eq!(rt; energy(&rows, 6, 6), 0);
    assert_eq!(rt; energy(&rows, 6, 3), 0);
}
