//! The order of a block's mantissas (A/52 5.3.3).
ghost use Rattle.std.specs.Prelude.{◌≡◌, ◌<◌, ◌≤◌, ◌+◌, ◌||◌, not, true, if◌then◌else◌, [], ◌∷◌, ◌++◌, take};
ghost use Rattle.ac_base.specs.Shape.{full_of, count_of};
ghost use Rattle.ac_rows.specs.Groups.{strategy_of};
ghost use Rattle.ac_rows.specs.Filled.{holds, is_coupled};
ghost use Rattle.ac_record.specs.Order.{with_coupling, order_of};

use ac_rows::{Block, Head, both, full_channels, holds};

/// Whether full channel `i` is coupled.
fn coupled(block: &Block, i: usize) -> bool
    requires { i < 5 }
    ensures { result ≡ is_coupled (strategy_of block.now) i }
{
    both(holds(block.cplinu), holds(block.chincpl[i]))
}

/// Puts a channel behind those so far: how many they are then.
fn push(out: &mut [u8; 7], count: usize, c: u8) -> usize
    requires { count < 7 }
    ensures value { take result out.new ≡ take count out.old ++ c ∷ [] }
    ensures count { result ≡ count + 1 }
{
    out[count] = c;
    count + 1
}

/// Puts a channel behind those so far where the test holds.
fn push_where(out: &mut [u8; 7], count: usize, c: u8, there: bool) -> usize
    requires { there ≡ true → count < 7 }
    ensures value { take result out.new ≡ take count out.old ++ (if there then c ∷ [] else []) }
    ensures count { result ≡ count + count_of there }
{
    if there { push(out, count, c) } else { count }
}

/// Whether one holds.
fn either(a: bool, b: bool) -> bool
    ensures { result ≡ (a || b) }
{
    a || b
}

/// Whether it doesn't hold.
fn negated(a: bool) -> bool
    ensures { result ≡ not a }
{
    !a
}

/// The full channels in the order of their mantissas, the coupling channel behind the first coupled one: how many they are.
fn full_order(head: &Head, block: &Block, out: &mut [u8; 7]) -> usize
    requires { head.now.acmod ≤ 7 }
    ensures value { take result out.new ≡ with_coupling (is_coupled (strategy_of block.now)) (full_of head.now.acmod)
        (not (holds block.now.cplinu)) 0 (full_of head.now.acmod) }
    ensures count { result ≤ 6 }
{
    let full = full_channels(head.acmod);
    let mut came = negated(holds(block.cplinu));
    let mut count = 0;
    for i in 0..full {
        let coupled = coupled(block, usize::from(i));
        count = push(out, count, i);
        count = push_where(out, count, full, both(coupled, negated(came)));
        came = either(came, coupled);
    }
    count
}

/// 1 where it is there.
fn count_where(there: bool) -> u8
    ensures { result ≡ count_of there }
{
    if there { 1 } else { 0 }
}

/// The coded channels of a filled block in the order of their mantissas: how many they are.
#[tactic(auto, unfolding(ac_record::specs::Order::order_of))]
pub fn order(head: &Head, block: &Block, out: &mut [u8; 7]) -> usize
    requires { head.now.acmod ≤ 7 }
    ensures value { take result out.new
        ≡ order_of (is_coupled (strategy_of block.now)) (full_of head.now.acmod) (holds block.now.cplinu) head.now.lfeon }
    ensures bound { result ≤ 7 }
{
    let count = full_order(head, block, out);
    let low = full_channels(head.acmod) + count_where(holds(block.cplinu));
    push_where(out, count, low, head.lfeon)
}
