//! The mantissas of a block in their order (A/52 5.3.3).
ghost use Rattle.std.specs.Prelude.{◌≡◌, ◌<◌, ◌≤◌, ◌+◌, ◌-◌, ◌++◌, [], length, take, slice_index, slice_index_or};
ghost use Rattle.ac_expo.specs.Raw.{channels, channel_span};
ghost use Rattle.ac_mant.specs.declared.coded.Coded.{Coded};
ghost use Rattle.ac_mant.specs.Groups.{coded};
ghost use Rattle.ac_record.specs.Order.{over_bins, over_channels};
ghost use Rattle.ac_sent.specs.Packed.{sent_mantissas};
ghost use Rattle.ac_packing.specs.Listing.{ArePointers, AreListed, mantissa_at, coupling_of, later_of, low_of};

use ac_base::Span;
use ac_mant::Coded;
use ac_sent::Quantised;

/// The most mantissas that a block has: one for each bin of each coded channel.
pub const MOST: usize = 1792;

/// Lists the bins of a span behind the first `at` of the list, and says how many there are then.
fn list_bins(
    baps: &[u8; 256],
    codes: &[u16; 256],
    span: &Span,
    at: usize,
    list: &mut [Coded; MOST],
) -> usize
    requires order { span.now.start ≤ span.now.end }
    requires end { span.now.end ≤ 253 }
    requires room { at + 256 ≤ 1792 }
    ensures list { take result list.new ≡ take at list.old
        ++ over_bins (λ k. coded (slice_index baps.now k) (slice_index codes.now k)) span.now }
    ensures bound { result ≤ at + 256 }
{
    let start = usize::from(span.start);
    for k in start..usize::from(span.end) {
        list[at + (k - start)] = Coded {
            bap: baps[k],
            code: codes[k],
        };
    }
    at + (usize::from(span.end) - start)
}

/// Likewise of coded channel `c` in block `b`.
fn list_channel(
    q: &Quantised,
    baps: &[[[u8; 256]; 6]; 7],
    c: u8,
    b: u8,
    at: usize,
    list: &mut [Coded; MOST],
) -> usize
    requires pointers { ArePointers q.now baps.now }
    requires channel { c < channels q.now.shape }
    requires block { b < 6 }
    requires room { at + 256 ≤ 1792 }
    ensures list { take result list.new ≡ take at list.old ++ over_bins (mantissa_at q.now b c) (channel_span q.now.shape c) }
    ensures bound { result ≤ at + 256 }
{
    let channel = usize::from(c);
    let block = usize::from(b);
    let span = q.shape.span(c);
    list_bins(
        &baps[channel][block],
        &q.codes[channel][block],
        &span,
        at,
        list,
    )
}

/// Likewise of the coupling channel, where there is one.
fn list_coupling(
    q: &Quantised,
    baps: &[[[u8; 256]; 6]; 7],
    b: u8,
    at: usize,
    list: &mut [Coded; MOST],
) -> usize
    requires pointers { ArePointers q.now baps.now }
    requires block { b < 6 }
    requires room { at + 256 ≤ 1792 }
    ensures list { take result list.new ≡ take at list.old
        ++ over_channels (channel_span q.now.shape) (coupling_of q.now.shape) (mantissa_at q.now b) }
    ensures bound { result ≤ at + 256 }
{
    match q.shape.couple {
        Some(_) => list_channel(q, baps, q.shape.full(), b, at, list),
        None => at,
    }
}

/// Likewise of the full channels behind the first.
fn list_later(
    q: &Quantised,
    baps: &[[[u8; 256]; 6]; 7],
    b: u8,
    at: usize,
    list: &mut [Coded; MOST],
) -> usize
    requires pointers { ArePointers q.now baps.now }
    requires block { b < 6 }
    requires room { at + 1024 ≤ 1792 }
    ensures list { take result list.new ≡ take at list.old
        ++ over_channels (channel_span q.now.shape) (later_of q.now.shape) (mantissa_at q.now b) }
    ensures bound { result ≤ at + 1024 }
{
    let mut end = at;
    for c in 1..q.shape.full() {
        end = list_channel(q, baps, c, b, end, list);
    }
    end
}

/// Likewise of LFE, where there is one.
fn list_low(
    q: &Quantised,
    baps: &[[[u8; 256]; 6]; 7],
    b: u8,
    at: usize,
    list: &mut [Coded; MOST],
) -> usize
    requires pointers { ArePointers q.now baps.now }
    requires block { b < 6 }
    requires room { at + 256 ≤ 1792 }
    ensures list { take result list.new ≡ take at list.old
        ++ over_channels (channel_span q.now.shape) (low_of q.now.shape) (mantissa_at q.now b) }
    ensures bound { result ≤ at + 256 }
{
    if q.shape.lfe {
        list_channel(q, baps, q.shape.coded() - 1, b, at, list)
    } else {
        at
    }
}

/// Writes the mantissas of block `b` to the front of the list, and says how many they are.
fn list_block(q: &Quantised, baps: &[[[u8; 256]; 6]; 7], b: u8, list: &mut [Coded; MOST]) -> usize
    requires pointers { ArePointers q.now baps.now }
    requires block { b < 6 }
    ensures list { take result list.new ≡ sent_mantissas q.now b }
    ensures bound { result ≤ 1792 }
{
    let first = list_channel(q, baps, 0, b, 0, list);
    let coupled = list_coupling(q, baps, b, first, list);
    let full = list_later(q, baps, b, coupled, list);
    list_low(q, baps, b, full, list)
}

/// Writes the mantissas of each block to the front of its list, and says how many they are.
pub fn list_blocks(
    q: &Quantised,
    baps: &[[[u8; 256]; 6]; 7],
    lists: &mut [[Coded; MOST]; 6],
) -> [usize; 6]
    requires { ArePointers q.now baps.now }
    ensures { AreListed q.now 6 lists.new result }
{
    let mut counts = [0; 6];
    for b in 0..6u8 {
        let at = usize::from(b);
        counts[at] = list_block(q, baps, b, &mut lists[at]);
    }
    counts
}

/// The front of the list of block `b`.
pub fn listed<'a>(lists: &'a [[Coded; MOST]; 6], counts: &[usize; 6], b: u8) -> &'a [Coded]
    requires block { b < 6 }
    requires room { slice_index counts.now b ≤ 1792 }
    ensures value { result.now ≡ take (slice_index counts.now b) (slice_index_or lists.now b []) }
    ensures len { length result.now ≤ 1792 }
{
    let at = usize::from(b);
    &lists[at][..counts[at]]
}
