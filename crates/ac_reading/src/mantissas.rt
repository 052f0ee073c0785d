//! The codes of a block's mantissas (A/52 7.3).
ghost use Rattle.std.specs.Prelude.{◌≡◌, ℕ, ◌<◌, ◌≤◌, ◌+◌, ◌-◌, ◌*◌, false, ◌++◌, length, slice_index, take, OnOk, IfErr};
ghost use Rattle.ac_base.specs.Shape.{IsSpan};
ghost use Rattle.ac_record.specs.Channels.{coded_in};
ghost use Rattle.ac_rows.specs.Filled.{span_in, spans_of};
ghost use Rattle.ac_record.specs.Channels.{is_in};
ghost use Rattle.ac_record.specs.Order.{over_bins, over_channels};
ghost use Rattle.ac_record.specs.Readings.{cell};
ghost use Rattle.ac_record.specs.Faults.{refused_as};
ghost use Rattle.ac_reading.specs.Cells.{IsRow, IsBlank, StaysBut};
ghost use Rattle.ac_reading.specs.Mantissas.{span_at, AreApart, AreUnpacked, AreRefused};

use crate::cells::put_codes;
use crate::order::order;
use ac_base::Span;
use ac_bits::BitSource;
use ac_codec::Refused;
use ac_mant::{MantFault, unpack_block};
use ac_rows::{Block, Head};

/// Room for the mantissas of seven channels.
const ROOM: usize = 1792;

/// The bins of a span, one behind the other from `at` on: where they end.
fn gather_row(row: &[u8; 256], span: &Span, at: usize, flat: &mut [u8; 1792]) -> usize
    requires order { span.now.start ≤ span.now.end }
    requires room { at + 256 ≤ 1792 }
    ensures value { take result flat.new ≡ take at flat.old ++ over_bins (slice_index row.now) span.now }
    ensures count { result ≡ at + (span.now.end - span.now.start) }
{
    let mut to = at;
    for k in span.start..span.end {
        flat[to] = row[usize::from(k)];
        to += 1;
    }
    to
}

/// The pointers of block `b` in the order of its mantissas: how many they are.
fn gather(
    order: &[u8],
    spans: &[Span; 7],
    baps: &[[[u8; 256]; 6]; 7],
    b: usize,
    flat: &mut [u8; 1792],
) -> usize
    requires few { length order.now ≤ 7 }
    requires spans { (c : ℕ) → (span_at spans.now c).start ≤ (span_at spans.now c).end }
    requires ends { (c : ℕ) → (span_at spans.now c).end ≤ 253 }
    requires channels { (j : ℕ) → j < length order.now → slice_index order.now j < 7 }
    requires place { b < 6 }
    ensures value { take result flat.new ≡ over_channels (span_at spans.now) order.now (λ c k. cell baps.now c b k) }
    ensures count { result ≤ 256 * length order.now }
{
    let mut at = 0;
    for c in order {
        let c = usize::from(*c);
        at = gather_row(&baps[c][b], &spans[c], at, flat);
    }
    at
}

/// The codes from `at` on at the bins of a span; 0 elsewhere.
fn scatter_row(flat: &[u16; 1792], at: usize, span: &Span) -> [u16; 256]
    requires order { span.now.start ≤ span.now.end }
    requires room { at + 256 ≤ 1792 }
    ensures { IsRow span.now (λ k. slice_index flat.now (at + (k - span.now.start))) result }
{
    let mut row = [0; 256];
    let mut from = at;
    for k in span.start..span.end {
        row[usize::from(k)] = flat[from];
        from += 1;
    }
    row
}

/// Puts the codes of block `b`, in the order of its mantissas, at their channels and bins.
fn scatter(
    order: &[u8],
    spans: &[Span; 7],
    flat: &[u16; 1792],
    b: usize,
    out: &mut [[[u16; 256]; 6]; 7],
)
    requires few { length order.now ≤ 7 }
    requires spans { (c : ℕ) → (span_at spans.now c).start ≤ (span_at spans.now c).end }
    requires ends { (c : ℕ) → (span_at spans.now c).end ≤ 253 }
    requires channels { (j : ℕ) → j < length order.now → slice_index order.now j < 7 }
    requires apart { AreApart order.now }
    requires place { b < 6 }
    requires blank { IsBlank b out.old }
    ensures value { let codes = over_channels (span_at spans.now) order.now (λ c k. cell out.new c b k) in
        take (length codes) flat.now ≡ codes }
    ensures elsewhere { (c k : ℕ) → is_in (span_at spans.now c) k ≡ false → cell out.new c b k ≡ 0 }
    ensures rest { StaysBut b out.old out.new }
{
    let mut at = 0;
    for c in order {
        let c = usize::from(*c);
        let row = scatter_row(flat, at, &spans[c]);
        put_codes(out, c, b, &row);
        at += usize::from(spans[c].end - spans[c].start);
    }
}

/// A refusal of mantissas as one of fields.
fn refused_as(fault: MantFault) -> Refused
    ensures { result ≡ refused_as fault }
{
    match fault {
        MantFault::OutOfBits => Refused::OutOfBits,
        MantFault::BadGroup { place } => Refused::BadGroup { place },
    }
}

/// Reads the codes of block `b`, whose pointers are there, into a blank place.
pub fn read_codes(
    head: &Head,
    filled: &Block,
    spans: &[Span; 7],
    b: usize,
    baps: &[[[u8; 256]; 6]; 7],
    source: &mut BitSource,
    out: &mut [[[u16; 256]; 6]; 7],
) -> Result<(), Refused>
    requires head { head.now.acmod ≤ 7 }
    requires spans { spans.now ≡ spans_of head.now filled.now }
    requires coded { (c : ℕ) → c < coded_in head.now filled.now → IsSpan (span_in head.now filled.now c) }
    requires pointers { (c k : ℕ) → cell baps.now c b k ≤ 15 }
    requires place { b < 6 }
    requires blank { IsBlank b out.old }
    ensures found { OnOk result (AreUnpacked head.now filled.now b baps.now out.new source.old source.new) }
    ensures cause { IfErr result (λ e. AreRefused head.now filled.now b baps.now source.old e) }
    ensures rest { StaysBut b out.old out.new }
{
    let mut channels = [0; 7];
    let count = order(head, filled, &mut channels);
    let mut pointers = [0; 1792];
    let many = gather(&channels[..count], spans, baps, b, &mut pointers);
    let mut codes = [0; 1792];
    match unpack_block(&pointers[..many], &mut codes[..many], source) {
        Ok(()) => {
            scatter(&channels[..count], spans, &codes, b, out);
            Ok(())
        }
        Err(fault) => Err(refused_as(fault)),
    }
}
