//! The bits of a frame but its CRC words (A/52 5.3).
ghost use Rattle.std.specs.Prelude.{◌≡◌, ◌<◌, ◌≤◌, ◌+◌, ◌*◌, ◌++◌, ◌∷◌, false, [], length, take, replicate};
ghost use Rattle.ac_bits.specs.Bits.{bits, bits_of, Appends};
ghost use Rattle.ac_rows.specs.Filled.{listed};
ghost use Rattle.ac_record.specs.Records.{block_spelled, blocks_spelled, record_spelled};
ghost use Rattle.ac_sent.specs.Asked.{IsQuantised, IsSizeCode};
ghost use Rattle.ac_sent.specs.Fields.{sent_head, sent_block, parts_at};
ghost use Rattle.ac_sent.specs.Packed.{sent_part, sent_record};
ghost use Rattle.ac_sent.specs.Padding.{to_skip};
ghost use Rattle.ac_packing.specs.Listing.{AreListed};

use crate::mantissas::{MOST, listed};
use crate::padding::skipl_of;
use ac_base::TAIL_BITS;
use ac_bits::{BitSink, FRAME_BYTES};
use ac_codec::write::{put_bit, put_zeros};
use ac_fields::{frame_block, frame_head};
use ac_mant::{Coded, pack_block};
use ac_row_writing::{write_block, write_head};
use ac_rows::{Block, Head};
use ac_sent::Quantised;

/// Block `b`, where the skip fields take `x` bits in all.
fn block_at(q: &Quantised, b: usize, x: u32) -> Block
    requires asked { IsQuantised q.now }
    requires block { b < 6 }
    requires skipped { x ≡ to_skip q.now.shape.words (parts_at q.now).total (parts_at q.now).last }
    ensures { result ≡ sent_block q.now b }
{
    frame_block(q, b, skipl_of(x, b as u32))
}

/// The six blocks.
fn blocks(q: &Quantised, x: u32) -> [Block; 6]
    requires asked { IsQuantised q.now }
    requires skipped { x ≡ to_skip q.now.shape.words (parts_at q.now).total (parts_at q.now).last }
    ensures { result ≡ listed 6 0 (sent_block q.now) }
{
    [
        block_at(q, 0, x),
        block_at(q, 1, x),
        block_at(q, 2, x),
        block_at(q, 3, x),
        block_at(q, 4, x),
        block_at(q, 5, x),
    ]
}

/// Appends block `b` behind those before it, with its mantissas.
fn put_block(
    q: &Quantised,
    head: &Head,
    blocks: &[Block; 6],
    lists: &[[Coded; MOST]; 6],
    counts: &[usize; 6],
    b: u8,
    sink: &mut BitSink,
)
    requires asked { IsQuantised q.now }
    requires head { head.now ≡ sent_head q.now.shape head.now.frmsizecod 0 }
    requires code { head.now.frmsizecod < 38 }
    requires blocks { blocks.now ≡ listed 6 0 (sent_block q.now) }
    requires listed { AreListed q.now 6 lists.now counts.now }
    requires block { b < 6 }
    requires room { length sink.old + length (block_spelled head.now (listed b 0 (sent_block q.now)) (sent_part q.now b)) ≤ 30720 }
    ensures adds { Appends sink.old sink.new (block_spelled head.now (listed b 0 (sent_block q.now)) (sent_part q.now b)) }
{
    let at = usize::from(b);
    write_block(head, &blocks[..at], &blocks[at], sink);
    pack_block(listed(lists, counts, b), sink);
}

/// Appends the six blocks.
fn put_blocks(
    q: &Quantised,
    head: &Head,
    blocks: &[Block; 6],
    lists: &[[Coded; MOST]; 6],
    counts: &[usize; 6],
    sink: &mut BitSink,
)
    requires asked { IsQuantised q.now }
    requires head { head.now ≡ sent_head q.now.shape head.now.frmsizecod 0 }
    requires code { head.now.frmsizecod < 38 }
    requires blocks { blocks.now ≡ listed 6 0 (sent_block q.now) }
    requires listed { AreListed q.now 6 lists.now counts.now }
    requires room { length sink.old + length (blocks_spelled head.now [] (listed 6 0 (sent_part q.now))) ≤ 30720 }
    ensures adds { Appends sink.old sink.new (blocks_spelled head.now [] (listed 6 0 (sent_part q.now))) }
{
    for b in 0..6 {
        put_block(q, head, blocks, lists, counts, b, sink);
    }
}

/// Appends aux bits of 0, auxdatae of 0, crcrsv and a crc2 of 0 (A/52 5.3.4, 5.3.5).
fn put_tail(aux: u32, crcrsv: bool, sink: &mut BitSink)
    requires room { length sink.old + aux + 18 ≤ 30720 }
    ensures adds { Appends sink.old sink.new (replicate aux false ++ (false ∷ crcrsv ∷ bits 0 16)) }
    ensures len { length sink.new ≡ length sink.old + aux + 18 }
{
    put_zeros(sink, aux);
    put_bit(sink, false);
    put_bit(sink, crcrsv);
    sink.put(0, 16);
}

/// Writes the frame with this frmsizecod and crcrsv, and CRC words of 0, where the skip fields take `x` bits in all; says how many
/// bytes they are.
pub fn write_body(
    q: &Quantised,
    code: u8,
    x: u32,
    crcrsv: bool,
    lists: &[[Coded; MOST]; 6],
    counts: &[usize; 6],
    out: &mut [u8; FRAME_BYTES],
) -> usize
    requires asked { IsQuantised q.now }
    requires code { IsSizeCode q.now.shape.fscod q.now.shape.words code }
    requires skipped { x ≡ to_skip q.now.shape.words (parts_at q.now).total (parts_at q.now).last }
    requires listed { AreListed q.now 6 lists.now counts.now }
    ensures count { result ≡ 2 * q.now.shape.words }
    ensures bytes { bits_of (take result out.new) ≡ record_spelled (sent_record q.now code 0 crcrsv 0) }
{
    let head = frame_head(&q.shape, code, 0);
    let blocks = blocks(q, x);
    let mut sink = BitSink::new();
    write_head(&head, &mut sink);
    put_blocks(q, &head, &blocks, lists, counts, &mut sink);
    let aux = 16 * u32::from(q.shape.words) - TAIL_BITS - sink.len();
    put_tail(aux, crcrsv, &mut sink);
    sink.bytes(out)
}
