//! Writing a head.
ghost use Rattle.std.specs.Prelude.{◌≡◌, ◌+◌, ◌≤◌, false, length, replicate};
ghost use Rattle.ac_bits.specs.Bits.{Appends};
ghost use Rattle.ac_codec.specs.Codec.{Codec};
ghost use Rattle.ac_rows.specs.HeadRows.{layout, service, head_fields, whole_head, addbsi_bits, layout_of, service_of};

use ac_bits::BitSink;
use ac_codec::write::{put_bit, put_optional, put_optional_wide, put_zeros};
use ac_rows::Head;
use ac_rows::free_bits::extra;

#[tactic(auto, using(ac_codec::proofs::Lengths::writing), unfolding(ac_rows::specs::HeadRows::layout, ac_rows::specs::HeadRows::layout_rows, ac_codec::specs::Codec::pair, ac_codec::specs::Codec::shaped, ac_codec::specs::Codec::field, ac_codec::specs::Codec::given, ac_codec::specs::Codec::tested_bit))]
fn write_layout(h: &Head, sink: &mut BitSink)
    requires lawful { layout.Lawful (layout_of h.now) }
    requires room { length sink.old + length (layout.spell (layout_of h.now)) ≤ 30720 }
    ensures adds { Appends sink.old sink.new (layout.spell (layout_of h.now)) }
    ensures len { length sink.new ≡ length sink.old + length (layout.spell (layout_of h.now)) }
{
    sink.put(h.syncword as u32, 16);
    sink.put(h.crc1 as u32, 16);
    sink.put(h.fscod as u32, 2);
    sink.put(h.frmsizecod as u32, 6);
    sink.put(h.bsid as u32, 5);
    sink.put(h.bsmod as u32, 3);
    sink.put(h.acmod as u32, 3);
    put_optional(sink, h.cmixlev, 2);
    put_optional(sink, h.surmixlev, 2);
    put_optional(sink, h.dsurmod, 2);
    put_bit(sink, h.lfeon);
    sink.put(h.dialnorm as u32, 5);
}

#[tactic(auto, using(ac_codec::proofs::Lengths::writing), unfolding(ac_rows::specs::HeadRows::service, ac_rows::specs::HeadRows::service_rows, ac_codec::specs::Codec::pair, ac_codec::specs::Codec::shaped, ac_codec::specs::Codec::field, ac_codec::specs::Codec::given, ac_codec::specs::Codec::tested_bit))]
fn write_service(h: &Head, sink: &mut BitSink)
    requires lawful { service.Lawful (service_of h.now) }
    requires room { length sink.old + length (service.spell (service_of h.now)) ≤ 30720 }
    ensures adds { Appends sink.old sink.new (service.spell (service_of h.now)) }
    ensures len { length sink.new ≡ length sink.old + length (service.spell (service_of h.now)) }
{
    put_bit(sink, h.compre);
    put_optional(sink, h.compr, 8);
    put_bit(sink, h.langcode);
    put_optional(sink, h.langcod, 8);
    put_bit(sink, h.audprodie);
    put_optional(sink, h.mixlevel, 5);
    put_optional(sink, h.roomtyp, 2);
    put_bit(sink, h.copyrightb);
    put_bit(sink, h.origbs);
    put_bit(sink, h.timecod1e);
    put_optional_wide(sink, h.timecod1, 14);
    put_bit(sink, h.timecod2e);
    put_optional_wide(sink, h.timecod2, 14);
    put_bit(sink, h.addbsie);
    put_optional(sink, h.addbsil, 6);
}

/// Appends the fields of a frame before block 0, and addbsi as 0 (A/52 5.3.1, 5.3.2).
///
/// The head is lawful, and the sink has room.
#[tactic(auto, using(ac_codec::proofs::Lengths::writing), unfolding(ac_rows::specs::HeadRows::whole_head, ac_rows::specs::HeadRows::head_fields, ac_codec::specs::Codec::pair, ac_codec::specs::Codec::shaped, ac_codec::specs::Codec::free))]
pub fn write_head(head: &Head, sink: &mut BitSink)
    requires lawful { head_fields.Lawful head.now }
    requires room { length sink.old + length (whole_head.spell (head.now, replicate (addbsi_bits head.now) false)) ≤ 30720 }
    ensures adds { Appends sink.old sink.new (whole_head.spell (head.now, replicate (addbsi_bits head.now) false)) }
    ensures len { length sink.new ≡ length sink.old + length (whole_head.spell (head.now, replicate (addbsi_bits head.now) false)) }
{
    write_layout(head, sink);
    write_service(head, sink);
    put_zeros(sink, extra(head.addbsil));
}
