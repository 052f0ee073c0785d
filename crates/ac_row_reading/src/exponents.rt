//! The exponents of all channels.
ghost use Rattle.std.specs.Prelude.{◌≡◌, ◌<◌, ◌≤◌, ◌+◌, is_some, nat_lt, slice_index, None};
ghost use Rattle.ac_base.specs.Shape.{IsSpan, low_span};
ghost use Rattle.ac_base.specs.Spans.{greatest_kind};
ghost use Rattle.ac_codec.specs.Codec.{Gives, given, pair, field, any};
ghost use Rattle.ac_rows.specs.Filled.{entry, number};
ghost use Rattle.ac_rows.specs.Spelled.{spelled_row};
ghost use Rattle.ac_rows.specs.BlockRows.{HasSubbands, CodesFit, sent_span, exponents_each, exponents};

use crate::exponent::read_spelled;
use ac_base::{Span, low_span};
use ac_bits::BitSource;
use ac_codec::Refused;
use ac_codec::read::optional;
use ac_expo::Spelled;
use ac_rows::groups::{Codes, Coupling, Exponents};
use ac_rows::optional::{holds, number};
use ac_rows::span::{full_span, next_span};

/// A channel's exponents, unless it keeps those that it has.
#[tactic(auto, unfolding(ac_codec::specs::Codec::given))]
fn read_new(
    source: &mut BitSource,
    kind: u8,
    span: &Span,
    channel: u8,
) -> Result<Option<Spelled>, Refused>
    requires kind { 0 < kind → kind ≤ greatest_kind span.now.lead }
    requires span { IsSpan span.now }
    ensures { Gives result source.new ((given (nat_lt 0 kind) (spelled_row kind span.now channel)).read source.old) }
{
    if 0 < kind {
        Ok(Some(read_spelled(source, kind, span, channel)?))
    } else {
        Ok(None)
    }
}

/// LFE's exponents, where they are sent.
#[tactic(auto, unfolding(ac_codec::specs::Codec::given))]
fn read_low(source: &mut BitSource, sent: bool, channel: u8) -> Result<Option<Spelled>, Refused>
    ensures { Gives result source.new ((given sent (spelled_row 1 low_span channel)).read source.old) }
{
    if sent {
        Ok(Some(read_spelled(source, 1, &low_span(), channel)?))
    } else {
        Ok(None)
    }
}

/// The bins of a full channel that sends exponents.
fn span_of(c: &Coupling, chbwcod: &[Option<u8>; 5], i: u8) -> Span
    requires within { i < 5 }
    requires range { HasSubbands c.now.range }
    requires width { number (entry chbwcod.now i) ≤ 60 }
    ensures value { result ≡ sent_span c.now chbwcod.now i }
    ensures bound { IsSpan result }
    ensures full { 3 ≤ greatest_kind result.lead }
{
    let range = if c.coupled[usize::from(i)] {
        c.range
    } else {
        None
    };
    full_span(range, number(chbwcod[usize::from(i)]))
}

/// The exponents and gainrng of full channel i.
#[tactic(auto, unfolding(ac_codec::specs::Codec::pair))]
fn read_channel(
    source: &mut BitSource,
    c: &Coupling,
    k: &Codes,
    i: u8,
) -> Result<(Option<Spelled>, Option<u8>), Refused>
    requires within { i < 5 }
    requires range { HasSubbands c.now.range }
    requires codes { CodesFit c.now k.now }
    ensures { Gives result source.new ((pair (given (nat_lt 0 (slice_index k.now.chexpstr i)) (spelled_row
        (slice_index k.now.chexpstr i) (sent_span c.now k.now.chbwcod i) i))
        (λ _. given (nat_lt 0 (slice_index k.now.chexpstr i)) (field 2 any))).read source.old) }
{
    let kind = k.chexpstr[usize::from(i)];
    let span = span_of(c, &k.chbwcod, i);
    let exps = read_new(source, kind, &span, i)?;
    let gainrng = optional(source, 0 < kind, 2)?;
    Ok((exps, gainrng))
}

/// Of each full channel.
type Channels = ([Option<Spelled>; 5], [Option<u8>; 5]);

#[tactic(auto, unfolding(ac_rows::specs::BlockRows::exponents_each, ac_rows::specs::BlockRows::alternating, ac_codec::specs::Codec::fitted, ac_codec::specs::Codec::each, ac_codec::specs::Codec::cons, ac_codec::specs::Codec::absent))]
fn read_each(source: &mut BitSource, c: &Coupling, k: &Codes) -> Result<Channels, Refused>
    requires range { HasSubbands c.now.range }
    requires codes { CodesFit c.now k.now }
    ensures { Gives result source.new ((exponents_each c.now k.now).read source.old) }
{
    let (exps_0, gain_0) = read_channel(source, c, k, 0)?;
    let (exps_1, gain_1) = read_channel(source, c, k, 1)?;
    let (exps_2, gain_2) = read_channel(source, c, k, 2)?;
    let (exps_3, gain_3) = read_channel(source, c, k, 3)?;
    let (exps_4, gain_4) = read_channel(source, c, k, 4)?;
    let exps = [exps_0, exps_1, exps_2, exps_3, exps_4];
    Ok((exps, [gain_0, gain_1, gain_2, gain_3, gain_4]))
}

/// The exponents of all channels that send them.
#[tactic(auto, unfolding(ac_rows::specs::BlockRows::exponents, ac_codec::specs::Codec::pair, ac_codec::specs::Codec::shaped))]
pub fn read_exponents(
    source: &mut BitSource,
    full: u8,
    c: &Coupling,
    k: &Codes,
) -> Result<Exponents, Refused>
    requires full { full ≤ 5 }
    requires range { HasSubbands c.now.range }
    requires codes { CodesFit c.now k.now }
    ensures { Gives result source.new ((exponents full c.now k.now).read source.old) }
{
    let span = next_span(c.range);
    let cplabsexp = read_new(source, number(k.cplexpstr), &span, full)?;
    let (exps, gainrng) = read_each(source, c, k)?;
    let low = full + u8::from(c.range.is_some());
    let lfeexps = read_low(source, holds(k.lfeexpstr), low)?;
    Ok(Exponents {
        cplabsexp,
        exps,
        gainrng,
        lfeexps,
    })
}
