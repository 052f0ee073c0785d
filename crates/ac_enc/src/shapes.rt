//! The shape of a frame, with coupling or without.
ghost use Rattle.std.specs.Prelude.{◌≡◌, ◌⊎◌, ◌↔◌, ℕ, ◌+◌, ◌*◌, ◌<◌, ◌≤◌, ◌&&◌, ◌||◌, not, nat_le, if◌then◌else◌, is_some, true, List, Option, Some, None, MatchOption, IfOk, IfErr, IsTrue};
ghost use Rattle.std.specs.Option.{ForSome};
ghost use Rattle.ac_base.specs.Shape.{IsCoupling};
ghost use Rattle.ac_base.specs.Sizes.{least_words, most_words, table_words};
ghost use Rattle.ac_cost.specs.Parts.{FitsAt, cheapest_assign};
ghost use Rattle.ac_coupling.specs.Coupling.{AreSmallCoupled};
ghost use Rattle.ac_energy.specs.Coefficients.{entry};
ghost use Rattle.ac_words.specs.declared.meaning.Options.{Options};
ghost use Rattle.ac_words.specs.Lawful.{AreOptions, IsRange};
ghost use Rattle.ac_enc.specs.Frame.{Couples, IsShapeFor};
ghost use Rattle.ac_enc.specs.Layout.{Layout, bandwidth_by, range_by, range_of, IsShapeWith, CheapestFits, IsEnough, IsNewFault};
ghost use Rattle.ac_enc.specs.Sounds.{layout_in, AreSmallOf, IsCoupledShape, CoupledFits, IsFirstFault};

use crate::fault::NewFault;
use crate::sound::Sound;
use ac_base::{Coefs, Part, Parts, Shape, frame_words, rooms};
use ac_cost::cheapest;
use ac_joint::couples;
use ac_words::{Couple, Options};

/// The greatest bandwidth code (A/52 5.4.3.24).
const MOST_CHBWCOD: u16 = 60;

/// The kbit/s of a full channel at which the bandwidth code is 0, this project's own.
const NARROWEST: u16 = 20;

/// The kbit/s of a full channel from which on nothing is coupled, this project's own.
const UNCOUPLED: u16 = 48;

/// The bandwidth code chbwcod of so many full channels, as it is asked for or by the bit rate (A/52 5.4.3.24).
fn bandwidth_code(options: &Options, full: u8) -> u8
    requires options { AreOptions options.now }
    requires some { 1 ≤ full }
    ensures value { result ≡ bandwidth_by options.now.bw options.now.rate full }
    ensures bound { result ≤ 60 }
{
    match options.bw {
        Some(bw) => bw,
        None => (options.rate / u16::from(full))
            .saturating_sub(NARROWEST)
            .min(MOST_CHBWCOD) as u8,
    }
}

/// cplbegf and cplendf of the coupling of so many full channels, where coupling is on (A/52 5.4.3.11, 5.4.3.12).
fn range_asked(couple: Couple, rate: u16, full: u8) -> Option<(u8, u8)>
    requires range { IsRange couple }
    requires few { full ≤ 5 }
    ensures value { result ≡ range_by couple rate full }
    ensures within { ForSome result (λ p. (p.0 ≤ 15) × (p.1 ≤ 15) × (p.0 ≤ p.1 + 2)) }
{
    match couple {
        Couple::Off => None,
        Couple::Auto if rate < UNCOUPLED * u16::from(full) => Some((8, 12)),
        Couple::Auto => None,
        Couple::Bins(begin, end) => Some((begin, end)),
    }
}

/// The same, where there are two full channels to be coupled (A/52 7.4).
fn range(options: &Options, full: u8) -> Option<(u8, u8)>
    requires options { AreOptions options.now }
    requires few { full ≤ 5 }
    ensures value { result ≡ if nat_le 2 full then range_by options.now.couple options.now.rate full else None }
    ensures within { ForSome result (λ p. (2 ≤ full) × (p.0 ≤ 15) × (p.1 ≤ 15) × (p.0 ≤ p.1 + 2)) }
{
    if full < 2 {
        return None;
    }
    range_asked(options.couple, options.rate, full)
}

/// The shape of a frame of so many words with this coupling.
fn shape_with(options: &Options, sound: &Sound, words: u16, couple: Option<(u8, u8)>) -> Shape
    requires options { AreOptions options.now }
    requires coupling { IsCoupling sound.now.acmod couple }
    requires least { least_words ≤ words }
    requires most { words ≤ most_words }
    ensures { IsShapeWith options.now (layout_in sound.now) words couple result }
{
    Shape {
        fscod: sound.fscod,
        acmod: sound.acmod,
        lfe: sound.lfe,
        bw: bandwidth_code(options, sound.full()),
        couple,
        words,
    }
}

/// The shape of a frame of so many words without coupling.
pub fn plain_shape(options: &Options, sound: &Sound, words: u16) -> Shape
    requires options { AreOptions options.now }
    requires least { least_words ≤ words }
    requires most { words ≤ most_words }
    ensures { IsShapeWith options.now (layout_in sound.now) words None result }
{
    shape_with(options, sound, words, None)
}

/// The shape of a frame of so many words with coupling, where it is usable.
fn coupled_shape(options: &Options, sound: &Sound, words: u16) -> Option<Shape>
    requires options { AreOptions options.now }
    requires least { least_words ≤ words }
    requires most { words ≤ most_words }
    ensures { MatchOption result (range_of options.now (layout_in sound.now) ≡ None)
        (λ s. IsCoupledShape options.now (layout_in sound.now) words s) }
{
    match range(options, sound.full()) {
        Some(range) => Some(shape_with(options, sound, words, Some(range))),
        None => None,
    }
}

/// Whether the cheapest assignment of a shape fits.
fn cheapest_fits(shape: &Shape) -> bool
    ensures { (o : Options) (l : Layout) (words : ℕ) (couple : Option (ℕ × ℕ)) → IsShapeWith o l words couple shape.now
        → IsTrue result ↔ CheapestFits o l words couple }
{
    cheapest(shape).fit(shape.words)
}

/// Whether the cheapest assignment fits a frame of so many words with coupling.
fn coupled_fits(options: &Options, sound: &Sound, words: u16) -> bool
    requires options { AreOptions options.now }
    requires least { least_words ≤ words }
    requires most { words ≤ most_words }
    ensures { IsTrue result ↔ CoupledFits options.now (layout_in sound.now) words }
{
    match coupled_shape(options, sound, words) {
        Some(coupled) => cheapest_fits(&coupled),
        None => false,
    }
}

/// The fault of bits of which some part is too large for its room.
fn too_low(bits: &Parts, rooms: &Parts) -> NewFault
    requires over { bits.now.total ≤ rooms.now.total → bits.now.front ≤ rooms.now.front → rooms.now.last < bits.now.last }
    ensures { IsFirstFault bits.now rooms.now result }
{
    let (part, needed, room) = if bits.total > rooms.total {
        (Part::Total, bits.total, rooms.total)
    } else if bits.front > rooms.front {
        (Part::Front, bits.front, rooms.front)
    } else {
        (Part::Last, bits.last, rooms.last)
    };
    NewFault::RateTooLow { part, needed, room }
}

/// Whether the rate is enough for a sound: the cheapest assignment fits the smaller frame size, without coupling or with it.
///
/// # Errors
///
/// `RateTooLow` where it is not.
pub fn enough(options: &Options, sound: &Sound) -> Result<(), NewFault>
    requires options { AreOptions options.now }
    ensures enough { IfOk result (λ _. IsEnough options.now (layout_in sound.now)) }
    ensures fault { IfErr result (λ fault. IsNewFault options.now (layout_in sound.now) fault) }
{
    let words = frame_words(options.rate, sound.fscod, 0);
    let plain = plain_shape(options, sound, words);
    if cheapest_fits(&plain) {
        return Ok(());
    }
    if coupled_fits(options, sound, words) {
        return Ok(());
    }
    Err(too_low(&cheapest(&plain), &rooms(words)))
}

/// Whether coupling is taken, where the cheapest assignment fits with it or not, it is worth it or not, and the cheapest fits without it
/// or not.
fn is_taken(fits: bool, worth: bool, plain: bool) -> bool
    ensures { result ≡ (fits && (worth || not plain)) }
{
    fits && (worth || !plain)
}

/// Whether a frame with these coefficients is coupled.
fn is_coupled(coefs: &Coefs, plain: &Shape, coupled: &Shape) -> bool
    requires coupling { is_some coupled.now.couple ≡ true }
    requires small { AreSmallCoupled coupled.now (entry coefs.now.c) }
    ensures { (o : Options) (l : Layout) (words : ℕ) (range : ℕ × ℕ) → range_of o l ≡ Some range → IsShapeWith o l words None plain.now
        → IsShapeWith o l words (Some range) coupled.now → IsTrue result ↔ Couples o l words (entry coefs.now.c) range }
{
    is_taken(
        cheapest_fits(coupled),
        couples(coefs, coupled),
        cheapest_fits(plain),
    )
}

/// The shape of a frame of so many words with these coefficients, which stand by channel in coding order. The cheapest assignment of it
/// fits.
pub fn shape_for(options: &Options, sound: &Sound, words: u16, coefs: &Coefs) -> Shape
    requires options { AreOptions options.now }
    requires enough { IsEnough options.now (layout_in sound.now) }
    requires size { (words ≡ table_words options.now.rate sound.now.fscod) ⊎ (words ≡ table_words options.now.rate sound.now.fscod + 1) }
    requires least { least_words ≤ words }
    requires most { words ≤ most_words }
    requires small { AreSmallOf (layout_in sound.now) (entry coefs.now.c) }
    ensures shape { IsShapeFor options.now (layout_in sound.now) words (entry coefs.now.c) result }
    ensures cheapest { (raw : List (List (List ℕ))) → FitsAt result raw 0 (cheapest_assign result) }
{
    let plain = plain_shape(options, sound, words);
    match coupled_shape(options, sound, words) {
        Some(coupled) => {
            if is_coupled(coefs, &plain, &coupled) {
                coupled
            } else {
                plain
            }
        }
        None => plain,
    }
}
