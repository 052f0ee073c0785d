ghost use Rattle.std.specs.Prelude.{ℕ, MatchOption, Option, option_map};
ghost use Rattle.ac_words.specs.Grammar.{BandwidthOf, CoupleOf, FramesOf, NodesOf, RateOf, SeedOf};
ghost use Rattle.ac_words.specs.declared.meaning.Couple.{Couple};

use crate::coupling::couple_of;
use crate::meaning::Couple;
use crate::number::{bandwidth_of, nodes_of, number_to, rate_of};

/// The bit rate, which has to be given.
pub(crate) fn rate_in(value: Option<&str>) -> Option<u16>
    ensures { MatchOption result
        ((rate : ℕ) → ¬ RateOf (option_map (λ text. text.now) value.entry) rate)
        (RateOf (option_map (λ text. text.now) value.entry)) }
{
    match value {
        Some(text) => rate_of(text),
        None => None,
    }
}

/// The number of nodes: 20,000 where it isn't given.
pub(crate) fn nodes_in(value: Option<&str>) -> Option<u32>
    ensures { MatchOption result
        ((nodes : ℕ) → ¬ NodesOf (option_map (λ text. text.now) value.entry) nodes)
        (NodesOf (option_map (λ text. text.now) value.entry)) }
{
    match value {
        Some(text) => nodes_of(text),
        None => Some(20_000),
    }
}

/// The bandwidth code, where it is given.
pub(crate) fn bandwidth_in(value: Option<&str>) -> Option<Option<u8>>
    ensures { MatchOption result
        ((bw : Option ℕ) → ¬ BandwidthOf (option_map (λ text. text.now) value.entry) bw)
        (BandwidthOf (option_map (λ text. text.now) value.entry)) }
{
    let Some(text) = value else {
        return Some(None);
    };
    match bandwidth_of(text) {
        Some(bw) => Some(Some(bw)),
        None => None,
    }
}

/// The use of coupling: `Auto` where it isn't given.
pub(crate) fn couple_in(value: Option<&str>) -> Option<Couple>
    ensures { MatchOption result
        ((couple : Couple) → ¬ CoupleOf (option_map (λ text. text.now) value.entry) couple)
        (CoupleOf (option_map (λ text. text.now) value.entry)) }
{
    match value {
        Some(text) => couple_of(text),
        None => Some(Couple::Auto),
    }
}

/// The seed, which has to be given.
pub(crate) fn seed_in(value: Option<&str>) -> Option<u64>
    ensures { MatchOption result
        ((seed : ℕ) → ¬ SeedOf (option_map (λ text. text.now) value.entry) seed)
        (SeedOf (option_map (λ text. text.now) value.entry)) }
{
    match value {
        Some(text) => number_to(u64::MAX, text),
        None => None,
    }
}

/// The number of frames, which has to be given.
pub(crate) fn frames_in(value: Option<&str>) -> Option<u32>
    ensures { MatchOption result
        ((frames : ℕ) → ¬ FramesOf (option_map (λ text. text.now) value.entry) frames)
        (FramesOf (option_map (λ text. text.now) value.entry)) }
{
    let Some(text) = value else {
        return None;
    };
    let Some(frames) = number_to(200, text) else {
        return None;
    };
    if frames < 1 {
        return None;
    }
    Some(frames as u32)
}
