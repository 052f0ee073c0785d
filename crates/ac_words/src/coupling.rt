ghost use Rattle.std.specs.Prelude.{ℕ, MatchOption};
ghost use Rattle.ac_words.specs.Grammar.{AreBins, IsCouple};
ghost use Rattle.ac_words.specs.declared.meaning.Couple.{Couple};

use crate::meaning::Couple;
use crate::number::number_to;

/// The coupling whose cplbegf and cplendf the text writes.
fn bins_of(text: &str) -> Option<Couple>
    ensures { MatchOption result
        ((begin end : ℕ) → ¬ AreBins text.now begin end)
        (IsCouple text.now) }
{
    let Some((begin, end)) = text.split_once(',') else {
        return None;
    };
    let Some(begin) = number_to(15, begin) else {
        return None;
    };
    let Some(end) = number_to(15, end) else {
        return None;
    };
    let most = end + 2;
    if begin > most {
        return None;
    }
    Some(Couple::Bins(begin as u8, end as u8))
}

/// The use of coupling that the text writes.
pub(crate) fn couple_of(text: &str) -> Option<Couple>
    ensures { MatchOption result
        ((couple : Couple) → ¬ IsCouple text.now couple)
        (IsCouple text.now) }
{
    if text == "off" {
        return Some(Couple::Off);
    }
    if text == "auto" {
        return Some(Couple::Auto);
    }
    bins_of(text)
}
