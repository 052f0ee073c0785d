ghost use Rattle.std.specs.Prelude.{◌≡◌, ◌≢◌, ℕ, ◌<◌, ◌^◌, MatchOption, Some, IsTrue};
ghost use Rattle.std.specs.Fmt.{decimal};
ghost use Rattle.ac_words.specs.Grammar.{IsNumber, RateOf};
ghost use Rattle.ac_base.specs.Rates.{is_rate};
ghost use Rattle.ac_words.specs.Digits.{is_bare_number};

use ac_base::is_rate;

/// Whether the text has no plus before it and no leading zero.
fn is_bare(bytes: &[u8]) -> bool
    ensures { result ≡ is_bare_number bytes.now }
{
    match bytes {
        [] => false,
        [first] => *first != b'+',
        [first, ..] => *first != b'+' && *first != b'0',
    }
}

/// The number that the text writes in decimal digits, without a sign or a leading zero.
fn written(text: &str) -> Option<u64>
    ensures { MatchOption result
        ((n : ℕ) → n < 2 ^ 64 → text.now ≢ decimal n)
        (λ n. text.now ≡ decimal n) }
{
    if !is_bare(text.as_bytes()) {
        return None;
    }
    match text.parse::<u64>() {
        Ok(n) => Some(n),
        Err(_) => None,
    }
}

/// The number, where it is a rate.
fn as_rate(number: u64) -> Option<u16>
    ensures { MatchOption result
        (¬ IsTrue (is_rate number))
        (λ rate. (rate ≡ number) × IsTrue (is_rate number)) }
{
    match u16::try_from(number) {
        Ok(rate) if is_rate(rate) => Some(rate),
        _ => None,
    }
}

/// The bit rate that the text writes.
pub(crate) fn rate_of(text: &str) -> Option<u16>
    ensures { MatchOption result
        ((rate : ℕ) → ¬ RateOf (Some text.now) rate)
        (RateOf (Some text.now)) }
{
    match written(text) {
        Some(number) => as_rate(number),
        None => None,
    }
}

/// The number that the text writes, where it is at most `most`.
pub(crate) fn number_to(most: u64, text: &str) -> Option<u64>
    ensures { MatchOption result
        ((n : ℕ) → ¬ IsNumber most text.now n)
        (IsNumber most text.now) }
{
    let Some(number) = written(text) else {
        return None;
    };
    if number > most {
        return None;
    }
    Some(number)
}

/// The number of nodes that the text writes.
pub(crate) fn nodes_of(text: &str) -> Option<u32>
    ensures { MatchOption result
        ((n : ℕ) → ¬ IsNumber 10000000 text.now n)
        (IsNumber 10000000 text.now) }
{
    match number_to(10_000_000, text) {
        Some(nodes) => Some(nodes as u32),
        None => None,
    }
}

/// The bandwidth code chbwcod that the text writes.
pub(crate) fn bandwidth_of(text: &str) -> Option<u8>
    ensures { MatchOption result
        ((n : ℕ) → ¬ IsNumber 60 text.now n)
        (IsNumber 60 text.now) }
{
    match number_to(60, text) {
        Some(bw) => Some(bw as u8),
        None => None,
    }
}
