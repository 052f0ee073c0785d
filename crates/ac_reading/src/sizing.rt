//! The size of a frame from its first six bytes (A/52 5.3.1, 5.4.1).
ghost use Rattle.std.specs.Prelude.{◌≡◌, ◌*◌, MatchResult, None, Some};
ghost use Rattle.ac_record.specs.Faults.{sync_at, size_refusal, words_at};

use ac_base::code_words;
use ac_codec::{Refused, Row};

/// The first 16 bits, the synchronisation word of a frame (A/52 5.4.1.1).
fn sync(first: &[u8; 6]) -> u16
    ensures { result ≡ sync_at first.now }
{
    256 * u16::from(first[0]) + u16::from(first[1])
}

/// Why these bytes say no size.
fn refusal(first: &[u8; 6]) -> Option<Refused>
    ensures { result ≡ size_refusal first.now }
{
    if sync(first) != 0x0B77 {
        Some(Refused::BadSync)
    } else if first[4] / 64 >= 3 {
        Some(Refused::Reserved(Row::Fscod))
    } else if first[4] % 64 >= 38 {
        Some(Refused::Reserved(Row::Frmsizecod))
    } else if first[5] / 8 != 8 {
        Some(Refused::BadBsid(first[5] / 8))
    } else {
        None
    }
}

/// The bytes of a frame that begins so: twice its words (A/52 5.4.1.4, Table 5.18).
///
/// # Errors
///
/// `BadSync`, `Reserved(Fscod)`, `Reserved(Frmsizecod)` or `BadBsid`: the first of these fields, in this order, that no frame
/// has (A/52 5.4.1.1, 5.4.1.3, 5.4.1.4, 5.4.2.1).
pub fn size(first: &[u8; 6]) -> Result<u16, Refused>
    ensures { MatchResult result (λ n. (size_refusal first.now ≡ None) × (n ≡ 2 * words_at first.now))
        (λ e. size_refusal first.now ≡ Some e) }
{
    match refusal(first) {
        Some(e) => Err(e),
        None => Ok(2 * code_words(first[4] / 64, first[4] % 64)),
    }
}
