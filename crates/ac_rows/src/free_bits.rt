//! How many free bits stand behind the fields of a head and of a block.
ghost use Rattle.std.specs.Prelude.{◌≡◌, ◌≤◌};
ghost use Rattle.ac_rows.specs.HeadRows.{extra_bits};
ghost use Rattle.ac_rows.specs.BlockRows.{bits_skipped};

/// The number of bits of addbsi, by addbsil.
pub fn extra(addbsil: Option<u8>) -> u32
    ensures value { result ≡ extra_bits addbsil }
    ensures bound { result ≤ 2048 }
{
    match addbsil {
        Some(n) => 8 * (u32::from(n) + 1),
        None => 0,
    }
}

/// The number of bits of the skip bytes, by skipl.
pub fn skipped(skipl: Option<u16>) -> u32
    ensures { result ≡ bits_skipped skipl }
{
    match skipl {
        Some(n) => 8 * u32::from(n),
        None => 0,
    }
}
