//! The nominal bit rates of A/52 (Table 5.18).
ghost use Rattle.std.specs.Prelude.{◌≡◌, ◌≤◌, slice_index};
ghost use Rattle.ac_base.specs.Rates.{last_rate_code, rates, is_rate, IsRate, HasCode};

/// How many rates there are (A/52 Table 5.18).
const COUNT: u8 = 19;

/// In kbit/s, by frmsizecod / 2.
static RATES: [u16; COUNT as usize] = [
    32, 40, 48, 56, 64, 80, 96, 112, 128, 160, 192, 224, 256, 320, 384, 448, 512, 576, 640,
];

fn entry(code: u8) -> u16
    requires { code ≤ last_rate_code }
    ensures { result ≡ slice_index rates code }
{
    RATES[usize::from(code)]
}

/// The bit rate in kbit/s of a code from 0 to 18, which is frmsizecod / 2 (A/52 5.4.1.4).
pub fn rate(code: u8) -> u16
    requires { code ≤ last_rate_code }
    ensures value { result ≡ slice_index rates code }
    ensures least { 32 ≤ result }
    ensures most { result ≤ 640 }
{
    entry(code)
}

/// The code of a bit rate in kbit/s: its place in the table (A/52 Table 5.18).
pub fn rate_code(rate: u16) -> u8
    requires { IsRate rate }
    ensures { HasCode rate result }
{
    for code in 0..COUNT {
        if entry(code) == rate {
            return code;
        }
    }
    0
}

/// Whether a bit rate in kbit/s is one of the table (A/52 Table 5.18).
#[tactic(auto, unfolding(crate::specs::Rates::is_rate))]
pub fn is_rate(rate: u16) -> bool
    ensures { result ≡ is_rate rate }
{
    RATES.contains(&rate)
}

#[cfg(test)]
mod tests;
