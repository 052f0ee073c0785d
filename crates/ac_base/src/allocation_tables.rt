//! The tables of the bit allocation, read by index (A/52 7.2.3).
ghost use Rattle.std.specs.Prelude.{◌≡◌, ◌<◌, ◌≤◌, ◌+◌, slice_index};
ghost use Rattle.ac_base.specs.Allocation.{bands, bins, latab_list, bndtab_list, masktab_list, hth_list, baptab_list};

/// The bands of the bit allocation (A/52 Table 7.12).
pub const BANDS: usize = 50;

/// The bins that the bands have: no channel has more.
pub const BINS: usize = 253;

/// What a log-addition adds to the greater level (A/52 Table 7.14).
static LATAB: [u8; 256] = [
    64, 63, 62, 61, 60, 59, 58, 57, 56, 55, 54, 53, 52, 52, 51, 50, 49, 48, 47, 47, 46, 45, 44, 44,
    43, 42, 41, 41, 40, 39, 38, 38, 37, 36, 36, 35, 35, 34, 33, 33, 32, 32, 31, 30, 30, 29, 29, 28,
    28, 27, 27, 26, 26, 25, 25, 24, 24, 23, 23, 22, 22, 21, 21, 21, 20, 20, 19, 19, 19, 18, 18, 18,
    17, 17, 17, 16, 16, 16, 15, 15, 15, 14, 14, 14, 13, 13, 13, 13, 12, 12, 12, 12, 11, 11, 11, 11,
    10, 10, 10, 10, 10, 9, 9, 9, 9, 9, 8, 8, 8, 8, 8, 8, 7, 7, 7, 7, 7, 7, 6, 6, 6, 6, 6, 6, 6, 6,
    5, 5, 5, 5, 5, 5, 5, 5, 4, 4, 4, 4, 4, 4, 4, 4, 4, 4, 4, 3, 3, 3, 3, 3, 3, 3, 3, 3, 3, 3, 3, 3,
    3, 2, 2, 2, 2, 2, 2, 2, 2, 2, 2, 2, 2, 2, 2, 2, 2, 2, 2, 2, 1, 1, 1, 1, 1, 1, 1, 1, 1, 1, 1, 1,
    1, 1, 1, 1, 1, 1, 1, 1, 1, 1, 1, 1, 1, 1, 1, 1, 1, 1, 1, 1, 0, 0, 0, 0, 0, 0, 0, 0, 0, 0, 0, 0,
    0, 0, 0, 0, 0, 0, 0, 0, 0, 0, 0, 0, 0, 0, 0, 0, 0, 0, 0, 0, 0, 0, 0, 0, 0, 0, 0, 0, 0, 0, 0, 0,
    0, 0,
];

/// The first bin of each band, and the end of the last (A/52 Table 7.12).
static BNDTAB: [u8; BANDS + 1] = [
    0, 1, 2, 3, 4, 5, 6, 7, 8, 9, 10, 11, 12, 13, 14, 15, 16, 17, 18, 19, 20, 21, 22, 23, 24, 25,
    26, 27, 28, 31, 34, 37, 40, 43, 46, 49, 55, 61, 67, 73, 79, 85, 97, 109, 121, 133, 157, 181,
    205, 229, 253,
];

/// The band of each bin (A/52 Table 7.13).
static MASKTAB: [u8; BINS] = [
    0, 1, 2, 3, 4, 5, 6, 7, 8, 9, 10, 11, 12, 13, 14, 15, 16, 17, 18, 19, 20, 21, 22, 23, 24, 25,
    26, 27, 28, 28, 28, 29, 29, 29, 30, 30, 30, 31, 31, 31, 32, 32, 32, 33, 33, 33, 34, 34, 34, 35,
    35, 35, 35, 35, 35, 36, 36, 36, 36, 36, 36, 37, 37, 37, 37, 37, 37, 38, 38, 38, 38, 38, 38, 39,
    39, 39, 39, 39, 39, 40, 40, 40, 40, 40, 40, 41, 41, 41, 41, 41, 41, 41, 41, 41, 41, 41, 41, 42,
    42, 42, 42, 42, 42, 42, 42, 42, 42, 42, 42, 43, 43, 43, 43, 43, 43, 43, 43, 43, 43, 43, 43, 44,
    44, 44, 44, 44, 44, 44, 44, 44, 44, 44, 44, 45, 45, 45, 45, 45, 45, 45, 45, 45, 45, 45, 45, 45,
    45, 45, 45, 45, 45, 45, 45, 45, 45, 45, 45, 46, 46, 46, 46, 46, 46, 46, 46, 46, 46, 46, 46, 46,
    46, 46, 46, 46, 46, 46, 46, 46, 46, 46, 46, 47, 47, 47, 47, 47, 47, 47, 47, 47, 47, 47, 47, 47,
    47, 47, 47, 47, 47, 47, 47, 47, 47, 47, 47, 48, 48, 48, 48, 48, 48, 48, 48, 48, 48, 48, 48, 48,
    48, 48, 48, 48, 48, 48, 48, 48, 48, 48, 48, 49, 49, 49, 49, 49, 49, 49, 49, 49, 49, 49, 49, 49,
    49, 49, 49, 49, 49, 49, 49, 49, 49, 49, 49,
];

/// The hearing thresholds at 48 kHz (A/52 Table 7.15).
static HTH_48: [u16; BANDS] = [
    1232, 1232, 1088, 1024, 992, 960, 944, 944, 928, 928, 928, 928, 928, 912, 912, 912, 896, 896,
    880, 880, 864, 864, 848, 848, 832, 832, 816, 800, 784, 768, 752, 752, 752, 752, 768, 784, 832,
    912, 992, 1056, 1120, 1168, 1184, 1120, 1088, 1088, 1312, 2048, 2112, 2112,
];

/// The hearing thresholds at 44.1 kHz.
static HTH_44: [u16; BANDS] = [
    1264, 1264, 1120, 1040, 992, 976, 960, 944, 944, 928, 928, 928, 928, 928, 912, 912, 912, 896,
    896, 896, 880, 880, 864, 864, 848, 848, 832, 832, 800, 784, 768, 752, 752, 752, 752, 768, 800,
    848, 912, 992, 1056, 1104, 1184, 1168, 1120, 1088, 1152, 1584, 2112, 2112,
];

/// The hearing thresholds at 32 kHz.
static HTH_32: [u16; BANDS] = [
    1408, 1408, 1200, 1104, 1056, 1008, 992, 976, 960, 944, 944, 944, 928, 928, 928, 928, 928, 928,
    928, 928, 912, 912, 912, 912, 896, 896, 896, 880, 864, 848, 832, 816, 800, 784, 768, 752, 752,
    752, 768, 784, 816, 848, 960, 1040, 1136, 1184, 1120, 1088, 1104, 1248,
];

/// The bit allocation pointer by address (A/52 Table 7.16).
static BAPTAB: [u8; 64] = [
    0, 1, 1, 1, 1, 1, 2, 2, 3, 3, 3, 4, 4, 5, 5, 6, 6, 6, 6, 7, 7, 7, 7, 8, 8, 8, 8, 9, 9, 9, 9,
    10, 10, 10, 10, 11, 11, 11, 11, 12, 12, 12, 12, 13, 13, 13, 13, 14, 14, 14, 14, 14, 14, 14, 14,
    15, 15, 15, 15, 15, 15, 15, 15, 15,
];

fn latab_entry(i: u8) -> u8
    ensures { result ≡ slice_index latab_list i }
{
    LATAB[i as usize]
}

/// What a log-addition adds to the greater of two levels whose distance is 2i or 2i + 1, or more at 255
/// (latab, A/52 Table 7.14).
#[inline]
pub fn latab(i: u8) -> u8
    ensures value { result ≡ slice_index latab_list i }
    ensures bound { result ≤ 64 }
{
    latab_entry(i)
}

fn band_start_entry(b: u8) -> u8
    requires { b ≤ bands }
    ensures { result ≡ slice_index bndtab_list b }
{
    BNDTAB[b as usize]
}

/// The first bin of a band; at `BANDS` the bin behind the last band (bndtab, A/52 Table 7.12).
#[inline]
pub fn band_start(b: u8) -> u8
    requires { b ≤ bands }
    ensures value { result ≡ slice_index bndtab_list b }
    ensures bound { result ≤ bins }
{
    band_start_entry(b)
}

fn band_of_entry(bin: u8) -> u8
    requires { bin < bins }
    ensures { result ≡ slice_index masktab_list bin }
{
    MASKTAB[bin as usize]
}

/// The band of a bin (masktab, A/52 Table 7.13).
#[inline]
pub fn band_of(bin: u8) -> u8
    requires { bin < bins }
    ensures value { result ≡ slice_index masktab_list bin }
    ensures bound { result < bands }
    ensures starts { slice_index bndtab_list result ≤ bin }
    ensures ends { bin < slice_index bndtab_list (result + 1) }
{
    band_of_entry(bin)
}

fn hearing_entry(fscod: u8, band: u8) -> u16
    requires code { fscod ≤ 2 }
    requires band { band < bands }
    ensures { result ≡ slice_index (hth_list fscod) band }
{
    match fscod {
        0 => HTH_48[band as usize],
        1 => HTH_44[band as usize],
        _ => HTH_32[band as usize],
    }
}

/// The hearing threshold of a band, in 128ths of an exponent step, by fscod (hth, A/52 Table 7.15).
#[inline]
pub fn hearing(fscod: u8, band: u8) -> u16
    requires code { fscod ≤ 2 }
    requires band { band < bands }
    ensures value { result ≡ slice_index (hth_list fscod) band }
    ensures bound { result ≤ 0x840 }
{
    hearing_entry(fscod, band)
}

fn baptab_entry(address: u8) -> u8
    requires { address ≤ 63 }
    ensures { result ≡ slice_index baptab_list address }
{
    BAPTAB[address as usize]
}

/// The bit allocation pointer at an address (baptab, A/52 Table 7.16).
#[inline]
pub fn baptab(a: u8) -> u8
    requires { a ≤ 63 }
    ensures value { result ≡ slice_index baptab_list a }
    ensures bound { result ≤ 15 }
{
    baptab_entry(a)
}

#[cfg(test)]
mod tests;
