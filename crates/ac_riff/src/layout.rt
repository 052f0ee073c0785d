//! Channel masks, and the place in a WAV of each coded channel.
ghost use Rattle.std.specs.Prelude.{◌≡◌, ◌≤◌, ◌<◌, ℕ, slice_index};
ghost use Rattle.ac_riff.specs.Layout.{has_lfe, full_mask, mode_of, acmod_of, channel_count, first_mask, default_mask, order_of, coded_of};

/// The bit of a mask that names the LFE channel.
const LFE: u32 = 8;

/// The full-bandwidth channels of each acmod.
const FULL: [u8; 8] = [0, 1, 2, 3, 3, 4, 4, 5];

/// The first mask of each acmod, without LFE.
const FIRST_MASKS: [u32; 8] = [0, 0x4, 0x3, 0x7, 0x103, 0x107, 0x33, 0x37];

/// The mask of 1 to 6 channels where none is stated.
const DEFAULT_MASKS: [u32; 7] = [0, 0x4, 0x3, 0x7, 0x33, 0x37, 0x3F];

/// The WAV place of each coded channel, by acmod.
const PLAIN_ORDERS: [[u8; 6]; 8] = [
    [0, 0, 0, 0, 0, 0],
    [0, 0, 0, 0, 0, 0],
    [0, 1, 0, 0, 0, 0],
    [0, 2, 1, 0, 0, 0],
    [0, 1, 2, 0, 0, 0],
    [0, 2, 1, 3, 0, 0],
    [0, 1, 2, 3, 0, 0],
    [0, 2, 1, 3, 4, 0],
];

/// The same with LFE, which is coded last.
const LFE_ORDERS: [[u8; 6]; 8] = [
    [0, 0, 0, 0, 0, 0],
    [0, 1, 0, 0, 0, 0],
    [0, 1, 2, 0, 0, 0],
    [0, 2, 1, 3, 0, 0],
    [0, 1, 3, 2, 0, 0],
    [0, 2, 1, 4, 3, 0],
    [0, 1, 3, 4, 2, 0],
    [0, 2, 1, 4, 5, 3],
];

/// The coded channel at each WAV place, by acmod.
const PLAIN_CODED: [[u8; 6]; 8] = [
    [0, 0, 0, 0, 0, 0],
    [0, 0, 0, 0, 0, 0],
    [0, 1, 0, 0, 0, 0],
    [0, 2, 1, 0, 0, 0],
    [0, 1, 2, 0, 0, 0],
    [0, 2, 1, 3, 0, 0],
    [0, 1, 2, 3, 0, 0],
    [0, 2, 1, 3, 4, 0],
];

/// The same with LFE, which stands behind the last of L, R, C.
const LFE_CODED: [[u8; 6]; 8] = [
    [0, 0, 0, 0, 0, 0],
    [0, 1, 0, 0, 0, 0],
    [0, 1, 2, 0, 0, 0],
    [0, 2, 1, 3, 0, 0],
    [0, 1, 3, 2, 0, 0],
    [0, 2, 1, 4, 3, 0],
    [0, 1, 4, 2, 3, 0],
    [0, 2, 1, 5, 3, 4],
];

/// Whether the mask names the LFE channel.
pub fn names_lfe(mask: u32) -> bool
    ensures { result ≡ has_lfe mask }
{
    mask / LFE % 2 == 1
}

/// The mask without its LFE bit.
fn without_lfe(mask: u32) -> u32
    ensures { result ≡ full_mask mask }
{
    if names_lfe(mask) { mask - LFE } else { mask }
}

/// The acmod of a mask of full-bandwidth channels; 0 for a mask outside the profile.
fn mode(full: u32) -> u8
    ensures { result ≡ mode_of full }
{
    match full {
        0x4 | 0x1 => 1,
        0x3 => 2,
        0x7 => 3,
        0x103 => 4,
        0x107 => 5,
        0x33 | 0x603 => 6,
        0x37 | 0x607 => 7,
        _ => 0,
    }
}

/// The acmod of a mask; 0 for a mask outside the profile.
pub fn acmod(mask: u32) -> u8
    ensures value { result ≡ acmod_of mask }
    ensures most { result ≤ 7 }
{
    mode(without_lfe(mask))
}

/// The number of channels of a layout, LFE included.
pub fn channels(acmod: u8, lfe: bool) -> u8
    requires { acmod ≤ 7 }
    ensures value { result ≡ channel_count acmod lfe }
    ensures most { result ≤ 6 }
{
    FULL[acmod as usize] + u8::from(lfe)
}

/// The first mask of an acmod, without LFE.
pub fn mask(acmod: u8) -> u32
    requires { acmod ≤ 7 }
    ensures { result ≡ first_mask acmod }
{
    FIRST_MASKS[acmod as usize]
}

/// The mask of 1 to 6 channels where none is stated.
pub fn usual_mask(channels: u16) -> u32
    requires { channels ≤ 6 }
    ensures { result ≡ default_mask channels }
{
    DEFAULT_MASKS[channels as usize]
}

/// The WAV place of each coded channel.
pub fn order(acmod: u8, lfe: bool) -> [u8; 6]
    requires { acmod ≤ 7 }
    ensures { result ≡ order_of acmod lfe }
{
    if lfe {
        LFE_ORDERS[acmod as usize]
    } else {
        PLAIN_ORDERS[acmod as usize]
    }
}

/// The coded channel at each WAV place.
pub fn coded(acmod: u8, lfe: bool) -> [u8; 6]
    requires { acmod ≤ 7 }
    ensures value { result ≡ coded_of acmod lfe }
    ensures below { (p : ℕ) → p < 6 → slice_index result p < 6 }
{
    if lfe {
        LFE_CODED[acmod as usize]
    } else {
        PLAIN_CODED[acmod as usize]
    }
}
