/// Full channels in one block of the coupling's range, and what comes of them.
pub struct Case {
    pub acmod: u8,
    /// The bins of each channel.
    pub bins: u8,
    /// Where the channels' coefficients begin in `FULL`, and the coupling channel's in `SHARED`.
    pub full_at: u8,
    pub shared_at: u8,
    /// The coupling channel's energy.
    pub energy: u64,
    /// Whether coupling is worth it.
    pub worth: bool,
}

/// By a program in another language.
pub static CASES: [Case; 10] = [
    Case {
        acmod: 2,
        bins: 1,
        full_at: 0,
        shared_at: 0,
        energy: 7524049,
        worth: true,
    },
    Case {
        acmod: 2,
        bins: 2,
        full_at: 2,
        shared_at: 1,
        energy: 2,
        worth: false,
    },
    Case {
        acmod: 3,
        bins: 2,
        full_at: 6,
        shared_at: 3,
        energy: 49168841,
        worth: true,
    },
    Case {
        acmod: 3,
        bins: 3,
        full_at: 12,
        shared_at: 5,
        energy: 106064189,
        worth: true,
    },
    Case {
        acmod: 5,
        bins: 3,
        full_at: 21,
        shared_at: 8,
        energy: 727683809,
        worth: true,
    },
    Case {
        acmod: 5,
        bins: 4,
        full_at: 33,
        shared_at: 11,
        energy: 85592085,
        worth: true,
    },
    Case {
        acmod: 7,
        bins: 4,
        full_at: 49,
        shared_at: 15,
        energy: 218245323,
        worth: true,
    },
    Case {
        acmod: 7,
        bins: 5,
        full_at: 69,
        shared_at: 19,
        energy: 461979869,
        worth: true,
    },
    Case {
        acmod: 2,
        bins: 12,
        full_at: 94,
        shared_at: 24,
        energy: 1143695295,
        worth: true,
    },
    Case {
        acmod: 3,
        bins: 6,
        full_at: 118,
        shared_at: 36,
        energy: 1049706286,
        worth: true,
    },
];

/// The coefficients of the full channels, channel after channel.
pub static FULL: [i32; 136] = [
    2743, 2743, 15191, 5501, -15192, -5502, 2042, -20936, 0, 0, 0, 0, 1107, 18819, -10121, 10791,
    -2826, -16203, -5355, -1957, -410, -11417, 32293, 25423, 21859, -17742, 30349, -10202, 25630,
    29117, -2575, -11927, 19226, -9733, 8175, -8720, -15733, 14350, -4028, -11499, 3719, -1891,
    -4886, -9688, -3975, -6196, 15485, -764, 1876, -7723, 15530, -602, 11885, 14026, 13240, -17204,
    14664, -9045, -1606, -4448, -6164, 9631, 15252, -8116, 15935, -8724, 3826, -11745, 2938,
    -11614, -318, -9044, -11507, 13751, -8754, -12856, -14947, -14009, 605, -8158, -13115, -16325,
    -13819, -598, -1830, -11252, -14620, 854, 4669, -424, -11520, -19314, -6978, 6373, 4725, 7257,
    -22186, 17453, 21020, -1619, 23555, -10484, 7232, -13962, -12949, -2956, 2610, 25586, 1032,
    -2496, 1621, -2562, 16586, 3544, -10300, -8992, 6487, 4886, 10048, 20378, 14073, -11546,
    -13458, -4583, 10048, 20378, 14073, -11546, -13458, -4583, 10048, 20378, 14073, -11546, -13458,
    -4583,
];

/// Those of the coupling channel.
pub static SHARED: [i32; 42] = [
    2743, -1, -1, 680, -6979, 2181, 4678, -8912, -584, 7063, 26028, -868, 3686, -7668, -3529, -367,
    9248, -8423, 7851, -6156, -9813, -14850, -9092, 4960, 3667, 16421, -10577, 7478, 11320, -2091,
    20070, -3470, -1534, -11477, -3231, 965, 10048, 20378, 14073, -11546, -13458, -4583,
];
