//! A window of offsets with its potentials.

use ac_ways::Ways;
use ac_windows::Window;

/// The sixths of all runs and the potentials at the sixteen offsets from the first on.
#[derive(Clone, Copy, Debug)]
pub struct Held {
    pub first: u16,
    pub window: Window,
    pub ways: Ways,
}

/// Nothing is held.
pub static NOTHING: Held = Held {
    first: 0,
    window: Window {
        six: [[[0; 16]; 63]; 7],
    },
    ways: Ways {
        p: [[[[0; 16]; 7]; 3]; 7],
    },
};
