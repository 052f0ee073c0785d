//! The coefficients of a frame.
ghost use Rattle.std.specs.Prelude.{◌≡◌, replicate, pos};

/// The coefficients of a frame, of scale 2^24: coded channel, block, bin.
#[derive(Clone, Copy, Debug, PartialEq, Eq)]
pub struct Coefs {
    pub c: [[[i32; 256]; 6]; 7],
}

static ZEROS: Coefs = Coefs {
    c: [[[0; 256]; 6]; 7],
};

impl Coefs {
    /// Each coefficient 0.
    pub fn zeros() -> Coefs
        ensures { result.c ≡ replicate 7 (replicate 6 (replicate 256 (pos 0))) }
    {
        let zeros = &ZEROS;
        *zeros
    }
}

#[cfg(test)]
mod tests;
