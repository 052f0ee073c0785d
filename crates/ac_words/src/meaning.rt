/// The last three words. `-` stands for standard input, standard output, and no report.
#[derive(Clone, Copy, Debug)]
pub struct Names<'a> {
    /// Where the input is read from.
    pub from: &'a str,
    /// Where the output is written to.
    pub to: &'a str,
    /// Where the report is written to.
    pub report: &'a str,
}

/// What is to be done.
#[derive(Clone, Copy, Debug, PartialEq, Eq)]
pub enum Command {
    /// Sound to AC-3.
    Encode(Options),
    /// AC-3 to sound.
    Decode,
    /// Generated sound to AC-3.
    Synth {
        /// Where the numbers drawn start.
        seed: u64,
        /// How many frames: 1 to 200.
        frames: u32,
    },
}

/// The options of the encoder.
#[derive(Clone, Copy, Debug, PartialEq, Eq)]
pub struct Options {
    /// The bit rate in kilobits a second, one of the 19 of A/52 table 5.18.
    pub rate: u16,
    /// How many nodes the search may open in a frame: at most 10,000,000, and 20,000 where it isn't given.
    pub nodes: u32,
    /// The bandwidth code chbwcod (A/52 5.4.3.24), 0 to 60, where it is given. None: by the bit rate.
    pub bw: Option<u8>,
    /// How the channels are coupled: `Auto` where it isn't given.
    pub couple: Couple,
}

/// The use of coupling (A/52 7.4).
#[derive(Clone, Copy, Debug, PartialEq, Eq)]
pub enum Couple {
    /// Never.
    Off,
    /// By the bit rate and the number of channels.
    Auto,
    /// Over the subbands from cplbegf to cplendf (A/52 5.4.3.11, 5.4.3.12).
    Bins(u8, u8),
}
