//! Why a WAV is refused.

/// A field of the `fmt ` chunk.
#[derive(Clone, Copy, Debug, PartialEq, Eq)]
pub enum Field {
    /// The size of the chunk.
    Size,
    /// The format tag: 1 for PCM, 0xFFFE for the extensible form.
    Tag,
    /// The number of channels.
    Channels,
    /// Samples a second.
    Rate,
    /// Bits a sample.
    Bits,
    /// The bytes of one sample of all channels.
    Align,
    /// The size of the extension.
    Extra,
    /// The channel mask of the extension.
    Mask,
    /// The subformat of the extension.
    Subformat,
}

/// Why a list of bytes is no WAV.
#[derive(Clone, Copy, Debug, PartialEq, Eq)]
pub enum WavKind {
    /// The input ends inside its head, inside a chunk before the data, or inside the data.
    Short,
    /// The input isn't `RIFF` with `WAVE`.
    NotRiff,
    /// The `data` chunk comes before the `fmt ` chunk.
    NoFmt,
    /// The input ends before the `data` chunk.
    NoData,
    /// This field contradicts the others.
    BadFmt(Field),
    /// This field has a value outside the profile.
    Unsupported(Field, u32),
}

/// Why a WAV wasn't read.
#[derive(Clone, Copy, Debug, PartialEq, Eq)]
pub enum WavFault {
    /// The bytes are refused, for this reason and at this place, counted from the input's first byte.
    Bad(WavKind, u64),
    /// A read failed.
    ReadFault,
    /// More bytes are needed than the limit, and they are there.
    TooLong,
}
