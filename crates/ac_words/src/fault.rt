use thiserror::Error;

/// Why words give no answer.
#[derive(Debug, Clone, Copy, PartialEq, Eq, Error)]
pub enum WordsFault {
    /// The words are not in the grammar.
    #[error("the words are no command")]
    Usage,
    /// There was not enough memory to read them.
    #[error("out of memory")]
    NoMemory,
}
