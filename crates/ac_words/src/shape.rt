ghost use Rattle.std.specs.Prelude.{◌≡◌, map, not, string_bytes};
ghost use Rattle.std.specs.Str.Parse.{starts_with_minus};
ghost use Rattle.ac_words.specs.Options.{options_of};
ghost use Rattle.ac_words.specs.Shape.{has_shape, is_option};

/// A command that has options.
#[derive(Clone, Copy, Debug, PartialEq, Eq)]
pub(crate) enum Kind {
    /// `encode`.
    Encode,
    /// `synth`.
    Synth,
}

/// Whether the word is an option of the command.
fn is_known(kind: Kind, word: &str) -> bool
    ensures { result ≡ is_option (options_of kind) word.now }
{
    match kind {
        Kind::Encode => {
            word == "--rate" || word == "--nodes" || word == "--bw" || word == "--couple"
        }
        Kind::Synth => word == "--seed" || word == "--frames",
    }
}

/// Whether the word may be a value.
fn is_value(word: &str) -> bool
    ensures { result ≡ not (starts_with_minus word.now) }
{
    !word.starts_with('-')
}

/// Whether the words are pairs of an option of the command and a value.
pub(crate) fn has_pairs(kind: Kind, words: &[String]) -> bool
    ensures { result ≡ has_shape (options_of kind) (map string_bytes words.now) }
{
    match words {
        [] => true,
        [_] => false,
        [option, value, rest @ ..] => is_known(kind, option.as_str())
            && is_value(value.as_str())
            && has_pairs(kind, rest),
    }
}
