ghost use Rattle.std.specs.Prelude.{◌≡◌, ◌≢◌, ◌<◌, ◌∷◌, ◌++◌, length, map, string_bytes, MatchOption, IfOk, IsOk, Err};
ghost use Rattle.ac_words.specs.Grammar.{is_name as is_name_text, are_names as are_name_texts, last_words, Means, InGrammar};
ghost use Rattle.ac_words.specs.Asked.{texts_of, meaning_of, GivesCommand, GivesNames};
ghost use Rattle.ac_words.specs.Lawful.{IsWithinBounds};
ghost use Rattle.ac_words.specs.declared.fault.WordsFault.TheVariants.{Usage, NoMemory};

use crate::fault::WordsFault;
use crate::meaning::{Command, Names};
use crate::options::command_of;
use std::alloc::Global;

/// The words in three parts.
#[derive(Clone, Copy)]
struct Parts<'a> {
    command: &'a str,
    pairs: &'a [String],
    names: Names<'a>,
}

/// The words' meaning.
#[derive(Clone, Copy)]
struct Asked<'a> {
    command: Command,
    names: Names<'a>,
}

/// Whether the word may be a name.
fn is_name(word: &str) -> bool
    ensures { result ≡ is_name_text word.now }
{
    word == "-" || (!word.is_empty() && !word.starts_with('-'))
}

/// Whether the last three words may be names.
fn are_names(names: Names<'_>) -> bool
    ensures { result ≡ are_name_texts (texts_of names.entry) }
{
    is_name(names.from) && is_name(names.to) && is_name(names.report)
}

/// The command, the pairs and the names; nothing where the words are fewer than four.
fn parts_of<'a>(words: &'a [String]) -> Option<Parts<'a>>
    ensures { MatchOption result (length words.entry.now < 4)
        (λ p. map string_bytes words.entry.now
        ≡ p.command.now ∷ (map string_bytes p.pairs.now ++ last_words (texts_of p.names))) }
{
    match words {
        [command, pairs @ .., from, to, report] => Some(Parts {
            command: command.as_str(),
            pairs,
            names: Names {
                from: from.as_str(),
                to: to.as_str(),
                report: report.as_str(),
            },
        }),
        _ => None,
    }
}

/// What the words mean, where they are in the grammar.
fn asked_by<'a>(alloc: Global, words: &'a [String]) -> Result<Asked<'a>, WordsFault>
    ensures value { IfOk result (λ a. Means (map string_bytes words.entry.now) (meaning_of a.command (texts_of a.names))) }
    ensures cause { result ≡ Err Usage → ¬ InGrammar (map string_bytes words.entry.now) }
{
    let Some(parts) = parts_of(words) else {
        return Err(WordsFault::Usage);
    };
    if !are_names(parts.names) {
        return Err(WordsFault::Usage);
    }
    match command_of(alloc, parts.command, parts.pairs) {
        Ok(command) => Ok(Asked {
            command,
            names: parts.names,
        }),
        Err(fault) => Err(fault),
    }
}

/// The names in the words.
///
/// # Errors
///
/// `Usage` exactly where the words are not in the grammar, but that `NoMemory` can come first.
pub fn names<'a>(alloc: Global, words: &'a [String]) -> Result<Names<'a>, WordsFault>
    ensures value { IfOk result (λ n. GivesNames (map string_bytes words.entry.now) (texts_of n)) }
    ensures cause { result ≡ Err Usage → ¬ InGrammar (map string_bytes words.entry.now) }
    ensures refused { ¬ InGrammar (map string_bytes words.entry.now) → result ≢ Err NoMemory → result ≡ Err Usage }
    ensures complete { InGrammar (map string_bytes words.entry.now) → result ≢ Err NoMemory → IsOk result }
{
    match asked_by(alloc, words) {
        Ok(asked) => Ok(asked.names),
        Err(fault) => Err(fault),
    }
}

/// The command that the words give, with its options.
///
/// # Errors
///
/// `Usage` exactly where the words are not in the grammar, but that `NoMemory` can come first.
pub fn command(alloc: Global, words: &[String]) -> Result<Command, WordsFault>
    ensures value { IfOk result (GivesCommand (map string_bytes words.now)) }
    ensures lawful { IfOk result IsWithinBounds }
    ensures cause { result ≡ Err Usage → ¬ InGrammar (map string_bytes words.now) }
    ensures refused { ¬ InGrammar (map string_bytes words.now) → result ≢ Err NoMemory → result ≡ Err Usage }
    ensures complete { InGrammar (map string_bytes words.now) → result ≢ Err NoMemory → IsOk result }
{
    match asked_by(alloc, words) {
        Ok(asked) => Ok(asked.command),
        Err(fault) => Err(fault),
    }
}
