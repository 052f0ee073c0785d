ghost use Rattle.std.specs.Prelude.{◌≡◌, ◌≢◌, [], Err, IfOk, IfErr, map, string_bytes, true, false};
ghost use Rattle.clap.specs.Words.{app_of, first_value, found_of, kind_of, with_rule};
ghost use Rattle.ac_words.specs.Grammar.{Text, value_in};
ghost use Rattle.ac_words.specs.Options.{app_for, given_app, given_rule, is_whole, options_of, AreWhole};
ghost use Rattle.ac_words.specs.Shape.{has_shape, pairs_of};
ghost use Rattle.ac_words.specs.declared.fault.WordsFault.TheVariants.{Usage, NoMemory};

use crate::fault::WordsFault;
use crate::shape::{Kind, has_pairs};
use clap::error::ErrorKind;
use clap::{Arg, ArgAction, ArgMatches, Command, Error};
use std::alloc::{AllocError, Global};

/// The command with one more option.
fn with_option<'a>(
    alloc: Global,
    command: Command<'a>,
    name: &'a str,
    required: bool,
) -> Result<Command<'a>, AllocError>
    ensures { IfOk result (λ r. app_of r
        ≡ with_rule (app_of command.entry) (given_rule (name.entry.now, required))) }
{
    let option = Arg::new(alloc, name)
        .long(name)
        .required(required)
        .action(ArgAction::Set);
    command.arg(option)
}

/// The command with no option.
fn without_options<'a>(alloc: Global, name: &'a str) -> Command<'a>
    ensures { app_of result ≡ given_app name.entry.now [] }
{
    let bare = Command::new(alloc, name).no_binary_name(true);
    bare.disable_help_flag(true)
}

/// The command as clap reads it.
fn reader<'a>(alloc: Global, kind: Kind) -> Result<Command<'a>, AllocError>
    ensures { IfOk result (λ r. app_of r ≡ app_for kind) }
{
    match kind {
        Kind::Encode => {
            let bare = without_options(alloc, "encode");
            let rate = with_option(alloc, bare, "rate", true)?;
            let nodes = with_option(alloc, rate, "nodes", false)?;
            let bandwidth = with_option(alloc, nodes, "bw", false)?;
            with_option(alloc, bandwidth, "couple", false)
        }
        Kind::Synth => {
            let bare = without_options(alloc, "synth");
            let seed = with_option(alloc, bare, "seed", true)?;
            with_option(alloc, seed, "frames", true)
        }
    }
}

/// What clap finds of the pairs, in words of their shape: the value behind each option. It refuses an option that
/// stands twice, and a required one that is missing.
fn found_pairs<'a>(alloc: Global, kind: Kind, words: &'a [String]) -> Result<ArgMatches<'a>, Error>
    requires shape { has_shape (options_of kind) (map string_bytes words.now) ≡ true }
    ensures whole { IfOk result (λ m. is_whole (options_of kind) (pairs_of (map string_bytes words.entry.now)) ≡ true) }
    ensures found { IfOk result (λ m. (id : Text)
        → first_value (found_of m) id ≡ value_in id (pairs_of (map string_bytes words.entry.now))) }
    ensures refused { IfErr result (λ e. kind_of e ≢ ErrorKind.OutOfMemory
        → is_whole (options_of kind) (pairs_of (map string_bytes words.entry.now)) ≡ false) }
{
    let command = reader(alloc, kind)?;
    command.try_get_matches_from(words)
}

/// Why clap found nothing.
fn fault_of(error: &Error) -> WordsFault
    ensures usage { result ≡ Usage → kind_of error.now ≢ ErrorKind.OutOfMemory }
    ensures memory { result ≡ NoMemory → kind_of error.now ≡ ErrorKind.OutOfMemory }
{
    if error.kind() == ErrorKind::OutOfMemory {
        return WordsFault::NoMemory;
    }
    WordsFault::Usage
}

/// The value behind each option, where the words are pairs of the command's options, none of which stands twice and
/// none of the required ones is missing.
pub(crate) fn values_in<'a>(
    alloc: Global,
    kind: Kind,
    words: &'a [String],
) -> Result<ArgMatches<'a>, WordsFault>
    ensures whole { IfOk result (λ m. AreWhole (options_of kind) (map string_bytes words.entry.now)) }
    ensures found { IfOk result (λ m. (id : Text)
        → first_value (found_of m) id ≡ value_in id (pairs_of (map string_bytes words.entry.now))) }
    ensures cause { result ≡ Err Usage → ¬ AreWhole (options_of kind) (map string_bytes words.entry.now) }
{
    if !has_pairs(kind, words) {
        return Err(WordsFault::Usage);
    }
    match found_pairs(alloc, kind, words) {
        Ok(found) => Ok(found),
        Err(error) => Err(fault_of(&error)),
    }
}
