ghost use Rattle.std.specs.Prelude.{◌≡◌, ℕ, map, string_bytes, Err, IfOk};
ghost use Rattle.ac_words.specs.Asked.{AreCommand};
ghost use Rattle.ac_words.specs.Grammar.{EncodePairs, SynthPairs};
ghost use Rattle.ac_words.specs.declared.fault.WordsFault.TheVariants.{Usage};
ghost use Rattle.ac_words.specs.declared.meaning.Command.{Command};
ghost use Rattle.ac_words.specs.declared.meaning.Options.{Options};

use crate::fault::WordsFault;
use crate::found::values_in;
use crate::meaning::{Command, Options};
use crate::shape::Kind;
use crate::values::{bandwidth_in, couple_in, frames_in, nodes_in, rate_in, seed_in};
use std::alloc::Global;

/// The options of encode that the words between the command and the names give.
fn encode_options(alloc: Global, words: &[String]) -> Result<Options, WordsFault>
    ensures value { IfOk result (EncodePairs (map string_bytes words.now)) }
    ensures cause { result ≡ Err Usage → (o : Options) → ¬ EncodePairs (map string_bytes words.now) o }
{
    let found = match values_in(alloc, Kind::Encode, words) {
        Ok(found) => found,
        Err(fault) => return Err(fault),
    };
    let Some(rate) = rate_in(found.get_str("rate")) else {
        return Err(WordsFault::Usage);
    };
    let Some(nodes) = nodes_in(found.get_str("nodes")) else {
        return Err(WordsFault::Usage);
    };
    let Some(bw) = bandwidth_in(found.get_str("bw")) else {
        return Err(WordsFault::Usage);
    };
    let Some(couple) = couple_in(found.get_str("couple")) else {
        return Err(WordsFault::Usage);
    };
    Ok(Options {
        rate,
        nodes,
        bw,
        couple,
    })
}

/// The seed and the number of frames that the words between the command and the names give.
fn synth_options(alloc: Global, words: &[String]) -> Result<(u64, u32), WordsFault>
    ensures value { IfOk result (λ s. SynthPairs (map string_bytes words.now) s.0 s.1) }
    ensures cause { result ≡ Err Usage → (seed frames : ℕ) → ¬ SynthPairs (map string_bytes words.now) seed frames }
{
    let found = match values_in(alloc, Kind::Synth, words) {
        Ok(found) => found,
        Err(fault) => return Err(fault),
    };
    let Some(seed) = seed_in(found.get_str("seed")) else {
        return Err(WordsFault::Usage);
    };
    let Some(frames) = frames_in(found.get_str("frames")) else {
        return Err(WordsFault::Usage);
    };
    Ok((seed, frames))
}

/// The command that the first word names, with the options in those between it and the names.
pub(crate) fn command_of(alloc: Global, word: &str, pairs: &[String]) -> Result<Command, WordsFault>
    ensures value { IfOk result (AreCommand word.now (map string_bytes pairs.now)) }
    ensures cause { result ≡ Err Usage → (command : Command) → ¬ AreCommand word.now (map string_bytes pairs.now) command }
{
    if word == "encode" {
        return match encode_options(alloc, pairs) {
            Ok(options) => Ok(Command::Encode(options)),
            Err(fault) => Err(fault),
        };
    }
    if word == "synth" {
        return match synth_options(alloc, pairs) {
            Ok((seed, frames)) => Ok(Command::Synth { seed, frames }),
            Err(fault) => Err(fault),
        };
    }
    if word == "decode" && pairs.is_empty() {
        return Ok(Command::Decode);
    }
    Err(WordsFault::Usage)
}
