//! `ac3 COMMAND OPTIONS IN OUT REPORT`: opens the three named things, does the command, and ends with its code.
#![tactic(auto)]

mod arguments;
mod desk;
mod hints;
mod host;
mod perform;
mod same;

use ac_app::{Names, WordsFault, names};
use arguments::{behind_name, fault_of};
use hints::{Hint, failure_of};
use host::HostDesk;
use perform::{Ended, perform, refuse};
use std::process::ExitCode;

/// The words that the program is given.
fn words(rt: &HostRuntime) -> Result<Vec<String>, WordsFault> {
    match std::env::args(rt) {
        Ok(arguments) => behind_name(rt.alloc(), arguments).map_err(|_| WordsFault::NoMemory),
        Err(error) => Err(fault_of(error.kind())),
    }
}

/// The names of the standard streams, where the words have none.
const STREAMS: Names<'static> = Names {
    from: "-",
    to: "-",
    report: "-",
};

/// Says on standard error why the program didn't end with ok, unless that would stand in a file that the words name.
fn explain<S, O, N>(desk: &HostDesk<'_>, words: Option<Names<'_>>, ended: &Ended<S, O, N>) {
    let Some(reason) = failure_of(ended, desk.unopened()) else {
        return;
    };
    let named = match words {
        Some(named) if desk.has_named(named) => return,
        Some(named) => named,
        None => STREAMS,
    };
    desk.note(Hint { named, reason });
}

fn main(rt: HostRuntime) -> ExitCode {
    let mut desk = HostDesk::new(&rt);
    let code = match words(&rt) {
        Ok(words) => {
            let ended = perform(rt.alloc(), words.as_slice(), &mut desk);
            let named = match names(rt.alloc(), words.as_slice()) {
                Ok(named) => Some(named),
                Err(_) => None,
            };
            explain(&desk, named, &ended);
            ended.code()
        }
        Err(fault) => {
            let ended = refuse(&mut desk, fault);
            explain(&desk, None, &ended);
            ended.code()
        }
    };
    ExitCode::from(code)
}

#[cfg(test)]
mod tests;
