//! The desk of the system: the one place where a file is opened by its name.
ghost use Rattle.std.specs.Prelude.{None};

use crate::desk::{Desk, Sharing};
use crate::hints::{Hint, Unopened};
use crate::same::sharing;
use ac_app::{Failed, Names, Sink, StdSink, StdSource};
use either::{Either, Left, Right};
use std::fs::File;
use std::rt::{HostRuntime, Stdin, Stdout};

/// The files and the standard streams of the system. It tells nothing of what was done.
#[derive(Drop)]
pub struct HostDesk<'a> {
    rt: &'a HostRuntime,
    unopened: Option<Unopened>,
}

impl HostDesk<'_> {
    /// The desk of this system.
    pub fn new(rt: &HostRuntime) -> HostDesk<'_> {
        HostDesk { rt, unopened: None }
    }

    /// What couldn't be opened or created, where something couldn't.
    pub fn unopened(&self) -> Option<Unopened> {
        self.unopened
    }

    /// Whether one of the names means the file that standard error is: what is written there would stand in that file.
    pub fn has_named(&self, named: Names<'_>) -> bool {
        let error = "/dev/stderr";
        let is_read = sharing(self.rt, input_path(named.from), error) == Sharing::OneFile;
        let is_written = sharing(self.rt, output_path(named.to), error) == Sharing::OneFile;
        let is_reported = named.report != "-"
            && sharing(self.rt, named.report, error) == Sharing::OneFile;
        is_read || is_written || is_reported
    }

    /// Writes a hint on standard error. Where it can't be written nothing changes.
    pub fn note(&self, hint: Hint<'_>) {
        let _ = eprintln!(self.rt; "{hint}");
    }
}

/// The path of an input.
fn input_path(name: &str) -> &str {
    if name == "-" { "/dev/stdin" } else { name }
}

/// The path of an output.
fn output_path(name: &str) -> &str {
    if name == "-" { "/dev/stdout" } else { name }
}

impl Desk for HostDesk<'_> {
    type Input = StdSource<Either<Stdin, File>>;

    type Output = StdSink<Either<Stdout, File>>;

    type Report = StdSink<File>;

    ghost done = { λ _. None };

    fn input_output(&mut self, from: &str, to: &str) -> Sharing {
        sharing(self.rt, input_path(from), output_path(to))
    }

    fn input_report(&mut self, from: &str, report: &str) -> Sharing {
        sharing(self.rt, input_path(from), report)
    }

    fn output_report(&mut self, to: &str, report: &str) -> Sharing {
        sharing(self.rt, output_path(to), report)
    }

    fn standard_input(&mut self) -> Self::Input {
        StdSource::new(Left(self.rt.stdin()))
    }

    fn open(&mut self, name: &str) -> Result<Self::Input, Failed> {
        match File::open(self.rt, name) {
            Ok(file) => Ok(StdSource::new(Right(file))),
            Err(error) => {
                self.unopened = Some(Unopened::Input(error));
                Err(Failed)
            }
        }
    }

    fn standard_output(&mut self) -> Self::Output {
        StdSink::new(Left(self.rt.stdout()))
    }

    fn create_output(&mut self, name: &str) -> Result<Self::Output, Failed> {
        match File::create(self.rt, name) {
            Ok(file) => Ok(StdSink::new(Right(file))),
            Err(error) => {
                self.unopened = Some(Unopened::Output(error));
                Err(Failed)
            }
        }
    }

    fn create_report(&mut self, name: &str) -> Result<Self::Report, Failed> {
        match File::create(self.rt, name) {
            Ok(file) => Ok(StdSink::new(file)),
            Err(error) => {
                self.unopened = Some(Unopened::Report(error));
                Err(Failed)
            }
        }
    }

    fn say(&mut self, text: &str) -> Result<(), Failed> {
        StdSink::new(self.rt.stdout()).write(text.as_bytes())
    }
}
