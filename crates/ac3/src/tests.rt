//! The program over a desk in memory, which notes what it is asked for.
ghost use Rattle.std.specs.Prelude.{None};

mod hints;

use crate::desk::{Desk, Sharing};
use crate::perform::{Ended, perform};
use ac_app::{Failed, MemSink, MemSource, Status, WordsFault};
use std::alloc::{AllocError, Global};
use std::test::Fail;

/// A mono WAV of 16 bits at 48 kHz without data.
const EMPTY: [u8; 44] =
    *b"RIFF\x24\0\0\0WAVEfmt \x10\0\0\0\x01\0\x01\0\x80\xbb\0\0\0\x77\x01\0\x02\0\x10\0data\0\0\0\0";

/// A desk whose inputs are the empty WAV. One name is refused, and two names are one file.
#[derive(Drop)]
struct Notes {
    alloc: Global,
    refused: &'static str,
    one_file: (&'static str, &'static str),
    /// Whether nothing can be printed.
    is_mute: bool,
    noted: String,
    /// Whether memory was wanting for a note or for an input.
    is_starved: bool,
}

impl Notes {
    fn note(&mut self, what: &str, name: &str) {
        for part in [what, name, ";"] {
            if self.noted.push_str(part).is_err() {
                self.is_starved = true;
            }
        }
    }

    fn compare(&mut self, one: &str, other: &str) -> Sharing {
        self.note(one, "");
        self.note("is ", other);
        if one == "null" {
            Sharing::Free
        } else if self.one_file == (one, other) {
            Sharing::OneFile
        } else {
            Sharing::Apart
        }
    }

    fn wav(&mut self) -> MemSource {
        let bytes = match Vec::from_slice(self.alloc, &EMPTY) {
            Ok(bytes) => bytes,
            Err(_) => {
                self.is_starved = true;
                Vec::new(self.alloc)
            }
        };
        MemSource::new(bytes, Vec::new(self.alloc))
    }

    fn sink(&self) -> MemSink {
        MemSink::new(Vec::new(self.alloc), Vec::new(self.alloc))
    }

    /// Notes what is created, and gives it unless its name is refused.
    fn create(&mut self, what: &str, name: &str) -> Result<MemSink, Failed> {
        self.note(what, name);
        if name == self.refused {
            return Err(Failed);
        }
        Ok(self.sink())
    }
}

impl Desk for Notes {
    type Input = MemSource;

    type Output = MemSink;

    type Report = MemSink;

    ghost done = { λ _. None };

    fn input_output(&mut self, from: &str, to: &str) -> Sharing {
        self.compare(from, to)
    }

    fn input_report(&mut self, from: &str, report: &str) -> Sharing {
        self.compare(from, report)
    }

    fn output_report(&mut self, to: &str, report: &str) -> Sharing {
        self.compare(to, report)
    }

    fn standard_input(&mut self) -> MemSource {
        self.note("standard input", "");
        self.wav()
    }

    fn open(&mut self, name: &str) -> Result<MemSource, Failed> {
        self.note("open ", name);
        if name == self.refused {
            return Err(Failed);
        }
        Ok(self.wav())
    }

    fn standard_output(&mut self) -> MemSink {
        self.note("standard output", "");
        self.sink()
    }

    fn create_output(&mut self, name: &str) -> Result<MemSink, Failed> {
        self.create("output ", name)
    }

    fn create_report(&mut self, name: &str) -> Result<MemSink, Failed> {
        self.create("report ", name)
    }

    fn say(&mut self, text: &str) -> Result<(), Failed> {
        if self.is_mute {
            return Err(Failed);
        }
        self.note("say ", text);
        Ok(())
    }
}

fn words_of(alloc: Global, names: &[&str]) -> Result<Vec<String>, AllocError> {
    let mut words = Vec::new(alloc);
    for word in ["encode", "--rate", "192"] {
        words.push(String::from_str(alloc, word)?)?;
    }
    for name in names {
        words.push(String::from_str(alloc, name)?)?;
    }
    Ok(words)
}

/// How the program ended, and the desk that it asked.
#[derive(Drop)]
struct Left {
    ended: Ended<MemSource, MemSink, MemSink>,
    desk: Notes,
}

impl Left {
    /// Whether memory was wanting in the run, in a sink of it, or at the desk.
    fn is_starved(&self) -> bool {
        match &self.ended {
            Ended::NoWords(WordsFault::NoMemory) | Ended::Ran(Status::NoMemory, _) => true,
            Ended::Ran(_, things) => {
                let report = match &things.report {
                    Some(report) => report.starved(),
                    None => 0,
                };
                self.desk.is_starved || things.output.starved() > 0 || report > 0
            }
            _ => self.desk.is_starved,
        }
    }
}

/// What the desk is asked: three names, the name that it refuses, those that are one file, and whether it is mute.
#[derive(Clone, Copy)]
struct Case {
    names: [&'static str; 3],
    refused: &'static str,
    one_file: (&'static str, &'static str),
    is_mute: bool,
}

/// Three names, none of which is refused.
fn plain(names: [&'static str; 3]) -> Case {
    Case {
        names,
        refused: "",
        one_file: ("", ""),
        is_mute: false,
    }
}

fn once(alloc: Global, case: Case) -> Result<Left, AllocError> {
    let words = words_of(alloc, &case.names)?;
    let mut desk = Notes {
        alloc,
        refused: case.refused,
        one_file: case.one_file,
        is_mute: case.is_mute,
        noted: String::new(alloc),
        is_starved: false,
    };
    let ended = perform(alloc, words.as_slice(), &mut desk);
    Ok(Left { ended, desk })
}

/// What the program leaves; made again once where memory was wanting.
fn performed(rt: &HostRuntime, case: Case) -> Result<Left, AllocError> {
    match once(rt.alloc(), case) {
        Ok(left) if !left.is_starved() => Ok(left),
        _ => {
            let _ = println!(rt; "made again");
            once(rt.alloc(), case)
        }
    }
}

/// Whether the program ends with this code, and notes this.
fn does(rt: &HostRuntime, case: Case, code: u8, noted: &str) -> Result<bool, AllocError> {
    let left = performed(rt, case)?;
    Ok(left.ended.code() == code && left.desk.noted.as_str() == noted)
}

#[test]
fn asked_in_order(rt: HostRuntime) -> Result<(), Fail> {
    let noted = "a;is b;a;is c;b;is c;open a;output b;report c;";
    assert!(rt; does(&rt, plain(["a", "b", "c"]), 0, noted)?);
    let noted = "-;is -;standard input;standard output;";
    assert!(rt; does(&rt, plain(["-", "-", "-"]), 0, noted)?);
    Ok(())
}

#[test]
fn the_first_that_is_refused_is_the_last(rt: HostRuntime) -> Result<(), Fail> {
    for (refused, noted) in [
        (
            "a",
            "a;is b;a;is c;b;is c;open a;say status 8 open fault\n;",
        ),
        (
            "b",
            "a;is b;a;is c;b;is c;open a;output b;say status 8 open fault\n;",
        ),
        (
            "c",
            "a;is b;a;is c;b;is c;open a;output b;report c;say status 8 open fault\n;",
        ),
    ] {
        let case = Case {
            refused,
            ..plain(["a", "b", "c"])
        };
        assert!(rt; does(&rt, case, 8, noted)?, "{refused}");
    }
    Ok(())
}

#[test]
fn two_names_of_one_file_open_nothing(rt: HostRuntime) -> Result<(), Fail> {
    let noted = "a;is b;a;is c;b;is c;say status 8 open fault\n;";
    for one_file in [("a", "b"), ("a", "c"), ("b", "c")] {
        let case = Case {
            one_file,
            ..plain(["a", "b", "c"])
        };
        assert!(rt; does(&rt, case, 8, noted)?);
    }
    let noted = "a;is a;say status 8 open fault\n;";
    assert!(rt; does(&rt, plain(["a", "a", "-"]), 8, noted)?);
    let noted = "a;is b;a;is a;b;is a;say status 8 open fault\n;";
    assert!(rt; does(&rt, plain(["a", "b", "a"]), 8, noted)?);
    let noted = "a;is b;a;is b;b;is b;say status 8 open fault\n;";
    assert!(rt; does(&rt, plain(["a", "b", "b"]), 8, noted)?);
    Ok(())
}

#[test]
fn a_stream_may_be_named_twice(rt: HostRuntime) -> Result<(), Fail> {
    let noted = "a;is null;a;is null;null;is null;open a;output null;report null;";
    assert!(rt; does(&rt, plain(["a", "null", "null"]), 0, noted)?);
    Ok(())
}

#[test]
fn a_line_that_is_not_printed_is_a_write_fault(rt: HostRuntime) -> Result<(), Fail> {
    let case = Case {
        refused: "a",
        is_mute: true,
        ..plain(["a", "-", "-"])
    };
    assert!(rt; does(&rt, case, 7, "a;is -;open a;")?);
    let case = Case {
        is_mute: true,
        ..plain(["a", "b", ""])
    };
    assert!(rt; does(&rt, case, 7, "")?);
    Ok(())
}

#[test]
fn outside_the_grammar_nothing_is_asked(rt: HostRuntime) -> Result<(), Fail> {
    assert!(rt; does(&rt, plain(["a", "b", ""]), 1, "say status 1 usage\n;")?);
    Ok(())
}

#[test]
fn the_report_has_the_status(rt: HostRuntime) -> Result<(), Fail> {
    let left = performed(&rt, plain(["a", "b", "c"]))?;
    match &left.ended {
        Ended::Ran(status, things) => {
            assert_eq!(rt; *status, Status::Ok);
            assert!(rt; things.output.bytes().is_empty());
            assert!(rt;
                matches!(&things.report, Some(report) if report.bytes() == "status 0 ok\n".as_bytes())
            );
        }
        _ => assert!(rt; false),
    }
    Ok(())
}
