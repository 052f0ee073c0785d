use crate::{Command, Couple, Names, Options, WordsFault, command, names, words_mean_one_thing};
use std::alloc::AllocError;
use std::test::Fail;

/// What takes memory, made again once where memory was wanting.
fn made<T: Drop, F: Fn() -> Result<T, AllocError>>(
    rt: &HostRuntime,
    make: F,
) -> Result<T, AllocError>
    requires { F.IsAlwaysCallable make }
{
    let first = make();
    if first.is_ok() {
        return first;
    }
    let _ = println!(rt; "made again");
    make()
}

fn words_of(rt: &HostRuntime, line: &[&str]) -> Result<Vec<String>, AllocError> {
    made(rt, || {
        let mut words = Vec::with_capacity(rt.alloc(), line.len())?;
        for word in line {
            words.push(String::from_str(rt.alloc(), word)?)?;
        }
        Ok(words)
    })
}

/// Puts another word at this place.
fn put(rt: &HostRuntime, words: &mut [String], at: usize, text: &str) -> Result<(), AllocError> {
    let text = made(rt, || String::from_str(rt.alloc(), text))?;
    if let Some(word) = words.get_mut(at) {
        *word = text;
    }
    Ok(())
}

/// What `command` answers; asked again where memory was wanting.
fn asked(rt: &HostRuntime, words: &[String]) -> Result<Command, WordsFault> {
    let first = command(rt.alloc(), words);
    if first == Err(WordsFault::NoMemory) {
        let _ = println!(rt; "made again");
        return command(rt.alloc(), words);
    }
    first
}

/// What `names` answers; asked again where memory was wanting.
fn named<'a>(rt: &HostRuntime, words: &'a [String]) -> Result<Names<'a>, WordsFault> {
    match names(rt.alloc(), words) {
        Err(WordsFault::NoMemory) => {
            let _ = println!(rt; "made again");
            names(rt.alloc(), words)
        }
        answer => answer,
    }
}

/// Both calls answer `Usage`.
fn are_refused(rt: &HostRuntime, words: &[String]) -> bool {
    asked(rt, words) == Err(WordsFault::Usage) && matches!(named(rt, words), Err(WordsFault::Usage))
}

#[test]
fn command_words(rt: HostRuntime) -> Result<(), Fail> {
    let mut words = words_of(&rt, &["encode", "--rate", "193", "-", "-", "-"])?;
    assert!(rt; are_refused(&rt, &words));
    words = words_of(&rt, &["encode", "--rate=192", "-", "-", "-"])?;
    assert!(rt; are_refused(&rt, &words));
    assert!(rt; are_refused(&rt, &[]));
    words = words_of(&rt, &["encode", "--rate", "192", "a", "b.ac3", "c"])?;
    let options = Options {
        rate: 192,
        nodes: 20_000,
        bw: None,
        couple: Couple::Auto,
    };
    assert_eq!(rt; asked(&rt, &words), Ok(Command::Encode(options)));
    let three = named(&rt, &words)?;
    assert_eq!(rt; three.from, "a");
    assert_eq!(rt; three.to, "b.ac3");
    assert_eq!(rt; three.report, "c");
    words_mean_one_thing();
    Ok(())
}

/// `encode`, these pairs, and names behind them.
fn line_of(rt: &HostRuntime, pairs: &[&str]) -> Result<Vec<String>, AllocError> {
    made(rt, || {
        let mut words = Vec::with_capacity(rt.alloc(), 4)?;
        words.push(String::from_str(rt.alloc(), "encode")?)?;
        for word in pairs {
            words.push(String::from_str(rt.alloc(), word)?)?;
        }
        for name in ["a", "b", "c"] {
            words.push(String::from_str(rt.alloc(), name)?)?;
        }
        Ok(words)
    })
}

/// Options with coupling by the rate.
fn options_of(rate: u16, nodes: u32, bw: Option<u8>) -> Options {
    Options {
        rate,
        nodes,
        bw,
        couple: Couple::Auto,
    }
}

#[test]
fn pairs_give_options(rt: HostRuntime) -> Result<(), Fail> {
    let lines: [(&[&str], Options); 12] = [
        (&["--rate", "32"], options_of(32, 20_000, None)),
        (&["--rate", "32", "--nodes", "0"], options_of(32, 0, None)),
        (
            &["--rate", "32", "--nodes", "20000"],
            options_of(32, 20_000, None),
        ),
        (
            &["--nodes", "10000000", "--rate", "640"],
            options_of(640, 10_000_000, None),
        ),
        (
            &["--rate", "192", "--bw", "0"],
            options_of(192, 20_000, Some(0)),
        ),
        (
            &["--bw", "60", "--rate", "192"],
            options_of(192, 20_000, Some(60)),
        ),
        (
            &["--rate", "96", "--nodes", "7", "--bw", "9"],
            options_of(96, 7, Some(9)),
        ),
        (
            &["--rate", "96", "--bw", "9", "--nodes", "7"],
            options_of(96, 7, Some(9)),
        ),
        (
            &["--nodes", "7", "--rate", "96", "--bw", "9"],
            options_of(96, 7, Some(9)),
        ),
        (
            &["--nodes", "7", "--bw", "9", "--rate", "96"],
            options_of(96, 7, Some(9)),
        ),
        (
            &["--bw", "9", "--rate", "96", "--nodes", "7"],
            options_of(96, 7, Some(9)),
        ),
        (
            &["--bw", "9", "--nodes", "7", "--rate", "96"],
            options_of(96, 7, Some(9)),
        ),
    ];
    for (pairs, options) in lines {
        let words = line_of(&rt, pairs)?;
        assert_eq!(rt;
            asked(&rt, &words),
            Ok(Command::Encode(options)),
            "{pairs:?}"
        );
        assert_eq!(rt; named(&rt, &words)?.report, "c");
    }
    Ok(())
}

#[test]
fn pairs_are_refused(rt: HostRuntime) -> Result<(), Fail> {
    let lines: [&[&str]; 23] = [
        &[],
        &["--nodes", "7"],
        &["--bw", "9", "--nodes", "7"],
        &["--rate", "192", "--nodes", "10000001"],
        &["--rate", "192", "--nodes", "4294967296"],
        &["--rate", "192", "--nodes", "18446744073709551616"],
        &["--rate", "192", "--nodes", "01"],
        &["--rate", "192", "--nodes", "00"],
        &["--rate", "192", "--nodes", "+1"],
        &["--rate", "192", "--nodes", "-1"],
        &["--rate", "192", "--nodes", ""],
        &["--rate", "192", "--bw", "61"],
        &["--rate", "192", "--bw", "256"],
        &["--rate", "192", "--bw", "00"],
        &["--rate", "192", "--bw", "9 "],
        &["--rate", "192", "--bw"],
        &["--bw", "--rate", "192"],
        &["--rate", "192", "--bw=3"],
        &["--rate", "192", "--rate", "192"],
        &["--rate", "192", "--nodes", "7", "--nodes", "7"],
        &["--bw", "3", "--rate", "192", "--bw", "4"],
        &["--rate", "192", "--nodes", "7", "--bw", "9", "--nodes", "7"],
        &["--rate", "192", "--Bw", "3"],
    ];
    for pairs in lines {
        assert!(rt; are_refused(&rt, &line_of(&rt, pairs)?), "{pairs:?}");
    }
    Ok(())
}

#[test]
fn couplings_are_read(rt: HostRuntime) -> Result<(), Fail> {
    let values: [(&str, Couple); 12] = [
        ("off", Couple::Off),
        ("auto", Couple::Auto),
        ("8,12", Couple::Bins(8, 12)),
        ("0,0", Couple::Bins(0, 0)),
        ("0,15", Couple::Bins(0, 15)),
        ("2,0", Couple::Bins(2, 0)),
        ("3,1", Couple::Bins(3, 1)),
        ("10,8", Couple::Bins(10, 8)),
        ("9,10", Couple::Bins(9, 10)),
        ("15,13", Couple::Bins(15, 13)),
        ("15,14", Couple::Bins(15, 14)),
        ("15,15", Couple::Bins(15, 15)),
    ];
    for (value, couple) in values {
        let options = Options {
            couple,
            ..options_of(96, 7, Some(9))
        };
        let first = line_of(
            &rt,
            &[
                "--couple", value, "--rate", "96", "--bw", "9", "--nodes", "7",
            ],
        )?;
        assert_eq!(rt; asked(&rt, &first), Ok(Command::Encode(options)), "{value}");
        let last = line_of(
            &rt,
            &[
                "--nodes", "7", "--bw", "9", "--rate", "96", "--couple", value,
            ],
        )?;
        assert_eq!(rt; asked(&rt, &last), Ok(Command::Encode(options)), "{value}");
    }
    Ok(())
}

#[test]
fn other_couplings_are_refused(rt: HostRuntime) -> Result<(), Fail> {
    let mut words = line_of(&rt, &["--rate", "192", "--couple", "8,12"])?;
    assert!(rt; asked(&rt, &words).is_ok());
    for value in [
        "",
        "Off",
        "off ",
        "on",
        "8",
        ",",
        "8,",
        ",8",
        "8,12,",
        "8,,12",
        "8,12,1",
        "8, 12",
        " 8,12",
        "8 ,12",
        "8;12",
        "08,12",
        "8,012",
        "00,0",
        "+8,12",
        "8,+12",
        "-0,12",
        "0x8,12",
        "a,b",
        "3,0",
        "11,8",
        "15,12",
        "16,15",
        "15,16",
        "0,16",
        "264,12",
        "18446744073709551624,12",
        "8\u{ff0c}12",
        "\u{668},12",
    ] {
        put(&rt, &mut words, 4, value)?;
        assert!(rt; are_refused(&rt, &words), "{value} is no coupling");
    }
    Ok(())
}

#[test]
fn couple_wants_one_value_and_stands_once(rt: HostRuntime) -> Result<(), Fail> {
    let lines: [&[&str]; 7] = [
        &["--couple", "off"],
        &["--rate", "192", "--couple"],
        &["--couple", "--rate", "192"],
        &["--rate", "192", "--couple=off"],
        &["--rate", "192", "--Couple", "off"],
        &["--rate", "192", "--couple", "off", "--couple", "off"],
        &["--couple", "auto", "--rate", "192", "--couple", "8,12"],
    ];
    for pairs in lines {
        assert!(rt; are_refused(&rt, &line_of(&rt, pairs)?), "{pairs:?}");
    }
    Ok(())
}

#[test]
fn a_hyphen_alone_is_a_name(rt: HostRuntime) -> Result<(), Fail> {
    let words = words_of(&rt, &["encode", "--rate", "32", "-", "-", "-"])?;
    let three = named(&rt, &words)?;
    assert_eq!(rt; three.from, "-");
    assert_eq!(rt; three.to, "-");
    assert_eq!(rt; three.report, "-");
    Ok(())
}

#[test]
fn the_rates_are_those_of_the_standard(rt: HostRuntime) -> Result<(), Fail> {
    let rates = [
        "32", "40", "48", "56", "64", "80", "96", "112", "128", "160", "192", "224", "256", "320",
        "384", "448", "512", "576", "640",
    ];
    let mut words = words_of(&rt, &["encode", "--rate", "", "-", "-", "-"])?;
    for rate in rates {
        put(&rt, &mut words, 2, rate)?;
        assert!(rt; asked(&rt, &words).is_ok(), "{rate} is a rate");
    }
    for other in [
        "0",
        "31",
        "33",
        "193",
        "641",
        "65568",
        "4294967328",
        "18446744073709551648",
    ] {
        put(&rt, &mut words, 2, other)?;
        assert!(rt; are_refused(&rt, &words), "{other} is no rate");
    }
    Ok(())
}

#[test]
fn numbers_are_plain_decimals(rt: HostRuntime) -> Result<(), Fail> {
    let mut words = words_of(&rt, &["encode", "--rate", "192", "-", "-", "-"])?;
    assert!(rt; asked(&rt, &words).is_ok());
    for text in [
        "", "0192", "+192", "-192", "192 ", " 192", "1e2", "0xC0", "192.0", "\u{661}",
    ] {
        put(&rt, &mut words, 2, text)?;
        assert!(rt; are_refused(&rt, &words), "{text} is no number");
    }
    Ok(())
}

#[test]
fn names_are_not_empty_and_have_no_hyphen_before_them(rt: HostRuntime) -> Result<(), Fail> {
    let mut words = words_of(&rt, &["encode", "--rate", "192", "a", "b", "c"])?;
    for (at, plain) in [(3, "a"), (4, "b"), (5, "c")] {
        for name in ["", "-x", "--", "--help", "-a-"] {
            put(&rt, &mut words, at, name)?;
            assert!(rt; are_refused(&rt, &words), "{name} is no name");
        }
        put(&rt, &mut words, at, plain)?;
        assert!(rt; asked(&rt, &words).is_ok());
    }
    Ok(())
}

#[test]
fn commands_are_read(rt: HostRuntime) -> Result<(), Fail> {
    let lines: [(&[&str], Command); 4] = [
        (&["decode", "a", "-", "c"], Command::Decode),
        (
            &["synth", "--seed", "0", "--frames", "1", "a", "-", "c"],
            Command::Synth { seed: 0, frames: 1 },
        ),
        (
            &["synth", "--frames", "200", "--seed", "7", "a", "-", "c"],
            Command::Synth {
                seed: 7,
                frames: 200,
            },
        ),
        (
            &[
                "synth",
                "--seed",
                "18446744073709551615",
                "--frames",
                "10",
                "a",
                "-",
                "c",
            ],
            Command::Synth {
                seed: u64::MAX,
                frames: 10,
            },
        ),
    ];
    for (line, meant) in lines {
        let words = words_of(&rt, line)?;
        assert_eq!(rt; asked(&rt, &words), Ok(meant), "{line:?}");
        let three = named(&rt, &words)?;
        assert_eq!(rt; three.from, "a");
        assert_eq!(rt; three.to, "-");
        assert_eq!(rt; three.report, "c");
    }
    Ok(())
}

#[test]
fn another_number_of_words_is_refused(rt: HostRuntime) -> Result<(), Fail> {
    let lines: [&[&str]; 10] = [
        &["encode"],
        &["encode", "a", "b", "c"],
        &["encode", "--rate", "192", "a", "b"],
        &["encode", "--rate", "192", "a", "b", "c", "d"],
        &["encode", "--rate", "192", "--", "a", "b", "c"],
        &["encode", "--rate", "192", "--rate", "192", "a", "b", "c"],
        &["decode", "a", "b"],
        &["decode", "a", "b", "c", "d"],
        &["synth", "--seed", "1", "--frames", "2", "a", "b"],
        &["synth", "--seed", "1", "--frames", "a", "b", "c"],
    ];
    for line in lines {
        assert!(rt; are_refused(&rt, &words_of(&rt, line)?), "{line:?}");
    }
    Ok(())
}

#[test]
fn other_words_are_refused(rt: HostRuntime) -> Result<(), Fail> {
    let lines: [&[&str]; 21] = [
        &["--help"],
        &["--version"],
        &["encode", "--speed", "192", "a", "b", "c"],
        &["encode", "-rate", "192", "a", "b", "c"],
        &["Encode", "--rate", "192", "a", "b", "c"],
        &["Decode", "a", "b", "c"],
        &["decode", "--rate", "192", "a", "b", "c"],
        &["decode", "--seed", "1", "a", "b", "c"],
        &["encode", "--rate", "192", "--seed", "1", "a", "b", "c"],
        &["synth", "a", "b", "c"],
        &["synth", "--seed", "1", "a", "b", "c"],
        &["synth", "--frames", "2", "a", "b", "c"],
        &["synth", "--seed", "1", "--frames", "0", "a", "b", "c"],
        &["synth", "--seed", "1", "--frames", "201", "a", "b", "c"],
        &["synth", "--seed", "1", "--frames", "02", "a", "b", "c"],
        &["synth", "--seed", "01", "--frames", "2", "a", "b", "c"],
        &["synth", "--seed", "-1", "--frames", "2", "a", "b", "c"],
        &[
            "synth",
            "--seed",
            "18446744073709551616",
            "--frames",
            "2",
            "a",
            "b",
            "c",
        ],
        &[
            "synth", "--seed", "1", "--frames", "2", "--seed", "1", "a", "b", "c",
        ],
        &[
            "synth", "--seed", "1", "--frames", "2", "--frames", "2", "a", "b", "c",
        ],
        &[
            "synth", "--seed", "1", "--frames", "2", "--rate", "192", "a", "b", "c",
        ],
    ];
    for line in lines {
        assert!(rt; are_refused(&rt, &words_of(&rt, line)?), "{line:?}");
    }
    Ok(())
}
