use crate::{Asked, Mode, WordsFault, words};
use std::alloc::Global;
use std::test::Fail;

/// What a list of words is answered.
#[derive(Clone, Copy, Debug, PartialEq, Eq)]
enum Answer {
    Run(Mode),
    Help,
    Refused(WordsFault),
}

const DRIVE: Answer = Answer::Run(Mode::Drive);

const CHECK: Answer = Answer::Run(Mode::Check);

const USAGE: Answer = Answer::Refused(WordsFault::Usage);

fn answer_to(alloc: Global, line: &[&str]) -> Result<Answer, Fail> {
    let mut list = Vec::new(alloc);
    for word in line {
        list.push(String::from_str(alloc, word)?)?;
    }
    Ok(match words(alloc, list.as_slice()) {
        Ok(Asked::Run(mode)) => Answer::Run(mode),
        Ok(Asked::Help(_)) => Answer::Help,
        Err(fault) => Answer::Refused(fault),
    })
}

#[test]
fn answers_modes(rt: HostRuntime) -> Result<(), Fail> {
    let cases: [(&[&str], Answer); 8] = [
        (&[], DRIVE),
        (&["--mode", "drive"], DRIVE),
        (&["--mode=check"], CHECK),
        (&["--number", "0", "--mode", "check"], CHECK),
        (&["--number", "9223372036854775807"], DRIVE),
        (&["--size", "100000", "--number", "2"], DRIVE),
        (&["--mode", "check", "--help"], Answer::Help),
        (&["-h"], Answer::Help),
    ];
    for (line, want) in cases {
        assert_eq!(rt; answer_to(rt.alloc(), line)?, want, "of {line:?}");
    }
    Ok(())
}

#[test]
fn refuses_words(rt: HostRuntime) -> Result<(), Fail> {
    let cases: [&[&str]; 12] = [
        &["drive"],
        &["--mode"],
        &["--mode", "run"],
        &["--mode", "load", "--help"],
        &["--mode", "drive", "--mode", "drive"],
        &["--number"],
        &["--number", "9223372036854775808"],
        &["--number", "-1"],
        &["--size", "0"],
        &["--size", "100001"],
        &["--store", "here"],
        &[""],
    ];
    for line in cases {
        assert_eq!(rt; answer_to(rt.alloc(), line)?, USAGE, "of {line:?}");
    }
    Ok(())
}

#[test]
fn help_teaches(rt: HostRuntime) -> Result<(), Fail> {
    let mut list = Vec::new(rt.alloc());
    list.push(String::from_str(rt.alloc(), "--help")?)?;
    let text = match words(rt.alloc(), list.as_slice()) {
        Ok(Asked::Help(text)) => text,
        _ => String::new(rt.alloc()),
    };
    for part in [
        "Usage: s2table",
        "--mode",
        "--number",
        "--size",
        "drive  runs",
        "check  reads",
        "Example",
    ] {
        assert!(rt; text.as_str().contains(part), "it says {part}");
    }
    Ok(())
}
