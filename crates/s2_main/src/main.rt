//! The program: the top call over the words, standard input and standard output.
#![tactic(auto)]

mod edges;

use edges::{ReaderSource, WriterSink};
use s2_run::s2table;
use std::alloc::Global;
use std::process::ExitCode;
use std::{env, io};

/// The status of a run without memory.
const NO_MEMORY: u8 = 6;

/// The words behind the program's name. Words that aren't UTF-8 stand as one empty word, which asks for nothing that there is.
fn words(rt: &HostRuntime) -> io::Result<Vec<String>> {
    let mut words = Vec::new(rt.alloc());
    match env::args(rt) {
        Ok(args) => {
            for word in args.skip(1) {
                words.push(word)?;
            }
        }
        Err(fault) => {
            if fault.kind() == io::ErrorKind::OutOfMemory {
                return Err(fault);
            }
            words.push(String::new(rt.alloc()))?;
        }
    }
    Ok(words)
}

fn run(rt: &HostRuntime) -> io::Result<u8> {
    let alloc: Global = rt.alloc();
    let words = words(rt)?;
    let mut src = ReaderSource::new(alloc, rt.stdin())?;
    let mut out = WriterSink::new(rt.stdout());
    Ok(s2table(alloc, words.as_slice(), &mut src, &mut out))
}

fn main(rt: HostRuntime) -> ExitCode {
    let status = run(&rt).unwrap_or(NO_MEMORY);
    ExitCode::from(status)
}
