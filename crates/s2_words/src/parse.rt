//! The words are parsed as those of one simple command.
ghost use Rattle.std.specs.Prelude.{◌≡◌, false, List, ℕ, pos, map, codes, IfOk, Some, option_map};
ghost use Rattle.std.specs.String.{string_bytes};
ghost use Rattle.clap.specs.Words.{app_of, kind_of, rule_of};
ghost use Rattle.clap.specs.declared.builder.value_parser.ValueParser.TheVariants as parser;
ghost use Rattle.s2_words.specs.Words.{AreModes, Names, Answers, AnswersFault, command_over, mode_named, option_rule};

use crate::{Asked, Mode, WordsFault};
use clap::error::ErrorKind;
use clap::{Arg, ArgAction, Command, Error};
use std::alloc::{AllocError, Global};

/// The modes that are built.
static MODES: [&str; 2] = ["drive", "check"];

/// What stands before the options in the help.
const ABOUT: &str =
    "The storage engine of one table: runs a script and writes its replies and its history.";

/// What stands behind them.
const EXAMPLE: &str =
    "The input is read from standard input, and what comes of it is written to standard output.

  drive  runs the lines of a script in their order, and writes their replies and the history
  check  reads a script, a line ==OUTPUT== and an output, and says whether the output is legal

Example:
  printf \"CREATE TABLE t (id INT);\\n1: INSERT INTO t VALUES (7);\\n1: SELECT * FROM t;\\n\" | s2table --mode drive";

fn mode_option<'a>(alloc: Global) -> Arg<'a>
    ensures rule { (modes : Names) × AreModes modes × (rule_of result ≡ option_rule (codes "mode") (parser.Names modes) (codes "drive")) }
    ensures local { result.global ≡ false }
{
    Arg::new(alloc, "mode")
        .long("mode")
        .action(ArgAction::Set)
        .value_parser(MODES.as_slice())
        .default_value("drive")
        .help("What to do with the input")
}

fn number_option<'a>(alloc: Global) -> Arg<'a>
    ensures rule { rule_of result ≡ option_rule (codes "number") (parser.Unsigned 0 9223372036854775807) (codes "1") }
    ensures local { result.global ≡ false }
{
    Arg::new(alloc, "number")
        .long("number")
        .action(ArgAction::Set)
        .value_parser(clap::value_parser!(u64).range(0..=i64::MAX))
        .default_value("1")
        .help("Where the generator of rows starts; no mode uses it yet")
}

fn size_option<'a>(alloc: Global) -> Arg<'a>
    ensures rule { rule_of result ≡ option_rule (codes "size") (parser.Signed (pos 1) (pos 100000)) (codes "1000") }
    ensures local { result.global ≡ false }
{
    Arg::new(alloc, "size")
        .long("size")
        .action(ArgAction::Set)
        .value_parser(clap::value_parser!(u32).range(1..=100_000))
        .default_value("1000")
        .help("How many rows the generator makes; no mode uses it yet")
}

// The command, which is asked without the program's own name.
fn command<'a>(alloc: Global) -> Result<Command<'a>, AllocError>
    ensures { IfOk result (λ c. (modes : Names) × AreModes modes × (app_of c ≡ command_over modes)) }
{
    let command = Command::new(alloc, "s2table")
        .no_binary_name(true)
        .about(ABOUT)
        .after_help(EXAMPLE);
    let command = command.arg(mode_option(alloc))?;
    let command = command.arg(number_option(alloc))?;
    command.arg(size_option(alloc))
}

// The mode of a value of `--mode`.
fn mode_named(value: Option<&str>) -> Mode
    ensures { result ≡ mode_named (option_map (λ s. s.now) value.entry) }
{
    match value {
        Some(name) => {
            if name == "check" {
                Mode::Check
            } else {
                Mode::Drive
            }
        }
        None => Mode::Drive,
    }
}

// What an error of the parse is to the caller.
fn refused(alloc: Global, error: &Error) -> Result<Asked, WordsFault>
    ensures { AnswersFault (kind_of error.now) result }
{
    match error.kind() {
        ErrorKind::OutOfMemory => Err(WordsFault::Memory),
        ErrorKind::DisplayHelp => Ok(Asked::Help(format!(in alloc; "{error}")?)),
        ErrorKind::DisplayVersion => Ok(Asked::Help(format!(in alloc; "{error}")?)),
        _ => Err(WordsFault::Usage),
    }
}

/// What the words ask for, which are those behind the program's own name.
///
/// The options are `--mode drive|check`, `--number N` from 0 to 9223372036854775807 and `--size N` from 1 to 100,000, each
/// at most once and in any order; without `--mode` it is `drive`. The mode uses neither number nor size. `--help` and `-h`
/// ask for help. Errors: `Usage` exactly where the command refuses the words, `Memory`.
pub fn words(alloc: Global, words: &[String]) -> Result<Asked, WordsFault>
    ensures { Answers (map string_bytes words.now) result }
{
    let command = command(alloc)?;
    match command.try_get_matches_from(words) {
        Ok(matches) => Ok(Asked::Run(mode_named(matches.get_str("mode")))),
        Err(error) => refused(alloc, &error),
    }
}
