//! Why the words of the command line are refused.

ghost use Rattle.std.specs.Prelude.{◌≡◌, ◌⊎◌, IsTrue, IfOk, length, string_bytes};
ghost use Rattle.std.specs.List.{list_all};
ghost use Rattle.svc_messages.specs.Messages.{IsMessage, stands};

use crate::pieces::about;
use crate::words::{said, unknown_word};
use clap::error::ErrorKind;
use std::alloc::Global;
use std::rc::RcStr;
use svc_base::NoMemory;
use svc_conf::{Opt, OptError};

/// What the program takes, and how it ends.
const HELP: &str = "\
svc run [FLAGS] < SCRIPT   runs a server over the script's events and prints the record
svc gen N                  runs N services (1 to 1024) made for the purpose and prints counts

Flags of svc run, each at most once:
  -u, --upgrade      takes over the sockets of an older server
  -d, --daemon       forks before all else
  -t, --test         ends once bootstrapping has begun
      --nocapture    taken, and without a meaning here
  -c, --conf PATH    taken, and not read: the script has the configuration

The last line printed, and the exit status:
  status served, status tested, status parent 0     0
  status parent 1                                   1
  status words          the words are refused       2
  status line N         line N is refused           3
  another status        the run ended otherwise     4
  status read fault     standard input failed       5
                        standard output failed      6
                        out of memory               7";

/// The words and the exit statuses of the program.
pub fn help() -> &'static str
    ensures commands { IsTrue (list_all (λ word. stands word.now result.now) COMMANDS) }
    ensures flags { IsTrue (list_all (λ word. stands word.now result.now) FLAGS) }
{
    HELP
}

/// The first words.
const COMMANDS: [&str; 2] = ["run", "gen"];

/// The flags that follow `run`.
const FLAGS: [&str; 9] = [
    "-u",
    "--upgrade",
    "-d",
    "--daemon",
    "-t",
    "--test",
    "--nocapture",
    "-c",
    "--conf",
];

/// The word is asked for help, or for the version, which isn't told.
fn asks_for_help(word: &str) -> bool {
    matches!(word, "-h" | "--help" | "help" | "-V" | "--version")
}

/// The first word with which the words up to it are refused, as words of `run`, and why; None where all
/// are taken. A flag that lacks its value is refused at its last place alone.
fn refused_word(alloc: Global, words: &[RcStr]) -> Result<Option<(&RcStr, ErrorKind)>, NoMemory> {
    for k in 1..words.len() {
        let is_last = k + 1 == words.len();
        match Opt::parse_args(alloc, &words[..k + 1]) {
            Err(OptError::NoMemory) => return Err(NoMemory),
            Err(OptError::Words(ErrorKind::InvalidValue)) if !is_last => {}
            Err(OptError::Words(kind)) => return Ok(Some((&words[k], kind))),
            Ok(_) => {}
        }
    }
    Ok(None)
}

/// Why the words behind `run` are refused.
fn run_message(alloc: Global, words: &[RcStr]) -> Result<String, NoMemory>
    ensures { IfOk result (λ text. IsMessage (string_bytes text) ⊎ (string_bytes text ≡ HELP.now)) }
{
    let Some((word, kind)) = refused_word(alloc, words)? else {
        return said(alloc, HELP);
    };
    let word = word.as_str().as_bytes();
    match kind {
        ErrorKind::DisplayHelp | ErrorKind::DisplayVersion => said(alloc, HELP),
        ErrorKind::UnknownArgument => unknown_word(alloc, word, "flag of svc run", &FLAGS),
        ErrorKind::ArgumentConflict => about(
            alloc,
            word,
            " says a flag a second time; each flag of svc run stands at most once",
            &[],
        ),
        ErrorKind::TooManyValues => about(
            alloc,
            word,
            " gives a value to a flag that takes none; -c and --conf of svc run take one",
            &[],
        ),
        _ => about(
            alloc,
            word,
            " lacks its path; -c and --conf of svc run take one behind them",
            &[],
        ),
    }
}

/// Why the words behind `gen` are refused.
fn gen_message(alloc: Global, words: &[RcStr]) -> Result<String, NoMemory>
    ensures { IfOk result (λ text. IsMessage (string_bytes text)) }
{
    match words {
        [] => said(alloc, "gen lacks its number, from 1 to 1024"),
        [word] => about(
            alloc,
            word.as_str().as_bytes(),
            " behind gen isn't a number from 1 to 1024, without sign or leading zero",
            &[],
        ),
        [_, word, ..] => about(
            alloc,
            word.as_str().as_bytes(),
            " is one word too many; gen takes one number, from 1 to 1024",
            &[],
        ),
    }
}

/// Why these words behind the program's name are refused, in one line, or the help where none stands
/// there or it is asked for.
pub fn words_message(alloc: Global, words: &[RcStr]) -> Result<String, NoMemory>
    ensures message { IfOk result (λ text. IsMessage (string_bytes text) ⊎ (string_bytes text ≡ HELP.now)) }
    ensures none { length words.now ≡ 0 → IfOk result (λ text. string_bytes text ≡ HELP.now) }
{
    let Some((first, more)) = words.split_first() else {
        return said(alloc, HELP);
    };
    match first.as_str() {
        "run" => run_message(alloc, words),
        "gen" => gen_message(alloc, more),
        word if asks_for_help(word) => said(alloc, HELP),
        word => unknown_word(alloc, word.as_bytes(), "command", &COMMANDS),
    }
}
