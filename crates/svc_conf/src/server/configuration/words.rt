//! The words of a command line.

ghost use Rattle.std.specs.Prelude.{◌≡◌, ◌≢◌, [], map, codes, true, false, IfOk, OnOk, Err};
ghost use Rattle.clap.specs.Walk.{rule_of};
ghost use Rattle.clap.specs.Simple.{app_of};
ghost use Rattle.clap.specs.Words.{first_value, found_of};
ghost use Rattle.svc_conf.specs.OptWords.{flag_rule, opt_app, is_true};

use crate::server::configuration::Opt;
use clap::error::ErrorKind;
use clap::{Arg, ArgAction, ArgMatches, Command};
use std::alloc::{AllocError, Global};
use std::mem::drop;
use std::rc::RcStr;
use svc_base::{NoMemory, Text};
use thiserror::Error;

/// Why words aren't the flags of a server.
#[derive(Clone, Copy, PartialEq, Eq, Debug, Error)]
pub enum OptError {
    /// The words are refused, for this kind of error. A request for help is one.
    #[error("the command words are refused")]
    Words(ErrorKind),
    /// There was no memory.
    #[error("out of memory")]
    NoMemory,
}

impl From<NoMemory> for OptError {
    ghost use Rattle.std.specs.Prelude.{◌≡◌};
    ghost use Rattle.svc_conf.specs.declared.server.configuration.words.OptError.TheVariants.{NoMemory};

    ghost from_gives = { λ _ e. e ≡ NoMemory };

    fn from(_: NoMemory) -> Self {
        OptError::NoMemory
    }
}

/// A flag with a long name.
fn flag<'a>(alloc: Global, name: &'a str) -> Arg<'a>
    ensures rule { rule_of result ≡ flag_rule name.entry.now }
    ensures own { result.global ≡ false }
{
    Arg::new(alloc, name).long(name).action(ArgAction::SetTrue)
}

fn command<'a>(alloc: Global) -> Result<Command<'a>, AllocError>
    ensures { IfOk result (λ command. app_of command ≡ opt_app) }
{
    let upgrade = flag(alloc, "upgrade").short('u');
    let with_upgrade = Command::new(alloc, "basic").arg(upgrade)?;
    let daemon = flag(alloc, "daemon").short('d');
    let with_daemon = with_upgrade.arg(daemon)?;
    let nocapture = flag(alloc, "nocapture");
    let with_nocapture = with_daemon.arg(nocapture)?;
    let test = flag(alloc, "test").short('t');
    let with_test = with_nocapture.arg(test)?;
    let conf = Arg::new(alloc, "conf")
        .long("conf")
        .short('c')
        .action(ArgAction::Set);
    let with_conf = with_test.arg(conf)?;
    Ok(with_conf)
}

fn is_true(matches: &ArgMatches<'_>, name: &str) -> bool
    ensures { result ≡ is_true (first_value (found_of matches.now) name.now) }
{
    match matches.get_str(name) {
        Some(text) => text == "true",
        None => false,
    }
}

fn conf_of(alloc: Global, matches: &ArgMatches<'_>) -> Result<Option<Text>, NoMemory>
    ensures { IfOk result (λ conf. conf ≡ first_value (found_of matches.now) (codes "conf")) }
{
    match matches.get_str("conf") {
        Some(path) => Ok(Some(Text::new(alloc, path)?)),
        None => Ok(None),
    }
}

impl Opt {
    ghost use Rattle.svc_conf.specs.OptWords.{opt_app, opt_of};
    ghost use Rattle.clap.specs.declared.error.kind.ErrorKind.{ErrorKind};
    ghost use Rattle.clap.specs.Walk.{rows_of};
    ghost use Rattle.clap.specs.Simple.{matches_of};
    ghost use Rattle.clap.specs.Takes.{takes};
    ghost use Rattle.clap.specs.Faults.{fault_of};
    ghost use Rattle.clap.specs.Kinds.{IsAmong};
    ghost use Rattle.std.specs.Rc.{rc_str_bytes};

    fn from_matches(alloc: Global, matches: &ArgMatches<'_>) -> Result<Opt, NoMemory>
        ensures { IfOk result (λ opt. opt ≡ opt_of (rows_of (found_of matches.now))) }
    {
        Ok(Opt {
            upgrade: is_true(matches, "upgrade"),
            daemon: is_true(matches, "daemon"),
            nocapture: is_true(matches, "nocapture"),
            test: is_true(matches, "test"),
            conf: conf_of(alloc, matches)?,
        })
    }

    /// The flags of these words, of which the first is the program's name: `-u --upgrade`,
    /// `-d --daemon`, `--nocapture`, `-t --test`, and `-c --conf` with a value, each at most once.
    /// `Words` where they are refused, with the kind of the error.
    pub fn parse_from_args(alloc: Global, words: &[RcStr]) -> Result<Opt, OptError>
        ensures opt { IfOk result (λ opt. opt ≡ opt_of (matches_of opt_app (map rc_str_bytes words.now))) }
        ensures taken { OnOk result (fault_of opt_app (map rc_str_bytes words.now) ≡ []) }
        ensures words { (kind : ErrorKind) → result ≡ Err (OptError.Words kind)
            → (takes opt_app (map rc_str_bytes words.now) ≢ true)
            × IsAmong kind (fault_of opt_app (map rc_str_bytes words.now))
            × (kind ≢ ErrorKind.OutOfMemory) }
    {
        let Ok(command) = command(alloc) else {
            return Err(OptError::NoMemory);
        };
        match command.try_get_matches_from(words) {
            Ok(matches) => {
                let opt = Opt::from_matches(alloc, &matches);
                drop(matches);
                match opt {
                    Ok(opt) => Ok(opt),
                    Err(NoMemory) => Err(OptError::NoMemory),
                }
            }
            Err(error) => {
                let kind = error.kind();
                drop(error);
                match kind {
                    ErrorKind::OutOfMemory => Err(OptError::NoMemory),
                    kind => Err(OptError::Words(kind)),
                }
            }
        }
    }

    /// The same as `parse_from_args`.
    pub fn parse_args(alloc: Global, words: &[RcStr]) -> Result<Opt, OptError>
        ensures opt { IfOk result (λ opt. opt ≡ opt_of (matches_of opt_app (map rc_str_bytes words.now))) }
        ensures taken { OnOk result (fault_of opt_app (map rc_str_bytes words.now) ≡ []) }
        ensures words { (kind : ErrorKind) → result ≡ Err (OptError.Words kind)
            → (takes opt_app (map rc_str_bytes words.now) ≢ true)
            × IsAmong kind (fault_of opt_app (map rc_str_bytes words.now))
            × (kind ≢ ErrorKind.OutOfMemory) }
    {
        Opt::parse_from_args(alloc, words)
    }
}
