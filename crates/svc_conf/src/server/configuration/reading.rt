//! Configurations are read from their text.

ghost use Rattle.std.specs.Prelude.{◌≡◌, ◌+◌, ◌<◌, ◌^◌, Ok, OnOk, IfOk, MatchOption, None};
ghost use Rattle.std.specs.Str.Lines.{lines};

use super::kind::kind_in;
use super::place::Place;
use super::read_error::ReadError;
use crate::server::configuration::{Opt, ServerConf};
use std::alloc::Global;
use std::mem::drop;
use svc_base::{FileError, Files, NoMemory, split_line};

/// The error, which is want of memory.
fn memory_alone(error: ReadError) -> NoMemory
    requires { error ≡ ReadError.NoMemory }
{
    match error {
        ReadError::NoMemory => NoMemory,
        _ => unreachable!(),
    }
}

impl ServerConf {
    ghost use Rattle.svc_conf.specs.Configuration.{defaults};
    ghost use Rattle.svc_conf.specs.Kinds.{kind_in, behind_line};
    ghost use Rattle.svc_conf.specs.ConfigurationText.{says, set_by, changed, configuration, valid, new_text, merged, merged_by, loaded, Answers};
    ghost use Rattle.std.specs.Result.{IsErrOf};
    ghost use Rattle.svc_base.specs.Streams.{Rose};
    ghost use Rattle.svc_base.specs.FileCalls.{IsRead};

    /// Takes one more line, before this text.
    fn take_line(
        &mut self,
        alloc: Global,
        place: &mut Place,
        line: &[u8],
        after: &[u8],
    ) -> Result<(), ReadError>
        requires { place.old.passed + 1 < 2 ^ 64 }
        ensures said { Answers
            (changed result self.new)
            (set_by self.old
            (says place.old
            (kind_in place.old.skips line.now).0
            (kind_in place.old.skips line.now).1
            (lines after.now))) }
        ensures place { OnOk result
            (place.new ≡ behind_line place.old (kind_in place.old.skips line.now).0) }
    {
        let (kind, rest) = kind_in(place.skips, line);
        if let Some(said) = place.says(alloc, kind, rest, after)? {
            self.set_said(alloc, said)?;
        }
        place.pass(alloc, kind)?;
        Ok(())
    }

    /// The configuration that a text gives: the defaults, overridden by the keys that it has. The first
    /// line that the text's profile doesn't allow is refused: `Line` with its number, or `Value` with
    /// its key and number where the value isn't of the key's sort. `NoMemory` may come instead.
    pub fn parse(alloc: Global, text: &str) -> Result<ServerConf, ReadError>
        ensures { Answers result (configuration text.now) }
    {
        let mut conf = ServerConf::default(alloc)?;
        let mut place = Place::new(alloc);
        let mut rest = text.as_bytes();
        while let Some((line, after)) = split_line(rest) {
            match conf.take_line(alloc, &mut place, line, after) {
                Ok(()) => rest = after,
                Err(error) => {
                    drop(place);
                    drop(conf);
                    return Err(error);
                }
            }
        }
        drop(place);
        Ok(conf)
    }

    /// `parse`, and then `validate`: `Invalid` with the key that it refuses.
    pub fn from_yaml(alloc: Global, text: &str) -> Result<ServerConf, ReadError>
        ensures { Answers result (valid (configuration text.now)) }
    {
        let conf = ServerConf::parse(alloc, text)?;
        match conf.validate() {
            Ok(()) => Ok(conf),
            Err(key) => {
                drop(conf);
                Err(ReadError::Invalid(key))
            }
        }
    }

    /// The configuration of the text `---`, `version: 1`: the defaults with version 1.
    pub fn new(alloc: Global) -> Result<ServerConf, NoMemory>
        ensures text { IfOk result (λ conf. valid (configuration new_text) ≡ Ok conf) }
        ensures version { IfOk result (λ conf. conf ≡ record defaults { version = 1 }) }
    {
        match ServerConf::from_yaml(alloc, "---\nversion: 1") {
            Ok(conf) => Ok(conf),
            Err(error) => Err(memory_alone(error)),
        }
    }

    /// `new`, and then `merge_with_opt`.
    pub fn new_with_opt_override(alloc: Global, opt: &Opt) -> Result<ServerConf, NoMemory>
        ensures { IfOk result (λ conf. conf ≡ merged opt.now (record defaults { version = 1 })) }
    {
        let mut conf = ServerConf::new(alloc)?;
        conf.merge_with_opt(opt);
        Ok(conf)
    }

    /// `from_yaml` of the text that the file with this path has. `Fault` where it isn't read.
    pub fn load_from_yaml<F: Files>(
        alloc: Global,
        files: &mut F,
        path: &str,
    ) -> Result<ServerConf, ReadError>
        ensures fault { IsErrOf result ReadError.Fault
            → Rose (F.seen files.old).faults (F.seen files.new).faults }
        ensures read { (answer : _)
            × IsRead (F.seen files.old) (F.seen files.new) path.now answer
            × Answers result (loaded answer) }
    {
        match files.read(alloc, path) {
            Ok(text) => ServerConf::from_yaml(alloc, text.as_str()),
            Err(FileError::Failed) => Err(ReadError::Fault),
            Err(FileError::NoMemory) => Err(ReadError::NoMemory),
        }
    }

    /// `load_from_yaml` of the path that `opt` has, and then `merge_with_opt`. `NoPath` exactly where it
    /// has none; then no file is read.
    pub fn load_yaml_with_opt_override<F: Files>(
        alloc: Global,
        files: &mut F,
        opt: &Opt,
    ) -> Result<ServerConf, ReadError>
        ensures fault { IsErrOf result ReadError.Fault
            → Rose (F.seen files.old).faults (F.seen files.new).faults }
        ensures path { MatchOption opt.now.conf
            ((result ≡ Err ReadError.NoPath) × (files.new ≡ files.old))
            (λ path. (answer : _)
            × IsRead (F.seen files.old) (F.seen files.new) path answer
            × Answers result (merged_by opt.now (loaded answer))) }
        ensures no_path { IsErrOf result ReadError.NoPath → opt.now.conf ≡ None }
    {
        let Some(path) = &opt.conf else {
            return Err(ReadError::NoPath);
        };
        match ServerConf::load_from_yaml(alloc, files, path.as_str()) {
            Ok(mut conf) => {
                conf.merge_with_opt(opt);
                Ok(conf)
            }
            Err(error) => Err(error),
        }
    }
}
