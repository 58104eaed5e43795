//! Why a file isn't served.

ghost use Rattle.std.specs.Prelude.{◌≡◌, None, Some};
ghost use Rattle.svc_serve.specs.Refusals.{IsEndedBy, answered};

use crate::ending::Ending;
use std::alloc::Global;
use std::mem::drop;
use svc_base::{NoMemory, Text};
use svc_conf::Key;
use svc_system::UpgradeAnswer;

/// Why a file isn't served: how a program ends by it that was started for the file, and the cause in one line,
/// unless that is want of memory.
#[derive(Drop)]
pub(crate) struct Refusal {
    ending: Ending,
    cause: Option<Text>,
}

/// The text of a cause.
fn text_of(alloc: Global, cause: Result<String, NoMemory>) -> Result<Text, NoMemory> {
    match cause {
        Ok(cause) => Text::new(alloc, cause.as_str()),
        Err(NoMemory) => Err(NoMemory),
    }
}

/// What is wrong with the value of a key in the file at this path.
fn config_cause(alloc: Global, path: &str, key: Key) -> Result<String, NoMemory> {
    let name = key.name();
    match key {
        Key::Daemon | Key::User | Key::Group => {
            Ok(format!(in alloc; "{path}: {name}: a service manager does this")?)
        }
        Key::UpgradeSock => {
            Ok(format!(in alloc; "{path}: {name}: it is no address of this machine")?)
        }
        _ => Ok(format!(in alloc; "{path}: {name}: no server can run with this value")?),
    }
}

/// What is wrong with the file at this path, by how a program ends by it.
fn file_cause(alloc: Global, path: &str, ending: Ending) -> Result<String, NoMemory> {
    match ending {
        Ending::Line(0) => Ok(format!(in alloc; "{path} is too long")?),
        Ending::Line(n) => Ok(format!(in alloc; "{path}: line {n} is refused")?),
        Ending::Config(key) => config_cause(alloc, path, key),
        _ => Ok(format!(in alloc; "{path} can't be read")?),
    }
}

impl Refusal {
    /// A program ends so by this cause. Where there is no memory for the cause, it is that.
    pub(crate) fn new(alloc: Global, ending: Ending, cause: Result<String, NoMemory>) -> Self
        ensures { IsEndedBy ending result }
    {
        match text_of(alloc, cause) {
            Ok(text) => Refusal {
                ending,
                cause: Some(text),
            },
            Err(NoMemory) => Refusal::memory(),
        }
    }

    /// There was no memory.
    pub(crate) fn memory() -> Self
        ensures { result ≡ record { ending = Ending.NoMemory; cause = None } }
    {
        Refusal {
            ending: Ending::NoMemory,
            cause: None,
        }
    }

    /// The file at this path is refused, and a program ends so by it.
    pub(crate) fn of_file(alloc: Global, path: &str, ending: Ending) -> Self
        ensures { IsEndedBy ending result }
    {
        Refusal::new(alloc, ending, file_cause(alloc, path, ending))
    }

    /// Says the cause on standard error, and how the program ends.
    pub(crate) fn end(self, rt: &HostRuntime) -> Ending
        ensures { result ≡ self.ending }
    {
        if let Some(cause) = &self.cause {
            let cause = cause.as_str();
            let _ = eprintln!(rt; "svc serve: {cause}");
        }
        let ending = self.ending;
        drop(self);
        ending
    }

    /// What is answered to an operator who asked to be upgraded to the file.
    pub(crate) fn answer(self) -> UpgradeAnswer
        ensures { result ≡ answered self.cause }
    {
        match self.cause {
            Some(cause) => UpgradeAnswer::Refused(cause),
            None => UpgradeAnswer::NoMemory,
        }
    }
}
