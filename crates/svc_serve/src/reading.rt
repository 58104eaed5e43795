//! The file: a script's text without its events, and perhaps what its services do.

ghost use Rattle.std.specs.Prelude.{◌≡◌, ◌+◌, ◌++◌, ◌<◌, ◌≤◌, ◌^◌, length, codes, IfOk};
ghost use Rattle.svc_serve.specs.Files.{IsTaken, SaysScript};

use crate::ending::Ending;
use crate::files::{Unread, bytes_at};
use std::alloc::Global;
use std::fs::File;
use std::mem::drop;
use std::net::SocketAddr;
use std::rt::Files;
use svc_base::{NoMemory, Text};
use svc_conf::{Key, ServerConf};
use svc_system::{ControlAddress, is_loopback};
use svc_text::{Script, ScriptError, ServiceLine, parse};
use svc_work::{WorkLine, WorksRefused, file_parts, works_of};

/// What stands behind the script's text: the events come of the system.
const EVENTS: &[u8] = b"\n%events\n";

/// What a file says.
#[derive(Drop)]
pub(crate) struct FileText {
    pub script: Script,
    /// What its services do.
    pub works: Vec<WorkLine>,
}

/// The bytes of a file.
fn bytes_of<R: Files<File = File>>(rt: &R, alloc: Global, path: &str) -> Result<Vec<u8>, Ending>
    ensures { IfOk result (λ v. length v.items ≤ 16777216) }
{
    match bytes_at(rt, alloc, path) {
        Ok(bytes) => Ok(bytes),
        Err(Unread::Fault) => Err(Ending::ReadFault),
        Err(Unread::TooLong) => Err(Ending::Line(0)),
        Err(Unread::NoMemory) => Err(Ending::NoMemory),
    }
}

/// A text with a header for the events behind it.
fn with_events(alloc: Global, text: &[u8]) -> Result<Vec<u8>, NoMemory>
    ensures { IfOk result (λ bytes. bytes.items ≡ text.now ++ codes "\n%events\n") }
{
    let mut bytes = Vec::new(alloc);
    bytes.extend_from_slice(text)?;
    bytes.extend_from_slice(EVENTS)?;
    Ok(bytes)
}

/// What a script's text says, of which the events stand elsewhere. `Line` with the first that is refused.
fn script_of(alloc: Global, text: &[u8]) -> Result<Script, Ending>
    ensures says { IfOk result (SaysScript text.now) }
    ensures taken { IfOk result IsTaken }
{
    let Ok(bytes) = with_events(alloc, text) else {
        return Err(Ending::NoMemory);
    };
    match parse(alloc, &bytes) {
        Ok(script) => Ok(script),
        Err(ScriptError::Line(n)) => Err(Ending::Line(n as u64)),
        Err(ScriptError::NoMemory) => Err(Ending::NoMemory),
    }
}

/// The names of services.
fn names_of(alloc: Global, services: &[ServiceLine]) -> Result<Vec<Text>, NoMemory> {
    let mut names = Vec::new(alloc);
    for service in services {
        names.push(service.name.copy(alloc)?)?;
    }
    Ok(names)
}

/// What services do, as the lines behind the header say it.
fn works_in(
    alloc: Global,
    services: &[ServiceLine],
    text: &[u8],
    first: u64,
) -> Result<Vec<WorkLine>, Ending>
    requires { first + length text.now < 2 ^ 64 }
{
    let Ok(names) = names_of(alloc, services) else {
        return Err(Ending::NoMemory);
    };
    match works_of(alloc, names.as_slice(), text, first) {
        Ok(works) => Ok(works),
        Err(WorksRefused::Line(n)) => Err(Ending::Line(n)),
        Err(WorksRefused::NoMemory) => Err(Ending::NoMemory),
    }
}

/// What a file says.
pub(crate) fn read_text<R: Files<File = File>>(
    rt: &R,
    alloc: Global,
    path: &str,
) -> Result<FileText, Ending>
    ensures { IfOk result (λ read. IsTaken read.script) }
{
    let bytes = bytes_of(rt, alloc, path)?;
    let parts = file_parts(bytes.as_slice());
    let script = script_of(alloc, parts.script)?;
    let first = parts.number + 1;
    match works_in(alloc, script.services.as_slice(), parts.works, first) {
        Ok(works) => Ok(FileText { script, works }),
        Err(ending) => {
            drop(script);
            Err(ending)
        }
    }
}

/// The first key that asks for what the program doesn't do: a service manager starts it in the background,
/// as a user and in a group.
pub(crate) fn refused_key(conf: &ServerConf) -> Option<Key> {
    if conf.daemon {
        Some(Key::Daemon)
    } else if conf.user.is_some() {
        Some(Key::User)
    } else if conf.group.is_some() {
        Some(Key::Group)
    } else {
        None
    }
}

/// Where operators are listened to: an address of this machine, or a path of the Unix domain. `Config` where
/// other machines would reach the address.
pub(crate) fn control_of(alloc: Global, conf: &ServerConf) -> Result<ControlAddress, Ending> {
    match conf.upgrade_sock.as_str().parse::<SocketAddr>() {
        Ok(address) => {
            if is_loopback(&address) {
                Ok(ControlAddress::Tcp(address))
            } else {
                Err(Ending::Config(Key::UpgradeSock))
            }
        }
        Err(_) => match conf.upgrade_sock.copy(alloc) {
            Ok(path) => Ok(ControlAddress::Unix(path)),
            Err(NoMemory) => Err(Ending::NoMemory),
        },
    }
}

/// Where the pid file is to be: at the configured path, unless that is the one of a configuration that names
/// none.
pub(crate) fn pid_path_of(alloc: Global, conf: &ServerConf) -> Result<Option<Text>, Ending> {
    let Ok(default) = ServerConf::default(alloc) else {
        return Err(Ending::NoMemory);
    };
    let is_named = conf.pid_file != default.pid_file;
    drop(default);
    if !is_named {
        return Ok(None);
    }
    match conf.pid_file.copy(alloc) {
        Ok(path) => Ok(Some(path)),
        Err(NoMemory) => Err(Ending::NoMemory),
    }
}
