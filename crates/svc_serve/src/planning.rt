//! What a file says, read and planned before anything of it begins.

ghost use Rattle.std.specs.Prelude.{◌≡◌, ◌≤◌, length, IfOk, IfNone};
ghost use Rattle.std.proofs.Props.{props};
ghost use Rattle.svc_server.specs.Servers.{answers_of, IsSound};
ghost use Rattle.svc_serve.specs.Files.{IsTaken};

use crate::ending::Ending;
use crate::gates::filters_of;
use crate::jobs::jobs_of;
use crate::reading::{FileText, control_of, pid_path_of, read_text, refused_key};
use crate::refusal::Refusal;
use std::alloc::Global;
use std::fs;
use std::mem::drop;
use svc_base::{NoMemory, Text};
use svc_conf::{Key, Opt, ServerConf};
use svc_graph::services::ServiceWithDependents;
use svc_host::{GatedFilter, ServedServer};
use svc_job_host::ServedJobs;
use svc_record::Plan;
use svc_services::{ScriptService, filtered_script};
use svc_streams::Filters;
use svc_system::ControlAddress;
use svc_text::{Script, ScriptError, ServiceLine};
use svc_work::WorkLine;

/// What each file of a program says alike: where operators are listened to, and where the pid file is.
#[derive(Drop)]
pub(crate) struct Stays {
    upgrade_sock: Text,
    pid_file: Text,
}

/// Where operators are listened to, and where the pid file is to be, if there is to be one.
#[derive(Drop)]
pub(crate) struct Outside {
    pub control: ControlAddress,
    pub pid_path: Option<Text>,
}

/// A server with its plan, with what its services do and which jobs they run.
#[derive(Drop)]
pub(crate) struct Planned {
    pub server: ServedServer,
    pub plan: Plan,
    pub works: Vec<WorkLine>,
    pub jobs: Vec<ServedJobs>,
    pub stays: Stays,
    ghost sound: { IsSound server.dependencies (length server.filters)
        (answers_of ⟦<ScriptService as ServiceWithDependents>⟧ server.services.items) } by { Prim.hlevel props },
}

/// What a file says, before its services' files are read.
#[derive(Drop)]
struct FileRead {
    script: Script,
    works: Vec<WorkLine>,
    outside: Outside,
    stays: Stays,
    ghost taken: { IsTaken script } by { Prim.hlevel props },
}

/// What services have of the files that their lines name.
#[derive(Drop)]
struct NamedFiles {
    filters: Filters<GatedFilter>,
    jobs: Vec<ServedJobs>,
}

impl Stays {
    /// What a configuration says of it.
    fn of(alloc: Global, conf: &ServerConf) -> Result<Self, NoMemory>
        ensures sock { IfOk result (λ stays. stays.upgrade_sock ≡ conf.now.upgrade_sock) }
        ensures pid { IfOk result (λ stays. stays.pid_file ≡ conf.now.pid_file) }
    {
        let upgrade_sock = conf.upgrade_sock.copy(alloc)?;
        let pid_file = conf.pid_file.copy(alloc)?;
        Ok(Stays {
            upgrade_sock,
            pid_file,
        })
    }

    /// The first key whose value differs in another file.
    fn changed(&self, other: &Stays) -> Option<Key>
        ensures { IfNone result (self.now ≡ other.now) }
    {
        if self.upgrade_sock != other.upgrade_sock {
            Some(Key::UpgradeSock)
        } else if self.pid_file != other.pid_file {
            Some(Key::PidFile)
        } else {
            None
        }
    }
}

/// What a configuration says of the program. `Config` with the first key whose value it can't have.
fn outside_of(alloc: Global, conf: &ServerConf) -> Result<Outside, Ending> {
    if let Some(key) = refused_key(conf) {
        return Err(Ending::Config(key));
    }
    if let Err(key) = conf.validate() {
        return Err(Ending::Config(key));
    }
    let pid_path = pid_path_of(alloc, conf)?;
    match control_of(alloc, conf) {
        Ok(control) => Ok(Outside { control, pid_path }),
        Err(ending) => {
            drop(pid_path);
            Err(ending)
        }
    }
}

/// What a configuration says of the program, and what each file says alike.
fn settings_of(alloc: Global, conf: &ServerConf) -> Result<(Outside, Stays), Ending> {
    let outside = outside_of(alloc, conf)?;
    match Stays::of(alloc, conf) {
        Ok(stays) => Ok((outside, stays)),
        Err(NoMemory) => {
            drop(outside);
            Err(Ending::NoMemory)
        }
    }
}

/// What a file's text says with what its configuration says of the program.
fn file_of(alloc: Global, text: FileText) -> Result<FileRead, Ending>
    requires { IsTaken text.script }
{
    let FileText { script, works } = text;
    match settings_of(alloc, &script.conf) {
        Ok(settings) => {
            let (outside, stays) = settings;
            Ok(FileRead {
                script,
                works,
                outside,
                stays,
            })
        }
        Err(ending) => {
            drop(script);
            drop(works);
            Err(ending)
        }
    }
}

/// What the file at this path says.
fn read_file(rt: &HostRuntime, path: &str) -> Result<FileRead, Refusal> {
    let alloc = rt.alloc();
    match read_text(rt, alloc, path) {
        Ok(text) => match file_of(alloc, text) {
            Ok(read) => Ok(read),
            Err(ending) => Err(Refusal::of_file(alloc, path, ending)),
        },
        Err(ending) => Err(Refusal::of_file(alloc, path, ending)),
    }
}

/// What these services have of the files that these lines name.
fn named_files(
    rt: &HostRuntime,
    services: &[ServiceLine],
    works: &[WorkLine],
) -> Result<NamedFiles, Refusal>
    requires { length services.now ≤ 1024 }
    ensures { IfOk result (λ files. length files.filters ≡ length services.now) }
{
    let filters = filters_of(rt, services, works)?;
    match jobs_of(rt, works, services.len() as u32) {
        Ok(jobs) => Ok(NamedFiles { filters, jobs }),
        Err(refusal) => {
            drop(filters);
            Err(refusal)
        }
    }
}

/// What is wrong with the dependencies of the service in a line.
fn dependency_cause(alloc: Global, path: &str, n: usize) -> Result<String, NoMemory> {
    Ok(format!(in alloc; "{path}: line {n}: a dependency isn't there, or closes a cycle")?)
}

/// There is no server of the file at this path.
fn refuse_server(alloc: Global, path: &str, refused: ScriptError) -> Refusal {
    match refused {
        ScriptError::NoMemory => Refusal::memory(),
        ScriptError::Line(n) => Refusal::new(
            alloc,
            Ending::Line(n as u64),
            dependency_cause(alloc, path, n),
        ),
    }
}

/// The flags of a generation: one behind the first takes the sockets of the one before it.
fn flags(is_newer: bool) -> Opt
    ensures { result.upgrade ≡ is_newer }
{
    Opt {
        upgrade: is_newer,
        daemon: false,
        nocapture: false,
        test: false,
        conf: None,
    }
}

/// A server with its plan.
fn with_plan(
    alloc: Global,
    server: ServedServer,
    works: Vec<WorkLine>,
    jobs: Vec<ServedJobs>,
    stays: Stays,
) -> Result<Planned, Refusal>
    requires { IsSound server.dependencies (length server.filters) (answers_of ⟦<ScriptService as ServiceWithDependents>⟧ server.services.items) }
{
    match server.plan(alloc) {
        Ok(plan) => Ok(Planned {
            server,
            plan,
            works,
            jobs,
            stays,
        }),
        Err(NoMemory) => {
            drop(server);
            drop(works);
            drop(jobs);
            drop(stays);
            Err(Refusal::memory())
        }
    }
}

/// What a generation is run with, of the file at this path that was read. One behind the first receives before its
/// services start.
fn planned_with(
    rt: &HostRuntime,
    path: &str,
    is_newer: bool,
    read: FileRead,
    files: NamedFiles,
) -> Result<(Planned, Outside), Refusal>
    requires { length files.filters ≡ length read.script.services.items }
{
    let alloc = rt.alloc();
    let FileRead {
        mut script,
        works,
        outside,
        stays,
    } = read;
    let NamedFiles { filters, jobs } = files;
    script.eager = script.eager || is_newer;
    match filtered_script(alloc, flags(is_newer), script, filters) {
        Ok(server) => match with_plan(alloc, server, works, jobs, stays) {
            Ok(planned) => Ok((planned, outside)),
            Err(refusal) => {
                drop(outside);
                Err(refusal)
            }
        },
        Err(refused) => {
            drop(works);
            drop(jobs);
            drop(outside);
            drop(stays);
            Err(refuse_server(alloc, path, refused))
        }
    }
}

/// What a generation is run with, of the file at this path that was read.
fn planned_read(
    rt: &HostRuntime,
    path: &str,
    is_newer: bool,
    read: FileRead,
) -> Result<(Planned, Outside), Refusal> {
    match named_files(rt, read.script.services.as_slice(), read.works.as_slice()) {
        Ok(files) => planned_with(rt, path, is_newer, read, files),
        Err(refusal) => {
            drop(read);
            Err(refusal)
        }
    }
}

/// What the first generation is run with, of the file at this path.
pub(crate) fn planned_first(rt: &HostRuntime, path: &str) -> Result<(Planned, Outside), Refusal> {
    match read_file(rt, path) {
        Ok(read) => planned_read(rt, path, false, read),
        Err(refusal) => Err(refusal),
    }
}

/// Why the value of a key stays.
fn stays_cause(alloc: Global, path: &str, key: Key) -> Result<String, NoMemory> {
    let name = key.name();
    Ok(format!(in alloc; "{path}: {name}: an upgrade leaves it as it is")?)
}

/// The path is that of a file that can be read without waiting.
fn is_plain(rt: &HostRuntime, path: &str) -> bool {
    match fs::metadata(rt, path) {
        Ok(found) => found.is_file(),
        Err(_) => false,
    }
}

/// What a generation is run with that takes the sockets of one of which this stays, of the file at this path.
pub(crate) fn planned_newer(
    rt: &HostRuntime,
    path: &str,
    stays: &Stays,
) -> Result<Planned, Refusal> {
    let alloc = rt.alloc();
    if !is_plain(rt, path) {
        return Err(Refusal::of_file(alloc, path, Ending::ReadFault));
    }
    match read_file(rt, path) {
        Ok(read) => match stays.changed(&read.stays) {
            Some(key) => {
                drop(read);
                Err(Refusal::new(alloc, Ending::Config(key), stays_cause(alloc, path, key)))
            }
            None => inside(planned_read(rt, path, true, read)),
        },
        Err(refusal) => Err(refusal),
    }
}

/// What a generation is run with that opens nothing outside.
fn inside(planned: Result<(Planned, Outside), Refusal>) -> Result<Planned, Refusal> {
    match planned {
        Ok(read) => {
            let (planned, outside) = read;
            drop(outside);
            Ok(planned)
        }
        Err(refusal) => Err(refusal),
    }
}
