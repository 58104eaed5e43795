//! A generation: a server that is planned, with everything open that its run needs.

ghost use Rattle.std.specs.Prelude.{◌≡◌, IfOk};

use crate::ending::Ending;
use crate::ends::Ended;
use crate::generations::Ground;
use crate::inherited::inherit;
use crate::notices::Notices;
use crate::planning::Planned;
use crate::refusal::Refusal;
use std::alloc::Global;
use std::fs;
use std::fs::File;
use std::mem::drop;
use std::sync::Wait;
use svc_base::{NoMemory, Text, Writing};
use svc_host::{Log, ServedRun, SystemHost, run_served};
use svc_server::Outcome;
use svc_system::{ControlAddress, Handover, Inherited, OpenRefused, System};

/// The log, if one is asked for.
pub(crate) type ServedLog = Option<Log<Writing<File>>>;

/// The run of a generation that is over.
type GenerationRun<'t, 'a, R> = ServedRun<SystemHost<'a, HostRuntime>, Notices<'t, 'a, R>>;

/// A generation that is to begin: everything is open that its run needs, and nothing of it has run.
#[derive(Drop)]
pub(crate) struct Generation<'a> {
    /// From 1.
    pub number: u64,
    planned: Planned,
    system: System<'a, HostRuntime>,
    log: ServedLog,
}

/// Why the log isn't there.
fn log_cause(alloc: Global, path: &str) -> Result<String, NoMemory> {
    Ok(format!(in alloc; "{path}: the log can't be opened")?)
}

/// Opens the log at this path.
fn log_at(rt: &HostRuntime, path: &str) -> Result<ServedLog, Refusal> {
    match fs::create(rt, path) {
        Ok(file) => Ok(Some(Log::new(rt.alloc(), Writing::new(file)))),
        Err(_) => Err(Refusal::new(rt.alloc(), Ending::HostFault, log_cause(rt.alloc(), path))),
    }
}

/// The path of the log of the generation with this number, of one behind the first.
fn log_path(alloc: Global, path: &str, number: u64) -> Result<String, NoMemory> {
    Ok(format!(in alloc; "{path}.{number}")?)
}

/// Opens the log of the generation with this number, of one behind the first, beside the first one's.
fn log_beside(rt: &HostRuntime, path: &str, number: u64) -> Result<ServedLog, Refusal> {
    match log_path(rt.alloc(), path, number) {
        Ok(path) => log_at(rt, path.as_str()),
        Err(NoMemory) => Err(Refusal::memory()),
    }
}

/// Opens the log of the first generation, if one is asked for.
fn first_log(rt: &HostRuntime, path: &Option<Text>) -> Result<ServedLog, Refusal> {
    match path {
        Some(path) => log_at(rt, path.as_str()),
        None => Ok(None),
    }
}

/// Opens the log of the generation with this number, of one behind the first, if the first one has one.
fn numbered_log(rt: &HostRuntime, path: &Option<Text>, number: u64) -> Result<ServedLog, Refusal> {
    match path {
        Some(path) => log_beside(rt, path.as_str(), number),
        None => Ok(None),
    }
}

/// Why nothing can be served.
fn system_cause(alloc: Global, refused: OpenRefused) -> Result<String, NoMemory> {
    Ok(format!(in alloc; "{refused}")?)
}

/// Nothing can be served.
fn refuse_system(alloc: Global, refused: OpenRefused) -> Refusal {
    match refused {
        OpenRefused::NoMemory => Refusal::memory(),
        _ => Refusal::new(alloc, Ending::HostFault, system_cause(alloc, refused)),
    }
}

/// How a run ends a program, where its sockets should have gone over to a newer generation and didn't.
fn without_successor(ending: Ending) -> Ending {
    match ending {
        Ending::Run(Ok(Outcome::Served)) => Ending::NoSuccessor,
        _ => ending,
    }
}

/// How a run ends a program that is over: nothing of it is open any more then.
fn closed<R: Wait>(run: GenerationRun<'_, '_, R>) -> Ending {
    let mut run = run;
    let answer = run.answer;
    run.host.settle();
    let system = run.host.inner().system();
    system.close();
    let ending = if system.is_forsaken() {
        Ending::NoService
    } else {
        Ending::Run(answer)
    };
    let is_alone = run.host.recorder().is_offered() && !system.has_handed_over();
    drop(run);
    if is_alone {
        without_successor(ending)
    } else {
        ending
    }
}

impl<'a> Generation<'a> {
    /// The first one: operators are listened to at this address, its endpoints have these sockets, where they are theirs, and
    /// the log is at this path, if there is one.
    pub(crate) fn first(
        rt: &'a HostRuntime,
        planned: Planned,
        control: ControlAddress,
        inherited: Inherited,
        log: &Option<Text>,
    ) -> Result<Self, Refusal>
        ensures { IfOk result (λ generation. generation.number ≡ 1) }
    {
        let alloc = rt.alloc();
        match System::open(rt, alloc, &planned.plan, planned.works.as_slice(), control) {
            Ok(mut system) => {
                inherit(rt, &mut system, inherited);
                Generation::logged(1, planned, system, first_log(rt, log))
            }
            Err(refused) => {
                drop(planned);
                drop(inherited);
                Err(refuse_system(alloc, refused))
            }
        }
    }

    /// The one with this number, which takes an older one's sockets on this way, and whose log is beside the first one's
    /// path, if that is there.
    pub(crate) fn newer(
        rt: &'a HostRuntime,
        number: u64,
        planned: Planned,
        handover: Handover,
        log: &Option<Text>,
    ) -> Result<Self, Refusal>
        ensures { IfOk result (λ generation. generation.number ≡ number) }
    {
        let alloc = rt.alloc();
        match System::succeed(rt, alloc, &planned.plan, planned.works.as_slice(), handover) {
            Ok(system) => {
                let opened = numbered_log(rt, log, number);
                Generation::logged(number, planned, system, opened)
            }
            Err(refused) => {
                drop(planned);
                Err(refuse_system(alloc, refused))
            }
        }
    }

    /// The one with this number, where its log is open.
    fn logged(
        number: u64,
        planned: Planned,
        system: System<'a, HostRuntime>,
        opened: Result<ServedLog, Refusal>,
    ) -> Result<Self, Refusal>
        ensures { IfOk result (λ generation. generation.number ≡ number) }
    {
        match opened {
            Ok(log) => Ok(Generation {
                number,
                planned,
                system,
                log,
            }),
            Err(refusal) => {
                system.close();
                drop(system);
                drop(planned);
                Err(refusal)
            }
        }
    }

    /// It doesn't begin: the control address is free again.
    pub(crate) fn abandon(self) {
        self.system.close();
        drop(self);
    }

    /// Runs it, to its end.
    pub(crate) fn run<R: Wait>(self, ground: &Ground<'a, R>) -> Ended
        ensures { result.number ≡ self.entry.number }
    {
        let Generation {
            number,
            planned,
            system,
            log,
        } = self;
        let Planned {
            server,
            plan,
            works,
            jobs,
            stays,
        } = planned;
        drop(works);
        let alloc = ground.rt.alloc();
        let notices = Notices::new(ground, number, plan, log, jobs, stays);
        let run = run_served(alloc, server, SystemHost::new(alloc, system), notices);
        Ended {
            number,
            ending: closed(run),
        }
    }
}
