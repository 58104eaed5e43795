//! The run of a script's server, and how it ended.

ghost use Rattle.std.specs.Prelude.{◌≡◌, ◌<◌, length, Some, List, IfOk};
ghost use Rattle.svc_conf.specs.declared.server.configuration.Opt.{Opt};
ghost use Rattle.svc_text.specs.declared.service.ServiceLine.{ServiceLine};
ghost use Rattle.svc_text.specs.ScriptPlans.{plan_of};
ghost use Rattle.svc_server.specs.Hosts.{no_account};
ghost use Rattle.svc_server.specs.Runs.{RunTakes};
ghost use Rattle.svc_server.specs.Servers.{answers_of};
ghost use Rattle.svc_text.specs.Script.{Parts};
ghost use Rattle.svc_services.specs.Services.{HasLines, IsServerOf};
ghost use Rattle.svc_main.specs.Program.{answer_of, Judges, TellsRun};

use crate::outcome::RunEnd;
use crate::recorder::Recorder;
use crate::recording_host::RecordingHost;
use std::alloc::Global;
use svc_base::NoMemory;
use svc_graph::services::ServiceWithDependents;
use svc_server::{Host, Outcome, RunArgs, RunError, Server};
use svc_services::{ScriptFilter, ScriptService};

/// Runs a script's server over a host that has fewer items ahead than there are turns.
pub(crate) fn run_items<R: Recorder>(
    alloc: Global,
    server: Server<ScriptService, ScriptFilter>,
    turns: u64,
    host: &mut RecordingHost<R, ScriptService>,
) -> Result<RunEnd, NoMemory>
    requires lines { (services : List ServiceLine) × HasLines services (length services) server.dependencies server.filters
        (answers_of ⟦<ScriptService as ServiceWithDependents>⟧ server.services.items) }
    requires first { ⟦<RecordingHost<R, ScriptService> as Host>⟧.account host.old ≡ Some no_account }
    requires few { length host.old.left < turns }
    ensures tells { (opt : Opt) (parts : Parts) → IsServerOf opt parts server.configuration server.options server.eager
        server.dependencies server.filters (answers_of ⟦<ScriptService as ServiceWithDependents>⟧ server.services.items)
        → IfOk result (λ end. TellsRun parts.services (plan_of opt parts) turns (answer_of end) (R.shown host.new.recorder)) }
    ensures judged { IfOk result (λ end. Judges end server.configuration) }
    ensures takes { IfOk result (λ end. RunTakes (answer_of end) (R.shown host.new.recorder) host.old.left host.new.left) }
{
    match server.run(alloc, RunArgs { turns }, host) {
        Ok(Outcome::Served) => Ok(RunEnd::Served),
        Ok(Outcome::TestPassed) => Ok(RunEnd::Tested),
        Ok(Outcome::Parent(n)) => Ok(RunEnd::Parent(n)),
        Err(RunError::Config(key)) => Ok(RunEnd::Config(key)),
        Err(RunError::Bootstrap(error)) => Ok(RunEnd::Bootstrap(error)),
        Err(RunError::HostFault) => Ok(RunEnd::HostFault),
        Err(RunError::Stray(k)) => Ok(RunEnd::Stray(k)),
        Err(RunError::OutOfEvents) => Ok(RunEnd::OutOfEvents),
        Err(RunError::NoMemory) => Err(NoMemory),
        // The items are used up before the turns.
        Err(RunError::TurnsSpent) => unreachable!(),
    }
}
