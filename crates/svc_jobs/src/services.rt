//! The server that the jobs of a text are services of.

ghost use Rattle.std.specs.Prelude.{◌≡◌, ◌≤◌, ℕ, [], length, slice_index, None, false, IfOk, IfErr, OnOk};
ghost use Rattle.svc_text.specs.Dependencies.{RefusesNone, RefusesAt};
ghost use Rattle.svc_text.specs.declared.parsing.ScriptError.TheVariants as errors;
ghost use Rattle.svc_server.specs.declared.server.refusals.AddError.TheVariants as refusals;
ghost use Rattle.svc_server.specs.Servers.{answers_of, IsSound};
ghost use Rattle.svc_jobs.specs.JobServices.{HasJobs};

use std::alloc::Global;
use std::mem::drop;
use svc_base::NoMemory;
use svc_conf::ServerConf;
use svc_graph::services::ServiceWithDependents;
use svc_job_host::JobService;
use svc_server::{AddError, AddRefused, Server};
use svc_streams::AcceptAllFilter;
use svc_text::{Script, ScriptError, ServiceLine, add_dependencies};

/// The server of jobs, which have no connections to judge.
pub(crate) type JobServer = Server<JobService, AcceptAllFilter>;

/// A server without services, with the default configuration.
fn empty_server(alloc: Global) -> Result<JobServer, NoMemory>
    ensures options { IfOk result (λ server. server.options ≡ None) }
    ensures eager { IfOk result (λ server. server.eager ≡ false) }
    ensures dependencies { IfOk result (λ server. server.dependencies ≡ record { names = []; depends = [] }) }
    ensures services { IfOk result (λ server. server.services.items ≡ []) }
    ensures sound { IfOk result (λ server. IsSound server.dependencies (length server.filters)
        (answers_of ⟦<JobService as ServiceWithDependents>⟧ server.services.items)) }
{
    let conf = ServerConf::default(alloc)?;
    match Server::new_with_opt_and_conf(alloc, None, conf) {
        Ok(server) => Ok(server),
        Err(_) => unreachable!(),
    }
}

/// A refusal for want of memory.
fn memory_alone(reason: AddError) -> NoMemory
    requires { reason ≡ refusals.NoMemory }
{
    match reason {
        AddError::NoMemory => NoMemory,
        AddError::TooMany
        | AddError::TooManyEndpoints
        | AddError::BadAddressText(_)
        | AddError::UnknownFilter(_) => unreachable!(),
    }
}

/// A server with the services of jobs, and no dependencies yet. Against none of them a cause stands, so
/// it is memory that is wanted.
fn server_of(alloc: Global, lines: &[ServiceLine]) -> Result<JobServer, NoMemory>
    requires { length lines.now ≤ 1024 }
    ensures options { IfOk result (λ server. server.options ≡ None) }
    ensures eager { IfOk result (λ server. server.eager ≡ false) }
    ensures jobs { IfOk result (λ server. HasJobs lines.now 0 server.dependencies (length server.filters)
        (answers_of ⟦<JobService as ServiceWithDependents>⟧ server.services.items)) }
{
    let mut server = empty_server(alloc)?;
    for line in lines {
        let name = match line.name.copy(alloc) {
            Ok(name) => name,
            Err(NoMemory) => {
                drop(server);
                return Err(NoMemory);
            }
        };
        let service = JobService::new(name);
        match server.add_service(alloc, service) {
            Ok(_) => {}
            Err(refused) => {
                let AddRefused { service, reason } = refused;
                drop(service);
                drop(server);
                return Err(memory_alone(reason));
            }
        }
    }
    Ok(server)
}

/// The server of a text's jobs, with the dependencies that they name. `Line` with the line of the first
/// job whose dependencies are refused.
pub(crate) fn server_of_jobs(alloc: Global, script: &Script) -> Result<JobServer, ScriptError>
    requires few { length script.now.services.items ≤ 1024 }
    requires lines { length script.now.lines.items ≡ length script.now.services.items }
    ensures options { IfOk result (λ server. server.options ≡ None) }
    ensures eager { IfOk result (λ server. server.eager ≡ false) }
    ensures jobs { IfOk result (λ server. HasJobs script.now.services.items (length script.now.services.items) server.dependencies
        (length server.filters) (answers_of ⟦<JobService as ServiceWithDependents>⟧ server.services.items)) }
    ensures edges { OnOk result (RefusesNone script.now.services.items) }
    ensures refused { IfErr result (λ error. (n : ℕ) → error ≡ errors.Line n
        → (k : ℕ) × (RefusesAt script.now.services.items k × (n ≡ slice_index script.now.lines.items k))) }
{
    let mut server = match server_of(alloc, &script.services) {
        Ok(server) => server,
        Err(NoMemory) => return Err(ScriptError::NoMemory),
    };
    match add_dependencies(alloc, &mut server.dependencies, &script.services) {
        Ok(None) => Ok(server),
        Ok(Some(k)) => {
            drop(server);
            Err(ScriptError::Line(script.lines[k]))
        }
        Err(NoMemory) => {
            drop(server);
            Err(ScriptError::NoMemory)
        }
    }
}
