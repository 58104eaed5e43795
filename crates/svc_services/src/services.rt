//! The server that the services of a script are in, with their filters and dependencies.

ghost use Rattle.std.specs.Prelude.{◌≡◌, ◌≤◌, ◌||◌, ℕ, [], length, slice_index, Some, None, false, IfOk, IfErr, OnOk};
ghost use Rattle.svc_conf.specs.Configuration.{defaults};
ghost use Rattle.svc_conf.specs.ConfigurationText.{merged};
ghost use Rattle.svc_text.specs.Accepted.{AreAccepted};
ghost use Rattle.svc_text.specs.Dependencies.{RefusesNone, RefusesAt};
ghost use Rattle.svc_text.specs.Outcome.{parts_of};
ghost use Rattle.svc_text.specs.declared.parsing.ScriptError.TheVariants as errors;
ghost use Rattle.svc_server.specs.declared.server.refusals.AddError.TheVariants as refusals;
ghost use Rattle.svc_server.specs.Servers.{answers_of, IsSound};
ghost use Rattle.svc_services.specs.Filtered.{number_behind, AreEnough};
ghost use Rattle.svc_services.specs.Services.{HasServices, HasLines, IsFilteredServerOf};

use crate::script_filter::{ScriptFilter, filters_of};
use crate::script_service::ScriptService;
use std::alloc::Global;
use std::mem::{drop, replace};
use svc_base::NoMemory;
use svc_conf::{Opt, ServerConf};
use svc_graph::services::ServiceWithDependents;
use svc_server::{AddError, AddRefused, Server};
use svc_streams::{ConnectionFilter, Filters};
use svc_text::{Script, ScriptError, ServiceLine, add_dependencies, filter_number};

/// Which services of a list have a filter.
#[derive(Clone, Copy)]
pub(crate) enum Filtered {
    /// Those that block addresses have one each, in their order.
    Blocking,
    /// Each has one, in their order.
    Each,
}

/// The number of the filter of a service behind these, if it has one.
fn number_behind(filtered: Filtered, before: &[ServiceLine], line: &ServiceLine) -> Option<u32>
    requires { length before.now ≤ 1024 }
    ensures { result ≡ number_behind filtered before.now line.now }
{
    match filtered {
        Filtered::Blocking => filter_number(before, line),
        Filtered::Each => Some(before.len() as u32),
    }
}

/// A server without services and filters, with the default configuration.
fn empty_server<F: ConnectionFilter>(alloc: Global) -> Result<Server<ScriptService, F>, NoMemory>
    ensures configuration { IfOk result (λ server. server.configuration ≡ defaults) }
    ensures options { IfOk result (λ server. server.options ≡ None) }
    ensures dependencies { IfOk result (λ server. server.dependencies ≡ record { names = []; depends = [] }) }
    ensures services { IfOk result (λ server. server.services.items ≡ []) }
    ensures eager { IfOk result (λ server. server.eager ≡ false) }
    ensures filters { IfOk result (λ server. server.filters ≡ []) }
    ensures sound { IfOk result (λ server. IsSound server.dependencies (length server.filters)
        (answers_of ⟦<ScriptService as ServiceWithDependents>⟧ server.services.items)) }
{
    let conf = ServerConf::default(alloc)?;
    match Server::new_with_opt_and_conf(alloc, None, conf) {
        Ok(server) => Ok(server),
        Err(_) => unreachable!(),
    }
}

/// A refusal for want of memory.
fn memory_alone(reason: AddError) -> NoMemory
    requires { reason ≡ refusals.NoMemory }
{
    match reason {
        AddError::NoMemory => NoMemory,
        AddError::TooMany
        | AddError::TooManyEndpoints
        | AddError::BadAddressText(_)
        | AddError::UnknownFilter(_) => unreachable!(),
    }
}

/// A server with the services of a script and these filters, and no dependencies yet. Against none of
/// them a cause stands, so it is memory that is wanted.
fn server_of<F: ConnectionFilter>(
    alloc: Global,
    lines: &[ServiceLine],
    filtered: Filtered,
    filters: Filters<F>,
) -> Result<Server<ScriptService, F>, NoMemory>
    requires accepted { AreAccepted lines.now }
    requires enough { AreEnough filtered lines.now (length filters) }
    ensures eager { IfOk result (λ server. server.eager ≡ false) }
    ensures filters { IfOk result (λ server. server.filters ≡ filters) }
    ensures services { IfOk result (λ server. HasServices (number_behind filtered) lines.now 0 server.dependencies (length server.filters)
        (answers_of ⟦<ScriptService as ServiceWithDependents>⟧ server.services.items)) }
{
    let mut server = match empty_server(alloc) {
        Ok(server) => server,
        Err(NoMemory) => {
            drop(filters);
            return Err(NoMemory);
        }
    };
    drop(replace(&mut server.filters, filters));
    for k in 0..lines.len() {
        let line = &lines[k];
        let number = number_behind(filtered, &lines[..k], line);
        let service = match ScriptService::new(alloc, line, number) {
            Ok(service) => service,
            Err(NoMemory) => {
                drop(server);
                return Err(NoMemory);
            }
        };
        match server.add_service(alloc, service) {
            Ok(_) => {}
            Err(refused) => {
                let AddRefused { service, reason } = refused;
                drop(service);
                drop(server);
                return Err(memory_alone(reason));
            }
        }
    }
    Ok(server)
}

/// The server of a script's services with these filters, with the dependencies that they name. `Line` with
/// the line of the first service whose dependencies are refused.
fn linked<F: ConnectionFilter>(
    alloc: Global,
    script: &Script,
    filtered: Filtered,
    filters: Filters<F>,
) -> Result<Server<ScriptService, F>, ScriptError>
    requires accepted { AreAccepted script.now.services.items }
    requires lines { length script.now.lines.items ≡ length script.now.services.items }
    requires enough { AreEnough filtered script.now.services.items (length filters) }
    ensures eager { IfOk result (λ server. server.eager ≡ false) }
    ensures filters { IfOk result (λ server. server.filters ≡ filters) }
    ensures services { IfOk result (λ server. HasServices (number_behind filtered) script.now.services.items
        (length script.now.services.items) server.dependencies (length server.filters)
        (answers_of ⟦<ScriptService as ServiceWithDependents>⟧ server.services.items)) }
    ensures edges { OnOk result (RefusesNone script.now.services.items) }
    ensures refused { IfErr result (λ error. (n : ℕ) → error ≡ errors.Line n
        → (k : ℕ) × (RefusesAt script.now.services.items k × (n ≡ slice_index script.now.lines.items k))) }
{
    let mut server = match server_of(alloc, &script.services, filtered, filters) {
        Ok(server) => server,
        Err(NoMemory) => return Err(ScriptError::NoMemory),
    };
    match add_dependencies(alloc, &mut server.dependencies, &script.services) {
        Ok(None) => Ok(server),
        Ok(Some(k)) => {
            drop(server);
            Err(ScriptError::Line(script.lines[k]))
        }
        Err(NoMemory) => {
            drop(server);
            Err(ScriptError::NoMemory)
        }
    }
}

/// The server of a script's services, with the dependencies that they name. `Line` with the line of
/// the first service whose dependencies are refused.
pub fn server_of_script(
    alloc: Global,
    script: &Script,
) -> Result<Server<ScriptService, ScriptFilter>, ScriptError>
    requires accepted { AreAccepted script.now.services.items }
    requires lines { length script.now.lines.items ≡ length script.now.services.items }
    ensures eager { IfOk result (λ server. server.eager ≡ false) }
    ensures lines { IfOk result (λ server. HasLines script.now.services.items
        (length script.now.services.items) server.dependencies server.filters
        (answers_of ⟦<ScriptService as ServiceWithDependents>⟧ server.services.items)) }
    ensures edges { OnOk result (RefusesNone script.now.services.items) }
    ensures refused { IfErr result (λ error. (n : ℕ) → error ≡ errors.Line n
        → (k : ℕ) × (RefusesAt script.now.services.items k × (n ≡ slice_index script.now.lines.items k))) }
{
    match filters_of(alloc, &script.services) {
        Ok(filters) => linked(alloc, script, Filtered::Blocking, filters),
        Err(NoMemory) => Err(ScriptError::NoMemory),
    }
}

/// A server with services whose dependencies are known and close no cycle.
pub fn server_of_services(
    alloc: Global,
    lines: &[ServiceLine],
) -> Result<Server<ScriptService, ScriptFilter>, NoMemory>
    requires accepted { AreAccepted lines.now }
    requires edges { RefusesNone lines.now }
    ensures eager { IfOk result (λ server. server.eager ≡ false) }
    ensures lines { IfOk result (λ server. HasLines lines.now (length lines.now) server.dependencies server.filters
        (answers_of ⟦<ScriptService as ServiceWithDependents>⟧ server.services.items)) }
{
    let filters = filters_of(alloc, lines)?;
    let mut server = server_of(alloc, lines, Filtered::Blocking, filters)?;
    match add_dependencies(alloc, &mut server.dependencies, lines) {
        Ok(None) => Ok(server),
        Ok(Some(_)) => unreachable!(),
        Err(NoMemory) => {
            drop(server);
            Err(NoMemory)
        }
    }
}

/// The server with this configuration, into which the flags are merged.
pub fn configured<F: ConnectionFilter>(
    server: Server<ScriptService, F>,
    conf: ServerConf,
    opt: Opt,
    eager: bool,
) -> Server<ScriptService, F>
    ensures configuration { result.configuration ≡ merged opt conf }
    ensures options { result.options ≡ Some opt }
    ensures eager { result.eager ≡ (server.eager || eager) }
    ensures dependencies { result.dependencies ≡ server.dependencies }
    ensures filters { result.filters ≡ server.filters }
    ensures services { result.services.items ≡ server.services.items }
{
    let mut server = server;
    drop(replace(&mut server.configuration, conf));
    server.configuration.merge_with_opt(&opt);
    drop(replace(&mut server.options, Some(opt)));
    if eager {
        server.bootstrap();
    }
    server
}

/// The server with a script's configuration and these flags. The rest of the script is let go.
fn with_script<F: ConnectionFilter>(
    server: Server<ScriptService, F>,
    opt: Opt,
    script: Script,
) -> Server<ScriptService, F>
    ensures configuration { result.configuration ≡ merged opt script.conf }
    ensures options { result.options ≡ Some opt }
    ensures eager { result.eager ≡ (server.eager || script.eager) }
    ensures dependencies { result.dependencies ≡ server.dependencies }
    ensures filters { result.filters ≡ server.filters }
    ensures services { result.services.items ≡ server.services.items }
{
    let Script {
        conf,
        services,
        eager,
        items,
        lines,
    } = script;
    drop(services);
    drop(items);
    drop(lines);
    configured(server, conf, opt, eager)
}

/// The server of a script with these flags and a filter for each service, which has the service's number.
/// What the script's services block is for these filters to refuse, and the script's events come of
/// elsewhere. `Line` with the line of the first service whose dependencies are refused.
pub fn filtered_script<F: ConnectionFilter>(
    alloc: Global,
    opt: Opt,
    script: Script,
    filters: Filters<F>,
) -> Result<Server<ScriptService, F>, ScriptError>
    requires accepted { AreAccepted script.services.items }
    requires lines { length script.lines.items ≡ length script.services.items }
    requires filters { length filters ≡ length script.services.items }
    ensures server { IfOk result (λ server. IsFilteredServerOf opt (parts_of script) server.configuration server.options server.eager
        server.dependencies (length server.filters) (answers_of ⟦<ScriptService as ServiceWithDependents>⟧ server.services.items)) }
    ensures filters { IfOk result (λ server. server.filters ≡ filters) }
    ensures refused { IfErr result (λ error. (n : ℕ) → error ≡ errors.Line n
        → (k : ℕ) × (RefusesAt script.services.items k × (n ≡ slice_index script.lines.items k))) }
{
    match linked(alloc, &script, Filtered::Each, filters) {
        Ok(server) => Ok(with_script(server, opt, script)),
        Err(error) => {
            drop(opt);
            drop(script);
            Err(error)
        }
    }
}
