//! The run of a script's server over a host that shows its record.

ghost use Rattle.std.specs.Prelude.{◌≡◌, [], length, Ok};
ghost use Rattle.svc_conf.specs.declared.server.configuration.Opt.{Opt};
ghost use Rattle.svc_record.specs.Right.{Served};
ghost use Rattle.svc_server.specs.Servers.{answers_of, plan_of, IsSound};
ghost use Rattle.svc_server.specs.Judges.{IsSaid};
ghost use Rattle.svc_server.specs.declared.run.Outcome.TheVariants as outcomes;
ghost use Rattle.svc_services.specs.Services.{IsFilteredServerOf, filtered_plan_of};
ghost use Rattle.svc_streams.specs.Verdicts.{verdict_at};
ghost use Rattle.svc_text.specs.Script.{Parts};

use crate::gated_filter::GatedFilter;
use crate::recorded_host::RecordedHost;
use crate::recorder::Recorder;
use crate::waiting::Waiting;
use std::alloc::Global;
use svc_graph::services::ServiceWithDependents;
use svc_server::{InnerHost, Outcome, RunArgs, RunError, Server};
use svc_services::ScriptService;
use svc_streams::ConnectionFilter;

/// A server of a script's services, each of which may have a gate.
pub type ServedServer = Server<ScriptService, GatedFilter>;

/// How a run ended, and the host that it was over.
#[derive(Drop)]
pub struct ServedRun<H: InnerHost, K: Recorder> {
    pub answer: Result<Outcome, RunError>,
    pub host: RecordedHost<H, K, ScriptService>,
}

/// Runs a server over an inner host, and shows the record to a recorder as it grows. Where it served, the
/// record is a served one of the server's plan, and so of the script's that the server is of, with a filter
/// for each service, however long the run was. In any record each judgement of a connection is what the
/// service's filter says of its peer.
pub fn run_served<H: Waiting, K: Recorder>(
    alloc: Global,
    server: ServedServer,
    inner: H,
    recorder: K,
) -> ServedRun<H, K>
    requires sound { IsSound server.dependencies (length server.filters)
        (answers_of ⟦<ScriptService as ServiceWithDependents>⟧ server.services.items) }
    requires first { H.keeps inner [] 0 0 }
    ensures served { result.answer ≡ Ok outcomes.Served → Served (plan_of server.configuration server.options server.eager
        server.dependencies (answers_of ⟦<ScriptService as ServiceWithDependents>⟧ server.services.items)) result.host.entries }
    ensures script_served { (opt : Opt) (parts : Parts) → IsFilteredServerOf opt parts server.configuration server.options server.eager
        server.dependencies (length server.filters) (answers_of ⟦<ScriptService as ServiceWithDependents>⟧ server.services.items)
        → result.answer ≡ Ok outcomes.Served → Served (filtered_plan_of opt parts) result.host.entries }
    ensures judged { IsSaid (verdict_at ⟦<GatedFilter as ConnectionFilter>⟧.verdict server.filters) (plan_of server.configuration server.options
        server.eager server.dependencies (answers_of ⟦<ScriptService as ServiceWithDependents>⟧ server.services.items)) result.host.entries }
{
    let mut host = RecordedHost::new(inner, recorder);
    let answer = server.run(alloc, RunArgs { turns: u64::MAX }, &mut host);
    ServedRun { answer, host }
}
