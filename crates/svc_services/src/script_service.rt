//! A service of a script.

ghost use Rattle.std.specs.Prelude.{◌≡◌, ◌++◌, map, Some, None, IfOk, OnOk, if◌then◌else◌};
ghost use Rattle.svc_text.specs.ScriptPlans.{endpoint_of};
ghost use Rattle.svc_text.specs.declared.service.EndpointLine.{EndpointLine};

use std::alloc::Global;
use svc_base::{Items, NoMemory, Reserved, Text, Texts, copy_items};
use svc_graph::services::{RunPoll, ServiceReadyNotifier, ServiceWithDependents, StartPoll};
use svc_graph::{EndpointPlan, Kind};
use svc_text::{EndpointLine, ServiceLine};

/// A service of a script. It does nothing by itself: its word and its end are items of the script.
#[derive(Drop)]
pub struct ScriptService {
    name: Text,
    kind: Kind,
    undeclared: bool,
    claims: Texts,
    endpoints: Items<EndpointLine>,
    /// The number of the filter of its endpoints.
    filter: Option<u32>,
}

/// The endpoint that a line names, with this filter.
fn endpoint_of(
    alloc: Global,
    filter: Option<u32>,
    line: &EndpointLine,
) -> Result<EndpointPlan, NoMemory>
    ensures { IfOk result (λ endpoint. endpoint ≡ endpoint_of filter line.now) }
{
    Ok(EndpointPlan {
        address: line.address.copy(alloc)?,
        unix: line.unix,
        options: copy_items(alloc, line.options.as_slice())?,
        filter,
    })
}

/// The endpoints that the lines name, in order, with this filter.
fn endpoints_of(
    alloc: Global,
    filter: Option<u32>,
    lines: &[EndpointLine],
) -> Result<Vec<EndpointPlan>, NoMemory>
    ensures { IfOk result (λ endpoints. endpoints.items ≡ map (endpoint_of filter) lines.now) }
{
    let mut endpoints = Vec::with_capacity(alloc, lines.len())?;
    for line in lines {
        endpoints.push(endpoint_of(alloc, filter, line)?)?;
    }
    Ok(endpoints)
}

/// Their addresses, in order.
fn addresses_of(alloc: Global, lines: &[EndpointLine]) -> Result<Vec<Text>, NoMemory>
    ensures { IfOk result (λ addresses. addresses.items ≡ map (λ (e : EndpointLine). e.address) lines.now) }
{
    let mut addresses = Vec::with_capacity(alloc, lines.len())?;
    for line in lines {
        addresses.push(line.address.copy(alloc)?)?;
    }
    Ok(addresses)
}

/// Adds the addresses that a line declares beside those of its endpoints.
fn add_claims(alloc: Global, addresses: &mut Vec<Text>, claims: &[Text]) -> Result<(), NoMemory>
    ensures { OnOk result (addresses.new.items ≡ addresses.old.items ++ claims.now) }
{
    for claim in claims {
        addresses.push(claim.copy(alloc)?)?;
    }
    Ok(())
}

/// The texts once more.
fn copy_texts(alloc: Global, texts: &[Text]) -> Result<Texts, NoMemory>
    ensures { IfOk result (λ copy. copy ≡ texts.now) }
{
    let mut copy = Vec::with_capacity(alloc, texts.len())?;
    for text in texts {
        copy.push(text.copy(alloc)?)?;
    }
    Ok(Reserved::of(copy).into_items())
}

/// The lines once more.
fn copy_of(alloc: Global, lines: &[EndpointLine]) -> Result<Items<EndpointLine>, NoMemory>
    ensures { IfOk result (λ copy. copy ≡ lines.now) }
{
    let mut copy = Vec::with_capacity(alloc, lines.len())?;
    for line in lines {
        copy.push(EndpointLine {
            address: line.address.copy(alloc)?,
            unix: line.unix,
            options: copy_items(alloc, line.options.as_slice())?,
        })?;
    }
    Ok(Reserved::of(copy).into_items())
}

impl ScriptService {
    /// The service that a line says, whose endpoints have this filter.
    pub(crate) fn new(
        alloc: Global,
        line: &ServiceLine,
        filter: Option<u32>,
    ) -> Result<Self, NoMemory>
        ensures { IfOk result (λ service. service ≡ record {
          name = line.now.name;
          kind = line.now.kind;
          undeclared = line.now.undeclared;
          claims = line.now.claims;
          endpoints = line.now.endpoints;
          filter = filter;
        }) }
    {
        Ok(ScriptService {
            name: line.name.copy(alloc)?,
            kind: line.kind,
            undeclared: line.undeclared,
            claims: copy_texts(alloc, line.claims.as_slice())?,
            endpoints: copy_of(alloc, line.endpoints.as_slice())?,
            filter,
        })
    }
}

impl ServiceWithDependents for ScriptService {
    ghost named = { λ s. s.name };

    ghost of_kind = { λ s. s.kind };

    ghost declares = { λ s. if s.undeclared then None else Some (map (λ (e : EndpointLine). e.address) s.endpoints ++ s.claims) };

    ghost configures = { λ s. map (endpoint_of s.filter) s.endpoints };

    fn poll_start(
        &mut self,
        _shutdown: bool,
        _listeners_per_fd: u64,
        notifier: ServiceReadyNotifier,
    ) -> StartPoll {
        match self.kind {
            Kind::Notifying => StartPoll::Waiting(notifier),
            Kind::Plain | Kind::Bootstrap => {
                notifier.notify_ready();
                StartPoll::Running
            }
        }
    }

    fn poll_run(&mut self, shutdown: bool) -> RunPoll {
        if shutdown {
            RunPoll::Ended
        } else {
            RunPoll::Pending
        }
    }

    fn name(&self) -> &str {
        self.name.as_str()
    }

    fn listen_addresses(&self, alloc: Global) -> Result<Option<Vec<Text>>, NoMemory> {
        if self.undeclared {
            return Ok(None);
        }
        let mut addresses = addresses_of(alloc, self.endpoints.as_slice())?;
        add_claims(alloc, &mut addresses, self.claims.as_slice())?;
        Ok(Some(addresses))
    }

    fn kind(&self) -> Kind {
        self.kind
    }

    fn listener_configs(&self, alloc: Global) -> Result<Vec<EndpointPlan>, NoMemory> {
        endpoints_of(alloc, self.filter, self.endpoints.as_slice())
    }
}
