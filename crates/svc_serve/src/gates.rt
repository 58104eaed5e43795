//! The gates of services: their rules are read from files before a generation begins.

ghost use Rattle.std.specs.Prelude.{◌≡◌, ◌+◌, ◌++◌, ◌∷◌, [], length, map, IfOk, OnOk};
ghost use Rattle.std.specs.Str.Lines.{lines};
ghost use Rattle.svc_host.specs.GatedFilters.{blocked_of};
ghost use Rattle.svc_serve.specs.Gates.{IsGateOf};
ghost use Rattle.svc_text.specs.declared.service.ServiceLine.{ServiceLine};

use crate::ending::Ending;
use crate::files::{bytes_at, refuse_unread};
use crate::refusal::Refusal;
use std::alloc::Global;
use std::str;
use svc_base::NoMemory;
use svc_gate::{Gate, GateError, read_rules};
use svc_host::GatedFilter;
use svc_streams::Filters;
use svc_text::ServiceLine;
use svc_work::{WorkFile, WorkLine, file_path};
use thiserror::Error;

/// Why bytes say no gate.
#[derive(Clone, Copy, Debug, Error)]
enum GateRefused {
    /// They aren't UTF-8.
    #[error("it isn't UTF-8")]
    NotText,
    /// A line is refused.
    #[error("{0}")]
    Rules(GateError),
    /// There was no memory.
    #[error("out of memory")]
    NoMemory,
}

impl From<NoMemory> for GateRefused {
    fn from(_: NoMemory) -> Self {
        GateRefused::NoMemory
    }
}

/// The gate of the rules that these bytes say.
fn gate_of(alloc: Global, bytes: &[u8]) -> Result<Gate, GateRefused>
    ensures { IfOk result (IsGateOf (lines bytes.now)) }
{
    let Ok(text) = str::from_utf8(bytes) else {
        return Err(GateRefused::NotText);
    };
    match read_rules(alloc, text) {
        Ok(rules) => Ok(Gate::new(alloc, &rules)?),
        Err(error) => Err(GateRefused::Rules(error)),
    }
}

/// What is wrong with the rules in the file at this path.
fn gate_cause(alloc: Global, path: &str, refused: GateRefused) -> Result<String, NoMemory> {
    Ok(format!(in alloc; "{path}: {refused}")?)
}

/// There is no gate.
fn refuse_gate(alloc: Global, path: &str, refused: GateRefused) -> Refusal {
    match refused {
        GateRefused::NoMemory | GateRefused::Rules(GateError::NoMemory) => Refusal::memory(),
        _ => Refusal::new(alloc, Ending::Gate, gate_cause(alloc, path, refused)),
    }
}

/// The gate of the rules in the file at this path.
fn gate_at(rt: &HostRuntime, path: &str) -> Result<Gate, Refusal> {
    let bytes = match bytes_at(rt, rt.alloc(), path) {
        Ok(bytes) => bytes,
        Err(unread) => return Err(refuse_unread(rt.alloc(), path, unread)),
    };
    match gate_of(rt.alloc(), bytes.as_slice()) {
        Ok(gate) => Ok(gate),
        Err(refused) => Err(refuse_gate(rt.alloc(), path, refused)),
    }
}

/// The gate of the service with this number, if these lines say that it has one.
fn gate(rt: &HostRuntime, works: &[WorkLine], service: usize) -> Result<Option<Gate>, Refusal> {
    match file_path(works, service, WorkFile::Gate) {
        Some(path) => Ok(Some(gate_at(rt, path.as_str())?)),
        None => Ok(None),
    }
}

/// Adds the filter of the service of a line, with this gate.
fn add_filter(
    alloc: Global,
    filters: &mut Filters<GatedFilter>,
    line: &ServiceLine,
    gate: Option<Gate>,
) -> Result<(), NoMemory>
    ensures count { OnOk result (length filters.new ≡ length filters.old + 1) }
    ensures blocked { OnOk result (map blocked_of filters.new ≡ map blocked_of filters.old ++ line.now.blocked ∷ []) }
{
    let filter = GatedFilter::new(alloc, line, gate)?;
    match filters.add(alloc, filter) {
        Ok(_) => Ok(()),
        Err(refused) => Err(refused.reason),
    }
}

/// A filter for each service, which refuses what the service blocks, and has the gate that these lines say.
pub(crate) fn filters_of(
    rt: &HostRuntime,
    services: &[ServiceLine],
    works: &[WorkLine],
) -> Result<Filters<GatedFilter>, Refusal>
    ensures count { IfOk result (λ filters. length filters ≡ length services.now) }
    ensures blocked { IfOk result (λ filters. map blocked_of filters ≡ map (λ (x : ServiceLine). x.blocked) services.now) }
{
    let alloc = rt.alloc();
    let mut filters = Filters::new(alloc);
    let mut service = 0;
    for line in services {
        let gate = gate(rt, works, service)?;
        if add_filter(alloc, &mut filters, line, gate).is_err() {
            return Err(Refusal::memory());
        }
        service += 1;
    }
    Ok(filters)
}
