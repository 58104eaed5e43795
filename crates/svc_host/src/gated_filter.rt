//! The filter of a service that is served: what its line blocks, and its gate, if it has one.

ghost use Rattle.std.specs.Prelude.{◌≡◌, ◌&&◌, not, IfOk};
ghost use Rattle.svc_text.specs.Filters.{is_blocked};
ghost use Rattle.svc_host.specs.GatedFilters.{lets_in};

use std::alloc::Global;
use svc_base::NoMemory;
use svc_gate::Gate;
use svc_socket::PeerAddr;
use svc_streams::ConnectionFilter;
use svc_text::{BlockedAddrs, ServiceLine};

/// Refuses the connections of the addresses that a service blocks, and those that its gate refuses.
#[derive(Drop)]
pub struct GatedFilter {
    blocked: BlockedAddrs,
    gate: Option<Gate>,
}

impl GatedFilter {
    /// The filter of the service of a line, with this gate.
    pub fn new(alloc: Global, line: &ServiceLine, gate: Option<Gate>) -> Result<Self, NoMemory>
        ensures { IfOk result (λ filter. filter ≡ record { blocked = line.now.blocked; gate = gate }) }
    {
        match BlockedAddrs::new(alloc, line.blocked.as_slice()) {
            Ok(blocked) => Ok(GatedFilter { blocked, gate }),
            Err(NoMemory) => Err(NoMemory),
        }
    }
}

impl ConnectionFilter for GatedFilter {
    ghost verdict = { λ f _ x. not (is_blocked f.blocked x) && lets_in f.gate x };

    fn should_accept(&mut self, peer: Option<&PeerAddr>) -> bool {
        let is_blocked = match peer {
            Some(peer) => self.blocked.has(Some(*peer)),
            None => self.blocked.has(None),
        };
        if is_blocked {
            return false;
        }
        match &mut self.gate {
            Some(gate) => gate.should_accept(peer),
            None => true,
        }
    }
}
