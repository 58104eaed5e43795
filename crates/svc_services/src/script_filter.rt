//! The filter of a script's service that blocks addresses.

ghost use Rattle.std.specs.Prelude.{◌≡◌, ◌++◌, ◌∷◌, [], map, not, IfOk, OnOk};
ghost use Rattle.svc_text.specs.Filters.{is_blocked, blocked_lists};
ghost use Rattle.svc_services.specs.BlockedLists.{blocked_by};

use std::alloc::Global;
use svc_base::NoMemory;
use svc_socket::PeerAddr;
use svc_streams::{ConnectionFilter, Filters};
use svc_text::{BlockedAddrs, ServiceLine, blocks};

/// A filter that refuses the connections of these addresses, and takes all others.
#[derive(Drop)]
pub struct ScriptFilter {
    /// The addresses that it refuses.
    pub blocked: BlockedAddrs,
}

impl ConnectionFilter for ScriptFilter {
    ghost verdict = { λ f asked x. not (is_blocked f.blocked x) };

    fn should_accept(&mut self, peer: Option<&PeerAddr>) -> bool {
        match peer {
            Some(peer) => !self.blocked.has(Some(*peer)),
            None => !self.blocked.has(None),
        }
    }
}

/// Adds the filter of a service, if it blocks addresses.
fn add_filter(
    alloc: Global,
    filters: &mut Filters<ScriptFilter>,
    line: &ServiceLine,
) -> Result<(), NoMemory>
    ensures { OnOk result (map blocked_by filters.new ≡ map blocked_by filters.old ++ blocked_lists (line.now ∷ [])) }
{
    if !blocks(line) {
        return Ok(());
    }
    let filter = ScriptFilter {
        blocked: BlockedAddrs::new(alloc, line.blocked.as_slice())?,
    };
    match filters.add(alloc, filter) {
        Ok(_) => Ok(()),
        Err(refused) => Err(refused.reason),
    }
}

/// A filter for each service that blocks addresses, in their order.
pub(crate) fn filters_of(
    alloc: Global,
    lines: &[ServiceLine],
) -> Result<Filters<ScriptFilter>, NoMemory>
    ensures { IfOk result (λ filters. map blocked_by filters ≡ blocked_lists lines.now) }
{
    let mut filters = Filters::new(alloc);
    for line in lines {
        add_filter(alloc, &mut filters, line)?;
    }
    Ok(filters)
}
