//! Actions are told to a host; before a start the service is handed over.

ghost use Rattle.std.specs.Prelude.{◌≡◌, ◌+◌, ◌*◌, ◌≤◌, ◌∷◌, [], length};
ghost use Rattle.svc_base.specs.Items.{list_of};
ghost use Rattle.svc_record.specs.declared.plan.Plan.{Plan};
ghost use Rattle.svc_record.specs.declared.action.Action.TheVariants.{Start};
ghost use Rattle.svc_record.specs.declared.entry.Entry.TheVariants.{Told};
ghost use Rattle.svc_record.specs.Record.{Record, tell};
ghost use Rattle.svc_server.specs.Handing.{names_left, Hands, DueStart, DueStarts, MayHand, MayHandAll};

use crate::host::Host;
use crate::pending_services::PendingServices;
use svc_graph::services::ServiceWithDependents;
use svc_record::{Action, Actions, Plan};

/// Hands the service over, and tells its start.
fn start<B: ServiceWithDependents, H: Host<Service = B>>(
    plan: &Plan,
    pending: &mut PendingServices<B>,
    s: u32,
    host: &mut H,
)
    requires room { 2 ≤ H.spare host.old }
    requires may { MayHand (names_left B.named pending.old) (H.account host.old) (Start s) }
    ensures hands { (p : Plan) (q : Record) → Hands (names_left B.named pending.old) (H.account host.old) p q → DueStart p q (Start s)
        → Hands (names_left B.named pending.new) (H.account host.new) p (Told (Start s) ∷ q) }
    ensures room { H.spare host.old ≤ H.spare host.new + 2 }
    ensures counts { H.counts host.new ≡ H.counts host.old }
    ensures ahead { H.ahead host.new ≡ H.ahead host.old }
    ensures made { H.made_of host.new ≡ H.made_of host.old }
{
    match pending.take(plan, s) {
        Some(service) => {
            host.hand(s, service);
            host.tell(Action::Start(s));
        }
        None => unreachable!(),
    }
}

/// Tells an action; a service that starts is handed over before.
fn tell_one<B: ServiceWithDependents, H: Host<Service = B>>(
    plan: &Plan,
    pending: &mut PendingServices<B>,
    action: Action,
    host: &mut H,
)
    requires room { 2 ≤ H.spare host.old }
    requires may { MayHand (names_left B.named pending.old) (H.account host.old) action }
    ensures hands { (p : Plan) (q : Record) → Hands (names_left B.named pending.old) (H.account host.old) p q → DueStart p q action
        → Hands (names_left B.named pending.new) (H.account host.new) p (Told action ∷ q) }
    ensures room { H.spare host.old ≤ H.spare host.new + 2 }
    ensures counts { H.counts host.new ≡ H.counts host.old }
    ensures ahead { H.ahead host.new ≡ H.ahead host.old }
    ensures made { H.made_of host.new ≡ H.made_of host.old }
{
    pending.note(&action);
    match action {
        Action::Start(s) => start(plan, pending, s, host),
        other => host.tell(other),
    }
}

/// Tells the actions, in order, and leaves the list empty; each service that starts is handed over
/// right before its start.
pub(crate) fn tell_all<B: ServiceWithDependents, H: Host<Service = B>>(
    plan: &Plan,
    pending: &mut PendingServices<B>,
    actions: &mut Actions,
    host: &mut H,
)
    requires room { 2 * length (list_of actions.old) ≤ H.spare host.old }
    requires may { MayHandAll (names_left B.named pending.old) (H.account host.old) (list_of actions.old) }
    ensures hands { (p : Plan) (q : Record) → Hands (names_left B.named pending.old) (H.account host.old) p q → DueStarts p q (list_of actions.old)
        → Hands (names_left B.named pending.new) (H.account host.new) p (tell q (list_of actions.old)) }
    ensures told { list_of actions.new ≡ [] }
    ensures room { H.spare host.old ≤ H.spare host.new + 2 * length (list_of actions.old) }
    ensures counts { H.counts host.new ≡ H.counts host.old }
    ensures ahead { H.ahead host.new ≡ H.ahead host.old }
    ensures made { H.made_of host.new ≡ H.made_of host.old }
{
    actions.reverse();
    while let Some(action) = actions.pop_last() {
        tell_one(plan, pending, action, host);
    }
}
