//! The plan that a script's services are run by.

ghost use Rattle.std.specs.Prelude.{◌<◌};
ghost use Rattle.svc_conf.specs.declared.server.configuration.Opt.{Opt};
ghost use Rattle.svc_record.specs.Validity.{IsValid};
ghost use Rattle.svc_text.specs.Accepted.{AreAccepted};
ghost use Rattle.svc_text.specs.Dependencies.{RefusesNone};
ghost use Rattle.svc_text.specs.Script.{Parts};
ghost use Rattle.svc_text.specs.ScriptPlans.{plan_of};

/// A server can be run by the plan of a script, where each service is accepted, none is refused, and
/// the configuration has tasks that accept.
pub fn accepted_plan()
    ensures { (opt : Opt) (parts : Parts) → AreAccepted parts.services → RefusesNone parts.services
        → 0 < parts.conf.listener_tasks_per_fd → IsValid (plan_of opt parts) }
{}
