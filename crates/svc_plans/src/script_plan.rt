//! The plan that a script's services are run by.

ghost use Rattle.std.specs.Prelude.{◌≡◌, Ok, length, IfOk, IfErr, OnOk};
ghost use Rattle.svc_conf.specs.Configuration.{judged};
ghost use Rattle.svc_conf.specs.ConfigurationText.{merged};
ghost use Rattle.svc_text.specs.Accepted.{AreAccepted};
ghost use Rattle.svc_text.specs.Dependencies.{RefusesNone};
ghost use Rattle.svc_text.specs.Outcome.{parts_of};
ghost use Rattle.svc_text.specs.ScriptPlans.{plan_of};
ghost use Rattle.svc_plans.specs.Planning.{Refuses};

use crate::plan_parts::{first_refused, service_plans, settled};
use std::alloc::Global;
use std::mem::drop;
use svc_base::NoMemory;
use svc_conf::{Key, Opt};
use svc_record::Plan;
use svc_text::Script;
use thiserror::Error;

/// Why a script has no plan.
#[derive(Clone, Copy, Debug, PartialEq, Eq, Error)]
pub enum PlanError {
    /// The service in the line with this number, from 1, is the first whose dependencies are refused.
    #[error("the dependencies in line {0} are refused")]
    Line(u64),
    /// No server can run with the configuration's value of this key.
    #[error("the configuration is refused")]
    Config(Key),
    /// There was no memory.
    #[error("out of memory")]
    NoMemory,
}

/// The plan of a script whose dependencies are accepted.
fn plan_with(alloc: Global, opt: &Opt, script: Script) -> Result<Plan, PlanError>
    requires { AreAccepted script.services.items }
    ensures plan { IfOk result (λ plan. plan ≡ plan_of opt.now (parts_of script)) }
    ensures judged { OnOk result (judged (merged opt.now script.conf) ≡ Ok tt) }
    ensures refused { IfErr result (Refuses opt.now script) }
{
    let Script {
        mut conf,
        services,
        eager,
        items,
        lines,
    } = script;
    drop(items);
    drop(lines);
    conf.merge_with_opt(opt);
    if let Err(key) = conf.validate() {
        drop(conf);
        drop(services);
        return Err(PlanError::Config(key));
    }
    match service_plans(alloc, services.as_slice()) {
        Ok(plans) => {
            let plan = settled(&conf, opt, eager, plans);
            drop(conf);
            drop(services);
            Ok(plan)
        }
        Err(NoMemory) => {
            drop(conf);
            drop(services);
            Err(PlanError::NoMemory)
        }
    }
}

/// The plan that a script's services are run by with these flags; its items aren't looked at. `Line` with the
/// line of the first service whose dependencies are refused, and `Config` with the key at which the
/// configuration is. `NoMemory` where there is none for the plan.
pub fn plan_of_script(alloc: Global, opt: &Opt, script: Script) -> Result<Plan, PlanError>
    requires accepted { AreAccepted script.services.items }
    requires lines { length script.lines.items ≡ length script.services.items }
    ensures plan { IfOk result (λ plan. plan ≡ plan_of opt.now (parts_of script)) }
    ensures edges { OnOk result (RefusesNone script.services.items) }
    ensures judged { OnOk result (judged (merged opt.now script.conf) ≡ Ok tt) }
    ensures refused { IfErr result (Refuses opt.now script) }
{
    match first_refused(alloc, script.services.as_slice()) {
        Ok(None) => plan_with(alloc, opt, script),
        Ok(Some(k)) => {
            let line = script.lines[k] as u64;
            drop(script);
            Err(PlanError::Line(line))
        }
        Err(NoMemory) => {
            drop(script);
            Err(PlanError::NoMemory)
        }
    }
}
