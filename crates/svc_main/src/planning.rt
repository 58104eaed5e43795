//! What the server of a script's services is run by, for a program that steps its core itself.

ghost use Rattle.std.specs.Prelude.{◌≡◌, ℕ, None, length, slice_index, IfOk, IfErr, OnOk};
ghost use Rattle.svc_conf.specs.Configuration.{judged};
ghost use Rattle.svc_conf.specs.ConfigurationText.{merged};
ghost use Rattle.svc_record.specs.Validity.{IsValid};
ghost use Rattle.svc_text.specs.Accepted.{AreAccepted};
ghost use Rattle.svc_text.specs.Dependencies.{RefusesNone, RefusesAt};
ghost use Rattle.svc_text.specs.Outcome.{parts_of};
ghost use Rattle.svc_text.specs.ScriptPlans.{plan_of};
ghost use Rattle.svc_text.specs.declared.parsing.ScriptError.TheVariants as errors;
ghost use Rattle.svc_main.specs.Planned.{IsRefused};

use std::alloc::Global;
use std::mem::drop;
use svc_base::NoMemory;
use svc_conf::{Key, Opt, ServerConf};
use svc_record::Plan;
use svc_services::{configured, server_of_script};
use svc_text::{Script, ScriptError, ServiceLine};

/// What the server of a script's services is run by.
#[derive(Drop)]
pub struct PlannedScript {
    /// A server can be run by it, where the configuration isn't refused.
    pub plan: Plan,
    /// The services' lines.
    pub services: Vec<ServiceLine>,
    /// The key for which the configuration is refused, if it is.
    pub refused: Option<Key>,
}

/// The key for which a configuration is refused, if it is.
fn refused_key(conf: &ServerConf) -> Option<Key>
    ensures { IsRefused result (judged conf.now) }
{
    match conf.validate() {
        Ok(()) => None,
        Err(key) => Some(key),
    }
}

/// What the server of a script's services is run by with these flags. `Line` with the line of the first
/// service whose dependencies are refused.
pub fn plan_script(alloc: Global, opt: Opt, script: Script) -> Result<PlannedScript, ScriptError>
    requires accepted { AreAccepted script.services.items }
    requires lines { length script.lines.items ≡ length script.services.items }
    ensures plan { IfOk result (λ planned. planned.plan ≡ plan_of opt (parts_of script)) }
    ensures services { IfOk result (λ planned. planned.services.items ≡ script.services.items) }
    ensures judged { IfOk result (λ planned. IsRefused planned.refused (judged (merged opt script.conf))) }
    ensures valid { IfOk result (λ planned. planned.refused ≡ None → IsValid planned.plan) }
    ensures edges { OnOk result (RefusesNone script.services.items) }
    ensures refused { IfErr result (λ error. (n : ℕ) → error ≡ errors.Line n
        → (k : ℕ) × (RefusesAt script.services.items k × (n ≡ slice_index script.lines.items k))) }
{
    match server_of_script(alloc, &script) {
        Ok(server) => {
            let Script {
                conf,
                services,
                eager,
                items,
                lines,
            } = script;
            drop(items);
            drop(lines);
            let server = configured(server, conf, opt, eager);
            let refused = refused_key(&server.configuration);
            match server.plan(alloc) {
                Ok(plan) => {
                    drop(server);
                    Ok(PlannedScript {
                        plan,
                        services,
                        refused,
                    })
                }
                Err(NoMemory) => {
                    drop(server);
                    drop(services);
                    Err(ScriptError::NoMemory)
                }
            }
        }
        Err(error) => {
            drop(opt);
            drop(script);
            Err(error)
        }
    }
}
