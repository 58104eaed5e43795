//! A session is made of a script.

ghost use Rattle.std.specs.Prelude.{◌≡◌, IfOk};
ghost use Rattle.svc_record.specs.Validity.{IsValid};
ghost use Rattle.svc_text.specs.Accepted.{AreAccepted};
ghost use Rattle.svc_text.specs.Dependencies.{RefusesNone};
ghost use Rattle.svc_text.specs.Outcome.{parts_of};
ghost use Rattle.svc_c.specs.Making.{flags_of, IsFirst, IsConfigured, IsMade};

use crate::session::Session;
use std::alloc::Global;
use std::mem::drop;
use svc_base::NoMemory;
use svc_conf::{Key, Opt};
use svc_core::Core;
use svc_plans::{first_refused, service_plans, settled};
use svc_record::Plan;
use svc_text::{Script, ScriptError, ServiceLine, parse};

/// Why no session was made.
#[derive(Clone, Copy, Debug)]
pub(crate) enum MakeError {
    NoMemory,
    /// The script's first refused line; 0 where it is too long.
    Line(u64),
    /// The configuration is refused at this key.
    Config(Key),
}

impl From<NoMemory> for MakeError {
    ghost use Rattle.std.specs.Prelude.{◌≡◌};
    ghost use Rattle.svc_c.specs.declared.making.MakeError.TheVariants as errors;

    ghost from_gives = { λ _ error. error ≡ errors.NoMemory };

    fn from(_: NoMemory) -> Self {
        MakeError::NoMemory
    }
}

/// The flags of a command line.
pub(crate) fn flags(upgrade: bool, daemon: bool, test: bool) -> Opt
    ensures { result ≡ flags_of upgrade daemon test }
{
    Opt {
        upgrade,
        daemon,
        nocapture: false,
        test,
        conf: None,
    }
}

/// The core of a plan, in a session that hasn't begun.
fn session_of(
    alloc: Global,
    plan: Plan,
    services: Vec<ServiceLine>,
) -> Result<Box<Session>, NoMemory>
    requires { IsValid plan }
    ensures { IfOk result (λ s. IsFirst plan services.items s.value) }
{
    match Core::new(alloc, plan) {
        Ok(core) => match Box::new(alloc, Session::new(alloc, core, services)) {
            Ok(session) => Ok(session),
            Err(refused) => {
                drop(refused);
                Err(NoMemory)
            }
        },
        Err(NoMemory) => {
            drop(services);
            Err(NoMemory)
        }
    }
}

/// The session of a script whose services and dependencies are accepted.
fn session_with(alloc: Global, opt: &Opt, script: Script) -> Result<Box<Session>, MakeError>
    requires accepted { AreAccepted script.services.items }
    requires edges { RefusesNone script.services.items }
    ensures { IsConfigured opt.now (parts_of script) result }
{
    let Script {
        mut conf,
        services,
        eager,
        items,
        lines,
    } = script;
    drop(items);
    drop(lines);
    conf.merge_with_opt(opt);
    if let Err(key) = conf.validate() {
        drop(conf);
        drop(services);
        return Err(MakeError::Config(key));
    }
    match service_plans(alloc, services.as_slice()) {
        Ok(plans) => {
            let plan = settled(&conf, opt, eager, plans);
            drop(conf);
            Ok(session_of(alloc, plan, services)?)
        }
        Err(NoMemory) => {
            drop(conf);
            drop(services);
            Err(MakeError::NoMemory)
        }
    }
}

/// The session of a script with these flags.
pub(crate) fn make(alloc: Global, opt: Opt, bytes: &[u8]) -> Result<Box<Session>, MakeError>
    ensures { IsMade opt bytes.now result }
{
    let script = match parse(alloc, bytes) {
        Ok(script) => script,
        Err(ScriptError::Line(n)) => return Err(MakeError::Line(n as u64)),
        Err(ScriptError::NoMemory) => return Err(MakeError::NoMemory),
    };
    match first_refused(alloc, script.services.as_slice()) {
        Ok(None) => session_with(alloc, &opt, script),
        Ok(Some(k)) => {
            let line = script.lines[k] as u64;
            drop(script);
            Err(MakeError::Line(line))
        }
        Err(NoMemory) => {
            drop(script);
            Err(MakeError::NoMemory)
        }
    }
}
