//! The settings of an endpoint's connections.

ghost use Rattle.std.specs.Prelude.{◌≡◌, ◌<◌, ◌++◌, length, IfOk, OnOk};
ghost use Rattle.std.specs.Option.{option_to_list};
ghost use Rattle.svc_record.specs.Plans.{service_count, endpoints};
ghost use Rattle.svc_record.specs.Connections.{first_of, settings_list};
ghost use Rattle.svc_connections.specs.ConnectionsEffects.{is_of_sort, settings_for};

use std::alloc::Global;
use svc_base::{NoMemory, Setting, Settings, copy_items};
use svc_record::Plan;

/// The sorts of settings that an endpoint's options give.
#[derive(Clone, Copy, PartialEq, Eq, Debug)]
enum Sort {
    KeepAlive,
    Dscp,
    SendBuffer,
    ReceiveBuffer,
}

impl Sort {
    /// The setting is of this sort.
    fn has(self, setting: &Setting) -> bool
        ensures { result ≡ is_of_sort self setting.now }
    {
        match self {
            Sort::KeepAlive => matches!(setting, Setting::KeepAlive(_)),
            Sort::Dscp => matches!(setting, Setting::Dscp(_)),
            Sort::SendBuffer => matches!(setting, Setting::SndBuf(_)),
            Sort::ReceiveBuffer => matches!(setting, Setting::RcvBuf(_)),
        }
    }

    /// The first option of this sort.
    fn first_of(self, options: &[Setting]) -> Option<Setting>
        ensures { option_to_list result ≡ first_of (is_of_sort self) options.now }
    {
        for option in options {
            if self.has(option) {
                return Some(*option);
            }
        }
        None
    }
}

/// Appends the setting, if there is one.
fn push(alloc: Global, list: &mut Settings, setting: Option<Setting>) -> Result<(), NoMemory>
    ensures { OnOk result (list.new ≡ list.old ++ option_to_list setting) }
{
    let Some(setting) = setting else {
        return Ok(());
    };
    match list.push(alloc, setting) {
        Ok(()) => Ok(()),
        Err(refused) => Err(refused.reason),
    }
}

/// The settings of the connections of an endpoint with these options, in exactly the memory that they take.
fn settings_for(alloc: Global, unix: bool, options: &[Setting]) -> Result<Settings, NoMemory>
    ensures { IfOk result (λ list. list ≡ settings_for unix options.now) }
{
    if unix || options.is_empty() {
        return copy_items(alloc, &[Setting::NoDelay]);
    }
    let mut list = Settings::new(alloc);
    push(alloc, &mut list, Some(Setting::NoDelay))?;
    push(alloc, &mut list, Sort::KeepAlive.first_of(options))?;
    push(alloc, &mut list, Sort::Dscp.first_of(options))?;
    push(alloc, &mut list, Sort::SendBuffer.first_of(options))?;
    push(alloc, &mut list, Sort::ReceiveBuffer.first_of(options))?;
    copy_items(alloc, list.as_slice())
}

/// The settings of the connections of the service's endpoint.
pub fn settings_of(alloc: Global, plan: &Plan, s: u32, i: u32) -> Result<Settings, NoMemory>
    requires service { s < service_count plan.now }
    requires endpoint { i < length (endpoints plan.now s) }
    ensures { IfOk result (λ list. list ≡ settings_list plan.now s i) }
{
    let endpoint = &plan.services.as_slice()[s as usize].endpoints.as_slice()[i as usize];
    settings_for(alloc, endpoint.unix, endpoint.options.as_slice())
}
