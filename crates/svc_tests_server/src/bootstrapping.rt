//! Bootstrapping by itself, and the service that bootstraps.

use crate::checking::{holds, same};
use std::collections::BTreeSet;
use std::process::Abort;
use std::string::ToString;
use svc_base::Text;
use svc_bootstrap::{Bootstrap, BootstrapService};
use svc_conf::{Opt, ServerConf};
use svc_fds::{AddFdRefused, Fd};
use svc_graph::Kind;
use svc_graph::services::{RunPoll, ServiceReadyNotifier, ServiceWithDependents, StartPoll};
use svc_record::{Actions, StepEnd};

/// Bootstrapping by itself, with or without an older server to take over from.
fn bootstrapping<R: Abort + AllocGlobal>(rt: &R, upgrade: bool) -> Bootstrap {
    let mut opt = Opt::default();
    opt.upgrade = upgrade;
    let conf = ServerConf::default(rt.alloc()).expect(rt, "a configuration");
    Bootstrap::new(rt.alloc(), Some(&opt), &conf)
}

/// Bootstraps twice, which tells this.
fn tells<R: Abort + AllocGlobal>(rt: &R, mut bootstrap: Bootstrap, wanted: &[&str]) {
    let mut actions = Actions::new(rt.alloc());
    for _ in 0..2 {
        let end = bootstrap.bootstrap(rt.alloc(), &mut actions);
        assert!(rt; matches!(end, Ok(StepEnd::On)));
    }
    assert_eq!(rt; actions.as_slice().len(), wanted.len());
    for (action, line) in actions.as_slice().iter().zip(wanted.iter()) {
        let told = action.to_string(rt.alloc()).expect(rt, "a text");
        assert_eq!(rt; told.as_str(), *line);
    }
}

#[test]
fn it_bootstraps_once(rt: HostRuntime) {
    let rt = &rt;
    let receives = ["phase Bootstrap 0", "openreceiver", "tryreceive"];
    tells(rt, bootstrapping(rt, true), &receives);
    let mut child = bootstrapping(rt, false);
    child.set_notify_parent_pid(7);
    let notifies = [
        "phase Bootstrap 0",
        "notifyparent",
        "phase BootstrapComplete 0",
    ];
    tells(rt, child, &notifies);
}

/// Puts a descriptor into the table.
fn put<R: Abort + AllocGlobal>(rt: &R, bootstrap: &mut Bootstrap, bind: &str, number: u64) {
    let bind = Text::new(rt.alloc(), bind).expect(rt, "an address");
    match bootstrap.fds_mut().add(rt.alloc(), bind, Fd::new(number)) {
        Ok(None) => {}
        Ok(Some(fd)) => {
            let _ = fd.close();
        }
        Err(refused) => {
            let AddFdRefused {
                reason: _,
                bind: _,
                fd,
            } = refused;
            let _ = fd.close();
        }
    }
}

/// Expects one address, and answers the last of what comes back.
fn pruned<R: Abort + AllocGlobal>(rt: &R, bootstrap: &mut Bootstrap, bind: &str) -> Option<u64> {
    let mut expected = BTreeSet::new(rt.alloc());
    let bind = Text::new(rt.alloc(), bind).expect(rt, "an address");
    assert!(rt; expected.insert(bind).is_ok());
    let mut last = None;
    if let Ok(mut out) = bootstrap.set_expected_listen_addrs(rt.alloc(), expected) {
        while let Some((_, fd)) = out.pop() {
            last = Some(fd.close());
        }
        out.destroy_empty();
    }
    last
}

#[test]
fn what_is_not_expected_comes_back(rt: HostRuntime) {
    let rt = &rt;
    let mut bootstrap = bootstrapping(rt, true);
    put(rt, &mut bootstrap, "1.1.1.1:80", 3);
    put(rt, &mut bootstrap, "127.0.0.1:9090", 4);
    same(rt, pruned(rt, &mut bootstrap, "1.1.1.1:80"), Some(4));
    holds(rt, bootstrap.get_fds().get("1.1.1.1:80").is_some());
    holds(rt, bootstrap.get_fds().get("127.0.0.1:9090").is_none());
}

#[test]
fn the_service_bootstraps(rt: HostRuntime) {
    let rt = &rt;
    let mut service = BootstrapService::new();
    same(rt, service.name(), "BG Bootstrap Service");
    same(rt, service.kind(), Kind::Bootstrap);
    same(rt, service.threads(), Some(1));
    let addresses = service.listen_addresses(rt.alloc()).expect(rt, "a list");
    let addresses = addresses.expect(rt, "declared addresses");
    holds(rt, addresses.is_empty());
    let configs = service.listener_configs(rt.alloc()).expect(rt, "a list");
    holds(rt, configs.is_empty());
    // It has no work of its own: the core tells what bootstrapping tells.
    let start = service.poll_start(false, 1, ServiceReadyNotifier::new(0));
    holds(rt, matches!(start, StartPoll::Ended) && start.ready());
    for shutdown in [false, true] {
        same(rt, service.poll_run(shutdown), RunPoll::Ended);
    }
}
