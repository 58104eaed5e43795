//! Endpoints are bound or adopted.

use crate::checking::{holds, same};
use crate::endpoints::{tcp, text};
use std::process::Abort;
use svc_fds::{AddFdRefused, Fd, Fds};
use svc_listen::{
    BindErrorKind, Binder, BinderCall, ListenError, Listener, ListenerEndpoint,
    ListenerEndpointBuilder, MemoryBinder, ServerAddress, SteadyBinder,
};

/// A table with this entry.
fn table<R: Abort + AllocGlobal>(rt: &R, bind: &str, number: u64) -> Fds {
    let mut table = Fds::new(rt.alloc());
    match table.add(rt.alloc(), text(rt, bind), Fd::new(number)) {
        Ok(None) => {}
        Ok(Some(held)) => {
            let _ = held.close();
        }
        Err(refused) => {
            let AddFdRefused {
                reason: _,
                bind: _,
                fd,
            } = refused;
            let _ = fd.close();
        }
    }
    table
}

/// Spends a table, and answers its addresses and its numbers.
fn spent<R: Abort + AllocGlobal>(rt: &R, mut table: Fds) -> String {
    let mut shown = String::new(rt.alloc());
    while let Some((bind, fd)) = table.pop_first() {
        let entry = format!(in rt.alloc(); "{} {};", bind.as_str(), fd.close());
        let entry = entry.expect(rt, "a text");
        assert!(rt; shown.push_str(entry.as_str()).is_ok());
    }
    table.finish();
    shown
}

fn binder<R: Abort + AllocGlobal>(rt: &R, failing: &[u64]) -> MemoryBinder {
    let failing = failing.to_vec(rt.alloc()).expect(rt, "numbers");
    MemoryBinder::new(rt.alloc(), 100, 7, failing).expect(rt, "a binder")
}

/// What an endpoint had: its number, which of its own it closed, and its listener.
#[derive(Clone, Copy, PartialEq, Eq, Debug)]
struct Had {
    fd: u64,
    own: Option<u64>,
    listener: Listener,
}

/// Listens, and closes the endpoint.
fn listened<R: Abort + AllocGlobal, B: Binder>(
    rt: &R,
    addr: ServerAddress,
    table: Option<&mut Fds>,
    binder: &mut B,
) -> Result<Had, ListenError> {
    let mut builder = ListenerEndpoint::builder();
    builder.listen_addr(addr);
    match builder.listen(rt.alloc(), table, binder) {
        Ok(endpoint) => {
            let fd = endpoint.fd();
            let listener = endpoint.listener();
            let own = endpoint.close().map(|fd| fd.close());
            Ok(Had { fd, own, listener })
        }
        Err(refused) => Err(refused.reason),
    }
}

/// How often an object was asked to bind, and to rest a second.
fn counts(binder: &MemoryBinder) -> (u64, u64) {
    let mut binds = 0u64;
    let mut rests = 0u64;
    for call in binder.calls.told().unwrap_or(&[]) {
        match call {
            BinderCall::Bind(_, _) => binds = binds.saturating_add(1),
            BinderCall::Rest(1000) => rests = rests.saturating_add(1),
            BinderCall::Adopt(_, _, _) | BinderCall::Rest(_) => {}
        }
    }
    (binds, rests)
}

#[test]
fn a_held_address_is_adopted(rt: HostRuntime) {
    let rt = &rt;
    let mut table = table(rt, "X", 40);
    let mut binder = binder(rt, &[1]);
    let had = Had {
        fd: 40,
        own: None,
        listener: Listener::Tcp(40),
    };
    for wanted in [
        Ok(had),
        Err(ListenError::BindError(BindErrorKind::AdoptFailed)),
    ] {
        let got = listened(rt, tcp(rt, "X"), Some(&mut table), &mut binder);
        same(rt, got, wanted);
    }
    same(rt, counts(&binder), (0, 0));
    same(rt, binder.faults(), 1);
    same(rt, spent(rt, table).as_str(), "X 40;");
}

#[test]
fn a_new_descriptor_enters_the_table(rt: HostRuntime) {
    let rt = &rt;
    let mut table = table(rt, "X", 40);
    let mut binder = binder(rt, &[]);
    let unix = ServerAddress::Uds(text(rt, "/tmp/u"), None);
    let got = listened(rt, unix, Some(&mut table), &mut binder);
    let had = Had {
        fd: 7,
        own: None,
        listener: Listener::Unix(7),
    };
    same(rt, got, Ok(had));
    let got = listened(rt, tcp(rt, "Y"), None, &mut binder);
    let had = Had {
        fd: 8,
        own: Some(8),
        listener: Listener::Tcp(8),
    };
    same(rt, got, Ok(had));
    same(rt, spent(rt, table).as_str(), "/tmp/u 7;X 40;");
}

#[test]
fn an_address_in_use_is_tried_thirty_times(rt: HostRuntime) {
    let rt = &rt;
    let in_use = ListenError::BindError(BindErrorKind::StillInUse);
    for (busy, refused) in [(29, None), (30, Some(in_use))] {
        let mut binder = binder(rt, &[]);
        binder.busy = busy;
        let got = listened(rt, tcp(rt, "X"), None, &mut binder);
        same(rt, got.err(), refused);
        same(rt, counts(&binder), (30, 29));
        same(rt, binder.waits(), busy);
    }
}

#[test]
fn a_failed_bind_is_told(rt: HostRuntime) {
    let rt = &rt;
    let mut binder = binder(rt, &[0]);
    let refused = listened(rt, tcp(rt, "Y"), None, &mut binder);
    same(
        rt,
        refused,
        Err(ListenError::BindError(BindErrorKind::Failed)),
    );
    match ListenerEndpointBuilder::new().listen(rt.alloc(), None, &mut binder) {
        Ok(endpoint) => {
            let _ = endpoint.close().map(|fd| fd.close());
            holds(rt, false);
        }
        Err(refused) => same(rt, refused.reason, ListenError::NoAddress),
    }
}

#[test]
fn a_steady_binder_never_fails(rt: HostRuntime) {
    let rt = &rt;
    let mut steady = SteadyBinder::new(rt.alloc(), 9, 3).expect(rt, "a binder");
    let had = listened(rt, tcp(rt, "Z"), None, &mut steady);
    same(rt, had.expect(rt, "an endpoint").fd, 3);
    holds(rt, steady.adopt(&tcp(rt, "Z"), 3));
    steady.rest(5);
    same(rt, (steady.faults(), steady.waits()), (0, 0));
    let calls = steady.calls.told().expect(rt, "calls");
    same(rt, calls.len(), 3);
}
