//! The binder and the accepting socket over TCP.

use crate::checking::{holds, same};
use crate::clients::{connected, free_address, is_closed};
use std::alloc::Global;
use std::net::{SocketAddr, TcpListener};
use std::process::Abort;
use svc_base::{Setting, Text};
use svc_echo::{SocketAccepting, SocketBinder};
use svc_listen::{Accepting, Arrival, BindAnswer, BindOutcome, Binder, ServerAddress};

fn tcp(rt: &impl Abort, alloc: Global, address: SocketAddr) -> ServerAddress {
    let text = format!(in alloc; "{address}").expect(rt, "a text");
    let text = Text::new(alloc, text.as_str()).expect(rt, "a text");
    ServerAddress::Tcp(text, None)
}

/// What a try to bind gave, with the number of the descriptor.
fn outcome_of(answer: BindAnswer) -> BindOutcome {
    match answer {
        BindAnswer::Bound(fd) => BindOutcome::Bound(fd.close()),
        BindAnswer::InUse => BindOutcome::InUse,
        BindAnswer::Failed => BindOutcome::Failed,
    }
}

#[test]
fn a_busy_address_is_in_use(rt: HostRuntime) {
    let alloc = rt.alloc();
    let address = free_address(&rt);
    let addr = tcp(&rt, alloc, address);
    let mut binder = SocketBinder::new(&rt, alloc, 10).expect(&rt, "a binder");
    let mut other = SocketBinder::new(&rt, alloc, 10).expect(&rt, "a binder");
    let bound = outcome_of(binder.bind(&addr));
    holds(&rt, matches!(bound, BindOutcome::Bound(3)));
    let busy = outcome_of(other.bind(&addr));
    holds(&rt, matches!(busy, BindOutcome::InUse));
    same(&rt, (other.faults(), other.waits()), (0, 1));
    holds(&rt, binder.adopt(&addr, 3));
    holds(&rt, !binder.adopt(&addr, 4));
    same(&rt, (binder.faults(), binder.waits()), (1, 0));
}

#[test]
fn a_connection_is_accepted_and_refused(rt: HostRuntime) {
    let alloc = rt.alloc();
    let listener = TcpListener::bind(&rt, "127.0.0.1:0").expect(&rt, "a listener");
    listener.set_nonblocking(true).expect(&rt, "no waits");
    let address = listener.local_addr().expect(&rt, "its address");
    let accepting = SocketAccepting::new(alloc, 10, listener);
    let mut accepting = accepting.expect(&rt, "an accepting socket");
    same(&rt, accepting.accept(), Arrival::NotYet);
    let client = connected(&rt, address);
    let arrival = accepting.accept();
    holds(&rt, matches!(arrival, Arrival::Came(2, _)));
    holds(&rt, accepting.set(2, &Setting::NoDelay));
    accepting.refuse(2);
    holds(&rt, is_closed(&client));
    same(&rt, (accepting.faults(), accepting.waits()), (0, 1));
}
