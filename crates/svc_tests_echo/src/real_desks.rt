//! Desks over sockets that take back what they gave.

use crate::checking::{holds, same};
use crate::clients::{connected, free_address, is_closed, is_taken};
use crate::tables::sockets_at;
use std::alloc::Global;
use std::net::TcpListener;
use std::sync::Mutex;
use svc_desk::{Desk, DeskAnswer};
use svc_echo::{Seat, Slot, real_desk};
use svc_record::{Action, Event};

/// The desk's next event that isn't the time, if one comes within 300 takes.
fn taken<D: Desk>(alloc: Global, desk: &mut D) -> Option<Event> {
    for _ in 0..300u32 {
        match desk.take(alloc) {
            DeskAnswer::Event(Event::Moment(_)) | DeskAnswer::Nothing => {}
            DeskAnswer::Event(event) => return Some(event),
            _ => return None,
        }
    }
    None
}

#[test]
fn what_a_stray_event_brought_is_closed(rt: HostRuntime) {
    let alloc = rt.alloc();
    let address = free_address(&rt);
    let sockets = Mutex::new(sockets_at(&rt, alloc, address));
    let slot: Mutex<Slot<TcpListener>> = Mutex::new(Slot::Missing);
    let desk = real_desk(&rt, alloc, Seat::Left, &sockets, &slot, 1_000);
    let mut desk = desk.expect(&rt, "a desk");
    desk.perform(Action::Bind(0, 0));
    let bound = taken(alloc, &mut desk).expect(&rt, "the endpoint is bound");
    let copy = bound.copy(alloc).expect(&rt, "a copy");
    same(&rt, copy, Event::Bound(0, 0, 3));
    let client = connected(&rt, address);
    let arrived = taken(alloc, &mut desk).expect(&rt, "the client is here");
    holds(&rt, matches!(&arrived, Event::Arrived(0, 0, 1, _)));
    desk.refuse(arrived);
    holds(&rt, is_closed(&client));
    desk.refuse(bound);
    holds(&rt, !is_taken(&rt, address));
}
