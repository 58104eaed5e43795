//! The tables of a server's sockets, without workers.

use crate::checking::{holds, same};
use crate::clients::{connected, free_address, is_taken};
use crate::plans::plan_of;
use std::alloc::Global;
use std::mem::drop;
use std::net::{Net, SocketAddr, TcpListener, TcpStream};
use std::process::Abort;
use std::sync::{Mutex, Wait};
use std::thread;
use std::time::{Clock, Duration};
use svc_echo::{Seat, Slot, Sockets};
use svc_graph::Kind;
use svc_record::{Action, Event};

/// The sockets of a server whose one endpoint is at this address.
pub(crate) fn sockets_at<R: Net + Abort>(rt: &R, alloc: Global, address: SocketAddr) -> Sockets {
    let address = format!(in alloc; "{address}").expect(rt, "a text");
    let plan = plan_of(rt, alloc, "echo", Kind::Plain, &[address.as_str()]);
    let mut sockets = Sockets::new(alloc);
    sockets.meet(rt, &plan).expect(rt, "memory");
    drop(plan);
    sockets
}

/// What a seat is told next that isn't the time, if it is told something within 300 ms.
fn told<R: Clock>(rt: &R, sockets: &mut Sockets, seat: Seat) -> Option<Event> {
    for _ in 0..300u32 {
        match sockets.next(rt, seat) {
            Ok(Some(Event::Moment(_))) => {}
            Ok(Some(event)) => return Some(event),
            Ok(None) => thread::sleep(rt, Duration::from_millis(1)),
            Err(_) => return None,
        }
    }
    None
}

#[test]
fn the_end_of_a_loop_waits_for_an_arrival_in_hand(rt: HostRuntime) {
    let address = free_address(&rt);
    let mut sockets = sockets_at(&rt, rt.alloc(), address);
    let slot: Mutex<Slot<TcpListener>> = Mutex::new(Slot::Missing);
    sockets.perform(&rt, &slot, &Action::Bind(0, 0));
    let bound = told(&rt, &mut sockets, Seat::Left);
    same(&rt, bound, Some(Event::Bound(0, 0, 3)));
    same(&rt, told(&rt, &mut sockets, Seat::Left), None);
    let _client = connected(&rt, address);
    let arrived = told(&rt, &mut sockets, Seat::Left);
    holds(&rt, matches!(arrived, Some(Event::Arrived(0, 0, 1, _))));
    sockets.perform(&rt, &slot, &Action::Broadcast);
    // The left seat has the arrival in hand.
    same(&rt, told(&rt, &mut sockets, Seat::Right), None);
    let ended = told(&rt, &mut sockets, Seat::Left);
    same(&rt, ended, Some(Event::LoopEnded(0, 0, 0)));
}

/// What the one endpoint's bind comes to.
fn bind<R: Wait + Net<Listener = TcpListener, Stream = TcpStream> + Clock>(
    rt: &R,
    sockets: &mut Sockets,
    slot: &Mutex<Slot<TcpListener>>,
) -> Option<Event> {
    sockets.perform(rt, slot, &Action::Bind(0, 0));
    told(rt, sockets, Seat::Left)
}

#[test]
fn a_busy_address_is_free_after_its_close(rt: HostRuntime) {
    let address = free_address(&rt);
    let slot: Mutex<Slot<TcpListener>> = Mutex::new(Slot::Missing);
    let mut first = sockets_at(&rt, rt.alloc(), address);
    let mut second = sockets_at(&rt, rt.alloc(), address);
    let bound = bind(&rt, &mut first, &slot);
    same(&rt, bound, Some(Event::Bound(0, 0, 3)));
    let busy = bind(&rt, &mut second, &slot);
    same(&rt, busy, Some(Event::InUse(0, 0)));
    holds(&rt, is_taken(&rt, address));
    first.perform(&rt, &slot, &Action::Close(3));
    holds(&rt, !is_taken(&rt, address));
    let later = bind(&rt, &mut second, &slot);
    same(&rt, later, Some(Event::Bound(0, 0, 3)));
}
