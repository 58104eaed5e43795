//! The filter that is asked at an event.

ghost use Rattle.std.specs.Prelude.{◌≡◌, ◌<◌, length, IfSome};
ghost use Rattle.std.specs.Option.{option_map};
ghost use Rattle.svc_streams.specs.Verdicts.{verdict_at};
ghost use Rattle.svc_server.specs.Judges.{peer_at, Asks};

use svc_record::Event;
use svc_socket::{Peer, PeerAddr};
use svc_streams::{ConnectionFilter, Filters};

/// The peer of the event, as a filter is asked for it: none for a peer of a Unix socket.
fn peer_at(event: &Event) -> Option<&PeerAddr>
    ensures { option_map (λ p. p.now) result ≡ peer_at event.now }
{
    match event {
        Event::Arrived(_, _, _, Peer::Inet(address)) => Some(address),
        _ => None,
    }
}

/// What the filter with this number answers to the peer of the event; yes where there is no number.
pub(crate) fn ask_filter<F: ConnectionFilter>(
    filters: &mut Filters<F>,
    number: Option<u32>,
    event: &Event,
) -> bool
    requires known { IfSome number (λ f. f < length filters.old) }
    ensures asks { Asks (verdict_at F.verdict filters.old) (verdict_at F.verdict filters.new) number (peer_at event.now) result }
    ensures count { length filters.new ≡ length filters.old }
{
    match number {
        Some(number) => filters.ask(number, peer_at(event)),
        None => true,
    }
}
