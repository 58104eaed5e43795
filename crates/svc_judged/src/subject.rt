//! What an entry is about: an address or a service of the plan.

use svc_record::{Action, Entry, Event, Plan};

/// The service that the entry names, without an endpoint.
fn service_of(entry: &Entry) -> Option<u32> {
    match entry {
        Entry::Got(Event::Ready(s) | Event::Ended(s)) => Some(*s),
        Entry::Told(Action::Start(s) | Action::Fail(s)) => Some(*s),
        _ => None,
    }
}

/// The endpoint that the event names.
fn endpoint_of_event(event: &Event) -> Option<(u32, u32)> {
    match event {
        Event::InUse(s, i)
        | Event::BindFailed(s, i)
        | Event::Adopted(s, i)
        | Event::AdoptFailed(s, i) => Some((*s, *i)),
        Event::Bound(s, i, _) | Event::LoopEnded(s, i, _) => Some((*s, *i)),
        Event::AcceptFailed(s, i, _) => Some((*s, *i)),
        Event::Arrived(s, i, _, _) => Some((*s, *i)),
        _ => None,
    }
}

/// The endpoint that the entry names.
fn endpoint_of(entry: &Entry) -> Option<(u32, u32)> {
    match entry {
        Entry::Got(event) => endpoint_of_event(event),
        Entry::Told(Action::Bind(s, i) | Action::Rest(s, i)) => Some((*s, *i)),
        Entry::Told(Action::Adopt(s, i, _)) => Some((*s, *i)),
        _ => None,
    }
}

/// The connection that the entry names.
fn connection_of(entry: &Entry) -> Option<u64> {
    match entry {
        Entry::Got(Event::Set(c, _) | Event::Shaken(c, _) | Event::Finished(c)) => Some(*c),
        Entry::Told(Action::Judged(c, _)) => Some(*c),
        Entry::Told(Action::Settings(c, _)) => Some(*c),
        Entry::Told(
            Action::Refuse(c)
            | Action::Handshake(c)
            | Action::Serve(c)
            | Action::Drop(c)
            | Action::Cut(c),
        ) => Some(*c),
        _ => None,
    }
}

/// The entry brings the connection.
fn brings_connection(entry: &Entry, connection: u64) -> bool {
    matches!(entry, Entry::Got(Event::Arrived(_, _, c, _)) if *c == connection)
}

/// The entry says of the descriptor which endpoint's it is.
fn places_descriptor(entry: &Entry, fd: u64) -> bool {
    match entry {
        Entry::Got(Event::Bound(_, _, n)) => *n == fd,
        Entry::Told(Action::Adopt(_, _, n)) => *n == fd,
        _ => false,
    }
}

/// The endpoint of what the entry names by a number alone, by what stands before it.
fn place_of(entry: &Entry, before: &[Entry]) -> Option<(u32, u32)> {
    if let Entry::Told(Action::Close(fd)) = entry {
        return endpoint_of(before.iter().find(|other| places_descriptor(other, *fd))?);
    }
    let connection = connection_of(entry)?;
    endpoint_of(
        before
            .iter()
            .find(|other| brings_connection(other, connection))?,
    )
}

/// The service's name.
fn name_of(plan: &Plan, service: u32) -> Option<&str> {
    Some(
        plan.services
            .as_slice()
            .get(service as usize)?
            .name
            .as_str(),
    )
}

/// The endpoint's address.
fn address_of(plan: &Plan, (service, endpoint): (u32, u32)) -> Option<&str> {
    let service = plan.services.as_slice().get(service as usize)?;
    let endpoint = service.endpoints.as_slice().get(endpoint as usize)?;
    Some(endpoint.address.as_str())
}

/// What the newest of the entries is about.
pub(crate) fn subject<'a>(plan: &'a Plan, entries: &[Entry]) -> Option<&'a str> {
    let (entry, before) = entries.split_first()?;
    if let Some(service) = service_of(entry) {
        return name_of(plan, service);
    }
    match endpoint_of(entry) {
        Some(endpoint) => address_of(plan, endpoint),
        None => address_of(plan, place_of(entry, before)?),
    }
}
