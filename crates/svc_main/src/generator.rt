//! The services and events of the generator.

ghost use Rattle.std.specs.Prelude.{◌≡◌, ◌+◌, ◌*◌, ◌<◌, ◌≤◌, ◌++◌, ◌∷◌, [], map, codes, IfOk, OnOk, Some, None};
ghost use Rattle.std.specs.Fmt.{decimal};
ghost use Rattle.svc_record.specs.declared.event.Event.{Event};
ghost use Rattle.svc_record.specs.declared.item.Item.TheVariants as item;
ghost use Rattle.svc_main.specs.Generator.{is_even, made_kind, made_after, made_endpoint, made_service, made_services, made_moment, made_connection, made_word, made_start, made_connections, made_events_of, made_events, no_flags};

use std::alloc::Global;
use svc_base::{Items, NoMemory, Numbers, Settings, Text, Texts};
use svc_conf::Opt;
use svc_graph::Kind;
use svc_record::{Event, Item, ShutdownSignal};
use svc_socket::Peer;
use svc_text::{EndpointLine, EndpointLines, ScriptItems, ServiceLine};

fn is_even(k: u32) -> bool
    ensures { result ≡ is_even k }
{
    k % 2 == 0
}

/// Even services are ready as soon as they are started.
fn made_kind(k: u32) -> Kind
    ensures { result ≡ made_kind k }
{
    if is_even(k) {
        Kind::Plain
    } else {
        Kind::Notifying
    }
}

/// Each service but the first depends on the one before it.
fn made_after(alloc: Global, k: u32) -> Result<Option<Numbers>, NoMemory>
    ensures { IfOk result (λ o. o ≡ made_after k) }
{
    if k == 0 {
        return Ok(None);
    }
    let mut after = Numbers::new(alloc);
    match after.push(alloc, k - 1) {
        Ok(()) => Ok(Some(after)),
        Err(refused) => Err(refused.reason),
    }
}

fn made_name(alloc: Global, k: u32) -> Result<Text, NoMemory>
    ensures { IfOk result (λ t. t ≡ codes "s" ++ decimal k) }
{
    let text = format!(in alloc; "s{k}")?;
    Text::new(alloc, text.as_str())
}

fn made_address(alloc: Global, port: u32) -> Result<Text, NoMemory>
    ensures { IfOk result (λ t. t ≡ codes "127.0.0.1:" ++ decimal port) }
{
    let text = format!(in alloc; "127.0.0.1:{port}")?;
    Text::new(alloc, text.as_str())
}

fn made_endpoint(alloc: Global, k: u32) -> Result<EndpointLine, NoMemory>
    requires { k < 1024 }
    ensures { IfOk result (λ e. e ≡ made_endpoint k) }
{
    Ok(EndpointLine {
        address: made_address(alloc, 10_000 + k)?,
        unix: false,
        options: Settings::new(alloc),
    })
}

/// Service k of the generator.
fn made_service(alloc: Global, k: u32) -> Result<ServiceLine, NoMemory>
    requires { k < 1024 }
    ensures { IfOk result (λ service. service ≡ made_service k) }
{
    let mut endpoints = EndpointLines::new(alloc);
    endpoints.push(made_endpoint(alloc, k)?)?;
    Ok(ServiceLine {
        name: made_name(alloc, k)?,
        kind: made_kind(k),
        after: made_after(alloc, k)?,
        undeclared: false,
        claims: Texts::new(alloc),
        blocked: Items::new(alloc),
        endpoints,
    })
}

/// The first n services of the generator.
pub(crate) fn made_services(alloc: Global, n: u32) -> Result<Vec<ServiceLine>, NoMemory>
    requires { n ≤ 1024 }
    ensures { IfOk result (λ services. services.items ≡ made_services n) }
{
    let mut services = Vec::new(alloc);
    for k in 0..n {
        services.push(made_service(alloc, k)?)?;
    }
    Ok(services)
}

/// Appends an event.
fn add_event(alloc: Global, items: &mut ScriptItems, event: Event) -> Result<(), NoMemory>
    ensures { OnOk result (items.new ≡ items.old ++ item.Event event ∷ []) }
{
    items.push(alloc, Item::Event(event))
}

/// The word of service k that it is ready, where it says so; else its moment once more.
fn made_word(k: u32) -> Event
    requires { k < 1024 }
    ensures { result ≡ made_word k }
{
    if is_even(k) {
        Event::Moment(made_moment(k))
    } else {
        Event::Ready(k)
    }
}

/// The moment at which service k goes on.
fn made_moment(k: u32) -> u64
    requires { k < 1024 }
    ensures { result ≡ made_moment k }
{
    1000 * (k as u64 + 1)
}

/// Appends the events of service k before its connections.
fn add_start(alloc: Global, items: &mut ScriptItems, k: u32) -> Result<(), NoMemory>
    requires { k < 1024 }
    ensures { OnOk result (items.new ≡ items.old ++ map item.Event (made_start k)) }
{
    add_event(alloc, items, Event::InUse(k, 0))?;
    add_event(alloc, items, Event::Moment(made_moment(k)))?;
    add_event(alloc, items, Event::Bound(k, 0, k as u64 + 1))?;
    add_event(alloc, items, made_word(k))
}

/// Appends a connection of service k that goes well.
fn add_connection(alloc: Global, items: &mut ScriptItems, k: u32, c: u64) -> Result<(), NoMemory>
    ensures { OnOk result (items.new ≡ items.old ++ map item.Event (made_connection k c)) }
{
    add_event(alloc, items, Event::Arrived(k, 0, c, Peer::Unknown))?;
    add_event(alloc, items, Event::Set(c, true))?;
    add_event(alloc, items, Event::Shaken(c, true))?;
    add_event(alloc, items, Event::Finished(c))
}

/// Appends four connections of service k, numbered from c on.
fn add_connections(alloc: Global, items: &mut ScriptItems, k: u32, c: u64) -> Result<(), NoMemory>
    requires { c < 5000 }
    ensures { OnOk result (items.new ≡ items.old ++ map item.Event (made_connections k c)) }
{
    add_connection(alloc, items, k, c)?;
    add_connection(alloc, items, k, c + 1)?;
    add_connection(alloc, items, k, c + 2)?;
    add_connection(alloc, items, k, c + 3)
}

/// Appends the events of service k.
fn add_events_of(alloc: Global, items: &mut ScriptItems, k: u32) -> Result<(), NoMemory>
    requires { k < 1024 }
    ensures { OnOk result (items.new ≡ items.old ++ map item.Event (made_events_of k)) }
{
    add_start(alloc, items, k)?;
    add_connections(alloc, items, k, 4 * k as u64 + 1)
}

/// The events of the first n services, and at the end a fast shutdown.
pub(crate) fn made_items(alloc: Global, n: u32) -> Result<ScriptItems, NoMemory>
    requires { n ≤ 1024 }
    ensures { IfOk result (λ list. list ≡ map item.Event (made_events n)) }
{
    let mut list = ScriptItems::new(alloc);
    for k in 0..n {
        add_events_of(alloc, &mut list, k)?;
    }
    add_event(
        alloc,
        &mut list,
        Event::Signal(ShutdownSignal::FastShutdown),
    )?;
    Ok(list)
}

/// No flags.
pub(crate) fn no_flags() -> Opt
    ensures { result ≡ no_flags }
{
    Opt {
        upgrade: false,
        daemon: false,
        nocapture: false,
        test: false,
        conf: None,
    }
}
