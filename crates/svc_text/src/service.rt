//! What a service line says.

ghost use Rattle.std.specs.Prelude.{◌≡◌, ◌<◌, ◌≤◌, [], ◌∷◌, length, unwrap_or, IfOk, IfSome, MatchOption, Option, Some, None};
ghost use Rattle.std.specs.Option.{option_map};
ghost use Rattle.svc_text.specs.Words.{text_in};
ghost use Rattle.svc_base.specs.Words.{words};
ghost use Rattle.svc_text.specs.EndpointOptions.{keepalive_of, option_of};
ghost use Rattle.svc_text.specs.ServiceLines.{is_name, name_of, kind_of, numbers_of, is_address, address_of, boots, with_after, with_endpoint, with_claim, with_undeclared, ip_in, with_block, with_option_of, with_setting, with_address, with_item, with_items, service_of, is_eager, Takes};

use crate::endpoint_lines::EndpointLines;
use crate::lists::push_item;
use crate::message_words::joined_of;
use std::alloc::Global;
use std::mem::drop;
use std::str;
use svc_base::{
    Items, NoMemory, Numbers, Setting, Settings, TcpKeepalive, Text, Texts, number, number8,
    number32, split_word,
};
use svc_graph::{ADDRESS_LIMIT, Kind};
use svc_socket::{IpNumber, read_ip};

/// An endpoint that a service line names.
#[derive(Drop)]
pub struct EndpointLine {
    /// The address's text: of 1 to 4,096 bytes.
    pub address: Text,
    /// The address is a path of the Unix domain.
    pub unix: bool,
    /// What is set on each accepted connection: at most one option of each sort.
    pub options: Settings,
}

/// What a service line says.
#[derive(Drop)]
pub struct ServiceLine {
    pub name: Text,
    pub kind: Kind,
    /// The services that it depends on, where the line says so.
    pub after: Option<Numbers>,
    /// It doesn't declare its addresses: none of the server's is unclaimed.
    pub undeclared: bool,
    /// The addresses that it declares beside those of its endpoints.
    pub claims: Texts,
    /// The addresses whose connections its filter refuses.
    pub blocked: Items<IpNumber>,
    /// Its endpoints, in the order of the line: at most 64.
    pub endpoints: EndpointLines,
}

impl ServiceLine {
    /// The services that it depends on.
    pub fn dependencies(&self) -> &[u32]
        ensures { result.now ≡ unwrap_or self.now.after [] }
    {
        match &self.after {
            Some(numbers) => numbers.as_slice(),
            None => &[],
        }
    }
}

/// The text that bytes are.
fn text_in(word: &[u8]) -> Option<&str>
    ensures { option_map (λ t. t.now) result ≡ text_in word.now }
{
    match str::from_utf8(word) {
        Ok(text) => Some(text),
        Err(_) => None,
    }
}

fn is_name(word: &[u8]) -> bool
    ensures { result ≡ is_name word.now }
{
    !word.is_empty() && word.len() <= 255 && !matches!(word.first(), Some(b'#' | b'%'))
}

#[tactic(auto, unfolding(crate::specs::ServiceLines::name_of))]
fn name_of(alloc: Global, word: &[u8]) -> Result<Option<Text>, NoMemory>
    ensures { IfOk result (λ o. o ≡ name_of word.now) }
{
    if !is_name(word) {
        return Ok(None);
    }
    match text_in(word) {
        Some(text) => Ok(Some(Text::new(alloc, text)?)),
        None => Ok(None),
    }
}

#[tactic(auto, unfolding(crate::specs::ServiceLines::kind_of))]
fn kind_of(word: &[u8]) -> Option<Kind>
    ensures { result ≡ kind_of word.now }
{
    if word == b"plain".as_slice() {
        Some(Kind::Plain)
    } else if word == b"notify".as_slice() {
        Some(Kind::Notifying)
    } else if word == b"bootstrap".as_slice() {
        Some(Kind::Bootstrap)
    } else {
        None
    }
}

/// A service of this kind bootstraps.
fn boots(kind: Kind) -> bool
    ensures { result ≡ boots kind }
{
    match kind {
        Kind::Plain | Kind::Notifying => false,
        Kind::Bootstrap => true,
    }
}

fn numbers_of(alloc: Global, word: &[u8]) -> Result<Option<Numbers>, NoMemory>
    ensures { IfOk result (λ o. o ≡ numbers_of word.now) }
{
    let mut numbers = Numbers::new(alloc);
    for piece in word.split(|b| *b == b',') {
        let Some(n) = number32(piece) else {
            drop(numbers);
            return Ok(None);
        };
        match push_item(alloc, &mut numbers, n) {
            Ok(()) => {}
            Err(NoMemory) => {
                drop(numbers);
                return Err(NoMemory);
            }
        }
    }
    Ok(Some(numbers))
}

fn is_address(word: &[u8]) -> bool
    ensures { result ≡ is_address word.now }
{
    !word.is_empty() && word.len() <= ADDRESS_LIMIT
}

#[tactic(auto, unfolding(crate::specs::ServiceLines::address_of))]
fn address_of(alloc: Global, word: &[u8]) -> Result<Option<Text>, NoMemory>
    ensures { IfOk result (λ o. o ≡ address_of word.now) }
{
    if !is_address(word) {
        return Ok(None);
    }
    match text_in(word) {
        Some(text) => Ok(Some(Text::new(alloc, text)?)),
        None => Ok(None),
    }
}

/// Sets the dependencies, where there are none yet.
#[tactic(auto, unfolding(crate::specs::ServiceLines::with_after))]
fn take_after(alloc: Global, service: &mut ServiceLine, value: &[u8]) -> Result<bool, NoMemory>
    ensures { IfOk result (λ taken. Takes taken (with_after service.old value.now) service.new) }
{
    if service.after.is_some() {
        return Ok(false);
    }
    match numbers_of(alloc, value)? {
        Some(numbers) => {
            service.after = Some(numbers);
            Ok(true)
        }
        None => Ok(false),
    }
}

/// Adds an endpoint, where there are fewer than 64.
#[tactic(auto, unfolding(crate::specs::ServiceLines::with_endpoint))]
fn take_endpoint(
    alloc: Global,
    service: &mut ServiceLine,
    unix: bool,
    value: &[u8],
) -> Result<bool, NoMemory>
    ensures { IfOk result (λ taken. Takes taken (with_endpoint service.old unix value.now) service.new) }
{
    if service.endpoints.len() >= 64 {
        return Ok(false);
    }
    match address_of(alloc, value)? {
        Some(address) => {
            let endpoint = EndpointLine {
                address,
                unix,
                options: Settings::new(alloc),
            };
            service.endpoints.push(endpoint)?;
            Ok(true)
        }
        None => Ok(false),
    }
}

/// Adds a declared address.
#[tactic(auto, unfolding(crate::specs::ServiceLines::with_claim))]
fn take_claim(alloc: Global, service: &mut ServiceLine, value: &[u8]) -> Result<bool, NoMemory>
    ensures { IfOk result (λ taken. Takes taken (with_claim service.old value.now) service.new) }
{
    match address_of(alloc, value)? {
        Some(address) => {
            push_item(alloc, &mut service.claims, address)?;
            Ok(true)
        }
        None => Ok(false),
    }
}

/// Notes that the addresses aren't declared, once and where the service doesn't bootstrap.
#[tactic(auto, unfolding(crate::specs::ServiceLines::with_undeclared))]
fn take_undeclared(service: &mut ServiceLine) -> bool
    ensures { Takes result (with_undeclared service.old) service.new }
{
    if service.undeclared || boots(service.kind) {
        return false;
    }
    service.undeclared = true;
    true
}

#[tactic(auto, unfolding(crate::specs::ServiceLines::ip_in))]
fn ip_in(word: &[u8]) -> Option<IpNumber>
    ensures { result ≡ ip_in word.now }
{
    read_ip(text_in(word)?)
}

/// Adds a blocked address.
#[tactic(auto, unfolding(crate::specs::ServiceLines::with_block))]
fn take_block(alloc: Global, service: &mut ServiceLine, value: &[u8]) -> Result<bool, NoMemory>
    ensures { IfOk result (λ taken. Takes taken (with_block service.old value.now) service.new) }
{
    match ip_in(value) {
        Some(ip) => {
            push_item(alloc, &mut service.blocked, ip)?;
            Ok(true)
        }
        None => Ok(false),
    }
}

/// The keepalive that a word says.
#[tactic(auto, unfolding(crate::specs::EndpointOptions::keepalive_of))]
fn keepalive_of(alloc: Global, word: &[u8]) -> Result<Option<TcpKeepalive>, NoMemory>
    ensures { IfOk result (λ o. o ≡ keepalive_of word.now) }
{
    let Some(numbers) = joined_of(alloc, word)? else {
        return Ok(None);
    };
    match numbers.as_slice() {
        [idle, interval, count, user_timeout] => Ok(Some(TcpKeepalive {
            idle: *idle,
            interval: *interval,
            count: *count,
            user_timeout: *user_timeout,
        })),
        _ => Ok(None),
    }
}

/// The option that a key and a word say.
#[tactic(auto, unfolding(crate::specs::EndpointOptions::option_of))]
fn option_of(alloc: Global, key: &[u8], word: &[u8]) -> Result<Option<Setting>, NoMemory>
    ensures { IfOk result (λ o. o ≡ option_of key.now word.now) }
{
    if key == b"dscp".as_slice() {
        Ok(number8(word).map(|n| Setting::Dscp(n)))
    } else if key == b"sndbuf".as_slice() {
        Ok(number(word).map(|n| Setting::SndBuf(n)))
    } else if key == b"rcvbuf".as_slice() {
        Ok(number(word).map(|n| Setting::RcvBuf(n)))
    } else if key == b"keepalive".as_slice() {
        Ok(keepalive_of(alloc, word)?.map(|keepalive| Setting::KeepAlive(keepalive)))
    } else {
        Ok(None)
    }
}

/// Adds an option to endpoint k, where it has none of this sort yet.
#[tactic(auto, unfolding(crate::specs::ServiceLines::with_option_of))]
fn add_option(
    alloc: Global,
    service: &mut ServiceLine,
    option: Setting,
    k: usize,
) -> Result<bool, NoMemory>
    requires { k < length service.old.endpoints }
    ensures { IfOk result (λ taken. Takes taken (with_option_of service.old option k) service.new) }
{
    if service.endpoints.has_sort(k, option) {
        return Ok(false);
    }
    service.endpoints.add_option(alloc, k, option)?;
    Ok(true)
}

/// Adds an option to the last TCP endpoint, where it has none of this sort yet.
#[tactic(auto, unfolding(crate::specs::ServiceLines::with_setting))]
fn take_option(
    alloc: Global,
    service: &mut ServiceLine,
    key: &[u8],
    value: &[u8],
) -> Result<bool, NoMemory>
    ensures { IfOk result (λ taken. Takes taken (with_setting service.old key.now value.now) service.new) }
{
    let Some(option) = option_of(alloc, key, value)? else {
        return Ok(false);
    };
    let Some(k) = service.endpoints.last_tcp() else {
        return Ok(false);
    };
    add_option(alloc, service, option, k)
}

#[tactic(auto, unfolding(crate::specs::ServiceLines::with_address))]
fn take_address(
    alloc: Global,
    service: &mut ServiceLine,
    key: &[u8],
    value: &[u8],
) -> Result<bool, NoMemory>
    ensures { IfOk result (λ taken. Takes taken (with_address service.old key.now value.now) service.new) }
{
    if key == b"tcp".as_slice() {
        take_endpoint(alloc, service, false, value)
    } else if key == b"unix".as_slice() {
        take_endpoint(alloc, service, true, value)
    } else if key == b"claim".as_slice() {
        take_claim(alloc, service, value)
    } else if key == b"block".as_slice() {
        take_block(alloc, service, value)
    } else {
        take_option(alloc, service, key, value)
    }
}

/// Takes an item that is a pair of words.
#[tactic(auto, unfolding(crate::specs::ServiceLines::with_item))]
fn take_item(
    alloc: Global,
    service: &mut ServiceLine,
    key: &[u8],
    value: &[u8],
) -> Result<bool, NoMemory>
    ensures { IfOk result (λ taken. Takes taken (with_item service.old key.now value.now) service.new) }
{
    if key == b"after".as_slice() {
        take_after(alloc, service, value)
    } else if boots(service.kind) {
        Ok(false)
    } else {
        take_address(alloc, service, key, value)
    }
}

/// Takes an item that begins with this word. It answers what follows the item.
fn take_next<'a>(
    alloc: Global,
    service: &mut ServiceLine,
    key: &[u8],
    after: &'a [u8],
) -> Result<Option<&'a [u8]>, NoMemory>
    ensures items { IfOk result (λ more. MatchOption more
        (with_items service.old (key.now ∷ words after.now) ≡ None)
        (λ rest. with_items service.old (key.now ∷ words after.now) ≡ with_items service.new (words rest.now))) }
    ensures shorter { IfOk result (λ more. IfSome more (λ rest. length rest.now ≤ length after.now)) }
{
    if key == b"undeclared".as_slice() {
        if take_undeclared(service) {
            return Ok(Some(after));
        }
        return Ok(None);
    }
    let Some((value, rest)) = split_word(after) else {
        return Ok(None);
    };
    if take_item(alloc, service, key, value)? {
        return Ok(Some(rest));
    }
    Ok(None)
}

fn take_items(alloc: Global, service: &mut ServiceLine, items: &[u8]) -> Result<bool, NoMemory>
    ensures { IfOk result (λ taken. Takes taken (with_items service.old (words items.now)) service.new) }
{
    let mut rest = items;
    while let Some((key, after)) = split_word(rest) {
        match take_next(alloc, service, key, after)? {
            Some(more) => rest = more,
            None => return Ok(false),
        }
    }
    Ok(true)
}

/// The service that a line says.
#[tactic(auto, unfolding(crate::specs::ServiceLines::service_of))]
pub fn service_of_line(alloc: Global, line: &[u8]) -> Result<Option<ServiceLine>, NoMemory>
    ensures { IfOk result (λ o. o ≡ service_of (words line.now)) }
{
    let Some((name, rest)) = split_word(line) else {
        return Ok(None);
    };
    let Some((kind, items)) = split_word(rest) else {
        return Ok(None);
    };
    let Some(kind) = kind_of(kind) else {
        return Ok(None);
    };
    let Some(name) = name_of(alloc, name)? else {
        return Ok(None);
    };
    let mut service = ServiceLine {
        name,
        kind,
        after: None,
        undeclared: false,
        claims: Texts::new(alloc),
        blocked: Items::new(alloc),
        endpoints: EndpointLines::new(alloc),
    };
    match take_items(alloc, &mut service, items) {
        Ok(true) => Ok(Some(service)),
        Ok(false) => {
            drop(service);
            Ok(None)
        }
        Err(NoMemory) => {
            drop(service);
            Err(NoMemory)
        }
    }
}

/// The line is the one word `eager`.
#[tactic(auto, unfolding(crate::specs::ServiceLines::is_eager))]
pub fn is_eager(line: &[u8]) -> bool
    ensures { result ≡ is_eager (words line.now) }
{
    match split_word(line) {
        Some((word, rest)) => word == b"eager".as_slice() && split_word(rest).is_none(),
        None => false,
    }
}
