//! Why a line isn't one of a service.

ghost use Rattle.std.specs.Prelude.{IfErr, IfOk, IfSome, string_bytes};
ghost use Rattle.svc_messages.specs.ItemFaults.{IsPlainFault};
ghost use Rattle.svc_messages.specs.Messages.{IsPlain, IsMessage};

use crate::pieces::{Piece, about, told};
use crate::service_lines::number_of;
use crate::spelling::nearest;
use crate::words::{is_known, said, shown, unknown_word};
use std::alloc::Global;
use std::str;
use svc_base::{NoMemory, number, split_word};
use svc_socket::read_ip;

const KINDS: [&str; 3] = ["plain", "notify", "bootstrap"];

const ITEMS: [&str; 10] = [
    "after",
    "undeclared",
    "claim",
    "block",
    "tcp",
    "unix",
    "dscp",
    "sndbuf",
    "rcvbuf",
    "keepalive",
];

/// Why an item may not stand in its line.
#[derive(Clone, Copy)]
enum ItemFault {
    /// The value isn't what is said.
    Value(&'static str),
    Twice,
    /// A service that bootstraps has nothing but `after`.
    Bootstraps,
    TooManyEndpoints,
    /// An option without a `tcp` endpoint before it.
    NoEndpoint,
}

/// What the items of a line said so far.
#[derive(Clone, Copy)]
struct SaidItems {
    bootstraps: bool,
    after: bool,
    undeclared: bool,
    endpoints: usize,
    /// Which of the options the last `tcp` endpoint has; None without one.
    options: Option<Options>,
}

/// Which options stand there.
#[derive(Clone, Copy)]
struct Options {
    dscp: bool,
    sndbuf: bool,
    rcvbuf: bool,
    keepalive: bool,
}

impl Options {
    const NONE: Options = Options {
        dscp: false,
        sndbuf: false,
        rcvbuf: false,
        keepalive: false,
    };

    /// Notes an option. It answers whether it stood there already.
    fn note(&mut self, item: &str) -> bool {
        let noted = match item {
            "dscp" => &mut self.dscp,
            "sndbuf" => &mut self.sndbuf,
            "rcvbuf" => &mut self.rcvbuf,
            _ => &mut self.keepalive,
        };
        let was = *noted;
        *noted = true;
        was
    }
}

impl SaidItems {
    /// Takes `undeclared`.
    fn take_undeclared(&mut self) -> Option<ItemFault>
        ensures { IfSome result IsPlainFault }
    {
        if self.bootstraps {
            return Some(ItemFault::Bootstraps);
        }
        let was = self.undeclared;
        self.undeclared = true;
        was.then_some(ItemFault::Twice)
    }

    /// Takes an item whose value is one by itself.
    fn take(&mut self, item: &str) -> Option<ItemFault>
        ensures { IfSome result IsPlainFault }
    {
        match item {
            "after" => {
                let was = self.after;
                self.after = true;
                was.then_some(ItemFault::Twice)
            }
            _ if self.bootstraps => Some(ItemFault::Bootstraps),
            "claim" | "block" => None,
            "tcp" | "unix" => self.take_endpoint(item),
            _ => match &mut self.options {
                Some(options) => options.note(item).then_some(ItemFault::Twice),
                None => Some(ItemFault::NoEndpoint),
            },
        }
    }

    fn take_endpoint(&mut self, item: &str) -> Option<ItemFault>
        ensures { IfSome result IsPlainFault }
    {
        if self.endpoints >= 64 {
            return Some(ItemFault::TooManyEndpoints);
        }
        self.endpoints += 1;
        if item == "tcp" {
            self.options = Some(Options::NONE);
        }
        None
    }
}

/// A list of so many numbers joined by commas, or of any number of them.
fn are_numbers(word: &[u8], most: u64, count: Option<usize>) -> bool {
    let are_all = word
        .split(|b| *b == b',')
        .all(|piece| is_at_most(piece, most));
    are_all
        && match count {
            Some(count) => word.split(|b| *b == b',').count() == count,
            None => true,
        }
}

fn is_at_most(word: &[u8], most: u64) -> bool {
    match number(word) {
        Some(n) => n <= most,
        None => false,
    }
}

fn is_ip(word: &[u8]) -> bool {
    match str::from_utf8(word) {
        Ok(text) => read_ip(text).is_some(),
        Err(_) => false,
    }
}

/// What the item's value has to be, where it isn't so.
fn value_fault(item: &str, value: &[u8]) -> Option<ItemFault>
    ensures { IfSome result IsPlainFault }
{
    let wanted = match item {
        "after" if !are_numbers(value, u32::MAX as u64, None) => {
            "numbers of services joined by commas, as 0,2"
        }
        "block" if !is_ip(value) => "an IP, as 192.168.1.1",
        "dscp" if !is_at_most(value, 255) => "a number from 0 to 255",
        "sndbuf" | "rcvbuf" if number(value).is_none() => "a number of bytes",
        "keepalive" if !are_numbers(value, u64::MAX, Some(4)) => {
            "four numbers joined by commas, as 60,10,5,30"
        }
        "claim" | "tcp" | "unix" if value.len() > 4096 => "an address of at most 4096 bytes",
        _ => return None,
    };
    Some(ItemFault::Value(wanted))
}

/// What is said of an option without an endpoint, before an example.
const NO_ENDPOINT: &str = " lacks its tcp endpoint; options stand behind one, as tcp 127.0.0.1:80 ";

/// The fault of an item in words.
fn fault_text<'a>(
    alloc: Global,
    item: &'a str,
    value: &'a [u8],
    fault: ItemFault,
) -> Result<String, NoMemory>
    requires item { IsPlain item.now }
    requires fault { IsPlainFault fault }
    ensures { IfOk result (λ text. IsMessage (string_bytes text)) }
{
    let item = item.as_bytes();
    match fault {
        ItemFault::Value(wanted) => {
            let pieces = [
                Piece::Word(item),
                Piece::Text(" isn't "),
                Piece::Text(wanted),
            ];
            about(alloc, value, " behind ", &pieces)
        }
        ItemFault::Twice => about(
            alloc,
            item,
            " stands twice; after and undeclared stand once in a line, an option once for its tcp endpoint",
            &[],
        ),
        ItemFault::Bootstraps => about(
            alloc,
            item,
            " stands in the line of a bootstrap service, which takes after alone",
            &[],
        ),
        ItemFault::TooManyEndpoints => {
            let pieces = [
                Piece::Word(value),
                Piece::Text(" is one endpoint too many; a service has at most 64"),
            ];
            about(alloc, item, " ", &pieces)
        }
        ItemFault::NoEndpoint => {
            let pieces = [Piece::Word(item), Piece::Text(" "), Piece::Word(value)];
            about(alloc, item, NO_ENDPOINT, &pieces)
        }
    }
}

/// The first piece of a list that is no number.
fn no_number(list: &[u8]) -> Option<&[u8]> {
    list.split(|b| *b == b',')
        .find(|piece| number(piece).is_none())
}

/// Why the value of `after` is refused where a service's name stands in it.
fn named_fault(alloc: Global, bytes: &[u8], value: &[u8]) -> Result<Option<String>, NoMemory>
    ensures { IfOk result (λ told. IfSome told (λ text. IsMessage (string_bytes text))) }
{
    let Some(piece) = no_number(value) else {
        return Ok(None);
    };
    let Some(service) = number_of(bytes, piece) else {
        return Ok(None);
    };
    let pieces = [
        Piece::Number(service),
        Piece::Text("; after takes numbers of services joined by commas, as 0,2"),
    ];
    Ok(Some(about(
        alloc,
        piece,
        " behind after is the name of service ",
        &pieces,
    )?))
}

/// What is wrong with the first item of these; None where none is left. Else what follows it.
fn item_fault<'a>(
    alloc: Global,
    bytes: &[u8],
    said_items: &mut SaidItems,
    items: &'a [u8],
) -> Result<Option<Result<&'a [u8], String>>, NoMemory>
    ensures { IfOk result (λ found. IfSome found (λ rest. IfErr rest (λ text. IsMessage (string_bytes text)))) }
{
    let Some((key, rest)) = split_word(items) else {
        return Ok(None);
    };
    let item = shown(alloc, key)?;
    let item = item.as_str();
    if !is_known(key, &ITEMS) {
        let text = unknown_word(alloc, key, "item of a service", &ITEMS)?;
        return Ok(Some(Err(text)));
    }
    if item == "undeclared" {
        return Ok(Some(match said_items.take_undeclared() {
            Some(fault) => Err(fault_text(alloc, item, &[], fault)?),
            None => Ok(rest),
        }));
    }
    let Some((value, more)) = split_word(rest) else {
        return Ok(Some(Err(about(alloc, key, " lacks the word behind it", &[])?)));
    };
    if item == "after"
        && let Some(text) = named_fault(alloc, bytes, value)?
    {
        return Ok(Some(Err(text)));
    }
    let fault = value_fault(item, value).or(said_items.take(item));
    Ok(Some(match fault {
        Some(fault) => Err(fault_text(alloc, item, value, fault)?),
        None => Ok(more),
    }))
}

/// What is wrong with the items of a service, by the first that is wrong.
fn items_fault(
    alloc: Global,
    bytes: &[u8],
    bootstraps: bool,
    items: &[u8],
) -> Result<Option<String>, NoMemory>
    ensures { IfOk result (λ told. IfSome told (λ text. IsMessage (string_bytes text))) }
{
    let mut said_items = SaidItems {
        bootstraps,
        after: false,
        undeclared: false,
        endpoints: 0,
        options: None,
    };
    let mut rest = items;
    for _ in 0..items.len() {
        match item_fault(alloc, bytes, &mut said_items, rest)? {
            Some(Err(text)) => return Ok(Some(text)),
            Some(Ok(more)) => rest = more,
            None => return Ok(None),
        }
    }
    Ok(None)
}

/// A name without more: `eager`, misspelled or a second time, or a service without its kind.
fn name_alone(alloc: Global, name: &[u8]) -> Result<String, NoMemory>
    ensures { IfOk result (λ text. IsMessage (string_bytes text)) }
{
    if name == b"eager".as_slice() {
        return said(
            alloc,
            "eager stands twice; it stands once among the services",
        );
    }
    if nearest(name, &["eager"]).is_some() {
        return about(alloc, name, " lacks its kind; did you mean eager?", &[]);
    }
    let pieces = [
        Piece::Word(name),
        Piece::Text(" lacks its kind: plain, notify or bootstrap"),
    ];
    told(alloc, "service ", &pieces)
}

/// Why the line of a script of these bytes is none of a service.
pub fn service_message(alloc: Global, bytes: &[u8], line: &[u8]) -> Result<String, NoMemory>
    ensures { IfOk result (λ text. IsMessage (string_bytes text)) }
{
    let Some((name, rest)) = split_word(line) else {
        return said(alloc, "a service line begins with a name");
    };
    let Some((kind, items)) = split_word(rest) else {
        return name_alone(alloc, name);
    };
    if name.len() > 255 || name.first() == Some(&b'%') {
        return about(
            alloc,
            name,
            " is no name; a service's name has 1 to 255 bytes and doesn't begin with # or %",
            &[],
        );
    }
    if !is_known(kind, &KINDS) {
        return unknown_word(alloc, kind, "kind of a service", &KINDS);
    }
    match items_fault(alloc, bytes, kind == b"bootstrap".as_slice(), items)? {
        Some(text) => Ok(text),
        None => {
            let pieces = [
                Piece::Word(name),
                Piece::Text(" is one too many; a script has at most 1024"),
            ];
            told(alloc, "service ", &pieces)
        }
    }
}
