//! What is looked up in a record often, made once.

ghost use Rattle.std.specs.Prelude.{◌≡◌, ◌==◌, ◌<◌, ◌≤◌, ◌+◌, ◌++◌, [], filter, IfOk, OnOk, Option, Some, None};
ghost use Rattle.std.specs.List.{filter_map, list_any, list_all, find};
ghost use Rattle.std.specs.Option.{option_to_list, option_copied};
ghost use Rattle.svc_fds.specs.Tables.{put_all, numbers};
ghost use Rattle.svc_record.specs.Message.{encode, decode};
ghost use Rattle.svc_record.specs.Boot.{is_read};
ghost use Rattle.svc_record.specs.Record.{before_signal};
ghost use Rattle.svc_record.specs.Descriptors.{with_words, words_or_none, descriptors_of, opened_descriptors, as_entry, live_table};
ghost use Rattle.svc_record.specs.Plans.{services};
ghost use Rattle.svc_record.specs.Starts.{comes_next, first_number, startup_order};
ghost use Rattle.svc_judge.specs.Facts.{is_unclosed, put_live, reads_at};
ghost use Rattle.svc_judge.specs.Pasts.{reads_of};

use crate::descriptors::is_unclosed;
use crate::looking::{has, is_in};
use crate::past::{Offer, Opened};
use crate::plans::{address, depends, service_count};
use crate::query::{News, Query};
use std::alloc::Global;
use svc_base::{NoMemory, Text};
use svc_fds::{DecodeError, EncodeError, Fd, Fds, Message, words};
use svc_record::{Entry, Event, Plan};

/// Whether a message can be read, and its words.
fn read(alloc: Global, bytes: &[u8], count: usize) -> Result<(bool, Vec<Text>), NoMemory>
    ensures good { IfOk result (λ found. found.0 ≡ is_read (decode bytes.now count)) }
    ensures words { IfOk result (λ found. found.1.items ≡ words_or_none (decode bytes.now count)) }
{
    match words::decode(alloc, bytes, count) {
        Ok(words) => Ok((true, words)),
        Err(reason) => {
            if reason == DecodeError::NoMemory {
                return Err(NoMemory);
            }
            Ok((false, Vec::new(alloc)))
        }
    }
}

/// A copy of the text, if there is one.
fn copied(alloc: Global, text: Option<&str>) -> Result<Option<Text>, NoMemory>
    ensures { IfOk result (λ copy. copy ≡ option_copied text.entry) }
{
    match text {
        Some(text) => Ok(Some(Text::new(alloc, text)?)),
        None => Ok(None),
    }
}

/// Adds each number with the word at its place, and without an address where there is none.
fn add_words(
    alloc: Global,
    opened: &mut Vec<Opened>,
    fds: &[u64],
    texts: &[Text],
) -> Result<(), NoMemory>
    ensures { OnOk result (opened.new.items ≡ opened.old.items ++ with_words fds.now texts.now) }
{
    let mut rest = fds;
    let mut left = texts;
    'numbers: while let Some((fd, more)) = rest.split_first() {
        match left.split_first() {
            Some((text, others)) => {
                let address = Some(text.copy(alloc)?);
                opened.push(Opened::new(*fd, address, true))?;
                left = others;
            }
            None => opened.push(Opened::new(*fd, None, true))?,
        }
        rest = more;
    }
    Ok(())
}

/// Adds what an entry opened.
fn add_opened(
    alloc: Global,
    opened: &mut Vec<Opened>,
    reads: &mut Vec<bool>,
    plan: &Plan,
    entry: &Entry,
) -> Result<(), NoMemory>
    ensures opened { OnOk result (opened.new.items ≡ opened.old.items ++ descriptors_of plan.now entry.now) }
    ensures reads { OnOk result (reads.new.items ≡ reads.old.items ++ reads_at entry.now) }
{
    match entry {
        Entry::Got(Event::Bound(s, i, fd)) => {
            let address = copied(alloc, address(plan, u64::from(*s), u64::from(*i)))?;
            opened.push(Opened::new(*fd, address, false))?;
            Ok(())
        }
        Entry::Got(Event::Received(bytes, fds)) => {
            let (good, texts) = read(alloc, bytes.as_slice(), fds.as_slice().len())?;
            reads.push(good)?;
            add_words(alloc, opened, fds.as_slice(), &texts)
        }
        _ => Ok(()),
    }
}

/// What the record opened, and whether each message could be read, the newest first.
pub(crate) fn opened_of(
    alloc: Global,
    plan: &Plan,
    entries: &[Entry],
) -> Result<(Vec<Opened>, Vec<bool>), NoMemory>
    ensures opened { IfOk result (λ found. found.0.items ≡ opened_descriptors plan.now entries.now) }
    ensures reads { IfOk result (λ found. found.1.items ≡ reads_of entries.now) }
{
    let mut opened = Vec::new(alloc);
    let mut reads = Vec::new(alloc);
    let mut rest = entries;
    'entries: while let Some((entry, before)) = rest.split_first() {
        add_opened(alloc, &mut opened, &mut reads, plan, entry)?;
        rest = before;
    }
    Ok((opened, reads))
}

/// All of these services are among those listed.
fn are_listed(listed: &[u64], numbers: &[u32]) -> bool
    ensures { result ≡ list_all (λ d. list_any (λ n. n == d) listed.now) numbers.now }
{
    numbers
        .iter()
        .all(|number| is_in(u64::from(*number), listed))
}

/// The service isn't among those listed, and all that it depends on are.
fn comes_next(plan: &Plan, listed: &[u64], s: u64) -> bool
    ensures { result ≡ comes_next plan.now listed.now s }
{
    !is_in(s, listed) && are_listed(listed, depends(plan, s))
}

/// The first service that isn't listed yet, and whose dependencies are.
fn found_service(plan: &Plan, listed: &[u64]) -> Option<u64>
    ensures { result ≡ find (comes_next plan.now listed.now) (services plan.now) }
{
    (0..service_count(plan)).find(|s| comes_next(plan, listed, *s))
}

/// The least service that isn't listed yet, and whose dependencies are.
fn next_service(plan: &Plan, listed: &[u64]) -> Option<u64>
    ensures { option_to_list result ≡ first_number (comes_next plan.now listed.now) (services plan.now) }
{
    found_service(plan, listed)
}

/// The services in startup order.
pub(crate) fn startup_order(alloc: Global, plan: &Plan) -> Result<Vec<u64>, NoMemory>
    ensures { IfOk result (λ order. order.items ≡ startup_order plan.now) }
{
    let mut listed = Vec::new(alloc);
    for n in 0..service_count(plan) {
        if let Some(s) = next_service(plan, &listed) {
            listed.push(s)?;
        }
    }
    Ok(listed)
}

/// What stands before the first signal; nothing where none came.
fn before_signal(entries: &[Entry]) -> &[Entry]
    ensures { result.now ≡ before_signal entries.now }
{
    let mut rest = entries;
    'entries: while let Some((entry, before)) = rest.split_first() {
        if let Entry::Got(Event::Signal(_)) = entry
            && !has(Query::News(News::Signal), before)
        {
            return before;
        }
        rest = before;
    }
    rest
}

/// Adds the descriptor under its address, if it is live and has one.
fn add_entry(
    alloc: Global,
    entries: &[Entry],
    opened: &Opened,
    table: &mut Fds,
) -> Result<(), NoMemory>
    requires { 0 < table.old.spare }
    ensures table { OnOk result (table.new.entries ≡ put_live entries.now opened.now table.old.entries) }
    ensures room { table.old.spare ≤ table.new.spare + 1 }
{
    if !is_unclosed(entries, opened) {
        return Ok(());
    }
    let Some(address) = opened.address() else {
        return Ok(());
    };
    match table.add(alloc, Text::new(alloc, address)?, Fd::new(opened.number())) {
        Ok(None) => {}
        Ok(Some(replaced)) => {
            let _ = replaced.close();
        }
        Err(_) => unreachable!(),
    }
    Ok(())
}

/// Fills an empty table with what is live.
fn fill(
    alloc: Global,
    entries: &[Entry],
    opened: &[Opened],
    table: &mut Fds,
) -> Result<(), NoMemory>
    requires { table.old.entries ≡ [] }
    ensures { OnOk result (table.new.entries
        ≡ put_all (filter_map as_entry (filter (is_unclosed entries.now) opened.now)) []) }
{
    table.reserve(alloc, opened.len() as u64)?;
    let mut rest = opened;
    'opened: while let Some((first, more)) = rest.split_first() {
        add_entry(alloc, entries, first, table)?;
        rest = more;
    }
    Ok(())
}

/// The message of a table, where it has one.
fn encoded(alloc: Global, table: &Fds) -> Result<Option<Message>, NoMemory>
    ensures { IfOk result (λ m. m ≡ encode table.now.entries) }
{
    match table.encode(alloc) {
        Ok(message) => Ok(Some(message)),
        Err(EncodeError::NoMemory) => Err(NoMemory),
        Err(EncodeError::BadAddress) => Ok(None),
        Err(EncodeError::TooLong) => Ok(None),
        Err(EncodeError::TooMany) => Ok(None),
    }
}

/// Spends the copies.
fn spend(mut table: Fds) {
    while let Some((_, fd)) = table.pop_first() {
        let _ = fd.close();
    }
    table.finish();
}

/// What the filled table offers.
fn offer_in(
    alloc: Global,
    entries: &[Entry],
    opened: &[Opened],
    table: &mut Fds,
) -> Result<Offer, NoMemory>
    requires { table.old.entries ≡ [] }
    ensures numbers { IfOk result (λ o. o.numbers.items
        ≡ numbers (put_all (filter_map as_entry (filter (is_unclosed entries.now) opened.now)) [])) }
    ensures message { IfOk result (λ o. o.message
        ≡ encode (put_all (filter_map as_entry (filter (is_unclosed entries.now) opened.now)) [])) }
{
    fill(alloc, entries, opened, table)?;
    let (_, numbers) = table.serialize(alloc)?;
    let numbers = numbers.as_slice().to_vec(alloc)?;
    let message = encoded(alloc, table)?;
    Ok(Offer { numbers, message })
}

/// What is live at the end of these entries, for an offer.
fn offer_at(alloc: Global, plan: &Plan, entries: &[Entry]) -> Result<Offer, NoMemory>
    ensures numbers { IfOk result (λ o. o.numbers.items ≡ numbers (live_table plan.now entries.now)) }
    ensures message { IfOk result (λ o. o.message ≡ encode (live_table plan.now entries.now)) }
{
    let (opened, _) = opened_of(alloc, plan, entries)?;
    let mut table = Fds::new(alloc);
    let offer = offer_in(alloc, entries, &opened, &mut table);
    spend(table);
    offer
}

/// What was live before the first signal.
pub(crate) fn offer_of(alloc: Global, plan: &Plan, entries: &[Entry]) -> Result<Offer, NoMemory>
    ensures numbers { IfOk result (λ o. o.numbers.items ≡ numbers (live_table plan.now (before_signal entries.now))) }
    ensures message { IfOk result (λ o. o.message ≡ encode (live_table plan.now (before_signal entries.now))) }
{
    offer_at(alloc, plan, before_signal(entries))
}
