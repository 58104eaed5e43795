//! What a record opened, and what of it is live.

ghost use Rattle.std.specs.Prelude.{◌≡◌, ◌==◌, ◌&&◌, not, map, filter, length};
ghost use Rattle.std.specs.List.{list_any};
ghost use Rattle.std.specs.Option.{option_copied};
ghost use Rattle.svc_record.specs.Record.{has};
ghost use Rattle.svc_record.specs.Descriptors.{Descriptor, is_opened, is_close, has_live, live_numbers_with, address_of, is_doubled, one_live, apart};
ghost use Rattle.svc_record.specs.Closes.{is_received};
ghost use Rattle.svc_record.specs.Plans.{same_address};
ghost use Rattle.svc_judge.specs.Facts.{is_unclosed};
ghost use Rattle.svc_judge.specs.Pasts.{IsPast, plan_of, record_of};

use crate::looking::has;
use crate::past::{Opened, Past, Split};
use crate::plans::same_address;
use crate::query::{Deed, Query};
use svc_record::Entry;

/// The descriptor was opened.
pub(crate) fn is_opened(past: &Past, fd: u64) -> bool
    requires { IsPast past.now }
    ensures { result ≡ is_opened (plan_of past.now) (record_of past.now) fd }
{
    past.opened.iter().any(|opened| opened.number() == fd)
}

/// No close of it was told.
pub(crate) fn is_unclosed(entries: &[Entry], opened: &Opened) -> bool
    ensures { result ≡ not (has (is_close opened.now.number) entries.now) }
{
    !has(Query::Deed(Deed::Close(opened.number())), entries)
}

/// Of the descriptors with the address one isn't closed. The address is compared first, since a close is looked for in the whole record.
fn is_any_unclosed(entries: &[Entry], opened: &[Opened], address: Option<&str>) -> bool
    ensures { result ≡ list_any (is_unclosed entries.now)
        (filter (λ (d : Descriptor). same_address d.address (option_copied address.entry)) opened.now) }
{
    opened
        .iter()
        .filter(|one| same_address(one.address(), address))
        .any(|one| is_unclosed(entries, one))
}

/// A live descriptor has the address.
pub(crate) fn has_live(past: &Past, address: Option<&str>) -> bool
    requires { IsPast past.now }
    ensures { result ≡ has_live (plan_of past.now) (record_of past.now) (option_copied address.entry) }
{
    is_any_unclosed(past.entries, past.opened, address)
}

/// Of the descriptors with the address one with this number isn't closed.
fn is_unclosed_with(entries: &[Entry], opened: &[Opened], address: Option<&str>, fd: u64) -> bool
    ensures { result ≡ list_any (λ n. n == fd) (map (λ (d : Descriptor). d.number) (filter (is_unclosed entries.now)
        (filter (λ (d : Descriptor). same_address d.address (option_copied address.entry)) opened.now))) }
{
    opened
        .iter()
        .filter(|one| same_address(one.address(), address))
        .filter(|one| is_unclosed(entries, one))
        .map(|one| one.number())
        .any(|number| number == fd)
}

/// A live descriptor with the address has this number.
pub(crate) fn is_live_with(past: &Past, address: Option<&str>, fd: u64) -> bool
    requires { IsPast past.now }
    ensures { result ≡ list_any (λ n. n == fd)
        (live_numbers_with (plan_of past.now) (record_of past.now) (option_copied address.entry)) }
{
    is_unclosed_with(past.entries, past.opened, address, fd)
}

/// How many of the descriptors with the address aren't closed.
fn count_unclosed(entries: &[Entry], opened: &[Opened], address: Option<&str>) -> usize
    ensures { result ≡ length (map (λ (d : Descriptor). d.number) (filter (is_unclosed entries.now)
        (filter (λ (d : Descriptor). same_address d.address (option_copied address.entry)) opened.now))) }
{
    opened
        .iter()
        .filter(|one| same_address(one.address(), address))
        .filter(|one| is_unclosed(entries, one))
        .map(|one| one.number())
        .count()
}

/// How many live descriptors have the address.
pub(crate) fn count_live_with(past: &Past, address: Option<&str>) -> usize
    requires { IsPast past.now }
    ensures { result ≡ length
        (live_numbers_with (plan_of past.now) (record_of past.now) (option_copied address.entry)) }
{
    count_unclosed(past.entries, past.opened, address)
}

/// The address with which the descriptor was opened.
pub(crate) fn address_of<'a>(past: &Past<'a>, fd: u64) -> Option<&'a str>
    requires { IsPast past.now }
    ensures { option_copied result ≡ address_of (plan_of past.now) (record_of past.now) fd }
{
    let mut rest = past.opened;
    'opened: while let Some((opened, more)) = rest.split_first() {
        if opened.number() == fd {
            return opened.address();
        }
        rest = more;
    }
    None
}

/// The descriptor is one of the new ones, and a live one has its address.
fn doubles(before: &Past, news: &[Opened], fd: u64) -> bool
    requires { IsPast before.now }
    ensures { result ≡ list_any (λ (d : Descriptor). d.number == fd && has_live (plan_of before.now) (record_of before.now) d.address) news.now }
{
    news.iter().any(|opened| opened.number() == fd && has_live(before, opened.address()))
}

/// Before the event that opened the descriptor, a live one had its address.
pub(crate) fn is_doubled(past: &Past, fd: u64) -> bool
    requires { IsPast past.now }
    ensures { result ≡ is_doubled (plan_of past.now) (record_of past.now) fd }
{
    let mut rest = *past;
    'entries: while let Some(
        Split {
            entry: _,
            news,
            before,
        },
    ) = rest.split()
    {
        if doubles(&before, news, fd) {
            return true;
        }
        rest = before;
    }
    false
}

/// A live one of the others has the descriptor's address.
fn has_twin(entries: &[Entry], opened: &Opened, others: &[Opened]) -> bool
    ensures { result ≡ list_any (λ (x : Descriptor). same_address x.address opened.now.address)
        (filter (is_unclosed entries.now) others.now) }
{
    is_any_unclosed(entries, others, opened.address())
}

/// The descriptor is live, and a live one of the others has its address.
fn is_twinned(entries: &[Entry], opened: &Opened, others: &[Opened]) -> bool
    ensures { result ≡ (is_unclosed entries.now opened.now
        && list_any (λ (x : Descriptor). same_address x.address opened.now.address) (filter (is_unclosed entries.now) others.now)) }
{
    is_unclosed(entries, opened) && has_twin(entries, opened, others)
}

/// No two live ones of the descriptors have one address.
#[tactic(auto, using(crate::proofs::DescriptorLemmas::apart_step))]
fn are_apart(entries: &[Entry], opened: &[Opened]) -> bool
    ensures { result ≡ apart (filter (is_unclosed entries.now) opened.now) }
{
    let mut rest = opened;
    'opened: while let Some((first, more)) = rest.split_first() {
        if is_twinned(entries, first, more) {
            return false;
        }
        rest = more;
    }
    true
}

/// No address has two live descriptors.
pub(crate) fn one_live(past: &Past) -> bool
    requires { IsPast past.now }
    ensures { result ≡ one_live (plan_of past.now) (record_of past.now) }
{
    are_apart(past.entries, past.opened)
}

/// The descriptor came by `Received`.
pub(crate) fn is_received(past: &Past, fd: u64) -> bool
    requires { IsPast past.now }
    ensures { result ≡ is_received (plan_of past.now) (record_of past.now) fd }
{
    past.opened
        .iter()
        .any(|opened| opened.number() == fd && opened.is_received())
}
