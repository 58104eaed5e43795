//! A record with what is looked up in it often: what its entries opened, and what was on offer at its
//! first signal.

ghost use Rattle.std.specs.Prelude.{◌≡◌, Option, Some, None};
ghost use Rattle.std.specs.Option.{option_copied};
ghost use Rattle.svc_record.specs.Record.{before_cut, before_signal, before_runtimes};
ghost use Rattle.svc_judge.specs.Pasts.{IsPast, IsSplit, IsRestOf, record_of, reads_behind};

use crate::looking::{count_brought, has, has_cut};
use crate::query::{News, Query};
use std::marker::Model;
use svc_base::Text;
use svc_fds::Message;
use svc_record::{Action, Entry, Event, ExecutionPhase, Plan, ShutdownSignal};

/// An opened descriptor: its number, its address if it has one, and whether an older server sent it.
#[derive(Drop)]
pub struct Opened {
    number: u64,
    address: Option<Text>,
    received: bool,
}

impl Model for Opened {
    ghost use Rattle.svc_record.specs.Descriptors.{Descriptor};

    ghost Value = { Descriptor };

    ghost view = { λ o. record { number = o.number; address = o.address; received = o.received } };
}

impl Opened {
    /// Its parts together.
    pub(crate) fn new(number: u64, address: Option<Text>, received: bool) -> Self
        ensures { result ≡ record { number = number; address = address; received = received } }
    {
        Opened {
            number,
            address,
            received,
        }
    }

    /// Its number.
    pub(crate) fn number(&self) -> u64
        ensures { result ≡ self.now.number }
    {
        self.number
    }

    /// Its address, if it has one.
    pub(crate) fn address(&self) -> Option<&str>
        ensures { option_copied result ≡ self.now.address }
    {
        match &self.address {
            Some(text) => Some(text.as_str()),
            None => None,
        }
    }

    /// Whether an older server sent it.
    pub(crate) fn is_received(&self) -> bool
        ensures { result ≡ self.now.received }
    {
        self.received
    }
}

/// What was live before the first signal, in byte order of the addresses: the descriptors' numbers, and
/// the message that carries them, if there is one.
#[derive(Drop)]
pub struct Offer {
    pub(crate) numbers: Vec<u64>,
    pub(crate) message: Option<Message>,
}

/// A record, newest entry first, with its plan, what its entries opened, the newest first, and what was on
/// offer at the first signal.
#[derive(Clone, Copy)]
pub struct Past<'a> {
    pub(crate) plan: &'a Plan,
    pub(crate) entries: &'a [Entry],
    pub(crate) opened: &'a [Opened],
    /// Whether each message could be read.
    pub(crate) reads: &'a [bool],
    pub(crate) offer: &'a Offer,
    /// The services in startup order.
    pub(crate) order: &'a [u64],
}

/// The newest entry, what it opened, and what stands before it.
pub(crate) struct Split<'a> {
    pub(crate) entry: &'a Entry,
    pub(crate) news: &'a [Opened],
    pub(crate) before: Past<'a>,
}

/// What is known of the messages before this entry.
fn reads_behind<'a>(entry: &Entry, reads: &'a [bool]) -> &'a [bool]
    ensures { result.now ≡ reads_behind entry.now reads.now }
{
    match entry {
        Entry::Got(Event::Received(_, _)) => match reads {
            [] => reads,
            [_, before @ ..] => before,
        },
        _ => reads,
    }
}

impl<'a> Past<'a> {
    /// The newest entry, what it opened, and what stands before it; none where there is no entry.
    pub(crate) fn split(&self) -> Option<Split<'a>>
        requires { IsPast self.now }
        ensures { IsSplit self.now result }
    {
        match self.entries.split_first() {
            Some((entry, entries)) => {
                let (news, opened) = self.opened.split_at(count_brought(entry));
                Some(Split {
                    entry,
                    news,
                    before: Past {
                        plan: self.plan,
                        entries,
                        opened,
                        reads: reads_behind(entry, self.reads),
                        offer: self.offer,
                        order: self.order,
                    },
                })
            }
            None => None,
        }
    }

    /// What stands before the first cut; nothing where none came.
    pub(crate) fn before_cut(&self) -> Past<'a>
        requires { IsPast self.now }
        ensures rest { IsRestOf self.now result }
        ensures cut { record_of result ≡ before_cut (record_of self.now) }
    {
        let mut rest = *self;
        'entries: while let Some(
            Split {
                entry,
                news: _,
                before,
            },
        ) = rest.split()
        {
            if let Entry::Got(Event::Signal(ShutdownSignal::FastShutdown)) = entry
                && !has_cut(before.entries)
            {
                return before;
            }
            rest = before;
        }
        rest
    }

    /// What stands before the first signal; nothing where none came.
    pub(crate) fn before_signal(&self) -> Past<'a>
        requires { IsPast self.now }
        ensures rest { IsRestOf self.now result }
        ensures signal { record_of result ≡ before_signal (record_of self.now) }
    {
        let mut rest = *self;
        'entries: while let Some(
            Split {
                entry,
                news: _,
                before,
            },
        ) = rest.split()
        {
            if let Entry::Got(Event::Signal(_)) = entry
                && !has(Query::News(News::Signal), before.entries)
            {
                return before;
            }
            rest = before;
        }
        rest
    }

    /// What stands before `ShutdownRuntimes`; nothing where it wasn't told.
    pub(crate) fn before_runtimes(&self) -> Past<'a>
        requires { IsPast self.now }
        ensures rest { IsRestOf self.now result }
        ensures runtimes { record_of result ≡ before_runtimes (record_of self.now) }
    {
        let mut rest = *self;
        'entries: while let Some(
            Split {
                entry,
                news: _,
                before,
            },
        ) = rest.split()
        {
            if let Entry::Told(Action::Phase(ExecutionPhase::ShutdownRuntimes, _)) = entry {
                return before;
            }
            rest = before;
        }
        rest
    }
}
