//! The endpoints that a service line names, with their options.

ghost use Rattle.std.specs.Prelude.{◌≡◌, ◌<◌, ◌++◌, ◌∷◌, [], length, OnOk, OnErr, IfSome};
ghost use Rattle.std.specs.List.{list_any};
ghost use Rattle.svc_text.specs.EndpointOptions.{same_sort, last_tcp_from, options_at, with_option_at};

use crate::lists::push_item;
use crate::service::EndpointLine;
use std::alloc::Global;
use std::marker::Model;
use std::mem::drop;
use svc_base::{NoMemory, Setting};

/// The endpoints of a service line, in its order. Contracts see them as a list.
#[derive(Drop)]
pub struct EndpointLines {
    lines: Vec<EndpointLine>,
}

impl Model for EndpointLines {
    ghost use Rattle.std.specs.Prelude.{List};
    ghost use Rattle.svc_text.specs.declared.service.EndpointLine.{EndpointLine};

    ghost Value = { List EndpointLine };

    ghost view = { λ s. s.lines.items };
}

/// The two settings are of one sort.
pub fn same_sort(a: Setting, b: Setting) -> bool
    ensures { result ≡ same_sort a b }
{
    match a {
        Setting::NoDelay => matches!(b, Setting::NoDelay),
        Setting::KeepAlive(_) => matches!(b, Setting::KeepAlive(_)),
        Setting::Dscp(_) => matches!(b, Setting::Dscp(_)),
        Setting::SndBuf(_) => matches!(b, Setting::SndBuf(_)),
        Setting::RcvBuf(_) => matches!(b, Setting::RcvBuf(_)),
    }
}

/// One of the options is of this sort.
fn has_sort(options: &[Setting], option: Setting) -> bool
    ensures { result ≡ list_any (same_sort option) options.now }
{
    options.iter().any(|other| same_sort(option, *other))
}

/// The number of the last TCP endpoint.
fn last_tcp(lines: &[EndpointLine]) -> Option<usize>
    ensures number { result ≡ last_tcp_from 0 lines.now }
    ensures within { IfSome result (λ k. k < length lines.now) }
{
    let mut last = None;
    for k in 0..lines.len() {
        if !lines[k].unix {
            last = Some(k);
        }
    }
    last
}

impl EndpointLines {
    /// No endpoints.
    pub fn new(alloc: Global) -> Self
        ensures { result ≡ [] }
    {
        EndpointLines {
            lines: Vec::new(alloc),
        }
    }

    /// The lines, in the order in which they were appended.
    pub fn as_slice(&self) -> &[EndpointLine]
        ensures { result.now ≡ self.now }
    {
        self.lines.as_slice()
    }

    /// How many lines there are.
    pub fn len(&self) -> u64
        ensures { result ≡ length self.now }
    {
        self.lines.len() as u64
    }

    /// Appends.
    pub fn push(&mut self, endpoint: EndpointLine) -> Result<(), NoMemory>
        ensures ok { OnOk result (self.new ≡ self.old ++ endpoint ∷ []) }
        ensures refused { OnErr result (self.new ≡ self.old) }
    {
        match self.lines.reserve(1) {
            Ok(()) => {
                self.lines.push_reserved(endpoint);
                Ok(())
            }
            Err(_) => {
                drop(endpoint);
                Err(NoMemory)
            }
        }
    }

    /// The number of the last TCP endpoint.
    pub fn last_tcp(&self) -> Option<usize>
        ensures number { result ≡ last_tcp_from 0 self.now }
        ensures within { IfSome result (λ k. k < length self.now) }
    {
        last_tcp(self.lines.as_slice())
    }

    /// Endpoint k has an option of this sort.
    pub fn has_sort(&self, k: usize, option: Setting) -> bool
        requires { k < length self.now }
        ensures { result ≡ list_any (same_sort option) (options_at k self.now) }
    {
        has_sort(self.lines[k].options.as_slice(), option)
    }

    /// Adds an option to endpoint k.
    pub fn add_option(&mut self, alloc: Global, k: usize, option: Setting) -> Result<(), NoMemory>
        requires { k < length self.old }
        ensures { OnOk result (self.new ≡ with_option_at k option self.old) }
    {
        push_item(alloc, &mut self.lines[k].options, option)
    }
}
