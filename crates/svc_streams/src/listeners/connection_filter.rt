//! Filters, which are asked about a peer before anything else is done with its connection.

ghost use Rattle.std.specs.Prelude.{◌≡◌, ℕ, ◌<◌, ◌≢◌, Bool, true, List, [], ◌∷◌, ◌++◌, length, Option, slice_get, IfOk, IfErr, OnOk, OnErr};
ghost use Rattle.std.specs.Option.{option_map};
ghost use Rattle.svc_socket.specs.declared.peer.PeerAddr.{PeerAddr};
ghost use Rattle.svc_streams.specs.Verdicts.{verdict_at};

use std::alloc::Global;
use std::marker::Model;
use svc_base::NoMemory;
use svc_socket::PeerAddr;

/// Says which connections are taken.
pub trait ConnectionFilter: Drop {
    // What it answers to a peer, after it was asked these peers, in order.
    ghost verdict: { Self → List (Option PeerAddr) → Option PeerAddr → Bool } = { λ _ _ _. true };

    /// Whether the connection of this peer is taken. None stands for a peer of a Unix socket.
    fn should_accept(&mut self, peer: Option<&PeerAddr>) -> bool
        ensures answer { result ≡ verdict self.old [] (option_map (λ p. p.now) peer.entry) }
        ensures next { (asked : List (Option PeerAddr)) (x : Option PeerAddr) →
            verdict self.new asked x ≡ verdict self.old (option_map (λ p. p.now) peer.entry ∷ asked) x };
}

/// Each call goes to the filter in the box.
impl ConnectionFilter for Box<dyn ConnectionFilter> {
    ghost verdict = { λ b. (ConnectionFilter-box b).verdict b.value };

    fn should_accept(&mut self, peer: Option<&PeerAddr>) -> bool {
        (**self).should_accept(peer)
    }
}

/// A filter that takes every connection.
#[derive(Clone, Copy, Debug)]
pub struct AcceptAllFilter;

impl ConnectionFilter for AcceptAllFilter {
    fn should_accept(&mut self, _peer: Option<&PeerAddr>) -> bool {
        true
    }
}

/// The filters of a server. A filter is named by its number, from 0. Contracts see them as the list
/// of the filters.
#[derive(Drop)]
pub struct Filters<F = Box<dyn ConnectionFilter>> {
    filters: Vec<F>,
}

impl<F> Model for Filters<F> {
    ghost use Rattle.std.specs.Prelude.{List};

    ghost Value = { List F };

    ghost view = { λ s. s.filters.items };
}

/// A filter that isn't added comes back. There was no memory for it, or all numbers are given.
#[derive(Drop)]
pub struct FilterRefused<F = Box<dyn ConnectionFilter>> {
    pub reason: NoMemory,
    pub filter: F,
}

impl<F: ConnectionFilter> Filters<F> {
    /// No filters.
    pub fn new(alloc: Global) -> Self
        ensures { result ≡ [] }
    {
        Filters {
            filters: Vec::new(alloc),
        }
    }

    /// How many filters there are.
    pub fn len(&self) -> u64
        ensures { result ≡ length self.now }
    {
        self.filters.len() as u64
    }

    /// Adds a filter, and answers its number.
    pub fn add(&mut self, _alloc: Global, filter: F) -> Result<u32, FilterRefused<F>>
        ensures number { IfOk result (λ number. number ≡ length self.old) }
        ensures added { OnOk result (self.new ≡ self.old ++ filter ∷ []) }
        ensures refused { OnErr result (self.new ≡ self.old) }
        ensures back { IfErr result (λ r. r.filter ≡ filter) }
    {
        let count = self.filters.len();
        if count > u32::MAX as usize || self.filters.reserve(1).is_err() {
            return Err(FilterRefused {
                reason: NoMemory,
                filter,
            });
        }
        self.filters.push_reserved(filter);
        Ok(count as u32)
    }

    /// What the filter with this number answers to the peer. The others aren't asked.
    pub fn ask(&mut self, number: u32, peer: Option<&PeerAddr>) -> bool
        requires { number < length self.old }
        ensures answer { result
            ≡ verdict_at F.verdict self.old number [] (option_map (λ p. p.now) peer.entry) }
        ensures next { (asked : List (Option PeerAddr)) (x : Option PeerAddr) →
            verdict_at F.verdict self.new number asked x
            ≡ verdict_at F.verdict self.old number (option_map (λ p. p.now) peer.entry ∷ asked) x }
        ensures others { (k : ℕ) → k ≢ number → slice_get self.new k ≡ slice_get self.old k }
        ensures count { length self.new ≡ length self.old }
    {
        self.filters[number as usize].should_accept(peer)
    }
}
