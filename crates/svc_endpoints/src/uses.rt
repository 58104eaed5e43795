//! How many endpoints hold each live descriptor, and how many use it.

ghost use Rattle.std.specs.Prelude.{◌≡◌, ◌+◌, ◌<◌, ◌≤◌, ◌==◌, [], OnOk, Some, map, filter, not, true, false};
ghost use Rattle.svc_base.specs.Blocks.{joined, put_by};
ghost use Rattle.svc_base.specs.Items.{list_of, spare};
ghost use Rattle.svc_base.specs.NumberSets.{is_in};
ghost use Rattle.svc_endpoints.specs.declared.uses.UseCount.{UseCount};
ghost use Rattle.svc_endpoints.specs.EndpointsState.{numbers_of_table};
ghost use Rattle.svc_endpoints.specs.Counts.{holder_share, share_of, raised, lowered, unused, one, are_few, is_unused, is_let_go, counted_numbers};

use crate::states::EndpointStatus;
use crate::table::Table;
use std::alloc::Global;
use std::marker::Model;
use svc_base::{Blocks, Keyed, NoMemory};

/// How many endpoints have a descriptor.
#[derive(Clone, Copy, Drop)]
pub(crate) struct UseCount {
    pub fd: u64,
    /// So many endpoints of services that haven't failed hold it.
    pub holders: u32,
    /// So many of those have loops that go on, or are offered it.
    pub users: u32,
}

impl Keyed for UseCount {
    ghost key_of = { λ u. u.fd };

    fn key(&self) -> u64 {
        self.fd
    }
}

/// What an endpoint has of a descriptor.
#[derive(Clone, Copy, Drop)]
pub(crate) struct Share {
    pub fd: u64,
    /// The descriptor holds it, and its service hasn't failed.
    pub holds: bool,
    /// The same, and a loop of it goes on; or it is offered the descriptor.
    pub uses: bool,
}

/// What an endpoint has of the descriptor that it holds, as its service failed or not, and as each of its
/// loops ended or not.
pub(crate) fn holder_share(failed: bool, done: bool, fd: u64) -> Share
    ensures { result ≡ holder_share failed done fd }
{
    Share {
        fd,
        holds: !failed,
        uses: !failed && !done,
    }
}

/// What the endpoint has of a descriptor, as its service failed or not, and as each of its loops ended or
/// not.
pub(crate) fn share_of(failed: bool, done: bool, last: EndpointStatus) -> Option<Share>
    ensures { result ≡ share_of failed done last }
{
    match last {
        EndpointStatus::Adopting(fd) => Some(Share {
            fd,
            holds: false,
            uses: true,
        }),
        EndpointStatus::Holding(fd) => Some(holder_share(failed, done, fd)),
        _ => None,
    }
}

fn one(b: bool) -> u32
    ensures { result ≡ one b }
{
    if b { 1 } else { 0 }
}

/// The count without the share.
fn lowered(count: UseCount, share: Share) -> UseCount
    requires { count.fd ≡ share.fd }
    ensures { result ≡ lowered (Some share) count }
{
    UseCount {
        fd: count.fd,
        holders: count.holders.saturating_sub(one(share.holds)),
        users: count.users.saturating_sub(one(share.uses)),
    }
}

/// The count with the share.
fn raised(count: UseCount, share: Share) -> UseCount
    requires same { count.fd ≡ share.fd }
    requires few { (count.holders ≤ 65536) × (count.users ≤ 65536) }
    ensures { result ≡ raised (Some share) count }
{
    UseCount {
        fd: count.fd,
        holders: count.holders + one(share.holds),
        users: count.users + one(share.uses),
    }
}

fn is_unused(count: UseCount) -> bool
    ensures { result ≡ is_unused count }
{
    count.holders > 0 && count.users == 0
}

/// The counts of the table's descriptors are kept, block after block.
fn keep_blocks(blocks: &mut Vec<Vec<UseCount>>, table: &Table)
    ensures { joined blocks.new.items ≡ filter (λ (u : UseCount). is_in u.fd (numbers_of_table (list_of table.now))) (joined blocks.old.items) }
{
    for at in 0..blocks.len() {
        keep_live(&mut blocks[at], table);
    }
}

/// The same in one block.
fn keep_live(block: &mut Vec<UseCount>, table: &Table)
    ensures { block.new.items ≡ filter (λ (u : UseCount). is_in u.fd (numbers_of_table (list_of table.now))) block.old.items }
{
    block.retain(|count| table.has(count.fd));
}

/// The counts of descriptors, in ascending number. Contracts see them and for how many more there is memory.
#[derive(Drop)]
pub(crate) struct Uses {
    counts: Blocks<UseCount>,
}

impl Model for Uses {
    ghost use Rattle.std.specs.Prelude.{List, ℕ, ◌≡◌, true};
    ghost use Rattle.svc_base.specs.Items.{list_of};
    ghost use Rattle.svc_base.specs.NumberSets.{distinct};
    ghost use Rattle.svc_endpoints.specs.declared.uses.UseCount.{UseCount};
    ghost use Rattle.svc_endpoints.specs.Counts.{counted_numbers};

    ghost Value = { List UseCount × ℕ };

    ghost view = { λ u. u.counts };

    ghost invariant = { λ u. distinct (counted_numbers (list_of u.counts)) ≡ true };
}

impl Uses {
    pub(crate) fn new(alloc: Global) -> Uses
        ensures { list_of result ≡ [] }
    {
        Uses {
            counts: Blocks::new(alloc),
        }
    }

    /// After it there is room for so many more descriptors. `NoMemory` where there is none; nothing has
    /// changed then.
    pub(crate) fn reserve(&mut self, count: usize) -> Result<(), NoMemory>
        ensures counts { list_of self.new ≡ list_of self.old }
        ensures room { OnOk result (count ≤ spare self.new) }
    {
        self.counts.reserve(count)
    }

    /// Takes a descriptor of which one endpoint, which had the other share before, has this one.
    pub(crate) fn add_shared(&mut self, was: Option<Share>, is: Share)
        requires new { is_in is.fd (counted_numbers (list_of self.old)) ≡ false }
        requires room { 0 < spare self.old }
        ensures { list_of self.new ≡ map (raised (Some is)) (map (lowered was) (put_by (λ (u : UseCount). u.fd) (unused is.fd) (list_of self.old))) }
    {
        self.lower(was);
        self.counts.insert(UseCount {
            fd: is.fd,
            holders: one(is.holds),
            users: one(is.uses),
        });
    }

    /// Takes a descriptor that no endpoint has.
    pub(crate) fn add(&mut self, fd: u64)
        requires new { is_in fd (counted_numbers (list_of self.old)) ≡ false }
        requires room { 0 < spare self.old }
        ensures counts { list_of self.new ≡ put_by (λ (u : UseCount). u.fd) (unused fd) (list_of self.old) }
        ensures room { spare self.old ≤ spare self.new + 1 }
    {
        self.counts.insert(UseCount {
            fd,
            holders: 0,
            users: 0,
        });
    }

    /// The descriptor isn't counted any more.
    pub(crate) fn remove(&mut self, fd: u64)
        ensures { list_of self.new ≡ filter (λ (u : UseCount). not (u.fd == fd)) (list_of self.old) }
    {
        let _ = self.counts.remove(fd);
    }

    /// Only the descriptors of the table are counted any more.
    pub(crate) fn keep(&mut self, table: &Table)
        ensures { list_of self.new ≡ filter (λ (u : UseCount). is_in u.fd (numbers_of_table (list_of table.now))) (list_of self.old) }
    {
        let mut blocks = self.counts.take_blocks();
        keep_blocks(&mut blocks, table);
        self.counts.put_blocks(blocks);
    }

    /// What an endpoint has of descriptors changes.
    pub(crate) fn change(&mut self, was: Option<Share>, is: Option<Share>)
        requires few { are_few (list_of self.old) ≡ true }
        ensures { list_of self.new ≡ map (raised is) (map (lowered was) (list_of self.old)) }
    {
        self.lower(was);
        self.raise(is);
    }

    fn lower(&mut self, share: Option<Share>)
        ensures counts { list_of self.new ≡ map (lowered share) (list_of self.old) }
        ensures room { spare self.new ≡ spare self.old }
    {
        if let Some(share) = share {
            if let Some(count) = self.counts.find(share.fd) {
                let next = lowered(*count, share);
                self.counts.replace(next);
            }
        }
    }

    fn raise(&mut self, share: Option<Share>)
        requires few { are_few (list_of self.old) ≡ true }
        ensures { list_of self.new ≡ map (raised share) (list_of self.old) }
    {
        if let Some(share) = share {
            if let Some(count) = self.counts.find(share.fd) {
                let next = raised(*count, share);
                self.counts.replace(next);
            }
        }
    }

    /// Endpoints hold the descriptor, and none uses it any more.
    pub(crate) fn is_let_go(&self, fd: u64) -> bool
        ensures { result ≡ is_let_go fd (list_of self.now) }
    {
        match self.counts.find(fd) {
            Some(count) => is_unused(*count),
            None => false,
        }
    }
}
