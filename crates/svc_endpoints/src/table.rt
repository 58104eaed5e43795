//! The live descriptors.

ghost use Rattle.std.specs.Prelude.{true, ◌≡◌, ◌+◌, ◌<◌, ◌≤◌, ◌++◌, [], length, ℕ, List, Option, Some, None, IfSome, IfNone, OnOk, map, vec_len, ◌||◌, ◌&&◌, false, ◌^◌, if◌then◌else◌, ◌==◌, filter, not};
ghost use Rattle.std.specs.Option.{option_to_list};
ghost use Rattle.svc_base.specs.Blocks.{joined, rises_by, has_key, StandsIn};
ghost use Rattle.svc_base.specs.Items.{list_of, spare};
ghost use Rattle.svc_base.specs.NumberSets.{is_in};
ghost use Rattle.svc_record.specs.declared.plan.Plan.{Plan};
ghost use Rattle.svc_record.specs.declared.action.Action.TheVariants.{Close};
ghost use Rattle.svc_record.specs.Plans.{service_count, same_address};
ghost use Rattle.svc_endpoints.specs.EndpointsState.{numbers_with, numbers_of_table};
ghost use Rattle.svc_endpoints.specs.Effects.{first_of, put_open, put_opens, opens_of, without_numbers, passes, is_abandoned_by, is_done_for, numbers_like};
ghost use Rattle.svc_endpoints.specs.Counts.{goes_by, gone_by, left_by};
ghost use Rattle.svc_endpoints.specs.Firsts.{are_from, Follows};
ghost use Rattle.svc_endpoints.specs.Sums.{sum_of};
ghost use Rattle.svc_endpoints.specs.declared.table.Open.{Open};

use crate::came::contains;
use crate::firsts::{First, forget, least, note};
use crate::naming::is_abandoned;
use crate::sums::sum_of;
use crate::uses::Uses;
use std::alloc::Global;
use std::marker::Model;
use svc_base::{Blocks, Keyed, NoMemory, NumberSet, Text};
use svc_record::{Action, Actions, Plan};

/// A live descriptor, with the address with which it was opened, if it has one.
#[derive(Drop)]
pub(crate) struct Open {
    pub fd: u64,
    pub address: Option<Text>,
}

/// Live descriptors in ascending number. Contracts see them and for how many more there is memory. Beside
/// them stands for each sum of their addresses the least number and how many there are, so that the one with an
/// address, or that there is none, is found without a walk unless two live addresses have one sum.
#[derive(Drop)]
pub(crate) struct Table {
    entries: Blocks<Open>,
    firsts: Blocks<First>,
}

impl Model for Table {
    ghost use Rattle.std.specs.Prelude.{List, ℕ, ◌≡◌, true, min};
    ghost use Rattle.svc_base.specs.Items.{list_of, spare};
    ghost use Rattle.svc_endpoints.specs.declared.table.Open.{Open};
    ghost use Rattle.svc_endpoints.specs.Firsts.{AreIndexed};

    ghost Value = { List Open × ℕ };

    ghost view = { λ t. (list_of t.entries, min (spare t.entries) (spare t.firsts)) };

    ghost invariant = { λ t. AreIndexed (list_of t.firsts) (list_of t.entries) };
}

impl Keyed for Open {
    ghost key_of = { λ o. o.fd };

    fn key(&self) -> u64 {
        self.fd
    }
}

fn has_address(entry: &Open, address: &str) -> bool
    ensures { result ≡ same_address entry.now.address (Some address.now) }
{
    match &entry.address {
        Some(text) => text.as_str() == address,
        None => false,
    }
}

/// The descriptor has an address, and it is abandoned.
fn is_left(entry: &Open, plan: &Plan, failed: &[bool]) -> bool
    requires { length failed.now ≡ service_count plan.now }
    ensures { result ≡ passes (is_abandoned_by plan.now failed.now) entry.now.address }
{
    match &entry.address {
        Some(text) => is_abandoned(plan, failed, text.as_str()),
        None => false,
    }
}

/// The same, and it isn't kept.
fn is_done(entry: &Open, plan: &Plan, failed: &[bool], kept: &[u64]) -> bool
    requires { length failed.now ≡ service_count plan.now }
    ensures { result ≡ is_done_for plan.now failed.now kept.now entry.now }
{
    is_left(entry, plan, failed) && !contains(kept, entry.fd)
}

/// The same, or it is drained.
fn goes(entry: &Open, plan: &Plan, failed: &[bool], kept: &[u64], uses: &Uses) -> bool
    requires { length failed.now ≡ service_count plan.now }
    ensures { result ≡ goes_by plan.now failed.now kept.now (list_of uses.now) entry.now }
{
    is_done(entry, plan, failed, kept) || uses.is_let_go(entry.fd)
}

/// The next word is taken out, if there is one.
fn next_word(words: &mut Vec<Text>) -> Option<Text>
    ensures words { words.old.items ≡ option_to_list result ++ words.new.items }
    ensures none { result ≡ None → words.old.items ≡ [] }
{
    if words.is_empty() {
        return None;
    }
    Some(words.remove(0))
}

fn find_in(table: &[Open], address: &str) -> Option<u64>
    ensures { result ≡ first_of (numbers_with table.now (Some address.now)) }
{
    for entry in table {
        if has_address(entry, address) {
            return Some(entry.fd);
        }
    }
    None
}

/// The same, block after block.
fn find_in_blocks(blocks: &[Vec<Open>], address: &str) -> Option<u64>
    ensures { result ≡ first_of (numbers_with (joined blocks.now) (Some address.now)) }
{
    for block in blocks {
        let found = find_in(block, address);
        if found.is_some() {
            return found;
        }
    }
    None
}

/// Closes each of them.
fn close_each(table: &[Open], actions: &mut Actions)
    requires room { length table.now ≤ spare actions.old }
    ensures told { list_of actions.new ≡ list_of actions.old ++ map Close (numbers_of_table table.now) }
    ensures room { spare actions.old ≤ spare actions.new + length table.now }
{
    for entry in table {
        actions.put(Action::Close(entry.fd));
    }
}

/// The same, block after block.
fn close_blocks(blocks: &[Vec<Open>], actions: &mut Actions)
    requires room { length (joined blocks.now) ≤ spare actions.old }
    ensures told { list_of actions.new ≡ list_of actions.old ++ map Close (numbers_of_table (joined blocks.now)) }
    ensures room { spare actions.old ≤ spare actions.new + length (joined blocks.now) }
{
    for block in blocks {
        close_each(block, actions);
    }
}

/// Closes those that are drained, or abandoned and not kept, and takes them out.
fn close_done(
    table: &mut Vec<Open>,
    firsts: &mut Blocks<First>,
    plan: &Plan,
    failed: &[bool],
    kept: &[u64],
    uses: &Uses,
    actions: &mut Actions,
)
    requires flags { length failed.now ≡ service_count plan.now }
    requires room { vec_len table.old ≤ spare actions.old }
    ensures after { table.new.items ≡ left_by plan.now failed.now kept.now (list_of uses.now) table.old.items }
    ensures firsts { Follows table.old.items table.new.items (list_of firsts.old) (list_of firsts.new) }
    ensures told { list_of actions.new ≡ list_of actions.old
        ++ map Close (gone_by plan.now failed.now kept.now (list_of uses.now) table.old.items) }
    ensures room { spare actions.old ≤ spare actions.new
        + length (gone_by plan.now failed.now kept.now (list_of uses.now) table.old.items) }
{
    let mut left = 0;
    for i in 0..table.len() {
        let entry = &table[i];
        if goes(entry, plan, failed, kept, uses) {
            forget(firsts, &entry.address);
            actions.put(Action::Close(entry.fd));
        } else {
            table.swap(left, i);
            left += 1;
        }
    }
    table.truncate(left);
}

/// The same, block after block.
fn close_done_blocks(
    blocks: &mut Vec<Vec<Open>>,
    firsts: &mut Blocks<First>,
    plan: &Plan,
    failed: &[bool],
    kept: &[u64],
    uses: &Uses,
    actions: &mut Actions,
)
    requires flags { length failed.now ≡ service_count plan.now }
    requires room { length (joined blocks.old.items) ≤ spare actions.old }
    ensures after { joined blocks.new.items ≡ left_by plan.now failed.now kept.now (list_of uses.now) (joined blocks.old.items) }
    ensures firsts { Follows (joined blocks.old.items) (joined blocks.new.items) (list_of firsts.old) (list_of firsts.new) }
    ensures told { list_of actions.new ≡ list_of actions.old
        ++ map Close (gone_by plan.now failed.now kept.now (list_of uses.now) (joined blocks.old.items)) }
    ensures room { spare actions.old ≤ spare actions.new
        + length (gone_by plan.now failed.now kept.now (list_of uses.now) (joined blocks.old.items)) }
{
    for at in 0..blocks.len() {
        close_done(&mut blocks[at], firsts, plan, failed, kept, uses, actions);
    }
}

/// Closes those with this number, and takes them out.
fn close_like(table: &mut Blocks<Open>, firsts: &mut Blocks<First>, fd: u64, actions: &mut Actions)
    requires room { length (list_of table.old) ≤ spare actions.old }
    ensures after { list_of table.new ≡ filter (λ (o : Open). not (o.fd == fd)) (list_of table.old) }
    ensures firsts { Follows (list_of table.old) (list_of table.new) (list_of firsts.old) (list_of firsts.new) }
    ensures told { list_of actions.new ≡ list_of actions.old ++ map Close (numbers_like fd (list_of table.old)) }
    ensures room { spare actions.old ≤ spare actions.new + length (numbers_like fd (list_of table.old)) }
{
    while let Some(closed) = table.remove(fd) {
        forget(firsts, &closed.address);
        actions.put(Action::Close(fd));
    }
}

impl Table {
    pub(crate) fn new(alloc: Global) -> Table
        ensures { list_of result ≡ [] }
    {
        Table {
            entries: Blocks::new(alloc),
            firsts: Blocks::new(alloc),
        }
    }

    /// After it there is room for so many more descriptors. `NoMemory` where there is none; nothing has
    /// changed then.
    pub(crate) fn reserve(&mut self, count: usize) -> Result<(), NoMemory>
        ensures entries { list_of self.new ≡ list_of self.old }
        ensures room { OnOk result (count ≤ spare self.new) }
    {
        self.entries.reserve(count)?;
        self.firsts.reserve(count)
    }

    pub(crate) fn len(&self) -> usize
        ensures small { result < 2 ^ 60 }
        ensures length { result ≡ length (list_of self.now) }
    {
        self.entries.len()
    }

    /// The descriptor is live.
    pub(crate) fn has(&self, fd: u64) -> bool
        ensures { result ≡ is_in fd (numbers_of_table (list_of self.now)) }
    {
        self.entries.find(fd).is_some()
    }

    /// The live descriptor with the number.
    pub(crate) fn entry(&self, fd: u64) -> Option<&Open>
        ensures found { IfSome result (λ o. StandsIn (λ (x : Open). x.fd) fd (list_of self.now) o.now) }
        ensures absent { IfNone result (has_key (λ (x : Open). x.fd) fd (list_of self.now) ≡ false) }
        ensures rise { rises_by (λ (x : Open). x.fd) (list_of self.now) ≡ true }
    {
        self.entries.find(fd)
    }

    /// The live descriptors, in ascending number, block after block.
    pub(crate) fn as_blocks(&self) -> &[Vec<Open>]
        ensures { joined result.now ≡ list_of self.now }
    {
        self.entries.as_blocks()
    }

    /// The live descriptor with this address.
    pub(crate) fn find(&self, address: &str) -> Option<u64>
        ensures { result ≡ first_of (numbers_with (list_of self.now) (Some address.now)) }
    {
        match least(&self.firsts, sum_of(address)) {
            Some(fd) => self.find_from(fd, address),
            None => None,
        }
    }

    /// The same, where none with the address has a lesser number than this. Mostly this one has it.
    fn find_from(&self, fd: u64, address: &str) -> Option<u64>
        requires rise { rises_by (λ (o : Open). o.fd) (list_of self.now) ≡ true }
        requires from { are_from (sum_of address.now) fd (list_of self.now) ≡ true }
        ensures { result ≡ first_of (numbers_with (list_of self.now) (Some address.now)) }
    {
        if self.has_with(fd, address) {
            return Some(fd);
        }
        find_in_blocks(self.entries.as_blocks(), address)
    }

    /// A descriptor with this number has the address.
    fn has_with(&self, fd: u64, address: &str) -> bool
        ensures { result ≡ true → is_in fd (numbers_with (list_of self.now) (Some address.now)) ≡ true }
    {
        match self.entries.find(fd) {
            Some(entry) => has_address(entry, address),
            None => false,
        }
    }

    /// Takes a descriptor.
    pub(crate) fn add(&mut self, fd: u64, address: Option<Text>)
        requires { 0 < spare self.old }
        ensures entries { list_of self.new ≡ put_open (record { fd = fd; address = address }) (list_of self.old) }
        ensures room { spare self.old ≤ spare self.new + 1 }
    {
        prove!(self.entries.len() < 1 << 59);
        note(&mut self.firsts, &address, fd);
        self.entries.insert(Open { fd, address });
    }

    /// Takes descriptors, each with the word at its place if there is one, but for those that are
    /// left out.
    pub(crate) fn add_rest(&mut self, mut words: Vec<Text>, fds: &[u64], out: &NumberSet)
        requires { length fds.now ≤ spare self.old }
        ensures { list_of self.new ≡ put_opens (without_numbers (list_of out.now) (opens_of fds.now words.items)) (list_of self.old) }
    {
        for fd in fds {
            let address = next_word(&mut words);
            self.add_unless(out.has(*fd), *fd, address);
        }
    }

    /// Takes a descriptor, unless it is left out.
    fn add_unless(&mut self, left_out: bool, fd: u64, address: Option<Text>)
        requires { 0 < spare self.old }
        ensures entries { list_of self.new ≡ (if left_out then list_of self.old else put_open (record { fd = fd; address = address }) (list_of self.old)) }
        ensures room { spare self.old ≤ spare self.new + 1 }
    {
        if !left_out {
            self.add(fd, address);
        }
    }

    /// Closes the descriptors that are drained, or abandoned and not kept, in ascending number.
    pub(crate) fn close_gone(
        &mut self,
        plan: &Plan,
        failed: &[bool],
        kept: &[u64],
        uses: &Uses,
        actions: &mut Actions,
    )
        requires flags { length failed.now ≡ service_count plan.now }
        requires room { length (list_of self.old) ≤ spare actions.old }
        ensures after { list_of self.new ≡ left_by plan.now failed.now kept.now (list_of uses.now) (list_of self.old) }
        ensures told { list_of actions.new ≡ list_of actions.old
            ++ map Close (gone_by plan.now failed.now kept.now (list_of uses.now) (list_of self.old)) }
        ensures room { spare actions.old ≤ spare actions.new + length
            (gone_by plan.now failed.now kept.now (list_of uses.now) (list_of self.old)) }
    {
        let mut blocks = self.entries.take_blocks();
        close_done_blocks(
            &mut blocks,
            &mut self.firsts,
            plan,
            failed,
            kept,
            uses,
            actions,
        );
        self.entries.put_blocks(blocks);
    }

    /// Closes the descriptor with this number.
    pub(crate) fn close_number(&mut self, fd: u64, actions: &mut Actions)
        requires room { length (list_of self.old) ≤ spare actions.old }
        ensures after { list_of self.new ≡ filter (λ (o : Open). not (o.fd == fd)) (list_of self.old) }
        ensures told { list_of actions.new ≡ list_of actions.old ++ map Close (numbers_like fd (list_of self.old)) }
        ensures room { spare actions.old ≤ spare actions.new + length (numbers_like fd (list_of self.old)) }
    {
        close_like(&mut self.entries, &mut self.firsts, fd, actions);
    }

    /// Closes each descriptor, in ascending number.
    pub(crate) fn close_all(&self, actions: &mut Actions)
        requires room { length (list_of self.now) ≤ spare actions.old }
        ensures told { list_of actions.new ≡ list_of actions.old ++ map Close (numbers_of_table (list_of self.now)) }
        ensures room { spare actions.old ≤ spare actions.new + length (list_of self.now) }
    {
        close_blocks(self.entries.as_blocks(), actions);
    }
}
