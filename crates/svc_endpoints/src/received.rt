//! What an older server's message brings.

ghost use Rattle.std.specs.Prelude.{◌≡◌, ◌+◌, ◌<◌, ◌≤◌, ◌++◌, ◌∷◌, [], length, IfOk, OnErr, slice_get, map, true, false};
ghost use Rattle.svc_base.specs.Blocks.{joined};
ghost use Rattle.svc_base.specs.Items.{list_of, spare};
ghost use Rattle.svc_record.specs.declared.action.Action.TheVariants.{Close};
ghost use Rattle.svc_record.specs.declared.entry.Entry.TheVariants.{Got};
ghost use Rattle.svc_record.specs.declared.event.Event.TheVariants.{Received};
ghost use Rattle.svc_record.specs.Boot.{is_read};
ghost use Rattle.svc_record.specs.Descriptors.{words_or_none};
ghost use Rattle.svc_record.specs.Message.{decode};
ghost use Rattle.svc_record.specs.Plans.{service_count};
ghost use Rattle.svc_record.specs.Record.{Record, tell};
ghost use Rattle.svc_record.specs.Told.{Tells, IsGivingUp};
ghost use Rattle.svc_endpoints.specs.EndpointsState.{IsEndpointsSized, EndpointsStand, all_new};
ghost use Rattle.svc_endpoints.specs.Stays.{StaysHeld};
ghost use Rattle.svc_endpoints.specs.Effects.{passes, turns_away, turned_away, received, numbers_out, opens_of, put_numbers};

use crate::endpoints::Endpoints;
use crate::naming::is_unclaimed;
use std::alloc::Global;
use svc_base::{NoMemory, NumberSet, Text};
use svc_fds::{DecodeError, words};
use svc_record::{Action, Actions, Plan};

/// Whether a message that came with so many descriptors can be read, and its words, none where it
/// can't.
fn read(alloc: Global, bytes: &[u8], count: usize) -> Result<(bool, Vec<Text>), NoMemory>
    ensures good { IfOk result (λ found. found.0 ≡ is_read (decode bytes.now count)) }
    ensures words { IfOk result (λ found. found.1.items ≡ words_or_none (decode bytes.now count)) }
{
    match words::decode(alloc, bytes, count) {
        Ok(words) => Ok((true, words)),
        Err(reason) => {
            if reason == DecodeError::NoMemory {
                return Err(NoMemory);
            }
            Ok((false, Vec::new(alloc)))
        }
    }
}

/// Closes the descriptors with these numbers.
fn close_numbers(numbers: &[u64], actions: &mut Actions)
    requires room { length numbers.now ≤ spare actions.old }
    ensures told { list_of actions.new ≡ list_of actions.old ++ map Close numbers.now }
    ensures room { spare actions.old ≤ spare actions.new + length numbers.now }
{
    for fd in numbers {
        actions.put(Action::Close(*fd));
    }
}

/// The same, block after block.
fn close_number_blocks(blocks: &[Vec<u64>], actions: &mut Actions)
    requires room { length (joined blocks.now) ≤ spare actions.old }
    ensures told { list_of actions.new ≡ list_of actions.old ++ map Close (joined blocks.now) }
    ensures room { spare actions.old ≤ spare actions.new + length (joined blocks.now) }
{
    for block in blocks {
        close_numbers(block, actions);
    }
}

impl Endpoints {
    /// A message of an older server brought descriptors, which are new. Where it can be read, the
    /// k-th descriptor has the k-th word as its address, and it closes at once where a live one has
    /// that address, or no service claims it, or it is abandoned. Where it can't, none has an
    /// address. Whether it can be read. After `NoMemory` nothing has changed.
    pub fn on_received(
        &mut self,
        alloc: Global,
        plan: &Plan,
        bytes: &[u8],
        fds: &[u64],
        actions: &mut Actions,
    ) -> Result<bool, NoMemory>
        requires sized { IsEndpointsSized plan.now self.old.parts }
        requires new { all_new self.old.parts.came fds.now ≡ true }
        requires room { length fds.now ≤ spare actions.old }
        ensures refused { OnErr result (self.new.parts ≡ self.old.parts) }
        ensures untold { OnErr result (actions.new ≡ actions.old) }
        ensures good { IfOk result (λ good. good ≡ is_read (decode bytes.now (length fds.now))) }
        ensures sized { IfOk result (λ good. IsEndpointsSized plan.now self.new.parts) }
        ensures stands { IfOk result (λ good. Tells (list_of actions.old) (list_of actions.new) (λ told. IsGivingUp told × (good ≡ false → told ≡ [])
            × ((q : Record) → EndpointsStand plan.now self.old.parts q
            → EndpointsStand plan.now self.new.parts (tell (Got (Received bytes.now fds.now) ∷ q) told)))) }
        ensures told { IfOk result (λ good. list_of actions.new ≡ list_of actions.old
            ++ map Close (turned_away plan.now self.old.parts (words_or_none (decode bytes.now (length fds.now))) fds.now)) }
        ensures room { IfOk result (λ good. spare actions.old + length self.new.parts.table
            ≤ spare actions.new + length self.old.parts.table + length fds.now) }
        ensures few { IfOk result (λ good. length (list_of actions.new) + length self.new.parts.table ≤ length
            (list_of actions.old) + length self.old.parts.table + length fds.now) }
        ensures failed { self.new.parts.failed ≡ self.old.parts.failed }
        ensures held { StaysHeld self.old.parts self.new.parts }
        ensures rows { self.new.parts.rows ≡ self.old.parts.rows }
    {
        let (good, words) = read(alloc, bytes, fds.len())?;
        let mut out = NumberSet::new(alloc);
        out.reserve(fds.len())?;
        self.reserve_for(fds.len())?;
        self.take_words(plan, words, fds, out, actions);
        Ok(good)
    }

    /// Closes the descriptors that are turned away, in ascending number, and takes the others.
    fn take_words(
        &mut self,
        plan: &Plan,
        words: Vec<Text>,
        fds: &[u64],
        mut out: NumberSet,
        actions: &mut Actions,
    )
        requires flags { length self.old.parts.failed ≡ service_count plan.now }
        requires new { all_new self.old.parts.came fds.now ≡ true }
        requires memory { length fds.now ≤ self.old.room }
        requires none { list_of out ≡ [] }
        requires place { length fds.now ≤ spare out }
        requires room { length fds.now ≤ spare actions.old }
        ensures after { self.new.parts ≡ received plan.now self.old.parts words.items fds.now }
        ensures told { list_of actions.new ≡ list_of actions.old ++ map Close (turned_away plan.now self.old.parts words.items fds.now) }
        ensures room { spare actions.old ≤ spare actions.new + length (turned_away plan.now self.old.parts words.items fds.now) }
    {
        self.turn_away(plan, &words, fds, &mut out);
        close_number_blocks(out.as_blocks(), actions);
        self.take_rest(words, fds, &out);
    }

    /// Puts out the numbers whose words are turned away.
    fn turn_away(&self, plan: &Plan, words: &[Text], fds: &[u64], out: &mut NumberSet)
        requires flags { length self.now.parts.failed ≡ service_count plan.now }
        requires new { all_new (list_of out.old) fds.now ≡ true }
        requires place { length fds.now ≤ spare out.old }
        ensures { list_of out.new ≡ put_numbers (numbers_out (turns_away plan.now self.now.parts) (opens_of fds.now words.now)) (list_of out.old) }
    {
        for k in 0..fds.len() {
            if self.is_word_away(plan, words, k) {
                out.add(fds[k]);
            }
        }
    }

    /// There is a k-th word, and it is turned away.
    fn is_word_away(&self, plan: &Plan, words: &[Text], k: usize) -> bool
        requires { length self.now.parts.failed ≡ service_count plan.now }
        ensures { result ≡ passes (turns_away plan.now self.now.parts) (slice_get words.now k) }
    {
        if k >= words.len() {
            return false;
        }
        self.is_turned_away(plan, words[k].as_str())
    }

    /// A live descriptor has the address, or no service claims it, or it is abandoned.
    fn is_turned_away(&self, plan: &Plan, address: &str) -> bool
        requires { length self.now.parts.failed ≡ service_count plan.now }
        ensures { result ≡ turns_away plan.now self.now.parts address.now }
    {
        self.is_open(address) || is_unclaimed(plan, address) || self.is_abandoned(plan, address)
    }
}
