//! What is live, as the message to a successor.

ghost use Rattle.std.specs.Prelude.{◌≡◌, ◌+◌, ◌<◌, ◌≤◌, [], length, not, IfOk, OnOk};
ghost use Rattle.std.specs.List.{list_any, filter_map};
ghost use Rattle.std.specs.Option.{option_to_list};
ghost use Rattle.svc_base.specs.Blocks.{joined};
ghost use Rattle.svc_base.specs.Items.{list_of};
ghost use Rattle.svc_fds.specs.Tables.{put_all};
ghost use Rattle.svc_record.specs.declared.plan.Plan.{Plan};
ghost use Rattle.svc_record.specs.Record.{Record};
ghost use Rattle.svc_record.specs.Descriptors.{live_table};
ghost use Rattle.svc_record.specs.Message.{encode};
ghost use Rattle.svc_record.specs.Offer.{is_empty_table};
ghost use Rattle.svc_endpoints.specs.EndpointsState.{EndpointsStand};
ghost use Rattle.svc_endpoints.specs.Offered.{open_entry, offer_table, is_addressed};

use crate::endpoints::Endpoints;
use crate::table::{Open, Table};
use std::alloc::Global;
use svc_base::NoMemory;
use svc_fds::{EncodeError, Fd, Fds, Message};

fn is_addressed(entry: &Open) -> bool
    ensures { result ≡ is_addressed entry.now }
{
    entry.address.is_some()
}

/// Some descriptor has an address.
fn has_addressed(entries: &[Open]) -> bool
    ensures { result ≡ list_any is_addressed entries.now }
{
    entries.iter().any(|entry| is_addressed(entry))
}

/// The same, block after block.
fn has_addressed_block(blocks: &[Vec<Open>]) -> bool
    ensures { result ≡ list_any is_addressed (joined blocks.now) }
{
    for block in blocks {
        if has_addressed(block) {
            return true;
        }
    }
    false
}

/// Adds a copy of the descriptor under its address, if it has one.
fn add_entry(alloc: Global, entry: &Open, fds: &mut Fds) -> Result<(), NoMemory>
    requires { 0 < fds.old.spare }
    ensures entries { OnOk result (fds.new.entries ≡ put_all (option_to_list (open_entry entry.now)) fds.old.entries) }
    ensures room { fds.old.spare ≤ fds.new.spare + 1 }
{
    let Some(address) = &entry.address else {
        return Ok(());
    };
    match fds.add(alloc, address.copy(alloc)?, Fd::new(entry.fd)) {
        Ok(None) => {}
        Ok(Some(replaced)) => {
            let _ = replaced.close();
        }
        Err(_) => unreachable!(),
    }
    Ok(())
}

/// Adds a copy of each descriptor that has an address.
fn add_entries(alloc: Global, entries: &[Open], fds: &mut Fds) -> Result<(), NoMemory>
    requires { length entries.now ≤ fds.old.spare }
    ensures entries { OnOk result (fds.new.entries ≡ put_all (filter_map open_entry entries.now) fds.old.entries) }
    ensures room { OnOk result (fds.old.spare ≤ fds.new.spare + length entries.now) }
{
    for entry in entries {
        add_entry(alloc, entry, fds)?;
    }
    Ok(())
}

/// The same, block after block.
fn add_blocks(alloc: Global, blocks: &[Vec<Open>], fds: &mut Fds) -> Result<(), NoMemory>
    requires { length (joined blocks.now) ≤ fds.old.spare }
    ensures { OnOk result (fds.new.entries ≡ put_all (filter_map open_entry (joined blocks.now)) fds.old.entries) }
{
    for block in blocks {
        add_entries(alloc, block, fds)?;
    }
    Ok(())
}

/// The message of a table, where it has one.
fn encoded(alloc: Global, fds: &Fds) -> Result<Option<Message>, NoMemory>
    ensures { IfOk result (λ m. m ≡ encode fds.now.entries) }
{
    match fds.encode(alloc) {
        Ok(message) => Ok(Some(message)),
        Err(EncodeError::NoMemory) => Err(NoMemory),
        Err(EncodeError::BadAddress) => Ok(None),
        Err(EncodeError::TooLong) => Ok(None),
        Err(EncodeError::TooMany) => Ok(None),
    }
}

/// Fills an empty table with copies of the descriptors that have an address. Its message, where it has
/// one.
fn filled(alloc: Global, table: &Table, fds: &mut Fds) -> Result<Option<Message>, NoMemory>
    requires { fds.old.entries ≡ [] }
    ensures { IfOk result (λ m. m ≡ encode (offer_table (list_of table.now))) }
{
    fds.reserve(alloc, table.len() as u64)?;
    add_blocks(alloc, table.as_blocks(), fds)?;
    encoded(alloc, fds)
}

/// Spends the copies.
fn spend(mut fds: Fds) {
    while let Some((_, fd)) = fds.pop_first() {
        let _ = fd.close();
    }
    fds.finish();
}

impl Endpoints {
    /// What is live, as the message to a successor: the addresses, with the descriptors in the same
    /// order; none where there is no such message. Descriptors without an address are left out.
    pub fn message(&self, alloc: Global) -> Result<Option<Message>, NoMemory>
        ensures { IfOk result (λ m. (p : Plan) (q : Record) → EndpointsStand p self.now.parts q → m ≡ encode (live_table p q)) }
    {
        let mut fds = Fds::new(alloc);
        let message = filled(alloc, self.table(), &mut fds);
        spend(fds);
        message
    }

    /// Something live has an address, so there is something to offer to a successor.
    pub fn offers_anything(&self) -> bool
        ensures { (p : Plan) (q : Record) → EndpointsStand p self.now.parts q → result ≡ not (is_empty_table (live_table p q)) }
    {
        has_addressed_block(self.table().as_blocks())
    }
}
