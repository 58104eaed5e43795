//! How an address comes to a descriptor that listens on it.

ghost use Rattle.std.specs.Prelude.{◌≡◌, ◌+◌, ◌≤◌, Some, None, IfOk, OnOk};
ghost use Rattle.svc_fds.specs.Tables.{lookup};
ghost use Rattle.svc_listen.specs.Addresses.{text_of};
ghost use Rattle.svc_listen.specs.Binding.{most_tries, Tried, Reaches};

use super::ServerAddress;
use crate::binder::{BindAnswer, Binder};
use std::alloc::Global;
use std::convert::AsStr;
use svc_base::{NoMemory, Text};
use svc_fds::{Fd, Fds};
use thiserror::Error;

/// How often a TCP address is tried.
const TCP_LISTENER_MAX_TRY: u64 = 30;

/// How many milliseconds a TCP address that is in use is let rest.
const TCP_LISTENER_TRY_STEP: u64 = 1000;

/// Why an address isn't listened on.
#[derive(Clone, Copy, PartialEq, Eq, Debug, Error)]
pub enum BindErrorKind {
    /// The table has a descriptor of the address, and it can't listen.
    #[error("the held descriptor couldn't be adopted")]
    AdoptFailed,
    /// The address couldn't be bound.
    #[error("the address couldn't be bound")]
    Failed,
    /// Each of thirty tries found the address in use; of a Unix address the only one.
    #[error("the address is still in use")]
    StillInUse,
}

/// Why there is no listening endpoint.
#[derive(Clone, Copy, PartialEq, Eq, Debug, Error)]
pub enum ListenError {
    /// There is no address to listen on.
    #[error("no address was given")]
    NoAddress,
    /// The address of an endpoint could not be bound.
    #[error("{0}")]
    BindError(BindErrorKind),
    /// There was no memory.
    #[error("out of memory")]
    NoMemory,
}

/// How many rests lie between the tries of an address.
fn rests_of(addr: &ServerAddress) -> u64
    ensures { result + 1 ≡ most_tries addr.now }
{
    if addr.is_unix() {
        0
    } else {
        TCP_LISTENER_MAX_TRY - 1
    }
}

/// Binds an address. Where it is in use it is tried again after a rest, as often as it may be.
pub(super) fn bind_all<B: Binder>(binder: &mut B, addr: &ServerAddress) -> Result<Fd, BindErrorKind>
    ensures { Tried (B.seen binder.old) (B.seen binder.new) addr.now result }
{
    let rests = rests_of(addr);
    let mut rested = 0;
    loop {
        match binder.bind(addr) {
            BindAnswer::Bound(fd) => return Ok(fd),
            BindAnswer::Failed => return Err(BindErrorKind::Failed),
            BindAnswer::InUse => {}
        }
        if rested == rests {
            return Err(BindErrorKind::StillInUse);
        }
        binder.rest(TCP_LISTENER_TRY_STEP);
        rested += 1;
    }
}

/// Makes room in a table for an address, and the address's text.
fn room_for(alloc: Global, table: &mut Fds, addr: &ServerAddress) -> Result<Text, NoMemory>
    ensures room { OnOk result (1 ≤ table.new.spare) }
    ensures text { IfOk result (λ text. text ≡ text_of addr.now) }
    ensures entries { table.new.entries ≡ table.old.entries }
{
    table.reserve(alloc, 1)?;
    Text::new(alloc, addr.as_str())
}

/// The number of the descriptor that a table has of an address, which is adopted. Where it has none the
/// address is bound, and the table has the descriptor from then on.
pub(super) fn listen_in<B: Binder>(
    alloc: Global,
    table: &mut Fds,
    binder: &mut B,
    addr: &ServerAddress,
) -> Result<u64, ListenError>
    ensures { Reaches B.seen addr.now (Some table.old.entries) binder.old binder.new (Some table.new.entries) result }
{
    if let Some(fd) = table.get(addr.as_str()) {
        let number = fd.number();
        return if binder.adopt(addr, number) {
            Ok(number)
        } else {
            Err(ListenError::BindError(BindErrorKind::AdoptFailed))
        };
    }
    match room_for(alloc, table, addr) {
        Ok(bind) => bind_in(alloc, table, binder, addr, bind),
        Err(NoMemory) => Err(ListenError::NoMemory),
    }
}

/// Binds an address for which a table has room and no descriptor. Its text is that of the address.
fn bind_in<B: Binder>(
    alloc: Global,
    table: &mut Fds,
    binder: &mut B,
    addr: &ServerAddress,
    bind: Text,
) -> Result<u64, ListenError>
    requires room { 1 ≤ table.old.spare }
    requires text { bind ≡ text_of addr.now }
    requires free { lookup (text_of addr.now) table.old.entries ≡ None }
    ensures { Reaches B.seen addr.now (Some table.old.entries) binder.old binder.new (Some table.new.entries) result }
{
    match bind_all(binder, addr) {
        Ok(fd) => {
            let number = fd.number();
            match table.add(alloc, bind, fd) {
                Ok(None) => Ok(number),
                Ok(Some(_held)) => unreachable!(),
                Err(_refused) => unreachable!(),
            }
        }
        Err(kind) => Err(ListenError::BindError(kind)),
    }
}
