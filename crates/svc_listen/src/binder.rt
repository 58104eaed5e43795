//! What binds addresses.

ghost use Rattle.std.specs.Prelude.{◌≡◌};
ghost use Rattle.svc_listen.specs.BinderData.{BinderData, outcome_of, IsBound, IsAdopted, IsRested};

use crate::listeners::l4::ServerAddress;
use svc_fds::Fd;

/// What one try to bind an address gave.
#[derive(Debug)]
pub enum BindAnswer {
    /// A descriptor that listens on the address.
    Bound(Fd),
    /// The address is in use.
    InUse,
    /// It failed otherwise.
    Failed,
}

/// What one try to bind an address gave, as a binder tells it: with the number of the descriptor.
#[derive(Clone, Copy)]
pub enum BindOutcome {
    /// A descriptor of this number that listens on the address.
    Bound(u64),
    /// The address is in use.
    InUse,
    /// It failed otherwise.
    Failed,
}

/// A call of a binder, with its answer.
#[derive(Drop)]
pub enum BinderCall {
    /// A try to bind the address, and what it gave.
    Bind(ServerAddress, BindOutcome),
    /// The number of the descriptor that was to be adopted, and whether it was.
    Adopt(ServerAddress, u64, bool),
    /// So many milliseconds.
    Rest(u64),
}

/// What binds addresses and adopts descriptors that are bound. A TCP address is bound as the first one
/// that its text resolves to, with address reuse and its options set before; of a Unix address the path
/// is removed before, and its file gets its mode, also where it is adopted. Both calls listen with a
/// backlog of 65,535. What it told of its calls stays told as long as there is room; where there is no
/// memory to tell a bind or an adoption, no room is left.
pub trait Binder {
    // What contracts see of it.
    ghost seen: { Self → BinderData };

    /// How often it has failed. The count never falls; at its greatest value it stays.
    fn faults(&self) -> u64
        ensures { result ≡ (seen self.now).faults };

    /// How often an address was in use. The count never falls; at its greatest value it stays.
    fn waits(&self) -> u64
        ensures { result ≡ (seen self.now).waits };

    /// Tries once to bind an address and to listen on it.
    fn bind(&mut self, addr: &ServerAddress) -> BindAnswer
        ensures { IsBound (seen self.old) (seen self.new) addr.now (outcome_of result) };

    /// Listens with a descriptor that is bound to the address, and answers whether it does.
    fn adopt(&mut self, addr: &ServerAddress, fd: u64) -> bool
        ensures { IsAdopted (seen self.old) (seen self.new) addr.now fd result };

    /// Waits so many milliseconds.
    fn rest(&mut self, ms: u64)
        ensures { IsRested (seen self.old) (seen self.new) ms };
}
