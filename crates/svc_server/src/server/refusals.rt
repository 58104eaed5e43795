//! Why a service isn't added.

use svc_base::NoMemory;
use svc_graph::ServiceHandle;
use thiserror::Error;

/// Why a service isn't added to a server. The first of these that stands is answered, but for want
/// of memory, which may come instead of each.
#[derive(Clone, Copy, PartialEq, Eq, Debug, Error)]
pub enum AddError {
    /// 1,024 services are there.
    #[error("too many services")]
    TooMany,
    /// The service has over 64 endpoints.
    #[error("too many endpoints")]
    TooManyEndpoints,
    /// The endpoint with this index, from 0, is the first whose address is empty or has over 4,096
    /// bytes.
    #[error("endpoint {0} has an address that is empty or too long")]
    BadAddressText(u64),
    /// The endpoint with this index, from 0, is the first with a filter that the server doesn't have.
    #[error("endpoint {0} has an unknown filter")]
    UnknownFilter(u64),
    /// There was no memory.
    #[error("out of memory")]
    NoMemory,
}

impl From<NoMemory> for AddError {
    ghost use Rattle.std.specs.Prelude.{◌≡◌};
    ghost use Rattle.svc_server.specs.declared.server.refusals.AddError.TheVariants as errors;

    ghost from_gives = { λ _ error. error ≡ errors.NoMemory };

    fn from(_: NoMemory) -> Self {
        AddError::NoMemory
    }
}

/// A service that isn't added comes back.
#[derive(Drop)]
pub struct AddRefused<B> {
    pub reason: AddError,
    pub service: B,
}

/// Services of which one isn't added: those before it stay in the server.
#[derive(Drop)]
pub struct AddAllRefused<B> {
    pub reason: AddError,
    /// The index, from 0, of the service that isn't added.
    pub index: u64,
    /// The handles of those before it, in order.
    pub handles: Vec<ServiceHandle>,
    /// It and those after it, in order.
    pub services: Vec<B>,
}
