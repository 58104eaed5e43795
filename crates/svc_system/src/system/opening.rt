//! How the operating system's side of a server is opened.

ghost use Rattle.std.specs.Prelude.{◌≡◌, false, IfOk};

use super::System;
use crate::address::ControlAddress;
use crate::connections::Connections;
use crate::endpoints::Endpoints;
use crate::handover::Taking;
use crate::inherited::Inherited;
use crate::listeners::Listeners;
use crate::offer::Offer;
use crate::operators::{ControlRefused, Operators};
use crate::readiness::Readiness;
use crate::report::LogState;
use crate::times::Times;
use std::alloc::Global;
use std::fs::File;
use std::mem::drop;
use std::net::{Net, TcpListener, TcpStream};
use std::rt::Files;
use std::time::Clock;
use svc_base::NoMemory;
use svc_record::{ExecutionPhase, Plan};
use svc_work::WorkLine;
use thiserror::Error;

/// Why a server's side of the operating system can't be opened.
#[derive(Clone, Copy, Debug, PartialEq, Eq, Error)]
pub enum OpenRefused {
    /// There was no memory.
    #[error("out of memory")]
    NoMemory,
    /// The clock can't be read.
    #[error("the clock can't be read")]
    Clock,
    /// Nothing can be watched: the system has no descriptor left, or no memory.
    #[error("the system can't watch sockets")]
    Readiness,
    /// Somebody listens at the control address.
    #[error("the control address is in use")]
    ControlInUse,
    /// The control address can't be listened at.
    #[error("the control address can't be bound")]
    Control,
}

impl From<NoMemory> for OpenRefused {
    fn from(_: NoMemory) -> Self {
        OpenRefused::NoMemory
    }
}

impl From<ControlRefused> for OpenRefused {
    fn from(refused: ControlRefused) -> Self {
        match refused {
            ControlRefused::NoMemory => OpenRefused::NoMemory,
            ControlRefused::InUse => OpenRefused::ControlInUse,
            ControlRefused::Failed => OpenRefused::Control,
        }
    }
}

/// What a server has of the system before its tables.
#[derive(Drop)]
pub(super) struct Basis {
    pub times: Times,
    pub operators: Operators,
    pub readiness: Readiness,
    pub taking: Option<Taking>,
}

/// What watches sockets, with the operators' socket in it.
fn watched<R: Net>(
    rt: &R,
    alloc: Global,
    operators: &mut Operators,
) -> Result<Readiness, OpenRefused> {
    match Readiness::open(rt, alloc) {
        Ok(readiness) => {
            if operators.watch(&readiness) {
                Ok(readiness)
            } else {
                drop(readiness);
                Err(OpenRefused::Readiness)
            }
        }
        Err(_) => Err(OpenRefused::Readiness),
    }
}

/// The operators' socket, and what watches it.
fn listened<R: Net<Listener = TcpListener, Stream = TcpStream> + Files<File = File>>(
    rt: &R,
    alloc: Global,
    control: ControlAddress,
) -> Result<(Operators, Readiness), OpenRefused> {
    let mut operators = Operators::open(rt, alloc, control)?;
    match watched(rt, alloc, &mut operators) {
        Ok(readiness) => Ok((operators, readiness)),
        Err(refused) => {
            operators.close(rt);
            drop(operators);
            Err(refused)
        }
    }
}

/// The tables of a server with this plan, whose services do what these lines say.
fn tables<R: Net>(
    rt: &R,
    alloc: Global,
    plan: &Plan,
    works: &[WorkLine],
) -> Result<(Endpoints, Connections), NoMemory> {
    let endpoints = Endpoints::learn(rt, alloc, plan, works)?;
    match Connections::new(alloc) {
        Ok(connections) => Ok((endpoints, connections)),
        Err(NoMemory) => {
            drop(endpoints);
            Err(NoMemory)
        }
    }
}

/// What a server has of the system whose control socket isn't there yet.
pub(super) fn unwatched<
    R: Net<Listener = TcpListener, Stream = TcpStream> + Files<File = File> + Clock,
>(rt: &R, alloc: Global) -> Result<(Times, Operators, Readiness), OpenRefused> {
    let Ok(times) = Times::start(rt) else {
        return Err(OpenRefused::Clock);
    };
    let operators = Operators::absent(rt, alloc)?;
    match Readiness::open(rt, alloc) {
        Ok(readiness) => Ok((times, operators, readiness)),
        Err(_) => {
            drop(operators);
            Err(OpenRefused::Readiness)
        }
    }
}

/// The system's side of a server with this plan over this basis. Nothing was told yet.
pub(super) fn with_tables<
    'a,
    R: Net<Listener = TcpListener, Stream = TcpStream> + Files<File = File> + Clock,
>(
    rt: &'a R,
    alloc: Global,
    plan: &Plan,
    works: &[WorkLine],
    basis: Basis,
) -> Result<System<'a, R>, OpenRefused>
    ensures goes_on { IfOk result (λ system. system.has_ended ≡ false) }
    ensures serves { IfOk result (λ system. system.is_forsaken ≡ false) }
{
    match tables(rt, alloc, plan, works) {
        Ok((endpoints, connections)) => {
            let Basis {
                times,
                operators,
                readiness,
                taking,
            } = basis;
            Ok(System {
                rt,
                alloc,
                readiness,
                times,
                endpoints,
                listeners: Listeners::new(alloc),
                connections,
                operators,
                phase: ExecutionPhase::Setup,
                signal: None,
                found: None,
                failed_connects: 0,
                log: LogState::Absent,
                is_draining: false,
                is_forsaken: false,
                has_ended: false,
                has_failed: false,
                taking,
                offer: Offer::Idle,
                is_asked: false,
                inherited: Inherited::new(alloc),
            })
        }
        Err(NoMemory) => {
            basis.operators.close(rt);
            drop(basis);
            Err(OpenRefused::NoMemory)
        }
    }
}

impl<'a, R: Net<Listener = TcpListener, Stream = TcpStream> + Files<File = File> + Clock> System<
    'a,
    R,
> {
    /// The system's side of a server with this plan, whose services do what these lines say: a later line goes
    /// before an earlier one, and a service without a line echoes. Nothing was told yet. Operators are listened
    /// to from now on.
    pub fn open(
        rt: &'a R,
        alloc: Global,
        plan: &Plan,
        works: &[WorkLine],
        control: ControlAddress,
    ) -> Result<Self, OpenRefused>
        ensures goes_on { IfOk result (λ system. system.has_ended ≡ false) }
        ensures serves { IfOk result (λ system. system.is_forsaken ≡ false) }
    {
        let Ok(times) = Times::start(rt) else {
            drop(control);
            return Err(OpenRefused::Clock);
        };
        let (operators, readiness) = listened(rt, alloc, control)?;
        with_tables(
            rt,
            alloc,
            plan,
            works,
            Basis {
                times,
                operators,
                readiness,
                taking: None,
            },
        )
    }
}
