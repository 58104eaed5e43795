//! The services of a server and their endpoints, and how far each is.

ghost use Rattle.std.specs.Prelude.{◌≡◌, ◌≤◌, length, IfSome};
ghost use Rattle.svc_record.specs.declared.entry.Entry.TheVariants.{Got};
ghost use Rattle.svc_record.specs.Descriptors.{numbers_of};

use crate::address::Address;
use crate::times::sooner;
use std::alloc::Global;
use std::mem::drop;
use std::net::Net;
use svc_base::NoMemory;
use svc_graph::Kind;
use svc_record::{Event, Plan, ServicePlan};
use svc_work::{Work, WorkLine};

/// How far a service is.
#[derive(Clone, Copy, PartialEq)]
pub(crate) enum Stage {
    Waiting,
    Started,
    /// The server gave it up.
    Failed,
}

/// A service, whose endpoints stand behind one another.
#[derive(Drop)]
pub(crate) struct Service {
    pub stage: Stage,
    /// It says by itself when it is ready.
    notifies: bool,
    /// Its work may end: it has no endpoints, and isn't the one that bootstraps.
    may_end: bool,
    /// It has jobs, whose work ends with the shutdown.
    has_jobs: bool,
    first: usize,
    count: usize,
    /// So many of its endpoints listen.
    held: usize,
    /// Where its connections go on to, unless they echo.
    target: Option<Address>,
    /// It says so many milliseconds after its start that it is ready.
    ready_after: u64,
    /// When it says that it is ready, where that is due.
    ready_at: Option<u64>,
}

/// An endpoint of a service.
#[derive(Drop)]
pub(crate) struct Endpoint {
    pub service: u32,
    pub number: u32,
    pub address: Address,
    /// The listening socket that it has.
    pub fd: Option<u64>,
    /// Before this moment nothing is accepted.
    pub rests_until: u64,
    /// So many of its accept loops were said to have ended.
    ended: u64,
}

/// All of them.
#[derive(Drop)]
pub(crate) struct Endpoints {
    pub rows: Vec<Endpoint>,
    pub services: Vec<Service>,
    /// How many accept loops an endpoint has.
    tasks: u64,
    /// The place of the endpoint whose accept loops end next.
    ending: usize,
    /// The number of the service whose work ends next.
    over: u32,
}

impl Service {
    /// Each of its endpoints listens, and the server wasn't told to give it up.
    pub(crate) fn serves(&self) -> bool {
        self.stage == Stage::Started && self.held >= self.count
    }

    /// It was started, and does work that ends with the shutdown.
    fn works(&self) -> bool {
        self.has_jobs && self.may_end && self.stage == Stage::Started
    }

    /// It says by now that it is ready, and hasn't yet.
    fn is_ready(&self, now: u64) -> bool {
        match self.ready_at {
            Some(moment) => moment <= now,
            None => false,
        }
    }
}

/// Adds the endpoints of a service.
fn add_endpoints<R: Net>(
    rt: &R,
    alloc: Global,
    rows: &mut Vec<Endpoint>,
    service: u32,
    plan: &ServicePlan,
) -> Result<(), NoMemory> {
    let mut number = 0u32;
    for endpoint in plan.endpoints.as_slice() {
        rows.push(Endpoint {
            service,
            number,
            address: Address::of(rt, alloc, &endpoint.address, endpoint.unix)?,
            fd: None,
            rests_until: 0,
            ended: 0,
        })?;
        number = number.saturating_add(1);
    }
    Ok(())
}

impl Endpoints {
    /// Those of no server.
    fn new(alloc: Global, tasks: u64) -> Self {
        Endpoints {
            rows: Vec::new(alloc),
            services: Vec::new(alloc),
            tasks,
            ending: 0,
            over: 0,
        }
    }

    /// Adds a service with its endpoints.
    fn add<R: Net>(
        &mut self,
        rt: &R,
        alloc: Global,
        number: u32,
        plan: &ServicePlan,
    ) -> Result<(), NoMemory> {
        let first = self.rows.len();
        add_endpoints(rt, alloc, &mut self.rows, number, plan)?;
        self.services.push(Service {
            stage: Stage::Waiting,
            notifies: plan.kind == Kind::Notifying,
            may_end: plan.kind != Kind::Bootstrap && plan.endpoints.is_empty(),
            has_jobs: false,
            first,
            count: self.rows.len().saturating_sub(first),
            held: 0,
            target: None,
            ready_after: 0,
            ready_at: None,
        })?;
        Ok(())
    }

    /// Adds the services of a plan.
    fn add_all<R: Net>(&mut self, rt: &R, alloc: Global, plan: &Plan) -> Result<(), NoMemory> {
        let mut number = 0u32;
        for service in plan.services.as_slice() {
            self.add(rt, alloc, number, service)?;
            number = number.saturating_add(1);
        }
        Ok(())
    }

    /// Learns what a service does.
    fn assign<R: Net>(&mut self, rt: &R, alloc: Global, line: &WorkLine) -> Result<(), NoMemory> {
        let Some(service) = self.services.get_mut(line.service) else {
            return Ok(());
        };
        match &line.work {
            Work::ForwardTcp(text) => {
                service.target = Some(Address::of(rt, alloc, text, false)?);
            }
            Work::ForwardUnix(path) => {
                service.target = Some(Address::of(rt, alloc, path, true)?);
            }
            Work::Ready(ms) => service.ready_after = *ms,
            Work::Echo => service.target = None,
            Work::Jobs(_) => service.has_jobs = true,
            // Which connections are taken is for the server's filters.
            Work::Gate(_) => {}
        }
        Ok(())
    }

    /// Adds the services of a plan, and learns what they do.
    fn fill<R: Net>(
        &mut self,
        rt: &R,
        alloc: Global,
        plan: &Plan,
        works: &[WorkLine],
    ) -> Result<(), NoMemory> {
        self.add_all(rt, alloc, plan)?;
        for line in works {
            self.assign(rt, alloc, line)?;
        }
        Ok(())
    }

    /// Those of a plan, whose services do what these lines say. Each address is looked up.
    pub(crate) fn learn<R: Net>(
        rt: &R,
        alloc: Global,
        plan: &Plan,
        works: &[WorkLine],
    ) -> Result<Self, NoMemory> {
        let mut endpoints = Endpoints::new(alloc, plan.tasks);
        match endpoints.fill(rt, alloc, plan, works) {
            Ok(()) => Ok(endpoints),
            Err(NoMemory) => {
                drop(endpoints);
                Err(NoMemory)
            }
        }
    }

    /// Where an endpoint stands.
    pub(crate) fn place(&self, service: u32, number: u32) -> Option<usize> {
        let row = self.services.get(service as usize)?;
        if (number as usize) < row.count {
            row.first.checked_add(number as usize)
        } else {
            None
        }
    }

    /// The service with this number serves.
    pub(crate) fn serves(&self, service: u32) -> bool {
        match self.services.get(service as usize) {
            Some(service) => service.serves(),
            None => false,
        }
    }

    /// The service is to be started: what it says at once.
    pub(crate) fn start(&mut self, number: u32, now: u64) -> Option<Event>
        ensures few { IfSome result (λ e. length (numbers_of (Got e)) ≤ 32) }
        ensures answers { IfSome result (λ e. e ≡ Event.Ready number) }
    {
        let service = self.services.get_mut(number as usize)?;
        service.stage = Stage::Started;
        if !service.notifies {
            return None;
        }
        if service.ready_after == 0 {
            return Some(Event::Ready(number));
        }
        service.ready_at = Some(now.saturating_add(service.ready_after));
        None
    }

    /// When the next service says that it is ready.
    pub(crate) fn next_ready(&self) -> Option<u64> {
        let mut next = None;
        for service in self.services.as_slice() {
            if let Some(moment) = service.ready_at {
                next = sooner(next, moment);
            }
        }
        next
    }

    /// A service that is ready by now, which then has said so.
    pub(crate) fn take_ready(&mut self, now: u64) -> Option<Event>
        ensures { IfSome result (λ e. length (numbers_of (Got e)) ≤ 32) }
    {
        let mut number = 0u32;
        for service in self.services.iter_mut() {
            if service.is_ready(now) {
                service.ready_at = None;
                return Some(Event::Ready(number));
            }
            number = number.saturating_add(1);
        }
        None
    }

    /// Where the service's connections go on to; none where they echo.
    pub(crate) fn target(&self, service: Option<u32>) -> Option<&Address> {
        match self.services.get(service? as usize) {
            Some(service) => service.target.as_ref(),
            None => None,
        }
    }

    /// The service is given up.
    pub(crate) fn fail(&mut self, number: u32) {
        if let Some(service) = self.services.get_mut(number as usize) {
            service.stage = Stage::Failed;
            service.ready_at = None;
        }
    }

    /// There are services, and each was given up.
    pub(crate) fn have_failed(&self) -> bool {
        !self.services.is_empty()
            && self
                .services
                .iter()
                .all(|service| service.stage == Stage::Failed)
    }

    /// It was told that the endpoint listens. Answers whether its service serves from now on.
    pub(crate) fn hold(&mut self, service: u32) -> bool {
        match self.services.get_mut(service as usize) {
            Some(service) => {
                service.held = service.held.saturating_add(1);
                service.serves()
            }
            None => false,
        }
    }

    /// One of them is at this address.
    pub(crate) fn have(&self, address: &Address) -> bool {
        self.rows.iter().any(|row| row.address.is(address))
    }

    /// The socket that the endpoint has from now on.
    pub(crate) fn give(&mut self, at: usize, fd: u64) {
        if let Some(row) = self.rows.get_mut(at) {
            row.fd = Some(fd);
        }
    }

    /// The socket is closed.
    pub(crate) fn forget(&mut self, fd: u64) {
        for row in self.rows.iter_mut() {
            if row.fd == Some(fd) {
                row.fd = None;
            }
        }
    }

    /// The first endpoint at which this socket is accepted at.
    pub(crate) fn accepting(&self, fd: u64, now: u64) -> Option<usize> {
        self.rows.iter().position(|row| {
            row.fd == Some(fd) && row.rests_until <= now && self.serves(row.service)
        })
    }

    /// The endpoint's accept loop rests until then.
    pub(crate) fn rest(&mut self, at: usize, until: u64) {
        if let Some(row) = self.rows.get_mut(at) {
            row.rests_until = until;
        }
    }

    /// When the next accept loop after this moment has rested.
    pub(crate) fn next_rest(&self, now: u64) -> Option<u64> {
        let mut next = None;
        for row in self.rows.as_slice() {
            if row.rests_until > now {
                next = sooner(next, row.rests_until);
            }
        }
        next
    }

    /// The next service whose work ends with the shutdown.
    fn next_over(&mut self) -> Option<Event>
        ensures { IfSome result (λ e. length (numbers_of (Got e)) ≤ 32) }
    {
        for _ in 0..u64::MAX {
            let number = self.over;
            let is_over = match self.services.get(number as usize) {
                Some(service) => service.works(),
                None => return None,
            };
            self.over = number.saturating_add(1);
            if is_over {
                return Some(Event::Ended(number));
            }
        }
        None
    }

    /// The next end where all end: of an accept loop, and then of a service's work.
    pub(crate) fn next_end(&mut self) -> Option<Event>
        ensures { IfSome result (λ e. length (numbers_of (Got e)) ≤ 32) }
    {
        match self.next_loop_end() {
            Some(event) => Some(event),
            None => self.next_over(),
        }
    }

    /// The next accept loop that ends, where all end.
    fn next_loop_end(&mut self) -> Option<Event>
        ensures { IfSome result (λ e. length (numbers_of (Got e)) ≤ 32) }
    {
        for _ in 0..u64::MAX {
            let at = self.ending;
            let serves = match self.rows.get(at) {
                Some(row) => row.ended < self.tasks && self.serves(row.service),
                None => return None,
            };
            if serves {
                return self.end_one(at);
            }
            self.ending = at.saturating_add(1);
        }
        None
    }

    /// An accept loop of this endpoint ends.
    fn end_one(&mut self, at: usize) -> Option<Event>
        ensures { IfSome result (λ e. length (numbers_of (Got e)) ≤ 32) }
    {
        let row = self.rows.get_mut(at)?;
        let number = row.ended;
        row.ended = number.saturating_add(1);
        Some(Event::LoopEnded(row.service, row.number, number))
    }
}
