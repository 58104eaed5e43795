//! The services that aren't handed over yet.

ghost use Rattle.std.specs.Prelude.{◌≡◌, ◌<◌, map, Option, Some, None, List, IfOk, slice_get, slice_set, unwrap_or};
ghost use Rattle.std.specs.Option.{option_map};
ghost use Rattle.svc_server.specs.Handing.{names_left};

use std::alloc::Global;
use std::marker::Model;
use std::mem;
use svc_base::NoMemory;
use svc_graph::services::ServiceWithDependents;
use svc_record::{Action, Event, ExecutionPhase, Plan};

/// The services that aren't handed over yet, by their numbers, and the time that goes by. Contracts
/// see the services alone.
#[derive(Drop)]
pub(crate) struct PendingServices<B> {
    pending: Vec<Option<B>>,
    /// The last moment that came, in milliseconds.
    moment: u64,
    /// The moment at which the server ran, where it runs.
    running: Option<u64>,
}

impl<B> Model for PendingServices<B> {
    ghost use Rattle.std.specs.Prelude.{List, Option};

    ghost Value = { List (Option B) };

    ghost view = { λ b. b.pending.items };
}

/// Whether the service waits for others.
fn has_dependencies(plan: &Plan, s: u32) -> bool {
    match plan.services.as_slice().get(s as usize) {
        Some(service) => !service.depends.is_empty(),
        None => false,
    }
}

impl<B: ServiceWithDependents> PendingServices<B> {
    /// All services are left.
    pub(crate) fn new(alloc: Global, services: Vec<B>) -> Result<Self, NoMemory>
        ensures { IfOk result (λ pending. pending ≡ map Some services.items) }
    {
        Ok(PendingServices {
            pending: services
                .into_iter()
                .map(|service| Some(service))
                .collect(alloc)?,
            moment: 0,
            running: None,
        })
    }

    /// Time goes on with a moment that comes.
    pub(crate) fn note_event(&mut self, event: &Event)
        ensures { self.new ≡ self.old }
    {
        if let Event::Moment(ms) = event {
            self.moment = *ms;
        }
    }

    /// Notes when the server runs.
    pub(crate) fn note(&mut self, action: &Action)
        ensures { self.new ≡ self.old }
    {
        if let Action::Phase(ExecutionPhase::Running, ms) = action {
            self.running = Some(*ms);
        }
    }

    /// How many milliseconds a service that starts now waited for others since the server runs.
    fn waited(&self) -> u64 {
        match self.running {
            Some(ms) => self.moment.saturating_sub(ms),
            None => 0,
        }
    }

    /// Takes the service out. One that waited for others is told how long.
    pub(crate) fn take(&mut self, plan: &Plan, s: u32) -> Option<B>
        ensures left { names_left B.named self.new ≡ slice_set (names_left B.named self.old) s None }
        ensures taken { option_map B.named result ≡ unwrap_or (slice_get (names_left B.named self.old) s) None }
    {
        let waited = self.waited();
        let taken = take_at(&mut self.pending, s as usize);
        if let Some(service) = &taken {
            if has_dependencies(plan, s) {
                service.on_startup_delay(waited);
            }
        }
        taken
    }
}

/// Takes out what stands at the place.
fn take_at<B: ServiceWithDependents>(pending: &mut Vec<Option<B>>, place: usize) -> Option<B>
    ensures left { names_left B.named pending.new.items ≡ slice_set (names_left B.named pending.old.items) place None }
    ensures taken { option_map B.named result ≡ unwrap_or (slice_get (names_left B.named pending.old.items) place) None }
{
    if place >= pending.len() {
        return None;
    }
    mem::replace(&mut pending[place], None)
}
