//! How the generations of a program ended.

ghost use Rattle.std.specs.Prelude.{◌≡◌, ◌∷◌, None, IfSome};
ghost use Rattle.std.proofs.Props.{props};
ghost use Rattle.svc_serve.specs.Ends.{has_served, newer, newest};

use crate::ending::Ending;
use svc_history::History;
use svc_record::BootstrapError;
use svc_server::RunError;

/// How a generation ended.
#[derive(Clone, Copy, PartialEq, Eq, Debug)]
pub(crate) struct Ended {
    /// The generation's number, from 1.
    pub number: u64,
    pub ending: Ending,
}

/// How many generations run, and how the others ended, of which the program keeps the newest one that has served.
#[derive(Drop)]
pub(crate) struct Ends {
    running: u64,
    ended: History<Ended>,
    last: Option<Ended>,
    ghost newest: { last ≡ newest ended } by { Prim.hlevel props },
}

/// A generation that ended so has served: it came to have sockets.
fn has_served(ending: Ending) -> bool
    ensures { result ≡ has_served ending }
{
    !matches!(
        ending,
        Ending::Run(Err(RunError::Bootstrap(BootstrapError::NoSender)))
    )
}

/// Of what is known and one more that ended, the newest one that has served.
fn newer(known: Option<Ended>, ended: Ended) -> Option<Ended>
    ensures { result ≡ newer known ended }
{
    if !has_served(ended.ending) {
        return known;
    }
    match known {
        Some(last) if ended.number < last.number => Some(last),
        _ => Some(ended),
    }
}

impl Ends {
    /// None has begun.
    pub(crate) fn new() -> Self {
        Ends {
            running: 0,
            ended: History::new(),
            last: None,
        }
    }

    /// One more runs.
    pub(crate) fn begin(&mut self)
        ensures { self.new.ended ≡ self.old.ended }
    {
        self.running = self.running.saturating_add(1);
    }

    /// One has ended.
    pub(crate) fn end(&mut self, ended: Ended)
        ensures { self.new.ended ≡ ended ∷ self.old.ended }
    {
        self.running = self.running.saturating_sub(1);
        self.last = newer(self.last, ended);
        self.ended.push(&ended);
    }

    /// None runs any more.
    pub(crate) fn are_all(&self) -> bool {
        self.running == 0
    }

    /// How the program ends: as the newest generation that has served.
    pub(crate) fn ending(&self) -> Ending
        ensures served { IfSome (newest self.now.ended) (λ e. result ≡ e.ending) }
        ensures none { newest self.now.ended ≡ None → result ≡ Ending.HostFault }
    {
        match self.last {
            Some(last) => last.ending,
            None => Ending::HostFault,
        }
    }
}
