//! The upgrade that operators ask for, how far it is, and what they hear of it.

ghost use Rattle.std.specs.Prelude.{◌≡◌, ◌<◌, ◌≤◌, true, IfOk, IfNone, OnOk, OnErr};
ghost use Rattle.svc_system.specs.Offers.{IsOffered, after_answer, has_sent, heard, is_begun, one_line, refusal, taken, waiting, without_feeds};

use crate::handover::Handover;
use std::alloc::Global;
use std::mem;
use std::mem::drop;
use svc_base::{NoMemory, Text};

/// The most listeners that one letter hands over.
pub(crate) const MOST_HANDED: usize = 32;

/// Why an upgrade isn't begun.
#[derive(Clone, Copy, PartialEq, Eq, Debug)]
pub(crate) enum AskRefused {
    /// The server isn't running yet, or is ending.
    NotRunning,
    /// An earlier one is under way, or was done.
    UnderWay,
    /// Nothing listens that could be handed over.
    NoListener,
    /// More listens than a letter hands over.
    TooMany,
    /// The path isn't UTF-8.
    NotText,
    /// There was no memory.
    NoMemory,
}

/// What was begun where an upgrade was asked for.
#[derive(Drop)]
pub enum UpgradeAnswer {
    /// A newer server, which takes the sockets over on this way.
    Begun(Handover),
    /// None, for this cause.
    Refused(Text),
    /// None, since there was no memory.
    NoMemory,
    /// None, since there is nothing here that begins one.
    Unsupported,
}

/// A file that an operator asks for, and the operator's number.
#[derive(Drop)]
pub(crate) struct Asked {
    pub file: Text,
    pub operator: u64,
}

/// How far an upgrade is.
#[derive(Drop)]
pub(crate) enum Offer {
    /// None is under way.
    Idle,
    /// One was asked for.
    Asked(Asked),
    /// It was told, and the operator with this number waits for the answer.
    Told(u64),
    /// A newer server was begun, and doesn't receive yet. It is waited for until this moment.
    Begun(Handover, u64),
    /// The newer server receives, and this one was told to offer its sockets.
    Offered(Handover),
    /// The sockets are the newer server's.
    Sent,
}

/// What a look for a newer server found.
#[derive(Clone, Copy, PartialEq, Eq, Debug)]
pub(crate) enum Sight {
    /// None is waited for.
    Nobody,
    /// It isn't there yet.
    Waits,
    /// It receives.
    Receives,
    /// It isn't waited for any more.
    Gone,
}

/// What is known of a server where an upgrade is asked for.
#[derive(Clone, Copy)]
pub(crate) struct Condition {
    /// It runs, and isn't ending.
    pub is_running: bool,
    /// So many of its sockets listen.
    pub listeners: usize,
}

impl AskRefused {
    /// The line that an operator hears.
    pub(crate) fn line(self) -> &'static [u8]
        ensures { result.now ≡ refusal self }
    {
        match self {
            AskRefused::NotRunning => b"refused: the server isn't running yet, or is ending\n",
            AskRefused::UnderWay => b"refused: an upgrade is under way\n",
            AskRefused::NoListener => b"refused: nothing listens that could be handed over\n",
            AskRefused::TooMany => b"refused: more than 32 listeners can't be handed over\n",
            AskRefused::NotText => b"refused: the path isn't UTF-8\n",
            AskRefused::NoMemory => b"refused: out of memory\n",
        }
    }
}

/// The bytes without line feeds.
fn without_feeds(mut said: Vec<u8>) -> Vec<u8>
    ensures { result.items ≡ without_feeds said.items }
{
    said.retain(|byte| *byte != b'\n');
    said
}

/// The line of a cause: its line feeds are left out.
pub(crate) fn refused_line(alloc: Global, cause: &str) -> Result<Vec<u8>, NoMemory>
    ensures { IfOk result (λ line. line.items ≡ one_line cause.now) }
{
    let mut said = Vec::new(alloc);
    said.extend_from_slice(cause.as_bytes())?;
    let said = without_feeds(said);
    let mut line = Vec::new(alloc);
    line.extend_from_slice(b"refused: ")?;
    line.extend_from_slice(said.as_slice())?;
    line.extend_from_slice(b"\n")?;
    Ok(line)
}

/// What an operator hears of an answer, with the line of its cause, if it has one.
pub(crate) fn heard<'l>(answer: &UpgradeAnswer, cause: &'l [u8]) -> &'l [u8]
    ensures { result.now ≡ heard answer.now cause.now }
{
    match answer {
        UpgradeAnswer::Begun(_) => b"ok upgrade\n",
        UpgradeAnswer::Refused(_) => cause,
        UpgradeAnswer::NoMemory => b"refused: out of memory\n",
        UpgradeAnswer::Unsupported => b"refused: no newer server can be begun here\n",
    }
}

impl Condition {
    /// An upgrade can be begun.
    pub(crate) fn check(self) -> Result<(), AskRefused>
        ensures running { OnOk result (self.is_running ≡ true) }
        ensures some { OnOk result (0 < self.listeners) }
        ensures few { OnOk result (self.listeners ≤ 32) }
    {
        if !self.is_running {
            Err(AskRefused::NotRunning)
        } else if self.listeners == 0 {
            Err(AskRefused::NoListener)
        } else if self.listeners > MOST_HANDED {
            Err(AskRefused::TooMany)
        } else {
            Ok(())
        }
    }
}

impl Offer {
    /// An operator asks for an upgrade. It is refused while another one is under way, and where the server
    /// can hand nothing over.
    pub(crate) fn ask(&mut self, asked: Asked, condition: Condition) -> Result<(), AskRefused>
        ensures idle { OnOk result (self.old ≡ Offer.Idle) }
        ensures asked { OnOk result (self.new ≡ Offer.Asked asked) }
        ensures running { OnOk result (condition.is_running ≡ true) }
        ensures some { OnOk result (0 < condition.listeners) }
        ensures few { OnOk result (condition.listeners ≤ 32) }
        ensures refused { OnErr result (self.new ≡ self.old) }
    {
        if let Err(refused) = condition.check() {
            drop(asked);
            return Err(refused);
        }
        match self {
            Offer::Idle => {
                *self = Offer::Asked(asked);
                Ok(())
            }
            _ => {
                drop(asked);
                Err(AskRefused::UnderWay)
            }
        }
    }

    /// What was begun is told, where an answer is owed. It gives the number of the operator who waits for it.
    pub(crate) fn answer(&mut self, answer: UpgradeAnswer, until: u64) -> Option<u64>
        ensures operator { waiting self.old ≡ result }
        ensures state { self.new ≡ after_answer self.old answer until }
    {
        match self {
            Offer::Told(operator) => {
                let operator = *operator;
                *self = match answer {
                    UpgradeAnswer::Begun(handover) => Offer::Begun(handover, until),
                    other => {
                        drop(other);
                        Offer::Idle
                    }
                };
                Some(operator)
            }
            _ => {
                drop(answer);
                None
            }
        }
    }

    /// How the newer server that was begun is, where it isn't there yet.
    fn sight(&self, is_running: bool, now: u64) -> Sight
        ensures { result ≡ Sight.Receives → is_begun self.now ≡ true }
    {
        match self {
            Offer::Begun(handover, until) => {
                if !is_running || handover.is_alone() || *until <= now {
                    Sight::Gone
                } else if handover.is_awaited() {
                    Sight::Receives
                } else {
                    Sight::Waits
                }
            }
            _ => Sight::Nobody,
        }
    }

    /// Looks for the newer server that was begun. Where it receives it is to be offered the sockets; where it is
    /// gone, or too late, or this server is ending, it is given up.
    pub(crate) fn look(&mut self, is_running: bool, now: u64) -> Sight
        ensures waits { result ≡ Sight.Waits → self.new ≡ self.old }
        ensures receives { result ≡ Sight.Receives → IsOffered self.old self.new }
        ensures gone { result ≡ Sight.Gone → self.new ≡ Offer.Idle }
        ensures nobody { result ≡ Sight.Nobody → self.new ≡ self.old }
    {
        let sight = self.sight(is_running, now);
        match sight {
            Sight::Receives => match mem::replace(self, Offer::Idle) {
                Offer::Begun(handover, _until) => *self = Offer::Offered(handover),
                other => *self = other,
            },
            Sight::Gone => *self = Offer::Idle,
            Sight::Waits | Sight::Nobody => {}
        }
        sight
    }

    /// The sockets are the newer server's.
    pub(crate) fn has_sent(&self) -> bool
        ensures { result ≡ has_sent self.now }
    {
        match self {
            Offer::Sent => true,
            _ => false,
        }
    }

    /// The file that was asked for, whose operator waits for the answer from now on.
    pub(crate) fn take(&mut self) -> Option<Text>
        ensures file { taken self.old ≡ result }
        ensures none { IfNone result (self.new ≡ self.old) }
    {
        match mem::replace(self, Offer::Idle) {
            Offer::Asked(asked) => {
                let Asked { file, operator } = asked;
                *self = Offer::Told(operator);
                Some(file)
            }
            other => {
                *self = other;
                None
            }
        }
    }
}
