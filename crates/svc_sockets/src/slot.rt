//! Where a server leaves its listeners for its successor.

ghost use Rattle.std.specs.Prelude.{◌≡◌, ◌≢◌, ◌↔◌, IsTrue, OnOk, IfErr, IfSome, OnOk, IfNone};
ghost use Rattle.svc_sockets.specs.declared.slot.Letter.{Letter};
ghost use Rattle.svc_sockets.specs.declared.slot.Slot.TheVariants.{Missing, Listening, Connected, InFlight, Taken};
ghost use Rattle.svc_sockets.specs.Slots.{opened, connected};

use std::mem;

/// A message with what it hands over, in the order of the message's words.
#[derive(Debug, Drop)]
pub struct Letter<T> {
    pub bytes: Vec<u8>,
    pub handed: Vec<T>,
}

/// The channel of one old and one new server: it carries one letter, whole, once.
#[derive(Debug, Drop)]
pub enum Slot<T> {
    /// The new server doesn't receive yet.
    Missing,
    /// The new server receives.
    Listening,
    /// The old server is connected to it.
    Connected,
    /// The letter is on its way.
    InFlight(Letter<T>),
    /// The new server has it.
    Taken,
}

impl<T: Drop> Slot<T> {
    /// The new server receives from now on. Answers whether it is the first time.
    pub fn open(&mut self) -> bool
        ensures state { self.new ≡ opened self.old }
        ensures first { IsTrue result ↔ (self.old ≡ Missing) }
    {
        match self {
            Slot::Missing => {
                *self = Slot::Listening;
                true
            }
            _ => false,
        }
    }

    /// The old server connects, once, to a new server that receives. Answers whether it does.
    pub fn connect(&mut self) -> bool
        ensures state { self.new ≡ connected self.old }
        ensures there { IsTrue result ↔ (self.old ≡ Listening) }
    {
        match self {
            Slot::Listening => {
                *self = Slot::Connected;
                true
            }
            _ => false,
        }
    }

    /// The connected old server sends its letter. Where it isn't connected the letter comes back.
    pub fn send(&mut self, letter: Letter<T>) -> Result<(), Letter<T>>
        ensures sent { OnOk result ((self.old ≡ Connected) × (self.new ≡ InFlight letter)) }
        ensures refused { IfErr result (λ back. (back ≡ letter) × (self.new ≡ self.old) × (self.old ≢ Connected)) }
    {
        match self {
            Slot::Connected => {
                *self = Slot::InFlight(letter);
                Ok(())
            }
            _ => Err(letter),
        }
    }

    /// The new server takes the letter, where one is on its way.
    pub fn receive(&mut self) -> Option<Letter<T>>
        ensures taken { IfSome result (λ letter. (self.old ≡ InFlight letter) × (self.new ≡ Taken)) }
        ensures none { IfNone result ((self.new ≡ self.old) × ((letter : Letter T) → self.old ≢ InFlight letter)) }
    {
        match mem::replace(self, Slot::Taken) {
            Slot::InFlight(letter) => Some(letter),
            other => {
                *self = other;
                None
            }
        }
    }
}
