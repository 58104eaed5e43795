//! How listening sockets go over from an older server to a newer one: a letter through a slot that both share.

ghost use Rattle.std.specs.Prelude.{◌≡◌, ◌≢◌, ◌<◌, ◌≤◌, [], None, IfOk, IfSome, IsTrue, length, vec_len, vec_capacity, map};
ghost use Rattle.svc_sockets.specs.declared.slot.Letter.{Letter};
ghost use Rattle.svc_sockets.specs.declared.slot.Slot.TheVariants.{Listening};
ghost use Rattle.std.specs.Arc.{arc_value};
ghost use Rattle.svc_sockets.specs.Slots.{connected};
ghost use Rattle.svc_record.specs.declared.entry.Entry.TheVariants.{Got};
ghost use Rattle.svc_record.specs.Descriptors.{numbers_of};
ghost use Rattle.svc_system.specs.Answering.{AnswersConnect};
ghost use Rattle.svc_system.specs.Letters.{IsConnectAnswer, IsLetterOf, IsSentOrNot, IsWithControl, handle_in, shown};

use crate::listeners::{Bound, Listeners};
use crate::readiness::Readiness;
use std::alloc::Global;
use std::mem::drop;
use std::sync::{Arc, Mutex};
use svc_base::NoMemory;
use svc_record::Event;
use svc_sockets::{Letter, Slot};

/// What a letter hands over.
#[derive(Drop)]
pub(crate) enum Handed {
    /// A listener, by its number in the record of the server that sends it.
    Listener(u64, Bound),
    /// The socket at which operators come.
    Control(Bound),
}

/// What a send came to.
#[derive(Clone, Copy, PartialEq, Eq, Debug)]
pub(crate) enum Sending {
    /// The letter is on its way.
    Sent,
    /// The slot is in use by the newer server: nothing has left.
    Busy,
    /// The newer server doesn't take it: nothing has left.
    Failed,
}

/// The older server whose sockets are taken over.
#[derive(Drop)]
pub(crate) struct Taking {
    handover: Handover,
    /// The older server was told that this one receives.
    is_open: bool,
    /// A letter for which there was no memory yet.
    letter: Option<Letter<Handed>>,
}

impl Taking {
    /// Takes the sockets over on this way. Nothing was received yet.
    pub(crate) fn over(handover: Handover) -> Self {
        Taking {
            handover,
            is_open: false,
            letter: None,
        }
    }

    /// This server receives from now on, or from the next call on where that can't be said now.
    pub(crate) fn open(&mut self) {
        if !self.is_open {
            self.is_open = self.handover.open();
        }
    }

    /// The letter, where it is there.
    pub(crate) fn receive(&mut self) -> Option<Letter<Handed>> {
        self.open();
        match self.letter.take() {
            Some(letter) => Some(letter),
            None => self.handover.receive(),
        }
    }

    /// The letter is given once more at the next try.
    pub(crate) fn keep(&mut self, letter: Letter<Handed>) {
        self.letter = Some(letter);
    }
}

/// A handle of the listener with this number. None where it isn't open, or there is no memory.
fn handle(alloc: Global, listeners: &Listeners, fd: u64) -> Option<Handed>
    ensures { IfSome result (λ handed. shown handed ≡ handle_in listeners.now fd) }
{
    match listeners.get(fd) {
        Some(bound) => match bound.share(alloc) {
            Ok(bound) => Some(Handed::Listener(fd, bound)),
            Err(NoMemory) => None,
        },
        None => None,
    }
}

/// Adds a handle of each of these listeners, in their order. Answers whether that could be had.
fn add_handles(alloc: Global, listeners: &Listeners, fds: &[u64], handed: &mut Vec<Handed>) -> bool
    requires { handed.old.items ≡ [] }
    ensures { IsTrue result → map shown handed.new.items ≡ map (handle_in listeners.now) fds.now }
{
    for fd in fds {
        let Some(one) = handle(alloc, listeners, *fd) else {
            return false;
        };
        if handed.push(one).is_err() {
            return false;
        }
    }
    true
}

/// A letter with this message and a handle of each of these listeners, in their order, and with room for the
/// control socket. None where one of them isn't open, or there is no memory.
pub(crate) fn letter_of(
    alloc: Global,
    listeners: &Listeners,
    bytes: &[u8],
    fds: &[u64],
) -> Option<Letter<Handed>>
    ensures letter { IfSome result (IsLetterOf listeners.now bytes.now fds.now) }
    ensures room { IfSome result (λ letter. vec_len letter.handed < vec_capacity letter.handed) }
{
    let mut letter = Letter {
        bytes: Vec::new(alloc),
        handed: Vec::new(alloc),
    };
    if letter.bytes.extend_from_slice(bytes).is_err()
        || !add_handles(alloc, listeners, fds, &mut letter.handed)
        || letter.handed.reserve(1).is_err()
    {
        drop(letter);
        return None;
    }
    Some(letter)
}

/// The letter with the control socket behind what it hands over, if there is one.
fn with_control(mut letter: Letter<Handed>, control: Option<Bound>) -> Letter<Handed>
    requires { vec_len letter.handed < vec_capacity letter.handed }
    ensures { IsWithControl letter control result }
{
    match control {
        Some(bound) => {
            letter.handed.push_reserved(Handed::Control(bound));
            letter
        }
        None => letter,
    }
}

/// Sends a letter, with the control socket behind what it hands over. Where the newer server isn't connected
/// nothing leaves.
fn send(slot: &mut Slot<Handed>, letter: Letter<Handed>, control: &mut Option<Bound>) -> Sending
    requires { vec_len letter.handed < vec_capacity letter.handed }
    ensures { IsSentOrNot letter slot.old slot.new control.old control.new result }
{
    match slot {
        Slot::Connected => {
            let letter = with_control(letter, control.take());
            match slot.send(letter) {
                Ok(()) => Sending::Sent,
                Err(_) => unreachable!(),
            }
        }
        _ => {
            drop(letter);
            Sending::Failed
        }
    }
}

/// Sends a letter, and the control socket with it, which isn't watched any more then.
fn leave(
    slot: &mut Slot<Handed>,
    letter: Letter<Handed>,
    control: &mut Option<Bound>,
    readiness: &Readiness,
) -> Sending
    requires { vec_len letter.handed < vec_capacity letter.handed }
    ensures { IsSentOrNot letter slot.old slot.new control.old control.new result }
{
    if is_connected(slot) {
        forget(control, readiness);
    }
    send(slot, letter, control)
}

/// The socket isn't watched any more.
fn forget(control: &Option<Bound>, readiness: &Readiness) {
    if let Some(bound) = control {
        readiness.forget(bound.raw());
    }
}

/// The older server is connected to the newer one.
fn is_connected(slot: &Slot<Handed>) -> bool {
    match slot {
        Slot::Connected => true,
        _ => false,
    }
}

/// What a try to connect comes to.
fn connect(slot: &mut Slot<Handed>) -> Event
    ensures slot { slot.new ≡ connected slot.old }
    ensures answer { IsConnectAnswer slot.old result }
    ensures any { AnswersConnect result }
    ensures few { length (numbers_of (Got result)) ≤ 32 }
{
    if slot.connect() {
        Event::Connected
    } else {
        Event::NotThere
    }
}

/// The newer server receives.
fn is_listening(slot: &Slot<Handed>) -> bool
    ensures { IsTrue result → slot.now ≡ Listening }
{
    match slot {
        Slot::Listening => true,
        _ => false,
    }
}

/// The way from an older server to a newer one, over which one letter goes. Both share it.
#[derive(Drop)]
pub struct Handover {
    slot: Arc<Mutex<Slot<Handed>>>,
}

impl Handover {
    /// A way to a newer server that doesn't receive yet.
    pub fn new(alloc: Global) -> Result<Self, NoMemory> {
        match Arc::new(alloc, Mutex::new(Slot::Missing)) {
            Ok(slot) => Ok(Handover { slot }),
            Err(_) => Err(NoMemory),
        }
    }

    /// The same way once more. `NoMemory` where it can have no more handles.
    pub fn share(&self) -> Result<Self, NoMemory>
        ensures { IfOk result (λ other. arc_value other.slot ≡ arc_value self.now.slot) }
    {
        match Arc::try_clone(&self.slot) {
            Ok(slot) => Ok(Handover { slot }),
            Err(_) => Err(NoMemory),
        }
    }

    /// Nobody else has it any more.
    pub(crate) fn is_alone(&self) -> bool {
        Arc::strong_count(&self.slot) == 1
    }

    /// The newer server receives from now on. False where that can't be said now.
    pub(crate) fn open(&self) -> bool {
        match self.slot.try_lock() {
            Some(mut slot) => {
                let _ = slot.open();
                drop(slot);
                true
            }
            None => false,
        }
    }

    /// The newer server is known to receive.
    pub(crate) fn is_awaited(&self) -> bool {
        match self.slot.try_lock() {
            Some(slot) => {
                let is_awaited = is_listening(&slot);
                drop(slot);
                is_awaited
            }
            None => false,
        }
    }

    /// The older server connects to the newer one.
    pub(crate) fn connect(&self) -> Event
        ensures any { AnswersConnect result }
        ensures few { length (numbers_of (Got result)) ≤ 32 }
    {
        match self.slot.try_lock() {
            Some(mut slot) => {
                let answer = connect(&mut slot);
                drop(slot);
                answer
            }
            None => Event::StillConnecting,
        }
    }

    /// The newer server takes the letter, where one is on its way.
    pub(crate) fn receive(&self) -> Option<Letter<Handed>> {
        match self.slot.try_lock() {
            Some(mut slot) => {
                let letter = slot.receive();
                drop(slot);
                letter
            }
            None => None,
        }
    }

    /// The older server sends the letter, and its control socket with it.
    pub(crate) fn send(
        &self,
        letter: Letter<Handed>,
        control: &mut Option<Bound>,
        readiness: &Readiness,
    ) -> Sending
        requires { vec_len letter.handed < vec_capacity letter.handed }
        ensures kept { result ≢ Sending.Sent → control.new ≡ control.old }
        ensures gone { result ≡ Sending.Sent → control.new ≡ None }
    {
        match self.slot.try_lock() {
            Some(mut slot) => {
                let sending = leave(&mut slot, letter, control, readiness);
                drop(slot);
                sending
            }
            None => {
                drop(letter);
                Sending::Busy
            }
        }
    }
}
