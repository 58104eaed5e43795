//! How a server's sockets go over to a newer one, and how those of an older one come.

ghost use Rattle.std.specs.Prelude.{◌≡◌, ◌≢◌, ◌<◌, ◌≤◌, None, IfOk, IfErr, IfSome, ℕ, List, [], ◌++◌, length, true, false, vec_len, vec_capacity};
ghost use Rattle.svc_record.specs.declared.entry.Entry.TheVariants.{Got};
ghost use Rattle.svc_record.specs.Descriptors.{numbers_of};
ghost use Rattle.svc_system.specs.Answering.{AnswersAlone, AnswersConnect, AnswersOnHandover, AnswersReceive, AnswersSend};
ghost use Rattle.svc_system.specs.Letters.{Opens, numbers_in};
ghost use Rattle.svc_base.specs.Items.{list_of};
ghost use Rattle.svc_system.specs.Offers.{after_answer, has_sent, is_offered, taken};

use super::System;
use super::opening::{Basis, OpenRefused, unwatched, with_tables};
use crate::handover::{Handed, Handover, Sending, Taking, letter_of};
use crate::listeners::Bound;
use crate::numbers::Numbers;
use crate::offer::{
    AskRefused, Condition, MOST_HANDED, Offer, Sight, UpgradeAnswer, heard, refused_line,
};
use crate::tokens::Ready;
use std::alloc::Global;
use std::fs::File;
use std::mem::drop;
use std::net::{Net, TcpListener, TcpStream};
use std::rt::Files;
use std::time::Clock;
use svc_base::{Bytes, Items, NoMemory, Text, copy_items};
use svc_record::{Action, Event, ExecutionPhase, Plan, ShutdownSignal};
use svc_sockets::Letter;
use svc_work::WorkLine;

/// So many milliseconds pass between two looks for a newer server.
const LOOK: u64 = 20;

/// So many milliseconds a newer server that was begun is waited for.
const PATIENCE: u64 = 60_000;

impl<'a, R: Net<Listener = TcpListener, Stream = TcpStream> + Files<File = File> + Clock> System<
    'a,
    R,
> {
    /// The system's side of a server with this plan that takes an older one's sockets over, whose services do what these
    /// lines say, as `open` has it. Operators are listened to from the letter on, at the older server's control socket.
    pub fn succeed(
        rt: &'a R,
        alloc: Global,
        plan: &Plan,
        works: &[WorkLine],
        handover: Handover,
    ) -> Result<Self, OpenRefused>
        ensures goes_on { IfOk result (λ system. system.has_ended ≡ false) }
        ensures serves { IfOk result (λ system. system.is_forsaken ≡ false) }
    {
        match unwatched(rt, alloc) {
            Ok((times, operators, readiness)) => with_tables(
                rt,
                alloc,
                plan,
                works,
                Basis {
                    times,
                    operators,
                    readiness,
                    taking: Some(Taking::over(handover)),
                },
            ),
            Err(refused) => {
                drop(handover);
                Err(refused)
            }
        }
    }

    /// The file that an operator asks to be upgraded to, once. The answer is owed from then on (`answer_upgrade`).
    pub fn take_upgrade(&mut self) -> Option<Text>
        ensures file { taken self.old.offer ≡ result }
        ensures rest { self.new ≡ record self.old { offer = self.new.offer; is_asked = false } }
    {
        self.is_asked = false;
        self.offer.take()
    }

    /// What was begun where an operator asked for an upgrade. It is told in a line, as `heard` has it. Where no answer is
    /// owed nothing changes.
    pub fn answer_upgrade(&mut self, answer: UpgradeAnswer)
        ensures { (until : ℕ) × (self.new.offer ≡ after_answer self.old.offer answer until) }
    {
        let cause = match &answer {
            UpgradeAnswer::Refused(cause) => refused_line(self.alloc, cause.as_str()),
            _ => Ok(Vec::new(self.alloc)),
        };
        match cause {
            Ok(cause) => self.tell_answer(answer, cause.as_slice()),
            Err(NoMemory) => self.tell_answer(answer, AskRefused::NoMemory.line()),
        }
    }

    /// Tells the operator who waits what was begun, with the line of its cause.
    fn tell_answer(&mut self, answer: UpgradeAnswer, cause: &[u8])
        ensures { (until : ℕ) × (self.new.offer ≡ after_answer self.old.offer answer until) }
    {
        let now = self.times.now;
        let line = heard(&answer, cause);
        if let Some(operator) = self.offer.answer(answer, now.saturating_add(PATIENCE)) {
            self.times.looks = Some(now);
            self.answer_numbered(operator, line);
        }
    }

    /// Gives the operator with this number the answer that is owed, if still there.
    fn answer_numbered(&mut self, operator: u64, line: &[u8])
        ensures { self.new.offer ≡ self.old.offer }
    {
        if let Some(place) = self.operators.place_of(operator) {
            self.answer_operator(place, line);
        }
    }

    /// Gives the operator in this place the answer that is owed, and another turn.
    fn answer_operator(&mut self, place: usize, line: &[u8])
        ensures { self.new.offer ≡ self.old.offer }
    {
        self.operators.answer(place, line);
        self.wake(Ready::Operator(place));
        self.wake(Ready::Control);
    }

    /// The sockets were handed over to a newer server.
    pub fn has_handed_over(&self) -> bool
        ensures { result ≡ has_sent self.now.offer }
    {
        self.offer.has_sent()
    }

    /// The server runs, and wasn't asked to end.
    fn is_running(&self) -> bool
        ensures { result ≡ true → (self.now.phase ≡ ExecutionPhase.Running) × (self.now.signal ≡ None) }
    {
        self.phase == ExecutionPhase::Running && self.signal.is_none()
    }

    /// An operator in this place asks for an upgrade.
    fn ask_upgrade(&mut self, place: usize) -> Result<(), AskRefused>
        ensures { IfErr result (λ refused. self.new ≡ self.old) }
    {
        let asked = self.operators.asked(self.alloc, place)?;
        let condition = Condition {
            is_running: self.is_running(),
            listeners: self.listeners.count(),
        };
        self.offer.ask(asked, condition)
    }

    /// Takes an operator's ask for an upgrade. Where it is refused he is told so; else the moment is told, so that
    /// the ask is seen.
    pub(super) fn hear_upgrade(&mut self, place: usize) {
        match self.ask_upgrade(place) {
            Ok(()) => self.is_asked = true,
            Err(refused) => self.answer_operator(place, refused.line()),
        }
    }

    /// Looks for the newer server that was begun, where it is time for that. Where it receives the server is told
    /// to upgrade.
    pub(super) fn look_for_newer(&mut self) {
        if !self.times.are_to_look() {
            return;
        }
        let is_running = self.is_running();
        let sight = self.offer.look(is_running, self.times.now);
        self.times.looks = match sight {
            Sight::Waits => Some(self.times.now.saturating_add(LOOK)),
            _ => None,
        };
        if sight == Sight::Receives {
            self.signal = Some(ShutdownSignal::GracefulUpgrade);
        }
    }

    /// Connects to the newer server that is offered the sockets.
    fn connect(&self) -> Event
        ensures few { length (numbers_of (Got result)) ≤ 32 }
        ensures answers { AnswersConnect result }
        ensures alone { is_offered self.now.offer ≡ false → result ≡ Event.ConnectFailed }
    {
        match &self.offer {
            Offer::Offered(handover) => handover.connect(),
            _ => Event::ConnectFailed,
        }
    }

    /// Sends a letter to the newer server that is offered the sockets, and the control socket with it.
    fn send_letter(&mut self, letter: Letter<Handed>) -> Sending
        requires { vec_len letter.handed < vec_capacity letter.handed }
        ensures kept { result ≢ Sending.Sent → self.new ≡ self.old }
        ensures gone { result ≡ Sending.Sent → self.new ≡ record self.old { operators = record self.old.operators { bound = None } } }
        ensures alone { is_offered self.old.offer ≡ false → result ≡ Sending.Failed }
    {
        match &self.offer {
            Offer::Offered(handover) => {
                handover.send(letter, &mut self.operators.bound, &self.readiness)
            }
            _ => {
                drop(letter);
                Sending::Failed
            }
        }
    }

    /// Sends the newer server this message, with these listeners. Once it is sent their paths, and the control
    /// socket, are the newer server's. Else nothing has left.
    fn send(&mut self, bytes: &[u8], fds: &[u64]) -> Event
        ensures few { length (numbers_of (Got result)) ≤ 32 }
        ensures answers { AnswersSend result }
        ensures kept { result ≢ Event.Sent → self.new ≡ self.old }
        ensures gone { result ≡ Event.Sent → self.new.operators ≡ record self.old.operators { bound = None } }
        ensures forgotten { result ≡ Event.Sent → self.new.listeners ≡ record self.old.listeners { handed = fds.now } }
        ensures done { result ≡ Event.Sent → self.new.offer ≡ Offer.Sent }
        ensures alone { is_offered self.old.offer ≡ false → result ≡ Event.SendFailed }
    {
        if fds.len() > MOST_HANDED {
            return Event::SendFailed;
        }
        let Ok(handed) = copy_items(self.alloc, fds) else {
            return Event::SendFailed;
        };
        let Some(letter) = letter_of(self.alloc, &self.listeners, bytes, fds) else {
            drop(handed);
            return Event::SendFailed;
        };
        match self.send_letter(letter) {
            Sending::Sent => {
                self.listeners.hand_over(handed);
                self.offer = Offer::Sent;
                Event::Sent
            }
            Sending::Busy => {
                drop(handed);
                Event::SendBusy
            }
            Sending::Failed => {
                drop(handed);
                Event::SendFailed
            }
        }
    }

    /// Tries once to receive the older server's letter.
    fn receive(&mut self) -> Event
        ensures few { length (numbers_of (Got result)) ≤ 32 }
        ensures answers { AnswersReceive result }
        ensures opens { Opens result self.old.listeners self.new.listeners }
        ensures alone { self.old.taking ≡ None → (result ≡ Event.ReceiveFailed) × (self.new ≡ self.old) }
    {
        let Some(taking) = &mut self.taking else {
            return Event::ReceiveFailed;
        };
        match taking.receive() {
            Some(letter) => self.unfold(letter),
            None => Event::NoSenderYet,
        }
    }

    /// Takes what a letter hands over. Where there is no memory for it, it stays for the next try.
    fn unfold(&mut self, letter: Letter<Handed>) -> Event
        ensures few { length (numbers_of (Got result)) ≤ 32 }
        ensures answers { AnswersReceive result }
        ensures opens { Opens result self.old.listeners self.new.listeners }
        ensures message { (bytes : List ℕ) (fds : List ℕ) → result ≡ Event.Received bytes fds → bytes ≡ letter.bytes.items }
    {
        match self.room_for(&letter) {
            Ok((bytes, fds)) => {
                self.taking = None;
                let fds = self.open_all(letter.handed, fds);
                Event::Received(bytes, fds)
            }
            Err(NoMemory) => {
                if let Some(taking) = &mut self.taking {
                    taking.keep(letter);
                }
                Event::NoSenderYet
            }
        }
    }

    /// The message of a letter, and room for what it hands over.
    fn room_for(&mut self, letter: &Letter<Handed>) -> Result<(Bytes, Numbers), NoMemory>
        ensures bytes { IfOk result (λ room. room.0 ≡ letter.now.bytes.items) }
        ensures fds { IfOk result (λ room. list_of room.1.items ≡ []) }
        ensures numbers { numbers_in self.new.listeners ≡ numbers_in self.old.listeners }
    {
        let bytes = copy_items(self.alloc, letter.bytes.as_slice())?;
        self.listeners.reserve(MOST_HANDED)?;
        let fds = Numbers::new(self.alloc)?;
        Ok((bytes, fds))
    }

    /// Opens what a letter hands over, and answers the numbers of its listeners, in their order.
    fn open_all(&mut self, handed: Vec<Handed>, mut fds: Numbers) -> Items<u64>
        requires { list_of fds.items ≡ [] }
        ensures few { length result ≤ 32 }
        ensures numbers { numbers_in self.new.listeners ≡ numbers_in self.old.listeners ++ result }
    {
        for one in handed {
            match one {
                Handed::Listener(_, bound) => self.open_listener(bound, &mut fds),
                Handed::Control(bound) => self.operators.come_at(bound),
            }
        }
        self.wake(Ready::Control);
        fds.into_items()
    }

    /// Opens a listener, and notes its number. One for which there is no room is closed.
    fn open_listener(&mut self, bound: Bound, fds: &mut Numbers)
        ensures { (before : List ℕ) → numbers_in self.old.listeners ≡ before ++ list_of fds.old.items
            → numbers_in self.new.listeners ≡ before ++ list_of fds.new.items }
    {
        if fds.is_full() {
            drop(bound);
            return;
        }
        if let Ok(number) = self.listeners.add(bound) {
            fds.put(number);
        }
    }

    /// Performs an action of a handover. Gives the answer, if the action asks for one.
    pub(super) fn perform_on_handover(&mut self, action: &Action) -> Option<Event>
        ensures few { IfSome result (λ e. length (numbers_of (Got e)) ≤ 32) }
        ensures answers { AnswersOnHandover action.now result }
        ensures alone { self.old.taking ≡ None → is_offered self.old.offer ≡ false → AnswersAlone action.now result }
    {
        match action {
            Action::OpenReceiver => {
                if let Some(taking) = &mut self.taking {
                    taking.open();
                }
                None
            }
            Action::TryReceive => Some(self.receive()),
            Action::Connect => Some(self.connect()),
            Action::Send(bytes, fds) => Some(self.send(bytes.as_slice(), fds.as_slice())),
            _ => None,
        }
    }
}
