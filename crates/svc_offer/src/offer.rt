//! The offer to a successor, from the signal to its last answer.

ghost use Rattle.std.specs.Prelude.{ℕ, ◌≡◌, ◌+◌, ◌≤◌, ◌++◌, [], ◌∷◌, length, Option, Some, None, IfOk, true, false};
ghost use Rattle.svc_base.specs.Items.{list_of, spare};
ghost use Rattle.svc_fds.specs.declared.encoding.Message.{Message};
ghost use Rattle.svc_record.specs.declared.plan.Plan.{Plan};
ghost use Rattle.svc_record.specs.declared.entry.Entry.TheVariants.{Got};
ghost use Rattle.svc_record.specs.declared.event.Event.TheVariants.{Signal};
ghost use Rattle.svc_record.specs.declared.event.ShutdownSignal.TheVariants.{GracefulUpgrade, FastShutdown};
ghost use Rattle.svc_record.specs.Record.{Record, now, tell, has, is_signal, is_graceful, signal_of};
ghost use Rattle.svc_record.specs.Descriptors.{live_table};
ghost use Rattle.svc_record.specs.Message.{encode};
ghost use Rattle.svc_record.specs.Offer.{is_empty_table};
ghost use Rattle.svc_moments.specs.Least.{IsLeast};
ghost use Rattle.svc_offer.specs.OfferState.{OfferStands, IsOfferSettled, is_connecting, is_sending, is_connect_due, is_send_due, is_stall_over, is_going, over_since, numbers_on_offer};
ghost use Rattle.svc_offer.specs.OfferEffects.{nothing, event_of, is_awaited, begun, ends_by, state_after, answered_state, retries_after, answered, cut_state, cut_off, send_told, ask_with, asked, sends_at};
ghost use Rattle.svc_offer.specs.OfferDues.{is_due_at};

use crate::copies::copy_message;
use crate::offering::Offering;
use std::alloc::Global;
use std::marker::Model;
use svc_base::NoMemory;
use svc_fds::{Message, SendAnswer, SendNext, SendRetry};
use svc_moments::after;
use svc_record::{Action, Actions, Event};

/// How long it is waited after nobody was there, in milliseconds.
const ABSENCE: u64 = 1000;

/// How long it is waited after the other side was busy, in milliseconds.
const DELAY: u64 = 500;

/// How far the offer has come, its message, and how often it is tried again.
#[derive(Drop)]
pub struct Offer {
    state: Offering,
    message: Option<Message>,
    retry: SendRetry,
}

impl Model for Offer {
    ghost use Rattle.std.specs.Prelude.{◌≤◌};
    ghost use Rattle.svc_offer.specs.OfferData.{OfferData};

    ghost Value = { OfferData };

    ghost view = { λ o. record { state = o.state; message = o.message; retries = o.retry } };

    ghost invariant = { λ o. o.retry.delays ≤ 19 };
}

/// Takes an answer. Whether the offer ends by it.
fn ends(retry: &mut SendRetry, answer: SendAnswer) -> bool
    requires { retry.old.delays ≤ 19 }
    ensures last { result ≡ ends_by retry.old answer }
    ensures after { retry.new ≡ retries_after retry.old answer }
{
    matches!(retry.step(answer), SendNext::Done | SendNext::Refused(_))
}

/// What an answer that ends no offer leaves at the moment, in milliseconds.
fn state_after(answer: SendAnswer, moment: u64) -> Offering
    ensures { result ≡ state_after answer moment }
{
    match answer {
        SendAnswer::Connected => Offering::Connected,
        SendAnswer::NotThere => Offering::Absent(moment),
        SendAnswer::StillConnecting => Offering::Delayed(moment),
        SendAnswer::SendBusy => Offering::Stalled(moment),
        SendAnswer::ConnectFailed | SendAnswer::Sent | SendAnswer::SendFailed => {
            Offering::Over(moment)
        }
    }
}

/// Takes an answer. What it leaves at the moment, in milliseconds.
fn answered_state(retry: &mut SendRetry, answer: SendAnswer, moment: u64) -> Offering
    requires { retry.old.delays ≤ 19 }
    ensures state { result ≡ answered_state retry.old answer moment }
    ensures after { retry.new ≡ retries_after retry.old answer }
{
    if ends(retry, answer) {
        return Offering::Over(moment);
    }
    state_after(answer, moment)
}

/// What a cut leaves at the moment, in milliseconds: an offer that goes on is over.
fn cut_state(state: Offering, moment: u64) -> Offering
    ensures { result ≡ cut_state state moment }
{
    match state {
        Offering::Nothing => Offering::Nothing,
        Offering::Over(at) => Offering::Over(at),
        _ => Offering::Over(moment),
    }
}

/// Tells a send of the message.
fn put_send(message: Option<Message>, actions: &mut Actions)
    requires room { 1 ≤ spare actions.old }
    ensures told { list_of actions.new ≡ list_of actions.old ++ send_told message }
    ensures room { spare actions.old ≤ spare actions.new + 1 }
    ensures few { length (list_of actions.new) ≤ length (list_of actions.old) + 1 }
{
    if let Some(message) = message {
        actions.put(Action::Send(message.bytes, message.fds));
    }
}

impl Offer {
    /// Nothing is offered. So many connects may find nobody there.
    pub fn new(limit: u64) -> Offer
        ensures fresh { result ≡ nothing limit }
        ensures stands { (p : Plan) → p.limit ≡ limit → OfferStands p result [] }
    {
        Offer {
            state: Offering::Nothing,
            message: None,
            retry: SendRetry::new(limit),
        }
    }

    /// Whether a connect is open.
    pub fn is_connecting(&self) -> bool
        ensures { result ≡ is_connecting self.now.state }
    {
        matches!(self.state, Offering::Connecting)
    }

    /// Whether a send is open.
    pub fn is_sending(&self) -> bool
        ensures { result ≡ is_sending self.now.state }
    {
        matches!(self.state, Offering::Sending)
    }

    /// Since when the offer is over, in milliseconds, if it is.
    pub fn over_since(&self) -> Option<u64>
        ensures { result ≡ over_since self.now.state }
    {
        match self.state {
            Offering::Over(at) => Some(at),
            _ => None,
        }
    }

    /// The numbers of the descriptors that are on offer: none once the offer is over.
    pub fn numbers_on_offer(&self) -> &[u64]
        ensures { result.now ≡ numbers_on_offer self.now }
    {
        if !self.is_going() {
            return &[];
        }
        match &self.message {
            Some(message) => message.fds.as_slice(),
            None => &[],
        }
    }

    /// Whether the offer goes on.
    fn is_going(&self) -> bool
        ensures { result ≡ is_going self.now.state }
    {
        !matches!(self.state, Offering::Nothing | Offering::Over(_))
    }

    /// An upgrade is asked for at the moment, in milliseconds, and something is live: the message is
    /// offered, or the offer is over at once where there is none.
    pub fn begin(&mut self, message: Option<Message>, moment: u64)
        ensures after { self.new ≡ begun message moment self.old }
        ensures stands { (p : Plan) (q : Record) → moment ≡ now q → has is_signal q ≡ false → is_empty_table (live_table p q) ≡ false
            → message ≡ encode (live_table p q) → OfferStands p self.old q → OfferStands p self.new (Got (Signal GracefulUpgrade) ∷ q) }
    {
        self.state = match &message {
            Some(_) => Offering::Unasked,
            None => Offering::Over(moment),
        };
        self.message = message;
    }

    /// An open ask was answered at the moment, in milliseconds.
    pub fn take(&mut self, answer: SendAnswer, moment: u64)
        requires { is_awaited self.old.state answer ≡ true }
        ensures after { self.new ≡ answered answer moment self.old }
        ensures stands { (p : Plan) (q : Record) → moment ≡ now q → OfferStands p self.old q → OfferStands p self.new (Got (event_of answer) ∷ q) }
    {
        self.state = answered_state(&mut self.retry, answer, moment);
    }

    /// A fast signal after the graceful one ends the offer at the moment, in milliseconds, where it
    /// goes on: an open ask stays unanswered, and nothing more is asked.
    pub fn cut(&mut self, moment: u64)
        ensures after { self.new ≡ cut_off moment self.old }
        ensures stands { (p : Plan) (q : Record) → moment ≡ now q → is_graceful (signal_of q) ≡ true → OfferStands p self.old q
            → OfferStands p self.new (Got (Signal FastShutdown) ∷ q) }
        ensures settled { (t : ℕ) → IsOfferSettled self.new t }
    {
        self.state = cut_state(self.state, moment);
    }

    /// A second copy of the message, where the event lets a send fall due.
    pub fn copy_for(&self, alloc: Global, event: &Event) -> Result<Option<Message>, NoMemory>
        ensures { IfOk result (λ copy. sends_at self.now.state event.now ≡ true → copy ≡ self.now.message) }
    {
        if !self.sends_at(event) {
            return Ok(None);
        }
        match &self.message {
            Some(message) => Ok(Some(copy_message(alloc, message)?)),
            None => Ok(None),
        }
    }

    /// A send falls due by the event.
    pub fn sends_at(&self, event: &Event) -> bool
        ensures { result ≡ sends_at self.now.state event.now }
    {
        match event {
            Event::Connected => self.is_connecting(),
            Event::Moment(ms) => self.is_stall_over(*ms),
            _ => false,
        }
    }

    /// Whether the message couldn't be taken 500 ms or more before the moment, in milliseconds.
    fn is_stall_over(&self, moment: u64) -> bool
        ensures { result ≡ is_stall_over self.now.state moment }
    {
        match self.state {
            Offering::Stalled(at) => DELAY <= moment.saturating_sub(at),
            _ => false,
        }
    }

    /// Whether a connect is due at the moment, in milliseconds.
    fn is_connect_due(&self, moment: u64) -> bool
        ensures { result ≡ is_connect_due self.now.state moment }
    {
        match self.state {
            Offering::Unasked => true,
            Offering::Absent(at) => ABSENCE <= moment.saturating_sub(at),
            Offering::Delayed(at) => DELAY <= moment.saturating_sub(at),
            _ => false,
        }
    }

    /// Whether a send is due at the moment, in milliseconds.
    fn is_send_due(&self, moment: u64) -> bool
        ensures { result ≡ is_send_due self.now.state moment }
    {
        match self.state {
            Offering::Connected => true,
            Offering::Stalled(at) => DELAY <= moment.saturating_sub(at),
            _ => false,
        }
    }

    /// The least moment, in milliseconds, at which a connect or a send is due, if nothing but moments
    /// comes; none where no such moment is of 64 bits.
    pub fn next_due(&self) -> Option<u64>
        ensures { IsLeast (λ t. is_due_at self.now.state t ≡ true) result }
    {
        match self.state {
            Offering::Unasked | Offering::Connected => Some(0),
            Offering::Absent(at) => after(at, ABSENCE),
            Offering::Delayed(at) | Offering::Stalled(at) => after(at, DELAY),
            Offering::Nothing | Offering::Connecting | Offering::Sending | Offering::Over(_) => {
                None
            }
        }
    }

    /// Tells what is due at the moment, in milliseconds: a connect, or a send of the message, of which
    /// a copy is handed in where a send is due.
    pub fn ask(&mut self, moment: u64, copy: Option<Message>, actions: &mut Actions)
        requires room { 1 ≤ spare actions.old }
        ensures after { self.new ≡ asked self.old moment }
        ensures told { list_of actions.new ≡ list_of actions.old ++ ask_with copy self.old moment }
        ensures stands { (p : Plan) (q : Record) → moment ≡ now q → (is_send_due self.old.state moment ≡ true → copy ≡ self.old.message)
            → OfferStands p self.old q → OfferStands p self.new (tell q (ask_with copy self.old moment)) }
        ensures settled { IsOfferSettled self.new moment }
        ensures room { spare actions.old ≤ spare actions.new + 1 }
        ensures few { length (list_of actions.new) ≤ length (list_of actions.old) + 1 }
    {
        if self.is_connect_due(moment) {
            self.state = Offering::Connecting;
            actions.put(Action::Connect);
            return;
        }
        if self.is_send_due(moment) {
            self.state = Offering::Sending;
            put_send(copy, actions);
        }
    }
}
