//! What becomes of the connections of a run that goes on.

ghost use Rattle.std.specs.Prelude.{◌≡◌, ◌+◌, ◌<◌, ◌≤◌, ◌++◌, ◌==◌, ◌^◌, [], ◌∷◌, length, ℕ, OnOk, true, false};
ghost use Rattle.svc_base.specs.Items.{list_of, spare};
ghost use Rattle.svc_record.specs.declared.plan.Plan.{Plan};
ghost use Rattle.svc_record.specs.declared.entry.Entry.TheVariants.{Got};
ghost use Rattle.svc_record.specs.declared.event.Event.TheVariants.{Arrived, AcceptFailed, Set, Shaken, Finished};
ghost use Rattle.svc_record.specs.Record.{Record, tell};
ghost use Rattle.svc_record.specs.Plans.{is_endpoint};
ghost use Rattle.svc_record.specs.Connections.{settings_list, has_filter, is_known};
ghost use Rattle.svc_connections.specs.declared.stage.Stage.TheVariants.{Shaking, Serving};
ghost use Rattle.svc_connections.specs.ConnectionsData.{ConnectionsData};
ghost use Rattle.svc_connections.specs.ConnectionsState.{ConnectionsStand, is_new, is_setting, is_shaking, is_serving, stage_of};
ghost use Rattle.svc_connections.specs.ConnectionsEffects.{nothing, taken_in, arrived, arrived_told, judged_told, is_refused, gone_on, set_told, shaken_told, finished, rest_told, cuts};

use crate::live::Live;
use crate::stage::{Connection, Stage};
use std::alloc::Global;
use std::marker::Model;
use svc_base::{NoMemory, NumberRanges, Settings};
use svc_record::{Action, Actions};
use svc_socket::Peer;

/// The error number of an accept for which too many files are open.
const TOO_MANY_FILES: u32 = 24;

/// The live connections, and the numbers of all that arrived.
#[derive(Drop)]
pub struct Connections {
    live: Live,
    came: NumberRanges,
}

impl Model for Connections {
    ghost use Rattle.std.specs.Prelude.{◌≡◌, min, true};
    ghost use Rattle.svc_base.specs.Items.{list_of, spare};
    ghost use Rattle.svc_connections.specs.ConnectionsData.{ConnectionsRoom};
    ghost use Rattle.svc_connections.specs.ConnectionsState.{all_came};

    ghost Value = { ConnectionsRoom };

    ghost view = { λ c. record { parts = record { live = list_of c.live; came = list_of c.came }; room = min (spare c.live) (spare c.came) } };

    ghost invariant = { λ c. all_came (list_of c.came) (list_of c.live) ≡ true };
}

/// The peer is known.
fn is_known(peer: &Peer) -> bool
    ensures { result ≡ is_known peer.now }
{
    !matches!(peer, Peer::Unknown)
}

/// The peer is known, and the answer is no.
fn is_refused(peer: &Peer, said: bool) -> bool
    ensures { result ≡ is_refused peer.now said }
{
    is_known(peer) && !said
}

/// Tells what was said of a connection whose peer is known.
fn tell_judged(c: u64, peer: &Peer, said: bool, actions: &mut Actions)
    requires room { 1 ≤ spare actions.old }
    ensures told { list_of actions.new ≡ list_of actions.old ++ judged_told c peer.now said }
    ensures room { spare actions.old ≤ spare actions.new + 1 }
    ensures few { length (list_of actions.new) ≤ length (list_of actions.old) + 1 }
{
    if is_known(peer) {
        actions.put(Action::Judged(c, said));
    }
}

/// Accepting at the service's endpoint failed with this number: it rests where too many files are
/// open.
pub fn on_accept_failed(s: u32, i: u32, number: u32, actions: &mut Actions)
    requires room { 1 ≤ spare actions.old }
    ensures told { list_of actions.new ≡ list_of actions.old ++ rest_told s i number }
    ensures stands { (p : Plan) (d : ConnectionsData) (q : Record) → is_endpoint p s i ≡ true → ConnectionsStand p d q
        → ConnectionsStand p d (tell (Got (AcceptFailed s i number) ∷ q) (rest_told s i number)) }
    ensures room { spare actions.old ≤ spare actions.new + 1 }
    ensures few { length (list_of actions.new) ≤ length (list_of actions.old) + 1 }
{
    if number == TOO_MANY_FILES {
        actions.put(Action::Rest(s, i));
    }
}

impl Connections {
    /// Nothing has arrived.
    pub fn new(alloc: Global) -> Connections
        ensures fresh { result.parts ≡ nothing }
        ensures stands { (p : Plan) → ConnectionsStand p result.parts [] }
    {
        Connections {
            live: Live::new(alloc),
            came: NumberRanges::new(alloc),
        }
    }

    /// After it there is memory for one more connection.
    pub fn reserve(&mut self) -> Result<(), NoMemory>
        ensures parts { self.new.parts ≡ self.old.parts }
        ensures room { OnOk result (0 < self.new.room) }
    {
        self.live.reserve()?;
        self.came.reserve(1)
    }

    /// No connection with this number has arrived.
    pub fn is_new(&self, c: u64) -> bool
        ensures { result ≡ is_new self.now.parts c }
    {
        !self.came.has(c)
    }

    /// The connection's settings are being applied.
    pub fn is_setting(&self, c: u64) -> bool
        ensures { result ≡ is_setting (stage_of self.now.parts.live c) }
    {
        matches!(self.live.stage_of(c), Some(Stage::Setting))
    }

    /// Its handshake is polled.
    pub fn is_shaking(&self, c: u64) -> bool
        ensures { result ≡ is_shaking (stage_of self.now.parts.live c) }
    {
        matches!(self.live.stage_of(c), Some(Stage::Shaking))
    }

    /// The application has it.
    pub fn is_serving(&self, c: u64) -> bool
        ensures { result ≡ is_serving (stage_of self.now.parts.live c) }
    {
        matches!(self.live.stage_of(c), Some(Stage::Serving))
    }

    /// How many connections are live.
    pub fn live_len(&self) -> usize
        ensures small { result < 2 ^ 59 }
        ensures length { result ≡ length self.now.parts.live }
    {
        self.live.len()
    }

    /// A new connection arrived. What is refused isn't live.
    fn take_in(&mut self, c: u64, refused: bool)
        requires new { is_new self.old.parts c ≡ true }
        requires room { 0 < self.old.room }
        ensures after { self.new.parts ≡ taken_in c refused self.old.parts }
    {
        self.came.add(c);
        if !refused {
            self.live.put(Connection {
                number: c,
                stage: Stage::Setting,
            });
        }
    }

    /// A new connection arrived at the service's endpoint from the peer, of which the filter says
    /// yes or no: it is refused, or the settings are applied.
    pub fn on_arrived(
        &mut self,
        c: u64,
        peer: &Peer,
        said: bool,
        settings: Settings,
        actions: &mut Actions,
    )
        requires new { is_new self.old.parts c ≡ true }
        requires memory { 0 < self.old.room }
        requires room { 2 ≤ spare actions.old }
        ensures after { self.new.parts ≡ arrived c peer.now said self.old.parts }
        ensures told { list_of actions.new ≡ list_of actions.old ++ arrived_told c peer.now said settings }
        ensures stands { (p : Plan) (s i : ℕ) (q : Record) → settings ≡ settings_list p s i → (has_filter p s i ≡ false → said ≡ true)
            → ConnectionsStand p self.old.parts q
            → ConnectionsStand p self.new.parts (tell (Got (Arrived s i c peer.now) ∷ q) (arrived_told c peer.now said settings)) }
        ensures room { spare actions.old ≤ spare actions.new + 2 }
        ensures few { length (list_of actions.new) ≤ length (list_of actions.old) + 2 }
    {
        let refused = is_refused(peer, said);
        self.take_in(c, refused);
        tell_judged(c, peer, said, actions);
        if refused {
            actions.put(Action::Refuse(c));
        } else {
            actions.put(Action::Settings(c, settings));
        }
    }

    /// The connection goes on to the stage, or is live no more.
    fn advance_to(&mut self, c: u64, ok: bool, stage: Stage)
        ensures { self.new.parts ≡ gone_on c ok stage self.old.parts }
    {
        if ok {
            self.live.move_to(c, stage);
        } else {
            self.live.remove(c);
        }
    }

    /// The connection's settings were applied, and its handshake is polled; or they weren't, and it
    /// is dropped.
    pub fn on_set(&mut self, c: u64, ok: bool, actions: &mut Actions)
        requires awaited { is_setting (stage_of self.old.parts.live c) ≡ true }
        requires room { 1 ≤ spare actions.old }
        ensures after { self.new.parts ≡ gone_on c ok Shaking self.old.parts }
        ensures told { list_of actions.new ≡ list_of actions.old ++ set_told c ok }
        ensures stands { (p : Plan) (q : Record) → ConnectionsStand p self.old.parts q
            → ConnectionsStand p self.new.parts (tell (Got (Set c ok) ∷ q) (set_told c ok)) }
        ensures room { spare actions.old ≤ spare actions.new + 1 }
        ensures few { length (list_of actions.new) ≤ length (list_of actions.old) + 1 }
    {
        self.advance_to(c, ok, Stage::Shaking);
        if ok {
            actions.put(Action::Handshake(c));
        } else {
            actions.put(Action::Drop(c));
        }
    }

    /// The connection's handshake is done, and it is served; or it failed, and it is dropped.
    pub fn on_shaken(&mut self, c: u64, ok: bool, actions: &mut Actions)
        requires awaited { is_shaking (stage_of self.old.parts.live c) ≡ true }
        requires room { 1 ≤ spare actions.old }
        ensures after { self.new.parts ≡ gone_on c ok Serving self.old.parts }
        ensures told { list_of actions.new ≡ list_of actions.old ++ shaken_told c ok }
        ensures stands { (p : Plan) (q : Record) → ConnectionsStand p self.old.parts q
            → ConnectionsStand p self.new.parts (tell (Got (Shaken c ok) ∷ q) (shaken_told c ok)) }
        ensures room { spare actions.old ≤ spare actions.new + 1 }
        ensures few { length (list_of actions.new) ≤ length (list_of actions.old) + 1 }
    {
        self.advance_to(c, ok, Stage::Serving);
        if ok {
            actions.put(Action::Serve(c));
        } else {
            actions.put(Action::Drop(c));
        }
    }

    /// The application is done with the connection.
    pub fn on_finished(&mut self, c: u64)
        requires served { is_serving (stage_of self.old.parts.live c) ≡ true }
        ensures after { self.new.parts ≡ finished c self.old.parts }
        ensures stands { (p : Plan) (q : Record) → ConnectionsStand p self.old.parts q → ConnectionsStand p self.new.parts (Got (Finished c) ∷ q) }
    {
        self.live.remove(c);
    }

    /// Cuts each live connection, in ascending number.
    pub fn cut_all(&self, actions: &mut Actions)
        requires room { length self.now.parts.live ≤ spare actions.old }
        ensures told { list_of actions.new ≡ list_of actions.old ++ cuts self.now.parts.live }
        ensures room { spare actions.old ≤ spare actions.new + length self.now.parts.live }
    {
        self.live.cut_all(actions);
    }
}
