//! Posts.
ghost use Rattle.std.specs.Prelude.{◌≡◌, ◌≤◌, Some, IfOk, IfErr};
ghost use Rattle.svc_base.specs.Items.{list_of};
ghost use Rattle.svc_record.specs.Journal.{post};
ghost use Rattle.svc_shared.specs.Turn.{IsIdle, HasTurn, TookLater, LeftWith};
ghost use Rattle.svc_shared.specs.Posting.{IsOf, IsPosted, IsRefused, IsBusy, never, reason_is, LeftFor, hand_in};

use crate::book::{Answer, BookRefused, Refusal};
use crate::pass::{Pass, Posted, ShareState, SharedServer};
use crate::refusals::{PostReason, PostRefused};
use crate::view::Place;
use std::alloc::Global;
use std::sync::Wait;
use std::thread;
use svc_record::Event;

fn reason_of(refusal: Refusal) -> PostReason
    ensures { result ≡ reason_is refusal }
{
    match refusal {
        Refusal::Full => PostReason::Full,
        Refusal::Stray(seen) => PostReason::Stray(seen),
        Refusal::NoMemory => PostReason::NoMemory,
    }
}

impl SharedServer {
    /// The number of the pass's seat.
    pub fn seat(&self, pass: &Pass) -> u64
        requires { IsOf self.now pass.now }
        ensures { result ≡ (hand_in pass.now).number }
    {
        pass.lot.number
    }

    /// Posts an event, or says why not. It never waits. A pass with the whole share never finds the
    /// turn taken.
    pub fn try_post(
        &self,
        alloc: Global,
        pass: Pass,
        event: Event,
        said: bool,
    ) -> Result<Posted, PostRefused>
        requires { IsOf self.now pass }
        ensures posted { IfOk result (IsPosted self.now pass event said) }
        ensures refused { IfErr result (λ r. IsRefused (IsBusy pass r.pass) self.now pass event r) }
    {
        let Pass { mut place, lot } = pass;
        match self.take(&mut place) {
            Ok(word) => self.finish(alloc, place, lot, word, event, said),
            Err(word) => Err(PostRefused {
                reason: PostReason::Busy(word),
                pass: Pass { place, lot },
                event,
            }),
        }
    }

    /// Posts an event, or says why not. It waits for the turn.
    pub fn post<R: Wait>(
        &self,
        rt: &R,
        alloc: Global,
        pass: Pass,
        event: Event,
        said: bool,
    ) -> Result<Posted, PostRefused>
        requires { IsOf self.now pass }
        ensures posted { IfOk result (IsPosted self.now pass event said) }
        ensures refused { IfErr result (IsRefused never self.now pass event) }
    {
        let Pass { mut place, lot } = pass;
        let word = self.wait_turn(rt, &mut place);
        self.finish(alloc, place, lot, word, event, said)
    }

    /// Tries until it has the turn.
    fn wait_turn<R: Wait>(&self, rt: &R, place: &mut Place) -> u64
        requires table { place.old.table_id ≡ self.now.board.shared.table_id }
        requires origin { place.old.me.0.hand.origin ≡ Some self.now.board.shared.key.value }
        requires idle { IsIdle place.old.me }
        ensures table { place.new.table_id ≡ place.old.table_id }
        ensures took { TookLater self.now.board.shared.key.value result place.old.me place.new.me }
    {
        for _ in rt.forever() {
            if let Ok(word) = self.take(place) {
                return word;
            }
            thread::yield_now();
        }
        unreachable!()
    }

    /// Posts with the turn in hand, and leaves it.
    fn finish(
        &self,
        alloc: Global,
        mut place: Place,
        lot: ShareState,
        word: u64,
        event: Event,
        said: bool,
    ) -> Result<Posted, PostRefused>
        requires table { place.table_id ≡ self.now.board.shared.table_id }
        requires origin { place.me.0.hand.origin ≡ Some self.now.board.shared.key.value }
        requires turn { HasTurn self.now.board.shared.key.value word place.me }
        requires some_share { lot.low ≤ lot.high }
        requires number { lot.number ≡ place.me.0.hand.number }
        requires low { lot.low ≡ place.me.0.hand.low }
        requires high { lot.high ≡ place.me.0.hand.high }
        requires drawn { lot.drawn ≡ place.me.0.hand.drawn }
        ensures posted { IfOk result (λ r. (r.pass.place.table_id ≡ place.table_id)
            × LeftWith self.now.board.shared.key.value (post lot.number event said (list_of r.actions)) r.place r.end place.me r.pass.place.me) }
        ensures refused { IfErr result (λ r. (r.pass.place.table_id ≡ place.table_id) × (r.event ≡ event)
            × LeftFor self.now.board.shared.key.value event r.reason place.me r.pass.place.me) }
    {
        match self.work(alloc, &mut place, lot.number, word, event, said) {
            Ok(
                Answer {
                    place: at,
                    actions,
                    end,
                },
            ) => Ok(Posted {
                place: at,
                pass: Pass { place, lot },
                actions,
                end,
            }),
            Err(BookRefused { refusal, event }) => Err(PostRefused {
                reason: reason_of(refusal),
                pass: Pass { place, lot },
                event,
            }),
        }
    }
}
