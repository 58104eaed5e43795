//! Splitting a pass, and joining two.
ghost use Rattle.std.specs.Prelude.{◌≡◌, ◌+◌, ◌<◌, Some, None, IfOk, IfErr, IfSome, IfNone};
ghost use Rattle.svc_shared.specs.Turn.{IsIdle};
ghost use Rattle.svc_shared.specs.Sharing.{Drawn, Undrawn, IsCut, IsSplit, IsUnsplit, IsJoined};
ghost use Rattle.svc_shared.specs.Posting.{IsOf, hand_in};

use crate::pass::{Pass, ShareState, SharedServer};
use crate::plays::{AfterJoin, AllocateSeat, JoinSeat, LoadNext, LoadTurn, SplitSeat};
use crate::refusals::{SplitReason, SplitRefused};
use crate::view::Place;
use std::alloc::Global;
use std::sync::Wait;

impl SharedServer {
    /// Gives a second pass the upper half of the share, and a number that no seat had before. It
    /// waits until it has drawn a number, unless the pass has drawn one.
    pub fn split<R: Wait>(
        &self,
        rt: &R,
        _alloc: Global,
        pass: Pass,
    ) -> Result<(Pass, Pass), SplitRefused>
        requires { IsOf self.now pass }
        ensures split { IfOk result (λ r. IsSplit self.now pass r.0 r.1) }
        ensures refused { IfErr result (IsUnsplit self.now pass) }
    {
        if pass.lot.low >= pass.lot.high {
            return Err(SplitRefused {
                reason: SplitReason::Thin,
                pass,
            });
        }
        let Pass { mut place, lot } = pass;
        match self.number_for(rt, &mut place, lot.drawn) {
            Some(number) => Ok(self.cut(place, lot, number)),
            None => Err(SplitRefused {
                reason: SplitReason::NoNumber,
                pass: Pass { place, lot },
            }),
        }
    }

    /// The drawn number of a pass, or one that is drawn now. None where none is left.
    fn number_for<R: Wait>(&self, rt: &R, place: &mut Place, drawn: Option<u64>) -> Option<u64>
        requires table { place.old.table_id ≡ self.now.board.shared.table_id }
        requires idle { IsIdle place.old.me }
        requires drawn { drawn ≡ place.old.me.0.hand.drawn }
        ensures table { place.new.table_id ≡ place.old.table_id }
        ensures some { IfSome result (λ k. Drawn k place.old.me place.new.me) }
        ensures none { IfNone result (Undrawn place.old.me place.new.me) }
    {
        match drawn {
            Some(k) => Some(k),
            None => self.draw(rt, place),
        }
    }

    /// Draws a number. None where none is left.
    fn draw<R: Wait>(&self, rt: &R, place: &mut Place) -> Option<u64>
        requires table { place.old.table_id ≡ self.now.board.shared.table_id }
        requires idle { IsIdle place.old.me }
        requires undrawn { place.old.me.0.hand.drawn ≡ None }
        ensures table { place.new.table_id ≡ place.old.table_id }
        ensures some { IfSome result (λ k. Drawn k place.old.me place.new.me) }
        ensures none { IfNone result (Undrawn place.old.me place.new.me) }
    {
        let shared = &self.board.shared;
        for _ in rt.forever() {
            let k = shared.load::<LoadNext>(place, 1);
            if k == u64::MAX {
                return None;
            }
            if shared.compare_exchange::<AllocateSeat>(place, 1, k, k + 1) == k {
                return Some(k);
            }
        }
        unreachable!()
    }

    /// Cuts the share in two halves. The second pass has the number that was drawn.
    fn cut(&self, mut place: Place, lot: ShareState, number: u64) -> (Pass, Pass)
        requires table { place.table_id ≡ self.now.board.shared.table_id }
        requires idle { IsIdle place.me }
        requires drawn { place.me.0.hand.drawn ≡ Some number }
        requires number { lot.number ≡ place.me.0.hand.number }
        requires low { lot.low ≡ place.me.0.hand.low }
        requires high { lot.high ≡ place.me.0.hand.high }
        requires two { lot.low < lot.high }
        ensures table { (result.0.place.table_id ≡ place.table_id) × (result.1.place.table_id ≡ place.table_id) }
        ensures cut { IsCut number place.me result.0.place.me result.1.place.me }
    {
        let shared = &self.board.shared;
        let _ = shared.load::<LoadTurn>(&mut place, 0);
        let second = shared.split_seat::<SplitSeat>(&mut place);
        let middle = lot.low + (lot.high - lot.low) / 2;
        let lower = ShareState {
            number: lot.number,
            low: lot.low,
            high: middle,
            drawn: None,
        };
        let upper = ShareState {
            number,
            low: middle + 1,
            high: lot.high,
            drawn: None,
        };
        (
            Pass { place, lot: lower },
            Pass {
                place: second,
                lot: upper,
            },
        )
    }

    /// One pass of two, whose shares stand side by side. It has the left one's number.
    pub fn join(&self, left: Pass, right: Pass) -> Pass
        requires left { IsOf self.now left }
        requires right { IsOf self.now right }
        requires after { (hand_in right).low ≡ (hand_in left).high + 1 }
        ensures { IsJoined self.now left right result }
    {
        let Pass { mut place, lot } = left;
        let Pass {
            place: other,
            lot: upper,
        } = right;
        let shared = &self.board.shared;
        shared.join_seat::<JoinSeat>(&mut place, other);
        let _ = shared.load::<AfterJoin>(&mut place, 0);
        let both = ShareState {
            number: lot.number,
            low: lot.low,
            high: upper.high,
            drawn: lot.drawn,
        };
        Pass { place, lot: both }
    }
}
