//! The shared server, and what a thread posts with.
ghost use Rattle.std.specs.Prelude.{◌≡◌, ◌≤◌};
ghost use Rattle.svc_shared.specs.Turn.{IsIdle};

use crate::view::{Board, Place};
use svc_record::{Actions, StepEnd};

/// A server core whose events come from several threads, each with a pass of its own. The posts of
/// all passes form one journal.
#[derive(Drop)]
pub struct SharedServer {
    // The turn is one word: twice the journal's length, plus one while held. A second word is the
    // next number to be drawn. The book stands in a slot.
    pub(crate) board: Board,
    ghost words: { board.shared.table_id.words ≡ 2 },
    ghost slots: { board.shared.table_id.slots ≡ 1 },
}

/// The number of a pass, the first and the last number of its share, and perhaps a drawn number.
#[derive(Clone, Copy)]
pub(crate) struct ShareState {
    pub number: u64,
    pub low: u64,
    pub high: u64,
    pub drawn: Option<u64>,
}

/// A seat of one server: what a thread posts with.
#[derive(Drop)]
pub struct Pass {
    pub(crate) place: Place,
    pub(crate) lot: ShareState,
    ghost idle: { IsIdle place.me },
    ghost some_share: { lot.low ≤ lot.high },
    ghost number_is: { lot.number ≡ place.me.0.hand.number },
    ghost low_is: { lot.low ≡ place.me.0.hand.low },
    ghost high_is: { lot.high ≡ place.me.0.hand.high },
    ghost drawn_is: { lot.drawn ≡ place.me.0.hand.drawn },
}

/// An answered post: its place in the journal, the first place being 1, the actions that were told,
/// and what the step left of the run.
#[derive(Drop)]
pub struct Posted {
    pub place: u64,
    pub pass: Pass,
    pub actions: Actions,
    pub end: StepEnd,
}
