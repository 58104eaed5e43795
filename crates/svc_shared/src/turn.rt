//! Steps of one seat: taking the turn, and leaving it.
ghost use Rattle.std.specs.Prelude.{◌≡◌, ◌+◌, ◌%◌, ◌<◌, ◌^◌, [], ◌∷◌, IfOk, IfErr, Some};
ghost use Rattle.svc_record.specs.Journal.{post};
ghost use Rattle.svc_base.specs.Items.{list_of};
ghost use Rattle.svc_shared.specs.Views.{book_of, left};
ghost use Rattle.svc_shared.specs.Turn.{IsIdle, HasTurn, Lifted, GivesBack, Took, Lost, LeftWith, LeftWithout};

use crate::book::{Answer, Book, BookRefused};
use crate::pass::SharedServer;
use crate::plays::{AcquireTurn, LoadTurn, ReleaseTurn};
use crate::view::{Board, Place};
use std::alloc::Global;
use std::mem::drop;
use svc_record::Event;

impl SharedServer {
    /// Takes the turn, or says which word was seen in its place.
    pub(crate) fn take(&self, place: &mut Place) -> Result<u64, u64>
        requires table { place.old.table_id ≡ self.now.board.shared.table_id }
        requires origin { place.old.me.0.hand.origin ≡ Some self.now.board.shared.key.value }
        requires idle { IsIdle place.old.me }
        ensures table { (place.new.table_id ≡ place.old.table_id) × (place.new.id ≡ place.old.id) }
        ensures took { IfOk result (λ word. Took self.now.board.shared.key.value word place.old.me place.new.me) }
        ensures lost { IfErr result (λ word. Lost word place.old.me place.new.me) }
    {
        let shared = &self.board.shared;
        let found = shared.load::<LoadTurn>(place, 0);
        if found % 2 == 1 {
            return Err(found);
        }
        let now = shared.compare_exchange::<AcquireTurn>(place, 0, found, found + 1);
        if now != found {
            return Err(now);
        }
        Ok(found)
    }

    /// Lifts the book out of the slot that the seat holds.
    fn take_book(&self, place: &mut Place, word: u64) -> Book
        requires table { place.old.table_id ≡ self.now.board.shared.table_id }
        requires turn { HasTurn self.now.board.shared.key.value word place.old.me }
        ensures table { (place.new.table_id ≡ place.old.table_id) × (place.new.id ≡ place.old.id) }
        ensures view { place.new.me.0 ≡ place.old.me.0 }
        ensures lifted { Lifted word place.new.me }
        ensures book { result ≡ book_of self.now.board.shared.key.value place.old.me.0.sight.base }
    {
        let _ = word;
        match self.board.shared.exchange(place, 0, None) {
            Some(book) => book,
            None => unreachable!(),
        }
    }

    /// Gives the book back and leaves the turn.
    fn leave(&self, place: &mut Place, book: Book, word: u64, next: u64)
        requires table { place.old.table_id ≡ self.now.board.shared.table_id }
        requires origin { place.old.me.0.hand.origin ≡ Some self.now.board.shared.key.value }
        requires lifted { Lifted word place.old.me }
        requires back { GivesBack self.now.board.shared.key.value book word next place.old.me }
        requires room { word < 2 ^ 63 }
        ensures table { (place.new.table_id ≡ place.old.table_id) × (place.new.id ≡ place.old.id) }
        ensures left { place.new.me ≡ (left place.old.me.0 book.posts, []) }
    {
        drop(self.board.shared.exchange(place, 0, Some(book)));
        let _ = self
            .board
            .shared
            .compare_exchange::<ReleaseTurn>(place, 0, word + 1, next);
    }

    /// Posts with the turn in hand, and leaves the turn, also where memory was refused.
    pub(crate) fn work(
        &self,
        alloc: Global,
        place: &mut Place,
        number: u64,
        word: u64,
        event: Event,
        said: bool,
    ) -> Result<Answer, BookRefused>
        requires table { place.old.table_id ≡ self.now.board.shared.table_id }
        requires origin { place.old.me.0.hand.origin ≡ Some self.now.board.shared.key.value }
        requires turn { HasTurn self.now.board.shared.key.value word place.old.me }
        requires number { number ≡ place.old.me.0.hand.number }
        ensures table { (place.new.table_id ≡ place.old.table_id) × (place.new.id ≡ place.old.id) }
        ensures posted { IfOk result (λ a. LeftWith self.now.board.shared.key.value
            (post number event said (list_of a.actions)) a.place a.end place.old.me place.new.me) }
        ensures refused { IfErr result (λ r. (r.event ≡ event) × LeftWithout self.now.board.shared.key.value event r.refusal place.old.me place.new.me) }
    {
        let mut book = self.take_book(place, word);
        match book.post(alloc, number, event, said) {
            Ok(answer) => {
                self.leave(place, book, word, word + 2);
                Ok(answer)
            }
            Err(refusal) => {
                self.leave(place, book, word, word);
                Err(refusal)
            }
        }
    }
}
