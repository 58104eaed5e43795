//! Opening and closing a shared server.
ghost use Rattle.std.specs.Prelude.{◌≡◌, ◌≤◌, [], IfOk, IfErr};
ghost use Rattle.svc_base.specs.Items.{list_of};
ghost use Rattle.svc_record.specs.Validity.{IsValid};
ghost use Rattle.svc_shared.specs.Journals.{IsLegal};
ghost use Rattle.svc_shared.specs.Views.{first_view, IsWhole};
ghost use Rattle.svc_shared.specs.Posting.{IsOf, IsClosed, IsUnclosed, origin_of, view_of, hand_in};

use crate::book::Book;
use crate::journal::Post;
use crate::pass::{Pass, ShareState, SharedServer};
use crate::refusals::CloseRefused;
use atomic_table::Table;
use std::alloc::Global;
use std::mem::drop;
use std::snapshot::Snapshot;
use svc_base::NoMemory;
use svc_record::{Actions, Plan};

impl SharedServer {
    /// Opens a server that takes so many posts, with the one pass that has the whole share, and
    /// gives what its core told as it began.
    pub fn new(
        alloc: Global,
        plan: Plan,
        limit: u64,
    ) -> Result<(SharedServer, Pass, Actions), NoMemory>
        requires valid { IsValid plan }
        requires limit { limit ≤ 4611686018427387903 }
        ensures of { IfOk result (λ r. IsOf r.0 r.1) }
        ensures origin { IfOk result (λ r. ((origin_of r.0).plan ≡ plan) × ((origin_of r.0).limit ≡ limit) × ((origin_of r.0).opening ≡ list_of r.2)) }
        ensures legal { IfOk result (λ r. IsLegal (origin_of r.0) []) }
        ensures first { IfOk result (λ r. view_of r.1 ≡ first_view (origin_of r.0)) }
    {
        let (book, opening) = Book::new(alloc, plan, limit)?;
        let about = Snapshot::of(&book);
        let mut slots = match Vec::with_capacity(alloc, 1) {
            Ok(slots) => slots,
            Err(_) => {
                drop(book);
                drop(opening);
                return Err(NoMemory);
            }
        };
        slots.push_reserved(Some(book));
        let (board, place) = match Table::new(alloc, &[0, 2], slots, &about) {
            Ok(made) => made,
            Err(refused) => {
                drop(refused);
                drop(opening);
                return Err(NoMemory);
            }
        };
        let lot = ShareState {
            number: 0,
            low: 0,
            high: u64::MAX,
            drawn: Some(1),
        };
        Ok((SharedServer { board }, Pass { place, lot }, opening))
    }

    /// Gives the journal. A pass with the whole share says that all other passes were joined.
    pub fn close(self, _alloc: Global, pass: Pass) -> Result<Vec<Post>, CloseRefused>
        requires of { IsOf self pass }
        requires whole { IsWhole (hand_in pass) }
        ensures closed { IfOk result (λ posts. IsClosed self pass posts.items) }
        ensures refused { IfErr result (IsUnclosed self pass) }
    {
        Ok(self.end(pass))
    }

    /// The same, which takes no memory.
    fn end(self, pass: Pass) -> Vec<Post>
        requires of { IsOf self pass }
        requires whole { IsWhole (hand_in pass) }
        ensures { IsClosed self pass result.items }
    {
        let SharedServer { board } = self;
        let Pass { place, lot: _ } = pass;
        let mut closed = board.close_with(place);
        let slot = closed.take(0);
        closed.free();
        match slot {
            Some(book) => book.into_posts(),
            None => unreachable!(),
        }
    }
}
