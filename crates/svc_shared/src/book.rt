//! The book: the core with the journal of its posts.
ghost use Rattle.std.specs.Prelude.{◌≡◌, ◌<◌, ◌≤◌, ◌^◌, [], ◌∷◌, ◌++◌, length, IfOk, IfErr, IsErrAnd, OnErr};
ghost use Rattle.svc_base.specs.Items.{list_of};
ghost use Rattle.svc_record.specs.Validity.{IsValid};
ghost use Rattle.svc_record.specs.Journal.{post};
ghost use Rattle.svc_shared.specs.Journals.{IsLegal, end_after};
ghost use Rattle.svc_shared.specs.Refusals.{IsDue};

use crate::journal::Post;
use crate::told::{copies, take_actions};
use std::alloc::Global;
use std::marker::Model;
use std::mem::drop;
use svc_base::NoMemory;
use svc_core::Core;
use svc_record::{Actions, Event, Plan, StepEnd};

/// A core that has begun, with the posts that it was stepped by.
#[derive(Drop)]
pub struct Book {
    core: Core,
    opening: Actions,
    limit: u64,
    posts: Vec<Post>,
    // A step tells into these two lists. Between posts they are empty, and keep their room.
    stage: Actions,
    second: Actions,
}

impl Model for Book {
    ghost use Rattle.std.specs.Prelude.{◌≡◌, ◌≤◌, ◌<◌, ◌^◌, [], length};
    ghost use Rattle.svc_base.specs.Items.{list_of};
    ghost use Rattle.svc_shared.specs.BookData.{BookData, book};
    ghost use Rattle.svc_shared.specs.Journals.{record_of, IsLegal};
    ghost use Rattle.svc_core.specs.Stands.{Represents};

    ghost Value = { BookData };

    ghost view = { λ b. book b.core.plan (list_of b.opening) b.limit b.posts.items };

    ghost invariant = { λ b. Represents b.core (record_of (book b.core.plan (list_of b.opening) b.limit b.posts.items) b.posts.items)
        × IsLegal (book b.core.plan (list_of b.opening) b.limit b.posts.items) b.posts.items × (length b.posts.items ≤ b.limit) × (b.limit < 2 ^ 62)
        × (list_of b.stage ≡ []) × (list_of b.second ≡ []) };
}

/// Why a book takes no post.
#[derive(Clone, Copy, PartialEq, Eq, Debug)]
pub enum Refusal {
    /// It has as many posts as it may have.
    Full,
    /// The event doesn't fit after so many posts.
    Stray(u64),
    /// There was no memory.
    NoMemory,
}

/// What a post brought.
#[derive(Drop)]
pub struct Answer {
    pub place: u64,
    pub actions: Actions,
    pub end: StepEnd,
}

/// A refused event comes back.
#[derive(Drop)]
pub struct BookRefused {
    pub refusal: Refusal,
    pub event: Event,
}

fn refused(refusal: Refusal, event: Event) -> BookRefused
    ensures refusal { result.refusal ≡ refusal }
    ensures event { result.event ≡ event }
{
    BookRefused { refusal, event }
}

impl Book {
    /// A book whose core has begun, and the actions that it told.
    pub fn new(alloc: Global, plan: Plan, limit: u64) -> Result<(Book, Actions), NoMemory>
        requires valid { IsValid plan }
        requires limit { limit < 2 ^ 62 }
        ensures plan { IfOk result (λ r. r.0.plan ≡ plan) }
        ensures limit { IfOk result (λ r. r.0.limit ≡ limit) }
        ensures posts { IfOk result (λ r. r.0.posts ≡ []) }
        ensures opening { IfOk result (λ r. r.0.opening ≡ list_of r.1) }
        ensures legal { IfOk result (λ r. IsLegal r.0 []) }
    {
        let mut core = Core::new(alloc, plan)?;
        let mut opening = Actions::new(alloc);
        match core.begin(alloc, &mut opening) {
            Ok(_) => {}
            Err(NoMemory) => {
                drop(opening);
                drop(core);
                return Err(NoMemory);
            }
        }
        let actions = match copies(alloc, opening.as_slice()) {
            Ok(actions) => actions,
            Err(NoMemory) => {
                drop(opening);
                drop(core);
                return Err(NoMemory);
            }
        };
        let posts = Vec::new(alloc);
        Ok((
            Book {
                core,
                opening,
                limit,
                posts,
                stage: Actions::new(alloc),
                second: Actions::new(alloc),
            },
            actions,
        ))
    }

    /// One event. At an `Err` the book is what it was.
    pub fn post(
        &mut self,
        alloc: Global,
        seat: u64,
        event: Event,
        said: bool,
    ) -> Result<Answer, BookRefused>
        ensures plan { self.new.plan ≡ self.old.plan }
        ensures opening { self.new.opening ≡ self.old.opening }
        ensures limit { self.new.limit ≡ self.old.limit }
        ensures bound { (length self.new.posts ≤ self.new.limit) × (self.new.limit < 2 ^ 62) }
        ensures posts { IfOk result (λ a. self.new.posts ≡ self.old.posts ++ post seat event said (list_of a.actions) ∷ []) }
        ensures place { IfOk result (λ a. a.place ≡ length self.new.posts) }
        ensures end { IfOk result (λ a. a.end ≡ end_after self.new self.new.posts) }
        ensures legal { IfOk result (λ a. IsLegal self.new self.new.posts) }
        ensures refused { OnErr result (self.new ≡ self.old) }
        ensures back { IfErr result (λ r. r.event ≡ event) }
        ensures cause { IfErr result (λ r. IsDue self.old event r.refusal) }
        ensures full { length self.old.posts ≡ self.old.limit → IsErrAnd result (λ r. r.refusal ≡ Refusal.Full) }
    {
        if self.posts.len() as u64 >= self.limit {
            return Err(refused(Refusal::Full, event));
        }
        if !self.core.fits(&event) {
            return Err(refused(Refusal::Stray(self.posts.len() as u64), event));
        }
        let Ok(()) = self.posts.reserve(1) else {
            return Err(refused(Refusal::NoMemory, event));
        };
        let Ok(end) = self
            .core
            .step_twice(alloc, &event, said, &mut self.stage, &mut self.second)
        else {
            return Err(refused(Refusal::NoMemory, event));
        };
        let told = take_actions(alloc, &mut self.stage);
        let actions = take_actions(alloc, &mut self.second);
        self.posts.push_reserved(Post {
            seat,
            event,
            said,
            actions: told,
        });
        Ok(Answer {
            place: self.posts.len() as u64,
            actions,
            end,
        })
    }

    /// The journal.
    pub fn into_posts(self) -> Vec<Post>
        ensures posts { result.items ≡ self.posts }
        ensures legal { IsLegal self self.posts }
    {
        let Book {
            core,
            opening,
            limit: _,
            posts,
            stage,
            second,
        } = self;
        drop(core);
        drop(opening);
        drop(stage);
        drop(second);
        posts
    }
}
