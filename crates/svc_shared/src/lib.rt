//! A server core that several threads share: their posts form one journal.
#![tactic(auto)]

mod book;
mod journal;
mod pass;
mod plays;
mod post;
mod refusals;
mod server;
mod share;
mod told;
mod turn;
mod view;
mod work;

pub use book::{Answer, Book, BookRefused, Refusal};
pub use journal::Post;
pub use pass::{Pass, Posted, SharedServer};
pub use refusals::{CloseRefused, PostReason, PostRefused, SplitReason, SplitRefused};
pub use view::{Ended, JournalView, Note, SeatView, View};
pub use work::{Fed, Feed, Gate};
