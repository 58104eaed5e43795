//! Events that were taken and didn't fit the journal.

use svc_base::Reserved;

/// An event whose post was refused, since it doesn't fit after the journal's first `seen` posts.
#[derive(Clone, Copy, PartialEq, Eq, Debug)]
pub struct Strayed {
    /// The event's place among those that its worker took, the first place being 1.
    pub place: u64,
    /// The length of a front of the journal after which the event doesn't fit.
    pub seen: u64,
}

/// Strays, in the order of their places.
pub type StrayList = Reserved<Strayed>;
