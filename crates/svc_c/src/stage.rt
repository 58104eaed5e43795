//! How far a session is.

/// How far a session is.
#[derive(Clone, Copy, PartialEq, Eq, Debug)]
pub enum Stage {
    /// Its first step wasn't taken.
    Fresh,
    /// Its first step was taken.
    Begun,
    /// All was closed.
    Closed,
}
