/// What became of the fork by which a server turns into a daemon.
#[derive(Clone, Copy, PartialEq, Eq, Debug)]
pub enum Fork {
    /// Nothing was asked.
    Unforked,
    /// The fork is awaited.
    Asked,
    /// The process is the child, which goes on.
    Child,
    /// The process is the parent, and waits for its child since this moment, in milliseconds.
    Waiting(u64),
    /// The process is the parent, and ends with this status.
    Over(u8),
}
