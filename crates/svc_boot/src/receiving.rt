use svc_record::BootstrapError;

/// How far the receiving of an older server's message has come.
#[derive(Clone, Copy, PartialEq, Eq, Debug)]
pub enum Receiving {
    /// It wasn't tried yet.
    Unasked,
    /// A try is open.
    Trying,
    /// Nobody sent yet at this moment, in milliseconds, and it is tried again.
    Missed(u64),
    /// A message came that can be read.
    Came,
    /// The run ends, for this reason.
    Refused(BootstrapError),
}
