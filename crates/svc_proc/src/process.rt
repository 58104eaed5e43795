//! What a daemon asks of its process.

ghost use Rattle.std.specs.Prelude.{◌≡◌, ◌+◌, ◌≤◌, ◌∷◌, []};
ghost use Rattle.svc_proc.specs.ProcessData.{ProcessData, Asks, Forks};

use svc_base::Text;

/// What a fork answers.
#[derive(Clone, Copy, PartialEq, Eq, Debug)]
pub enum ForkAnswer {
    /// This is the child.
    Child,
    /// This is the parent.
    Parent,
    /// There is no child.
    Failed,
}

/// What the sending of a signal answers.
#[derive(Clone, Copy, PartialEq, Eq, Debug)]
pub enum SignalAnswer {
    /// The signal was sent.
    Sent,
    /// The process isn't permitted to send it.
    Denied,
    /// The system answered with this error number.
    Other(i32),
}

/// A call that a process was asked, with its answer.
#[derive(PartialEq, Eq, Debug, Drop)]
pub enum ProcessCall {
    /// Whether this path exists.
    Exists(Text, bool),
    /// Whether the first path was renamed to the second.
    Rename(Text, Text, bool),
    /// A fork, and what it answered.
    Fork(ForkAnswer),
    /// What the signal to the process of this number answered.
    Notify(u32, SignalAnswer),
    /// It was to rest for so many milliseconds.
    Rest(u64),
}

/// The process that a server runs in.
pub trait Process {
    // What contracts see of it.
    ghost seen: { Self → ProcessData };

    /// How often it has failed to fork. The count never falls; at its greatest value it stays.
    fn faults(&self) -> u64
        ensures { result ≡ (seen self.now).faults };

    /// Whether there is a file at the path.
    fn exists(&mut self, path: &str) -> bool
        ensures { Asks (seen self.old) (seen self.new) (ProcessCall.Exists path.now result ∷ []) };

    /// Renames a file, and answers whether it did.
    fn rename(&mut self, from: &str, to: &str) -> bool
        ensures { Asks (seen self.old) (seen self.new) (ProcessCall.Rename from.now to.now result ∷ []) };

    /// Makes a child that goes on from here, as the parent does.
    fn fork(&mut self) -> ForkAnswer
        ensures asks { Forks (seen self.old) (seen self.new) result }
        ensures place { (seen self.old).room ≤ (seen self.new).room + 1 };

    /// Sends the process with this number the signal that its child is ready.
    fn notify(&mut self, pid: u32) -> SignalAnswer
        ensures asks { Asks (seen self.old) (seen self.new) (ProcessCall.Notify pid result ∷ []) }
        ensures place { (seen self.old).room ≤ (seen self.new).room + 1 };

    /// Rests for so many milliseconds.
    fn rest(&mut self, ms: u64)
        ensures asks { Asks (seen self.old) (seen self.new) (ProcessCall.Rest ms ∷ []) }
        ensures place { (seen self.old).room ≤ (seen self.new).room + 1 };

    /// The moment, in milliseconds. No call lowers it.
    fn now(&self) -> u64
        ensures { result ≡ (seen self.now).moment };

    /// The process's number. Only a fork changes it.
    fn pid(&self) -> u32
        ensures { result ≡ (seen self.now).number };
}
