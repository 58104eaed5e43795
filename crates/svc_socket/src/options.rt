//! What is asked of a socket.

ghost use Rattle.std.specs.Prelude.{◌≡◌};
ghost use Rattle.svc_socket.specs.OptionsData.{OptionsData, IsAsked};

/// The family of a socket's addresses.
#[derive(Clone, Copy, PartialEq, Eq, Debug)]
pub enum Family {
    /// IPv4.
    V4,
    /// IPv6.
    V6,
    /// Another family.
    Other,
}

/// An option of a socket. Sizes are in bytes.
#[derive(Clone, Copy, PartialEq, Eq, Debug)]
pub enum SockOption {
    /// The size of the receive buffer.
    RcvBuf(u64),
    /// The size of the send buffer.
    SndBuf(u64),
    /// Connects send data with their first segment.
    FastopenConnect,
    /// So many connects that send data with their first segment may wait.
    FastopenBacklog(u64),
    /// The differentiated services byte of IPv4.
    Tos(u8),
    /// The differentiated services byte of IPv6.
    TClass(u8),
    /// The connection is probed where there is no traffic.
    KeepAlive,
    /// Seconds without traffic before the first probe.
    KeepIdle(u64),
    /// Seconds between two probes.
    KeepInterval(u64),
    /// How many probes stay unanswered before the connection ends.
    KeepCount(u64),
    /// Milliseconds that sent data may stay unanswered.
    UserTimeout(u64),
    /// Small pieces are sent at once.
    NoDelay,
    /// Whether it takes addresses of IPv6 alone.
    V6Only(bool),
    /// Whether several sockets may listen on one port.
    ReusePort(bool),
}

/// A call that set an option, or that failed to.
#[derive(Clone, Copy)]
pub struct OptionCall {
    pub option: SockOption,
    /// Whether it was set.
    pub set: bool,
}

/// A socket whose options can be set.
pub trait Options {
    // What contracts see of it.
    ghost seen: { Self → OptionsData };

    /// How often an option couldn't be set. The count never falls; at its greatest value it stays.
    fn faults(&self) -> u64
        ensures { result ≡ (seen self.now).faults };

    /// Sets an option, and answers whether it did. What was told stays told as long as there is room.
    fn set(&mut self, option: SockOption) -> bool
        ensures { IsAsked (seen self.old) (seen self.new) option result };

    /// The family of its addresses. No call changes it.
    fn family(&self) -> Family
        ensures { result ≡ (seen self.now).family };
}
