use std::fmt;

/// The keepalive of a TCP connection.
#[derive(Clone, Copy, PartialEq, Eq, Debug)]
pub struct TcpKeepalive {
    /// Nanoseconds without traffic before the first probe.
    pub idle: u64,
    /// Nanoseconds between two probes.
    pub interval: u64,
    /// How many probes stay unanswered before the connection ends.
    pub count: u64,
    /// Nanoseconds that sent data may stay unanswered.
    pub user_timeout: u64,
}

impl fmt::Display for TcpKeepalive {
    fn fmt<W: fmt::Write>(&self, f: &mut fmt::Formatter<W>) -> fmt::Result {
        let TcpKeepalive {
            idle,
            interval,
            count,
            user_timeout,
        } = *self;
        write!(f, "{idle}ns/{interval}ns/{count}/{user_timeout}ns")
    }
}

/// An option that is set on an accepted connection.
#[derive(Clone, Copy, PartialEq, Eq, Debug)]
pub enum Setting {
    /// Small pieces are sent at once.
    NoDelay,
    /// The connection is probed where there is no traffic, by these times.
    KeepAlive(TcpKeepalive),
    /// The differentiated services byte.
    Dscp(u8),
    /// The size of the send buffer, in bytes.
    SndBuf(u64),
    /// The size of the receive buffer, in bytes.
    RcvBuf(u64),
}
