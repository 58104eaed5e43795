//! What a server sets on its sockets, how it connects, and what stands for TLS where there is none.
#![tactic(auto)]

pub mod connectors;
pub mod laws;
mod memory;
mod net_options;
mod options;
mod peer;
pub mod protocols;
mod reading;

pub use connectors::dialer::{BindTo, DialAnswer, DialCall, DialFault, Dialer, OsFault, Target};
pub use connectors::l4::{ConnectError, ConnectErrorDetails, ConnectKind, connect, connect_uds};
pub use connectors::memory::{FailingDial, MemoryDialer, SteadyDialer};
pub use connectors::net::{Dialed, NetDialer};
pub use memory::{MemoryOptions, SteadyOptions};
pub use net_options::NetOptions;
pub use options::{Family, OptionCall, Options, SockOption};
pub use peer::{Peer, PeerAddr, ip6_number};
pub use protocols::l4::ext::{
    OptionError, TcpSocketOptions, apply_bind_options, set_dscp, set_recv_buf, set_snd_buf,
    set_tcp_fastopen_backlog, set_tcp_fastopen_connect, set_tcp_keepalive, settings_of,
};
pub use protocols::l4::virt::{IoPoll, VirtualSockOpt, VirtualSocket, VirtualSocketStream};
pub use protocols::tls::digest::{SslDigest, SslDigestExtension};
pub use reading::{IpNumber, read_ip, read_peer, read_peer_word};
pub use svc_base::{Setting, Settings, TcpKeepalive};
