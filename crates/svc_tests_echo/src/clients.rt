//! Clients of a listener on loopback. Each of their waits is bounded.

use std::io::Read;
use std::net::{Net, SocketAddr, TcpListener, TcpStream};
use std::process::Abort;
use std::time::{Clock, Duration};
use std::{io, thread};

/// The most seconds of one wait.
const WAIT: u64 = 10;

/// An address on loopback that was free a moment ago.
pub(crate) fn free_address<R: Net<Listener = TcpListener, Stream = TcpStream> + Abort>(
    rt: &R,
) -> SocketAddr {
    let listener = TcpListener::bind(rt, "127.0.0.1:0").expect(rt, "a listener");
    listener.local_addr().expect(rt, "its address")
}

/// Whether a connection is taken at the address now.
pub(crate) fn is_taken<R: Net<Listener = TcpListener, Stream = TcpStream>>(
    rt: &R,
    at: SocketAddr,
) -> bool {
    TcpStream::connect_timeout(rt, &at, Duration::from_secs(WAIT)).is_ok()
}

/// Connects as soon as something listens, within about ten seconds. Each read and write on the connection
/// ends within ten seconds.
pub(crate) fn connected<R: Net<Listener = TcpListener, Stream = TcpStream> + Clock + Abort>(
    rt: &R,
    at: SocketAddr,
) -> TcpStream {
    for _ in 0..1000u32 {
        if let Ok(stream) = TcpStream::connect_timeout(rt, &at, Duration::from_secs(WAIT)) {
            return bounded(rt, stream);
        }
        thread::sleep(rt, Duration::from_millis(10));
    }
    let stream = TcpStream::connect_timeout(rt, &at, Duration::from_secs(WAIT));
    bounded(rt, stream.expect(rt, "a connection"))
}

/// Each read and write on the connection ends within ten seconds.
fn bounded(rt: &impl Abort, stream: TcpStream) -> TcpStream {
    let wait = Some(Duration::from_secs(WAIT));
    stream.set_read_timeout(wait).expect(rt, "a limit");
    stream.set_write_timeout(wait).expect(rt, "a limit");
    stream
}

/// Whether the other side has closed the connection within ten seconds, where it writes nothing.
pub(crate) fn is_closed(mut stream: &TcpStream) -> bool {
    let mut got = [0u8; 1];
    match stream.read(&mut got) {
        Ok(count) => count == 0,
        Err(error) => error.kind() == io::ErrorKind::ConnectionReset,
    }
}
