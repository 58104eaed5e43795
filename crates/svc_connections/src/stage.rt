/// How far a live connection has come.
#[derive(Clone, Copy, PartialEq, Eq, Debug)]
pub enum Stage {
    /// Its settings are being applied.
    Setting,
    /// Its handshake is polled.
    Shaking,
    /// The application has it.
    Serving,
}

/// A live connection.
#[derive(Clone, Copy, PartialEq, Eq, Debug)]
pub struct Connection {
    pub number: u64,
    pub stage: Stage,
}
