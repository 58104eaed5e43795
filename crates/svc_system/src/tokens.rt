//! The tokens by which readiness is told: which socket is ready.

/// So many operators are listened to at once.
pub(crate) const OPERATORS: usize = 8;

const FIRST_LISTENER: usize = 0x100;

const FIRST_CONNECTION: usize = 0x1_0000_0000;

/// What is ready.
#[derive(Clone, Copy)]
pub(crate) enum Ready {
    /// The socket at which operators come.
    Control,
    /// The operator in this place.
    Operator(usize),
    /// The listening socket with this number.
    Listener(u64),
    /// The connection with this number.
    Connection(u64),
}

impl Ready {
    /// Its token.
    pub(crate) fn token(self) -> usize {
        match self {
            Ready::Control => 0,
            Ready::Operator(place) => place.saturating_add(1),
            Ready::Listener(number) => FIRST_LISTENER.saturating_add(number as usize),
            Ready::Connection(number) => FIRST_CONNECTION.saturating_add(number as usize),
        }
    }

    /// What a token tells.
    pub(crate) fn of(token: usize) -> Self {
        if token >= FIRST_CONNECTION {
            Ready::Connection((token - FIRST_CONNECTION) as u64)
        } else if token >= FIRST_LISTENER {
            Ready::Listener((token - FIRST_LISTENER) as u64)
        } else if token >= 1 {
            Ready::Operator(token - 1)
        } else {
            Ready::Control
        }
    }
}
