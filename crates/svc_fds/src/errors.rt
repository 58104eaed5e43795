use svc_base::NoMemory;
use thiserror::Error;

/// Why a table can't be written as a message. They come in this order.
#[derive(Clone, Copy, PartialEq, Eq, Debug, Error)]
pub enum EncodeError {
    /// An address is empty.
    #[error("an address is empty")]
    BadAddress,
    /// Version 1 doesn't say the table, and in version 2 the message has over 65,536 bytes.
    #[error("the message is too long")]
    TooLong,
    /// The table has over 32 descriptors.
    #[error("too many descriptors")]
    TooMany,
    /// There was no memory.
    #[error("out of memory")]
    NoMemory,
}

impl From<NoMemory> for EncodeError {
    ghost use Rattle.std.specs.Prelude.{◌≡◌};
    ghost use Rattle.svc_fds.specs.declared.errors.EncodeError.TheVariants as errors;

    ghost from_gives = { λ _ error. error ≡ errors.NoMemory };

    fn from(_: NoMemory) -> Self {
        EncodeError::NoMemory
    }
}

/// Why texts and descriptors aren't taken as pairs. They come in this order.
#[derive(Clone, Copy, PartialEq, Eq, Debug, Error)]
pub enum ListsError {
    /// There aren't as many texts as descriptors.
    #[error("unequal numbers of addresses and descriptors")]
    Unequal,
    /// A text stands twice.
    #[error("an address stands twice")]
    Repeated,
    /// There was no memory.
    #[error("out of memory")]
    NoMemory,
}

/// Why a message isn't a table. They come in this order.
#[derive(Clone, Copy, PartialEq, Eq, Debug, Error)]
pub enum DecodeError {
    /// The message isn't UTF-8.
    #[error("the message isn't UTF-8")]
    NotUtf8,
    /// The message begins as version 2, and isn't a list of lengths and words.
    #[error("the message has lengths that don't fit its words")]
    BadForm,
    /// There aren't as many words as descriptors.
    #[error("unequal numbers of addresses and descriptors")]
    Unequal,
    /// A word stands twice.
    #[error("an address stands twice")]
    Repeated,
    /// There was no memory.
    #[error("out of memory")]
    NoMemory,
}

impl From<ListsError> for DecodeError {
    ghost use Rattle.std.specs.Prelude.{◌≡◌};
    ghost use Rattle.svc_fds.specs.Lists.{decode_error};

    ghost from_gives = { λ e error. error ≡ decode_error e };

    fn from(error: ListsError) -> Self {
        match error {
            ListsError::Unequal => DecodeError::Unequal,
            ListsError::Repeated => DecodeError::Repeated,
            ListsError::NoMemory => DecodeError::NoMemory,
        }
    }
}

/// Why a table wasn't sent.
#[derive(Clone, Copy, PartialEq, Eq, Debug, Error)]
pub enum SendError {
    /// An address is empty.
    #[error("an address is empty")]
    BadAddress,
    /// The message has over 65,536 bytes.
    #[error("the message is too long")]
    TooLong,
    /// There are over 32 descriptors.
    #[error("too many descriptors")]
    TooMany,
    /// The channel failed.
    #[error("the transfer failed")]
    Transfer,
    /// More tries than the limit found no receiver.
    #[error("no receiver")]
    NoReceiver,
    /// Twenty tries found the receiver busy.
    #[error("the receiver is still busy")]
    StillBusy,
    /// There was no memory.
    #[error("out of memory")]
    NoMemory,
}

/// Why a table wasn't received.
#[derive(Clone, Copy, PartialEq, Eq, Debug, Error)]
pub enum ReceiveError {
    /// There aren't as many words as descriptors.
    #[error("unequal numbers of addresses and descriptors")]
    Unequal,
    /// A word stands twice.
    #[error("an address stands twice")]
    Repeated,
    /// The message isn't UTF-8.
    #[error("the message isn't UTF-8")]
    NotUtf8,
    /// The message begins as version 2, and isn't a list of lengths and words.
    #[error("the message has lengths that don't fit its words")]
    BadForm,
    /// The channel failed.
    #[error("the transfer failed")]
    Transfer,
    /// More tries than the limit found no sender.
    #[error("no sender")]
    NoSender,
    /// There was no memory.
    #[error("out of memory")]
    NoMemory,
}

impl From<EncodeError> for SendError {
    ghost use Rattle.std.specs.Prelude.{◌≡◌};
    ghost use Rattle.svc_fds.specs.Transfers.{send_error};

    ghost from_gives = { λ e error. error ≡ send_error e };

    fn from(error: EncodeError) -> Self {
        match error {
            EncodeError::BadAddress => SendError::BadAddress,
            EncodeError::TooLong => SendError::TooLong,
            EncodeError::TooMany => SendError::TooMany,
            EncodeError::NoMemory => SendError::NoMemory,
        }
    }
}

impl From<DecodeError> for ReceiveError {
    ghost use Rattle.std.specs.Prelude.{◌≡◌};
    ghost use Rattle.svc_fds.specs.Transfers.{receive_error};

    ghost from_gives = { λ e error. error ≡ receive_error e };

    fn from(error: DecodeError) -> Self {
        match error {
            DecodeError::NotUtf8 => ReceiveError::NotUtf8,
            DecodeError::BadForm => ReceiveError::BadForm,
            DecodeError::Unequal => ReceiveError::Unequal,
            DecodeError::Repeated => ReceiveError::Repeated,
            DecodeError::NoMemory => ReceiveError::NoMemory,
        }
    }
}
