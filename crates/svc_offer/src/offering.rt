/// How far the offer has come. Moments are in milliseconds.
#[derive(Clone, Copy, PartialEq, Eq, Debug)]
pub enum Offering {
    /// Nothing is offered.
    Nothing,
    /// It is to be connected to the successor, for the first time.
    Unasked,
    /// A connect is open.
    Connecting,
    /// It was connected, and the message is to be sent.
    Connected,
    /// A send is open.
    Sending,
    /// Nobody was there at this moment, and it is connected again 1,000 ms later.
    Absent(u64),
    /// A connect wasn't done at this moment, and it is connected again 500 ms later.
    Delayed(u64),
    /// The message couldn't be taken at this moment, and it is sent again 500 ms later.
    Stalled(u64),
    /// The offer is over since this moment.
    Over(u64),
}
