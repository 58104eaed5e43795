//! What is asked of an entry: one variant for each test of an event or an action.

ghost use Rattle.std.specs.Prelude.{◌≡◌, ◌==◌, ◌&&◌, true};
ghost use Rattle.svc_judge.specs.Groups.{is_on_connection};
ghost use Rattle.svc_judge.specs.Queries.{ask_test, answer_test, news_test, answer_event_test, order_test, deed_test, query_test};

use svc_record::{Action, Entry, Event, ExecutionPhase, Side};

/// An ask, of which at most one is open at a time: of the service's endpoint, of the connection with this
/// number, or of the server.
#[derive(Clone, Copy)]
pub enum Ask {
    Bind(u64, u64),
    Adopt(u64, u64),
    Receive,
    Connect,
    Send,
    Settings(u64),
    Handshake(u64),
    Fork,
}

/// An event without numbers.
#[derive(Clone, Copy)]
pub enum News {
    Signal,
    SideChild,
    SideParent,
    /// The offer was answered for good.
    LastAnswer,
    NotThere,
    /// The successor is busy.
    BusyAnswer,
    /// Accepting failed since too many files are open.
    Full,
    ChildReady,
    ParentFailure,
    NoSender,
    ReceiveFailure,
}

/// An event of this service, its endpoint, its accept loop, or this connection.
#[derive(Clone, Copy)]
pub enum Answer {
    /// A bind or an adoption failed.
    Failure(u64, u64),
    Ready(u64),
    Ended(u64),
    LoopEnd(u64, u64, u64),
    Arrival(u64),
    Finished(u64),
    SettingsApplied(u64),
    SettingsFailed(u64),
    HandshakeDone(u64),
    HandshakeFailed(u64),
}

/// An action without numbers.
#[derive(Clone, Copy)]
pub enum Order {
    Running,
    Bootstrap,
    BootstrapComplete,
    NotifyParent,
    OpenReceiver,
    Broadcast,
    Rest,
    /// What only the end tells.
    Ending,
}

/// An action on this descriptor, service or connection.
#[derive(Clone, Copy)]
pub enum Deed {
    Close(u64),
    Fail(u64),
    Start(u64),
    Judged(u64),
    JudgedNo(u64),
    Refuse(u64),
    Serve(u64),
    Drop(u64),
    Cut(u64),
}

/// A test of an entry.
#[derive(Clone, Copy)]
pub enum Query {
    Ask(Ask),
    News(News),
    Answer(Answer),
    Order(Order),
    Deed(Deed),
}

/// The two numbers are these.
pub(crate) fn is_pair(s: u32, i: u32, service: u64, endpoint: u64) -> bool
    ensures { result ≡ (s == service && i == endpoint) }
{
    u64::from(s) == service && u64::from(i) == endpoint
}

impl Ask {
    /// The entry tells the ask.
    pub fn is_told(self, entry: &Entry) -> bool
        ensures { result ≡ ask_test self entry.now }
    {
        match self {
            Ask::Bind(s, i) => match entry {
                Entry::Told(Action::Bind(t, j)) => is_pair(*t, *j, s, i),
                _ => false,
            },
            Ask::Adopt(s, i) => match entry {
                Entry::Told(Action::Adopt(t, j, _)) => is_pair(*t, *j, s, i),
                _ => false,
            },
            Ask::Receive => matches!(entry, Entry::Told(Action::TryReceive)),
            Ask::Connect => matches!(entry, Entry::Told(Action::Connect)),
            Ask::Send => matches!(entry, Entry::Told(Action::Send(_, _))),
            Ask::Settings(c) => match entry {
                Entry::Told(Action::Settings(n, _)) => *n == c,
                _ => false,
            },
            Ask::Handshake(c) => match entry {
                Entry::Told(Action::Handshake(n)) => *n == c,
                _ => false,
            },
            Ask::Fork => matches!(entry, Entry::Told(Action::Daemonize)),
        }
    }

    /// The event answers the ask.
    pub fn is_answered(self, entry: &Entry) -> bool
        ensures { result ≡ answer_test self entry.now }
    {
        match self {
            Ask::Bind(s, i) => match entry {
                Entry::Got(Event::Bound(t, j, _)) => is_pair(*t, *j, s, i),
                Entry::Got(Event::InUse(t, j)) => is_pair(*t, *j, s, i),
                Entry::Got(Event::BindFailed(t, j)) => is_pair(*t, *j, s, i),
                _ => false,
            },
            Ask::Adopt(s, i) => match entry {
                Entry::Got(Event::Adopted(t, j)) => is_pair(*t, *j, s, i),
                Entry::Got(Event::AdoptFailed(t, j)) => is_pair(*t, *j, s, i),
                _ => false,
            },
            Ask::Receive => matches!(
                entry,
                Entry::Got(Event::Received(_, _) | Event::NoSenderYet | Event::ReceiveFailed)
            ),
            Ask::Connect => matches!(
                entry,
                Entry::Got(
                    Event::Connected
                        | Event::NotThere
                        | Event::StillConnecting
                        | Event::ConnectFailed
                )
            ),
            Ask::Send => matches!(
                entry,
                Entry::Got(Event::Sent | Event::SendBusy | Event::SendFailed)
            ),
            Ask::Settings(c) => match entry {
                Entry::Got(Event::Set(n, _)) => *n == c,
                _ => false,
            },
            Ask::Handshake(c) => match entry {
                Entry::Got(Event::Shaken(n, _)) => *n == c,
                _ => false,
            },
            Ask::Fork => matches!(entry, Entry::Got(Event::Side(_))),
        }
    }
}

impl News {
    /// The entry is this event.
    pub fn matches(self, entry: &Entry) -> bool
        ensures { result ≡ news_test self entry.now }
    {
        match self {
            News::Signal => matches!(entry, Entry::Got(Event::Signal(_))),
            News::SideChild => matches!(entry, Entry::Got(Event::Side(Side::Child))),
            News::SideParent => matches!(entry, Entry::Got(Event::Side(Side::Parent))),
            News::LastAnswer => matches!(
                entry,
                Entry::Got(Event::Sent | Event::ConnectFailed | Event::SendFailed)
            ),
            News::NotThere => matches!(entry, Entry::Got(Event::NotThere)),
            News::BusyAnswer => matches!(
                entry,
                Entry::Got(Event::StillConnecting | Event::SendBusy)
            ),
            News::Full => match entry {
                Entry::Got(Event::AcceptFailed(_, _, number)) => *number == 24,
                _ => false,
            },
            News::ChildReady => matches!(entry, Entry::Got(Event::ChildReady)),
            News::ParentFailure => matches!(
                entry,
                Entry::Got(Event::ChildGone | Event::DropFailed)
            ),
            News::NoSender => matches!(entry, Entry::Got(Event::NoSenderYet)),
            News::ReceiveFailure => matches!(entry, Entry::Got(Event::ReceiveFailed)),
        }
    }
}

impl Answer {
    /// The entry is this event of a connection, with this number.
    fn matches_connection(self, entry: &Entry) -> bool
        requires { is_on_connection self ≡ true }
        ensures { result ≡ answer_event_test self entry.now }
    {
        match self {
            Answer::Arrival(c) => match entry {
                Entry::Got(Event::Arrived(_, _, n, _)) => *n == c,
                _ => false,
            },
            Answer::Finished(c) => match entry {
                Entry::Got(Event::Finished(n)) => *n == c,
                _ => false,
            },
            Answer::SettingsApplied(c) => match entry {
                Entry::Got(Event::Set(n, true)) => *n == c,
                _ => false,
            },
            Answer::SettingsFailed(c) => match entry {
                Entry::Got(Event::Set(n, false)) => *n == c,
                _ => false,
            },
            Answer::HandshakeDone(c) => match entry {
                Entry::Got(Event::Shaken(n, true)) => *n == c,
                _ => false,
            },
            Answer::HandshakeFailed(c) => match entry {
                Entry::Got(Event::Shaken(n, false)) => *n == c,
                _ => false,
            },
            _ => unreachable!(),
        }
    }

    /// The entry is this event, with these numbers.
    pub fn matches(self, entry: &Entry) -> bool
        ensures { result ≡ answer_event_test self entry.now }
    {
        match self {
            Answer::Failure(s, i) => match entry {
                Entry::Got(Event::BindFailed(t, j)) => is_pair(*t, *j, s, i),
                Entry::Got(Event::AdoptFailed(t, j)) => is_pair(*t, *j, s, i),
                _ => false,
            },
            Answer::Ready(s) => match entry {
                Entry::Got(Event::Ready(t)) => u64::from(*t) == s,
                _ => false,
            },
            Answer::Ended(s) => match entry {
                Entry::Got(Event::Ended(t)) => u64::from(*t) == s,
                _ => false,
            },
            Answer::LoopEnd(s, i, j) => match entry {
                Entry::Got(Event::LoopEnded(t, k, n)) => is_pair(*t, *k, s, i) && *n == j,
                _ => false,
            },
            _ => self.matches_connection(entry),
        }
    }
}

impl Order {
    /// The entry tells this action.
    pub fn matches(self, entry: &Entry) -> bool
        ensures { result ≡ order_test self entry.now }
    {
        match self {
            Order::Running => {
                matches!(
                    entry,
                    Entry::Told(Action::Phase(ExecutionPhase::Running, _))
                )
            }
            Order::Bootstrap => {
                matches!(
                    entry,
                    Entry::Told(Action::Phase(ExecutionPhase::Bootstrap, _))
                )
            }
            Order::BootstrapComplete => matches!(
                entry,
                Entry::Told(Action::Phase(ExecutionPhase::BootstrapComplete, _))
            ),
            Order::NotifyParent => matches!(entry, Entry::Told(Action::NotifyParent)),
            Order::OpenReceiver => matches!(entry, Entry::Told(Action::OpenReceiver)),
            Order::Broadcast => matches!(entry, Entry::Told(Action::Broadcast)),
            Order::Rest => matches!(entry, Entry::Told(Action::Rest(_, _))),
            Order::Ending => matches!(entry, Entry::Told(Action::Cut(_) | Action::Stop(_))),
        }
    }
}

impl Deed {
    /// The entry tells this action, with this number.
    pub fn matches(self, entry: &Entry) -> bool
        ensures { result ≡ deed_test self entry.now }
    {
        match self {
            Deed::Close(fd) => match entry {
                Entry::Told(Action::Close(n)) => *n == fd,
                _ => false,
            },
            Deed::Fail(s) => match entry {
                Entry::Told(Action::Fail(t)) => u64::from(*t) == s,
                _ => false,
            },
            Deed::Start(s) => match entry {
                Entry::Told(Action::Start(t)) => u64::from(*t) == s,
                _ => false,
            },
            Deed::Judged(c) => match entry {
                Entry::Told(Action::Judged(n, _)) => *n == c,
                _ => false,
            },
            Deed::JudgedNo(c) => match entry {
                Entry::Told(Action::Judged(n, false)) => *n == c,
                _ => false,
            },
            Deed::Refuse(c) => match entry {
                Entry::Told(Action::Refuse(n)) => *n == c,
                _ => false,
            },
            Deed::Serve(c) => match entry {
                Entry::Told(Action::Serve(n)) => *n == c,
                _ => false,
            },
            Deed::Drop(c) => match entry {
                Entry::Told(Action::Drop(n)) => *n == c,
                _ => false,
            },
            Deed::Cut(c) => match entry {
                Entry::Told(Action::Cut(n)) => *n == c,
                _ => false,
            },
        }
    }
}

impl Query {
    /// The entry passes the test.
    pub fn matches(self, entry: &Entry) -> bool
        ensures { result ≡ query_test self entry.now }
    {
        match self {
            Query::Ask(ask) => ask.is_told(entry),
            Query::News(news) => news.matches(entry),
            Query::Answer(answer) => answer.matches(entry),
            Query::Order(order) => order.matches(entry),
            Query::Deed(deed) => deed.matches(entry),
        }
    }
}
