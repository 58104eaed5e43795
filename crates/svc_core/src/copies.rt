//! Actions that are told a second time.

ghost use Rattle.std.specs.Prelude.{◌≡◌, ◌+◌, ◌≤◌, ◌++◌, ◌∷◌, [], length, true};
ghost use Rattle.svc_base.specs.Items.{list_of, spare};
ghost use Rattle.svc_core.specs.Copies.{is_bare, is_copied, are_copied, left_of, copy_of};

use svc_base::Settings;
use svc_fds::Message;
use svc_record::{Action, Actions};

/// What a step may tell that owns memory, copied before the step.
#[derive(Drop)]
pub(crate) enum OwnedPayload {
    Nothing,
    OfMessage(Message),
    OfSettings(Settings),
}

impl OwnedPayload {
    /// The message, if there is one.
    pub(crate) fn of_message(message: Option<Message>) -> OwnedPayload
        ensures { result ≡ copy_of message }
    {
        match message {
            Some(message) => OwnedPayload::OfMessage(message),
            None => OwnedPayload::Nothing,
        }
    }
}

/// The same action again, which owns no memory.
fn copy_of_bare(action: &Action) -> Action
    requires { is_bare action.now ≡ true }
    ensures { result ≡ action.now }
{
    match action {
        Action::Start(s) => Action::Start(*s),
        Action::Fail(s) => Action::Fail(*s),
        Action::Bind(s, i) => Action::Bind(*s, *i),
        Action::Adopt(s, i, fd) => Action::Adopt(*s, *i, *fd),
        Action::Close(fd) => Action::Close(*fd),
        Action::OpenReceiver => Action::OpenReceiver,
        Action::TryReceive => Action::TryReceive,
        Action::NotifyParent => Action::NotifyParent,
        Action::Connect => Action::Connect,
        Action::Phase(p, ms) => Action::Phase(*p, *ms),
        Action::Broadcast => Action::Broadcast,
        Action::Refuse(c) => Action::Refuse(*c),
        Action::Handshake(c) => Action::Handshake(*c),
        Action::Serve(c) => Action::Serve(*c),
        Action::Drop(c) => Action::Drop(*c),
        Action::Rest(s, i) => Action::Rest(*s, *i),
        Action::Cut(c) => Action::Cut(*c),
        Action::Stop(seconds) => Action::Stop(*seconds),
        Action::Daemonize => Action::Daemonize,
        _ => unreachable!(),
    }
}

/// Appends the same action, which owns no memory, judges a connection, or is what the copy is of.
/// What is left of the copy.
fn append_copy(action: &Action, copy: OwnedPayload, again: &mut Actions) -> OwnedPayload
    requires copied { is_copied copy action.now ≡ true }
    requires room { 1 ≤ spare again.old }
    ensures told { list_of again.new ≡ list_of again.old ++ action.now ∷ [] }
    ensures left { result ≡ left_of copy action.now }
    ensures room { spare again.old ≤ spare again.new + 1 }
{
    match action {
        Action::Send(_, _) => {
            if let OwnedPayload::OfMessage(message) = copy {
                again.put(Action::Send(message.bytes, message.fds));
            }
            OwnedPayload::Nothing
        }
        Action::Settings(c, _) => {
            if let OwnedPayload::OfSettings(settings) = copy {
                again.put(Action::Settings(*c, settings));
            }
            OwnedPayload::Nothing
        }
        Action::Judged(c, said) => {
            again.put(Action::Judged(*c, *said));
            copy
        }
        _ => {
            again.put(copy_of_bare(action));
            copy
        }
    }
}

/// Appends the told actions to another list, which has room for them. They own no memory, but for
/// one of which a copy is handed in.
pub(crate) fn append_copies(told: &[Action], copy: OwnedPayload, again: &mut Actions)
    requires copied { are_copied copy told.now ≡ true }
    requires room { length told.now ≤ spare again.old }
    ensures { list_of again.new ≡ list_of again.old ++ told.now }
{
    let mut left = copy;
    for action in told {
        left = append_copy(action, left, again);
    }
}
