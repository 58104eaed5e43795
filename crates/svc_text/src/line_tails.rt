//! What stands in a record's line behind its keyword.

ghost use Rattle.std.specs.Prelude.{◌≡◌, ◌++◌, ◌∷◌, [], codes, IfSome};
ghost use Rattle.svc_record.specs.declared.entry.Entry.TheVariants.{Got, Told};
ghost use Rattle.svc_record.specs.Keywords.{event_keyword, action_keyword};
ghost use Rattle.svc_record.specs.Text.{ok_word, yes_word, line_of};
ghost use Rattle.svc_text.specs.LineTails.{tail_text};

use svc_base::Setting;
use svc_record::{Action, Event};

/// The numbers of a line.
#[derive(Clone, Copy)]
pub(crate) enum Numbers {
    One(u64),
    Two(u64, u64),
    Three(u64, u64, u64),
}

/// What stands in a line behind its keyword: words with a space before each, and a line feed.
#[derive(Clone, Copy)]
pub(crate) enum LineTail {
    Nothing,
    Word(&'static str),
    Numbers(Numbers),
    WordNumber(&'static str, u64),
    /// A number, and what ends the line.
    NumberEnd(u64, &'static str),
}

/// The end of a line that tells whether it went well.
fn ok_end(ok: bool) -> &'static str
    ensures { result.now ≡ 32 ∷ ok_word ok ++ 10 ∷ [] }
{
    if ok { " ok\n" } else { " no\n" }
}

/// The end of a line that tells what a filter said.
fn yes_end(said: bool) -> &'static str
    ensures { result.now ≡ 32 ∷ yes_word said ++ 10 ∷ [] }
{
    if said { " yes\n" } else { " no\n" }
}

/// What an event's line has behind its keyword, of most events: not of a message or a peer.
pub(crate) fn event_tail(event: &Event) -> Option<LineTail>
    ensures { IfSome result (λ tail. line_of (Got event.now) ≡ codes "got " ++ event_keyword event.now ++ tail_text tail) }
{
    match event {
        Event::Moment(n) | Event::Finished(n) => Some(LineTail::Numbers(Numbers::One(*n))),
        Event::Ready(s) | Event::Ended(s) => Some(LineTail::Numbers(Numbers::One(*s as u64))),
        Event::InUse(s, i)
        | Event::BindFailed(s, i)
        | Event::Adopted(s, i)
        | Event::AdoptFailed(s, i) => Some(LineTail::Numbers(Numbers::Two(*s as u64, *i as u64))),
        Event::Bound(s, i, n) | Event::LoopEnded(s, i, n) => {
            Some(LineTail::Numbers(Numbers::Three(*s as u64, *i as u64, *n)))
        }
        Event::AcceptFailed(s, i, n) => {
            Some(LineTail::Numbers(Numbers::Three(*s as u64, *i as u64, *n as u64)))
        }
        Event::Set(c, ok) | Event::Shaken(c, ok) => Some(LineTail::NumberEnd(*c, ok_end(*ok))),
        Event::Signal(kind) => Some(LineTail::Word(kind.word())),
        Event::Side(side) => Some(LineTail::Word(side.word())),
        Event::NoSenderYet
        | Event::ReceiveFailed
        | Event::Connected
        | Event::NotThere
        | Event::StillConnecting
        | Event::ConnectFailed
        | Event::Sent
        | Event::SendBusy
        | Event::SendFailed
        | Event::ChildReady
        | Event::ChildGone
        | Event::DropFailed => Some(LineTail::Nothing),
        Event::Received(_, _) | Event::Arrived(_, _, _, _) => None,
    }
}

/// What an action's line has behind its keyword, of most actions: not of a message, nor of settings
/// but `nodelay` alone.
pub(crate) fn action_tail(action: &Action) -> Option<LineTail>
    ensures { IfSome result (λ tail. line_of (Told action.now) ≡ action_keyword action.now ++ tail_text tail) }
{
    match action {
        Action::Start(s) | Action::Fail(s) => Some(LineTail::Numbers(Numbers::One(*s as u64))),
        Action::Bind(s, i) | Action::Rest(s, i) => {
            Some(LineTail::Numbers(Numbers::Two(*s as u64, *i as u64)))
        }
        Action::Adopt(s, i, fd) => {
            Some(LineTail::Numbers(Numbers::Three(*s as u64, *i as u64, *fd)))
        }
        Action::Close(n)
        | Action::Refuse(n)
        | Action::Handshake(n)
        | Action::Serve(n)
        | Action::Drop(n)
        | Action::Cut(n)
        | Action::Stop(n) => Some(LineTail::Numbers(Numbers::One(*n))),
        Action::Phase(phase, ms) => Some(LineTail::WordNumber(phase.word(), *ms)),
        Action::Judged(c, said) => Some(LineTail::NumberEnd(*c, yes_end(*said))),
        Action::Settings(c, list) => match list.as_slice() {
            [Setting::NoDelay] => Some(LineTail::NumberEnd(*c, " nodelay\n")),
            _ => None,
        },
        Action::OpenReceiver
        | Action::TryReceive
        | Action::NotifyParent
        | Action::Connect
        | Action::Broadcast
        | Action::Daemonize => Some(LineTail::Nothing),
        Action::Send(_, _) => None,
    }
}
