//! What a line says as an event, or as a fault.

ghost use Rattle.std.specs.Prelude.{◌≡◌, ◌∷◌, IfOk};
ghost use Rattle.svc_base.specs.Words.{words};
ghost use Rattle.svc_text.specs.EventLines.{signal_of, side_of, ok_of, bare_event, event_of_one, event_of_two, event_of_three, event_of_four, received_of, event_of, is_fault, item_of};

use crate::keys::spells;
use crate::message_words::{bytes_of, descriptors_of};
use std::alloc::Global;
use svc_base::{NoMemory, number, number32, split_word};
use svc_record::{Event, Item, ShutdownSignal, Side};
use svc_socket::read_peer_word;

#[tactic(auto, unfolding(crate::specs::EventLines::signal_of))]
fn signal_of(word: &[u8]) -> Option<ShutdownSignal>
    ensures { result ≡ signal_of word.now }
{
    if spells(word, b"fast") {
        Some(ShutdownSignal::FastShutdown)
    } else if spells(word, b"terminate") {
        Some(ShutdownSignal::GracefulTerminate)
    } else if spells(word, b"upgrade") {
        Some(ShutdownSignal::GracefulUpgrade)
    } else {
        None
    }
}

#[tactic(auto, unfolding(crate::specs::EventLines::side_of))]
fn side_of(word: &[u8]) -> Option<Side>
    ensures { result ≡ side_of word.now }
{
    if spells(word, b"child") {
        Some(Side::Child)
    } else if spells(word, b"parent") {
        Some(Side::Parent)
    } else {
        None
    }
}

#[tactic(auto, unfolding(crate::specs::EventLines::ok_of))]
fn ok_of(word: &[u8]) -> Option<bool>
    ensures { result ≡ ok_of word.now }
{
    if spells(word, b"ok") {
        Some(true)
    } else if spells(word, b"no") {
        Some(false)
    } else {
        None
    }
}

/// The event of a key alone.
#[tactic(auto, unfolding(crate::specs::EventLines::bare_event))]
fn bare_event(key: &[u8]) -> Option<Event>
    ensures { result ≡ bare_event key.now }
{
    if spells(key, b"nosender") {
        Some(Event::NoSenderYet)
    } else if spells(key, b"receivefailed") {
        Some(Event::ReceiveFailed)
    } else if spells(key, b"connected") {
        Some(Event::Connected)
    } else if spells(key, b"notthere") {
        Some(Event::NotThere)
    } else if spells(key, b"connecting") {
        Some(Event::StillConnecting)
    } else if spells(key, b"connectfailed") {
        Some(Event::ConnectFailed)
    } else if spells(key, b"sent") {
        Some(Event::Sent)
    } else if spells(key, b"sendbusy") {
        Some(Event::SendBusy)
    } else if spells(key, b"sendfailed") {
        Some(Event::SendFailed)
    } else if spells(key, b"childready") {
        Some(Event::ChildReady)
    } else if spells(key, b"childgone") {
        Some(Event::ChildGone)
    } else if spells(key, b"dropfailed") {
        Some(Event::DropFailed)
    } else {
        None
    }
}

/// The event of a key and a word.
#[tactic(auto, unfolding(crate::specs::EventLines::event_of_one))]
fn event_of_one(key: &[u8], first: &[u8]) -> Option<Event>
    ensures { result ≡ event_of_one key.now first.now }
{
    if spells(key, b"moment") {
        Some(Event::Moment(number(first)?))
    } else if spells(key, b"ready") {
        Some(Event::Ready(number32(first)?))
    } else if spells(key, b"ended") {
        Some(Event::Ended(number32(first)?))
    } else if spells(key, b"finished") {
        Some(Event::Finished(number(first)?))
    } else if spells(key, b"signal") {
        Some(Event::Signal(signal_of(first)?))
    } else if spells(key, b"side") {
        Some(Event::Side(side_of(first)?))
    } else {
        None
    }
}

/// The event of a key and two words. Messages are read apart.
#[tactic(auto, unfolding(crate::specs::EventLines::event_of_two))]
fn event_of_two(key: &[u8], first: &[u8], second: &[u8]) -> Option<Event>
    ensures { result ≡ event_of_two key.now first.now second.now }
{
    if spells(key, b"inuse") {
        let service = number32(first)?;
        Some(Event::InUse(service, number32(second)?))
    } else if spells(key, b"bindfailed") {
        let service = number32(first)?;
        Some(Event::BindFailed(service, number32(second)?))
    } else if spells(key, b"adopted") {
        let service = number32(first)?;
        Some(Event::Adopted(service, number32(second)?))
    } else if spells(key, b"adoptfailed") {
        let service = number32(first)?;
        Some(Event::AdoptFailed(service, number32(second)?))
    } else if spells(key, b"set") {
        let connection = number(first)?;
        Some(Event::Set(connection, ok_of(second)?))
    } else if spells(key, b"shaken") {
        let connection = number(first)?;
        Some(Event::Shaken(connection, ok_of(second)?))
    } else {
        None
    }
}

/// The event of a key and three words.
#[tactic(auto, unfolding(crate::specs::EventLines::event_of_three))]
fn event_of_three(key: &[u8], first: &[u8], second: &[u8], third: &[u8]) -> Option<Event>
    ensures { result ≡ event_of_three key.now first.now second.now third.now }
{
    if spells(key, b"bound") {
        let service = number32(first)?;
        let endpoint = number32(second)?;
        Some(Event::Bound(service, endpoint, number(third)?))
    } else if spells(key, b"acceptfailed") {
        let service = number32(first)?;
        let endpoint = number32(second)?;
        Some(Event::AcceptFailed(service, endpoint, number32(third)?))
    } else if spells(key, b"loopended") {
        let service = number32(first)?;
        let endpoint = number32(second)?;
        Some(Event::LoopEnded(service, endpoint, number(third)?))
    } else {
        None
    }
}

/// The event of a key and four words.
#[tactic(auto, unfolding(crate::specs::EventLines::event_of_four))]
fn event_of_four(
    key: &[u8],
    first: &[u8],
    second: &[u8],
    third: &[u8],
    fourth: &[u8],
) -> Option<Event>
    ensures { result ≡ event_of_four key.now first.now second.now third.now fourth.now }
{
    if !spells(key, b"arrived") {
        return None;
    }
    let service = number32(first)?;
    let endpoint = number32(second)?;
    let connection = number(third)?;
    Some(Event::Arrived(service, endpoint, connection, read_peer_word(fourth)?))
}

/// A message with its descriptors.
#[tactic(auto, unfolding(crate::specs::EventLines::received_of))]
fn received_of(alloc: Global, first: &[u8], second: &[u8]) -> Result<Option<Event>, NoMemory>
    ensures { IfOk result (λ o. o ≡ received_of first.now second.now) }
{
    let Some(bytes) = bytes_of(alloc, first)? else {
        return Ok(None);
    };
    let Some(fds) = descriptors_of(alloc, second)? else {
        return Ok(None);
    };
    Ok(Some(Event::Received(bytes, fds)))
}

/// The event that a line says.
#[tactic(auto, unfolding(crate::specs::EventLines::event_of))]
pub fn event_of_line(alloc: Global, line: &[u8]) -> Result<Option<Event>, NoMemory>
    ensures { IfOk result (λ o. o ≡ event_of (words line.now)) }
{
    match split_word(line) {
        Some((key, rest)) => event_of_key(alloc, key, rest),
        None => Ok(None),
    }
}

/// The event that a key says with what follows it.
#[tactic(auto, unfolding(crate::specs::EventLines::event_of))]
fn event_of_key(alloc: Global, key: &[u8], rest: &[u8]) -> Result<Option<Event>, NoMemory>
    ensures { IfOk result (λ o. o ≡ event_of (key.now ∷ words rest.now)) }
{
    let Some((first, rest)) = split_word(rest) else {
        return Ok(bare_event(key));
    };
    let Some((second, rest)) = split_word(rest) else {
        return Ok(event_of_one(key, first));
    };
    let Some((third, rest)) = split_word(rest) else {
        if spells(key, b"received") {
            return received_of(alloc, first, second);
        }
        return Ok(event_of_two(key, first, second));
    };
    let Some((fourth, rest)) = split_word(rest) else {
        return Ok(event_of_three(key, first, second, third));
    };
    if split_word(rest).is_some() {
        return Ok(None);
    }
    Ok(event_of_four(key, first, second, third, fourth))
}

/// The key is `fault`, and nothing follows it.
#[tactic(auto, unfolding(crate::specs::EventLines::is_fault))]
fn is_fault(key: &[u8], rest: &[u8]) -> bool
    ensures { result ≡ is_fault (key.now ∷ words rest.now) }
{
    spells(key, b"fault") && split_word(rest).is_none()
}

/// The item that a key says with what follows it: an event, or the fault of the host.
#[tactic(auto, unfolding(crate::specs::EventLines::item_of))]
pub(crate) fn item_of_key(alloc: Global, key: &[u8], rest: &[u8]) -> Result<Option<Item>, NoMemory>
    ensures { IfOk result (λ o. o ≡ item_of (key.now ∷ words rest.now)) }
{
    if is_fault(key, rest) {
        return Ok(Some(Item::Fault));
    }
    match event_of_key(alloc, key, rest)? {
        Some(event) => Ok(Some(Item::Event(event))),
        None => Ok(None),
    }
}

/// The item that a line says.
#[tactic(auto, unfolding(crate::specs::EventLines::item_of, crate::specs::EventLines::is_fault, crate::specs::EventLines::event_of))]
pub fn item_of_line(alloc: Global, line: &[u8]) -> Result<Option<Item>, NoMemory>
    ensures { IfOk result (λ o. o ≡ item_of (words line.now)) }
{
    match split_word(line) {
        Some((key, rest)) => item_of_key(alloc, key, rest),
        None => Ok(None),
    }
}
