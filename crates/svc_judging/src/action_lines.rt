//! What a line says as an action.

ghost use Rattle.std.specs.Prelude.{◌≡◌, ◌∷◌, IfOk};
ghost use Rattle.svc_base.specs.Words.{words};
ghost use Rattle.svc_judging.specs.ActionLines.{yes_of, early_phase, phase_of, bare_action, service_action, action_of_one, action_of_two, action_of_three, plain_action, sent_of, message_of, settings_action, action_of};

use crate::setting_words::{event_behind, settings_of};
use std::alloc::Global;
use svc_base::{NoMemory, number, number32, split_word};
use svc_record::{Action, Event, ExecutionPhase};

#[tactic(auto, unfolding(crate::specs::ActionLines::yes_of))]
fn yes_of(word: &[u8]) -> Option<bool>
    ensures { result ≡ yes_of word.now }
{
    if word == b"yes".as_slice() {
        Some(true)
    } else if word == b"no".as_slice() {
        Some(false)
    } else {
        None
    }
}

/// The phase that a word names, of those before the signal.
#[tactic(auto, unfolding(crate::specs::ActionLines::early_phase))]
fn early_phase(word: &[u8]) -> Option<ExecutionPhase>
    ensures { result ≡ early_phase word.now }
{
    if word == b"Setup".as_slice() {
        Some(ExecutionPhase::Setup)
    } else if word == b"Bootstrap".as_slice() {
        Some(ExecutionPhase::Bootstrap)
    } else if word == b"BootstrapComplete".as_slice() {
        Some(ExecutionPhase::BootstrapComplete)
    } else if word == b"Running".as_slice() {
        Some(ExecutionPhase::Running)
    } else {
        None
    }
}

/// The phase that a word names.
#[tactic(auto, unfolding(crate::specs::ActionLines::phase_of))]
fn phase_of(word: &[u8]) -> Option<ExecutionPhase>
    ensures { result ≡ phase_of word.now }
{
    if word == b"GracefulUpgradeTransferringFds".as_slice() {
        Some(ExecutionPhase::GracefulUpgradeTransferringFds)
    } else if word == b"GracefulUpgradeCloseTimeout".as_slice() {
        Some(ExecutionPhase::GracefulUpgradeCloseTimeout)
    } else if word == b"GracefulTerminate".as_slice() {
        Some(ExecutionPhase::GracefulTerminate)
    } else if word == b"ShutdownStarted".as_slice() {
        Some(ExecutionPhase::ShutdownStarted)
    } else if word == b"ShutdownGracePeriod".as_slice() {
        Some(ExecutionPhase::ShutdownGracePeriod)
    } else if word == b"ShutdownRuntimes".as_slice() {
        Some(ExecutionPhase::ShutdownRuntimes)
    } else if word == b"Terminated".as_slice() {
        Some(ExecutionPhase::Terminated)
    } else {
        early_phase(word)
    }
}

/// The action of a key alone.
#[tactic(auto, unfolding(crate::specs::ActionLines::bare_action))]
fn bare_action(key: &[u8]) -> Option<Action>
    ensures { result ≡ bare_action key.now }
{
    if key == b"openreceiver".as_slice() {
        Some(Action::OpenReceiver)
    } else if key == b"tryreceive".as_slice() {
        Some(Action::TryReceive)
    } else if key == b"notifyparent".as_slice() {
        Some(Action::NotifyParent)
    } else if key == b"connect".as_slice() {
        Some(Action::Connect)
    } else if key == b"broadcast".as_slice() {
        Some(Action::Broadcast)
    } else if key == b"daemonize".as_slice() {
        Some(Action::Daemonize)
    } else {
        None
    }
}

/// The action of a key and the number of a service.
#[tactic(auto, unfolding(crate::specs::ActionLines::service_action))]
fn service_action(key: &[u8], first: &[u8]) -> Option<Action>
    ensures { result ≡ service_action key.now first.now }
{
    if key == b"start".as_slice() {
        Some(Action::Start(number32(first)?))
    } else if key == b"fail".as_slice() {
        Some(Action::Fail(number32(first)?))
    } else {
        None
    }
}

/// The action of a key and a word.
#[tactic(auto, unfolding(crate::specs::ActionLines::action_of_one))]
fn action_of_one(key: &[u8], first: &[u8]) -> Option<Action>
    ensures { result ≡ action_of_one key.now first.now }
{
    if key == b"close".as_slice() {
        Some(Action::Close(number(first)?))
    } else if key == b"refuse".as_slice() {
        Some(Action::Refuse(number(first)?))
    } else if key == b"handshake".as_slice() {
        Some(Action::Handshake(number(first)?))
    } else if key == b"serve".as_slice() {
        Some(Action::Serve(number(first)?))
    } else if key == b"drop".as_slice() {
        Some(Action::Drop(number(first)?))
    } else if key == b"cut".as_slice() {
        Some(Action::Cut(number(first)?))
    } else if key == b"stop".as_slice() {
        Some(Action::Stop(number(first)?))
    } else {
        service_action(key, first)
    }
}

/// The action of a key and two words. Messages and settings are read apart.
#[tactic(auto, unfolding(crate::specs::ActionLines::action_of_two))]
fn action_of_two(key: &[u8], first: &[u8], second: &[u8]) -> Option<Action>
    ensures { result ≡ action_of_two key.now first.now second.now }
{
    if key == b"bind".as_slice() {
        let service = number32(first)?;
        Some(Action::Bind(service, number32(second)?))
    } else if key == b"phase".as_slice() {
        let phase = phase_of(first)?;
        Some(Action::Phase(phase, number(second)?))
    } else if key == b"judged".as_slice() {
        let connection = number(first)?;
        Some(Action::Judged(connection, yes_of(second)?))
    } else if key == b"rest".as_slice() {
        let service = number32(first)?;
        Some(Action::Rest(service, number32(second)?))
    } else {
        None
    }
}

/// The action of a key and three words.
#[tactic(auto, unfolding(crate::specs::ActionLines::action_of_three))]
fn action_of_three(key: &[u8], first: &[u8], second: &[u8], third: &[u8]) -> Option<Action>
    ensures { result ≡ action_of_three key.now first.now second.now third.now }
{
    if key != b"adopt".as_slice() {
        return None;
    }
    let service = number32(first)?;
    let endpoint = number32(second)?;
    Some(Action::Adopt(service, endpoint, number(third)?))
}

/// The action that a key says with at most three words behind it.
#[tactic(auto, unfolding(crate::specs::ActionLines::plain_action))]
fn plain_action(key: &[u8], rest: &[u8]) -> Option<Action>
    ensures { result ≡ plain_action (key.now ∷ words rest.now) }
{
    let Some((first, rest)) = split_word(rest) else {
        return bare_action(key);
    };
    let Some((second, rest)) = split_word(rest) else {
        return action_of_one(key, first);
    };
    let Some((third, rest)) = split_word(rest) else {
        return action_of_two(key, first, second);
    };
    if split_word(rest).is_some() {
        return None;
    }
    action_of_three(key, first, second, third)
}

/// The message of an event, as the action that sends it.
#[tactic(auto, unfolding(crate::specs::ActionLines::sent_of))]
fn sent_of(event: Event) -> Option<Action>
    ensures { result ≡ sent_of event }
{
    match event {
        Event::Received(bytes, descriptors) => Some(Action::Send(bytes, descriptors)),
        _ => None,
    }
}

/// A message, whose words are those of one that is received.
#[tactic(auto, unfolding(crate::specs::ActionLines::message_of))]
fn message_of(alloc: Global, rest: &[u8]) -> Result<Option<Action>, NoMemory>
    ensures { IfOk result (λ o. o ≡ message_of (words rest.now)) }
{
    match event_behind(alloc, b"received ", rest)? {
        Some(event) => Ok(sent_of(event)),
        None => Ok(None),
    }
}

/// The settings of a connection.
#[tactic(auto, unfolding(crate::specs::ActionLines::settings_action))]
fn settings_action(alloc: Global, rest: &[u8]) -> Result<Option<Action>, NoMemory>
    ensures { IfOk result (λ o. o ≡ settings_action (words rest.now)) }
{
    let Some((first, rest)) = split_word(rest) else {
        return Ok(None);
    };
    let Some(connection) = number(first) else {
        return Ok(None);
    };
    match settings_of(alloc, rest)? {
        Some(settings) => Ok(Some(Action::Settings(connection, settings))),
        None => Ok(None),
    }
}

/// The action that a key says with what follows it.
#[tactic(auto, unfolding(crate::specs::ActionLines::action_of))]
pub(crate) fn action_of_key(
    alloc: Global,
    key: &[u8],
    rest: &[u8],
) -> Result<Option<Action>, NoMemory>
    ensures { IfOk result (λ o. o ≡ action_of (key.now ∷ words rest.now)) }
{
    if key == b"settings".as_slice() {
        return settings_action(alloc, rest);
    }
    if key == b"send".as_slice() {
        return message_of(alloc, rest);
    }
    Ok(plain_action(key, rest))
}
