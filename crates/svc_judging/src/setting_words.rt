//! The settings that an action's line lists.

ghost use Rattle.std.specs.Prelude.{◌≡◌, ◌++◌, ◌∷◌, [], position, IfOk, OnOk};
ghost use Rattle.svc_base.specs.Words.{words};
ghost use Rattle.svc_text.specs.EventLines.{event_of};
ghost use Rattle.svc_judging.specs.SettingWords.{is_equals, four_numbers, keepalive_of, named_setting, setting_of, settings_of};

use std::alloc::Global;
use svc_base::{NoMemory, Setting, Settings, TcpKeepalive, number, number8, split_word};
use svc_record::Event;
use svc_text::event_of_line;

/// The event that a line says that begins so.
pub(crate) fn event_behind(
    alloc: Global,
    front: &[u8],
    rest: &[u8],
) -> Result<Option<Event>, NoMemory>
    ensures { IfOk result (λ o. o ≡ event_of (words (front.now ++ rest.now))) }
{
    let mut line = Vec::new(alloc);
    line.extend_from_slice(front)?;
    line.extend_from_slice(rest)?;
    event_of_line(alloc, line.as_slice())
}

/// The keepalive of a message's numbers, where these are four.
#[tactic(auto, unfolding(crate::specs::SettingWords::four_numbers))]
fn four_numbers(event: &Event) -> Option<TcpKeepalive>
    ensures { result ≡ four_numbers event.now }
{
    let Event::Received(_, numbers) = event else {
        return None;
    };
    let [idle, interval, count, user_timeout] = numbers.as_slice() else {
        return None;
    };
    Some(TcpKeepalive {
        idle: *idle,
        interval: *interval,
        count: *count,
        user_timeout: *user_timeout,
    })
}

/// The keepalive of a word: four numbers joined by commas, as the numbers of a message are.
#[tactic(auto, unfolding(crate::specs::SettingWords::keepalive_of))]
fn keepalive_of(alloc: Global, word: &[u8]) -> Result<Option<TcpKeepalive>, NoMemory>
    ensures { IfOk result (λ o. o ≡ keepalive_of word.now) }
{
    match event_behind(alloc, b"received - ", word)? {
        Some(event) => Ok(four_numbers(&event)),
        None => Ok(None),
    }
}

/// The setting that a name and a value say.
#[tactic(auto, unfolding(crate::specs::SettingWords::named_setting))]
fn named_setting(alloc: Global, name: &[u8], value: &[u8]) -> Result<Option<Setting>, NoMemory>
    ensures { IfOk result (λ o. o ≡ named_setting name.now value.now) }
{
    if name == b"keepalive".as_slice() {
        return Ok(keepalive_of(alloc, value)?.map(Setting::KeepAlive));
    }
    if name == b"dscp".as_slice() {
        return Ok(number8(value).map(Setting::Dscp));
    }
    if name == b"sndbuf".as_slice() {
        return Ok(number(value).map(Setting::SndBuf));
    }
    if name == b"rcvbuf".as_slice() {
        return Ok(number(value).map(Setting::RcvBuf));
    }
    Ok(None)
}

fn equals_at(word: &[u8]) -> Option<usize>
    ensures { result ≡ position is_equals word.now }
{
    word.iter().position(|b| *b == b'=')
}

/// The setting that a word says.
#[tactic(auto, unfolding(crate::specs::SettingWords::setting_of))]
fn setting_of(alloc: Global, word: &[u8]) -> Result<Option<Setting>, NoMemory>
    ensures { IfOk result (λ o. o ≡ setting_of word.now) }
{
    if word == b"nodelay".as_slice() {
        return Ok(Some(Setting::NoDelay));
    }
    match equals_at(word) {
        Some(at) => named_setting(alloc, &word[..at], &word[at + 1..]),
        None => Ok(None),
    }
}

/// Appends.
fn push_setting(alloc: Global, settings: &mut Settings, setting: Setting) -> Result<(), NoMemory>
    ensures { OnOk result (settings.new ≡ settings.old ++ setting ∷ []) }
{
    match settings.push(alloc, setting) {
        Ok(()) => Ok(()),
        Err(refused) => Err(refused.reason),
    }
}

/// The settings that a text's words say, in order.
pub(crate) fn settings_of(alloc: Global, text: &[u8]) -> Result<Option<Settings>, NoMemory>
    ensures { IfOk result (λ o. o ≡ settings_of (words text.now)) }
{
    let mut settings = Settings::new(alloc);
    let mut rest = text;
    'words: while let Some((word, after)) = split_word(rest) {
        let Some(setting) = setting_of(alloc, word)? else {
            return Ok(None);
        };
        push_setting(alloc, &mut settings, setting)?;
        rest = after;
    }
    Ok(Some(settings))
}
