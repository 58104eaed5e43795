//! What becomes of a connection.

ghost use Rattle.std.specs.Prelude.{◌≡◌, ◌==◌, ◌&&◌};
ghost use Rattle.std.specs.Option.{option_copied, option_to_list};
ghost use Rattle.svc_record.specs.Record.{has, once_if, times};
ghost use Rattle.svc_record.specs.Connections.{Arrival, goes_on, is_arrival, is_live_connection, same_keepalive, same_setting, same_settings, first_of, settings_list, is_settings_of, is_known, has_filter, is_cut_off, connection_right, rests_right, rest_due, connection_known};
ghost use Rattle.svc_judge.specs.Pasts.{IsPast, plan_of, record_of};
ghost use Rattle.svc_judge.specs.ConnectionSteps.{sort_test, without_front, arrival, judgement_right, first_of_each, options_list, is_done};
ghost use Rattle.svc_judge.specs.Endings.{is_uncut};
ghost use Rattle.svc_judge.specs.Chains.{connection_right_by};

use crate::boot::once_if;
use crate::looking::{has, is_full_at, times};
use crate::past::Past;
use crate::plans::{filter_of, is_endpoint, is_unix, options_of};
use crate::query::{Answer, Ask, Deed, News, Order, Query};
use svc_base::{Setting, TcpKeepalive};
use svc_record::{Action, Entry};
use svc_socket::Peer;

/// Neither refused nor dropped nor finished.
pub(crate) fn goes_on(entries: &[Entry], c: u64) -> bool
    ensures { result ≡ goes_on entries.now c }
{
    !(has(Query::Deed(Deed::Refuse(c)), entries)
        || has(Query::Deed(Deed::Drop(c)), entries)
        || has(Query::Answer(Answer::Finished(c)), entries))
}

/// The connection goes on, and isn't cut.
pub(crate) fn is_uncut(entries: &[Entry], c: u64) -> bool
    ensures { result ≡ is_uncut entries.now c }
{
    goes_on(entries, c) && !has(Query::Deed(Deed::Cut(c)), entries)
}

/// The connection has arrived, goes on, and isn't cut.
fn has_come(entries: &[Entry], c: u64) -> bool
    ensures { result ≡ (has (is_arrival c) entries.now && is_uncut entries.now c) }
{
    has(Query::Answer(Answer::Arrival(c)), entries) && is_uncut(entries, c)
}

/// The connection is live.
pub(crate) fn is_live_connection(entries: &[Entry], c: u64) -> bool
    ensures { result ≡ is_live_connection entries.now c }
{
    has_come(entries, c)
}

/// The two are equal.
fn same_keepalive(a: TcpKeepalive, b: TcpKeepalive) -> bool
    ensures { result ≡ same_keepalive a b }
{
    a.idle == b.idle
        && a.interval == b.interval
        && (a.count == b.count && a.user_timeout == b.user_timeout)
}

/// The two settings are equal.
fn same_setting(a: Setting, b: Setting) -> bool
    ensures { result ≡ same_setting a b }
{
    match (a, b) {
        (Setting::NoDelay, Setting::NoDelay) => true,
        (Setting::KeepAlive(x), Setting::KeepAlive(y)) => same_keepalive(x, y),
        (Setting::Dscp(x), Setting::Dscp(y)) => x == y,
        (Setting::SndBuf(x), Setting::SndBuf(y)) => x == y,
        (Setting::RcvBuf(x), Setting::RcvBuf(y)) => x == y,
        _ => false,
    }
}

/// A sort of setting that an endpoint has once.
#[derive(Clone, Copy)]
pub(crate) enum Sort {
    KeepAlive,
    Dscp,
    SendBuffer,
    ReceiveBuffer,
}

impl Sort {
    /// The setting is of this sort.
    fn is_of(self, setting: Setting) -> bool
        ensures { result ≡ sort_test self setting }
    {
        match self {
            Sort::KeepAlive => matches!(setting, Setting::KeepAlive(_)),
            Sort::Dscp => matches!(setting, Setting::Dscp(_)),
            Sort::SendBuffer => matches!(setting, Setting::SndBuf(_)),
            Sort::ReceiveBuffer => matches!(setting, Setting::RcvBuf(_)),
        }
    }
}

/// The first option of this sort.
fn first_of(sort: Sort, options: &[Setting]) -> Option<Setting>
    ensures { option_to_list result ≡ first_of (sort_test sort) options.now }
{
    let mut rest = options;
    'options: while let Some((option, more)) = rest.split_first() {
        if sort.is_of(*option) {
            return Some(*option);
        }
        rest = more;
    }
    None
}

/// The settings without this one at their front, if it is one; none where they don't begin with it.
fn without<'a>(setting: Option<Setting>, told: Option<&'a [Setting]>) -> Option<&'a [Setting]>
    ensures { option_copied result ≡ without_front (option_to_list setting) (option_copied told.entry) }
{
    match setting {
        Some(wanted) => match told {
            Some([first, more @ ..]) if same_setting(*first, wanted) => Some(more),
            _ => None,
        },
        None => told,
    }
}

/// The settings without the first option of each sort at their front; none where they don't begin with them.
fn without_sorts<'a>(options: &[Setting], told: Option<&'a [Setting]>) -> Option<&'a [Setting]>
    ensures { option_copied result ≡ without_front (first_of_each options.now) (option_copied told.entry) }
{
    let keepalive = first_of(Sort::KeepAlive, options);
    let dscp = first_of(Sort::Dscp, options);
    let send = first_of(Sort::SendBuffer, options);
    let receive = first_of(Sort::ReceiveBuffer, options);
    let second = without(keepalive, told);
    let third = without(dscp, second);
    let fourth = without(send, third);
    without(receive, fourth)
}

/// The settings without those of the endpoint's connections behind the first one.
fn without_options<'a>(
    past: &Past,
    s: u64,
    i: u64,
    told: Option<&'a [Setting]>,
) -> Option<&'a [Setting]>
    ensures { option_copied result ≡ without_front (options_list (plan_of past.now) s i) (option_copied told.entry) }
{
    if is_unix(past.plan, s, i) {
        told
    } else {
        without_sorts(options_of(past.plan, s, i), told)
    }
}

/// There are settings, and none is left.
fn is_done(left: Option<&[Setting]>) -> bool
    ensures { result ≡ is_done (option_copied left.entry) }
{
    match left {
        Some(settings) => match settings {
            [] => true,
            [_, ..] => false,
        },
        None => false,
    }
}

/// These are the settings of the endpoint's connections: no delay, and for an endpoint that isn't Unix the
/// first option of each other sort.
fn are_settings(told: &[Setting], past: &Past, s: u64, i: u64) -> bool
    ensures { result ≡ same_settings told.now (settings_list (plan_of past.now) s i) }
{
    let behind = without(Some(Setting::NoDelay), Some(told));
    let left = without_options(past, s, i, behind);
    is_done(left)
}

/// The entry tells the settings of the endpoint's connections, for this one.
fn is_settings_of(entry: &Entry, past: &Past, s: u64, i: u64, c: u64) -> bool
    ensures { result ≡ is_settings_of (settings_list (plan_of past.now) s i) c entry.now }
{
    match entry {
        Entry::Told(Action::Settings(n, told)) => {
            *n == c && are_settings(told.as_slice(), past, s, i)
        }
        _ => false,
    }
}

/// How many entries tell the settings of the endpoint's connections, for this one.
fn times_settings(past: &Past, s: u64, i: u64, c: u64) -> u64
    ensures { result ≡ times (is_settings_of (settings_list (plan_of past.now) s i) c) (record_of past.now) }
{
    let _most = past.entries.len();
    let mut rest = past.entries;
    let mut count = 0;
    'entries: while let Some((entry, before)) = rest.split_first() {
        if is_settings_of(entry, past, s, i, c) {
            count += 1;
        }
        rest = before;
    }
    count
}

/// The peer is known.
fn is_known(peer: Peer) -> bool
    ensures { result ≡ is_known peer }
{
    !matches!(peer, Peer::Unknown)
}

/// The endpoint has a filter.
fn has_filter(past: &Past, s: u64, i: u64) -> bool
    ensures { result ≡ has_filter (plan_of past.now) s i }
{
    filter_of(past.plan, s, i).is_some()
}

/// The connection was there at `ShutdownRuntimes`, and went on.
fn is_cut_off(past: &Past, c: u64) -> bool
    requires { IsPast past.now }
    ensures { result ≡ is_cut_off (record_of past.now) c }
{
    let before = past.before_runtimes();
    has(Query::Answer(Answer::Arrival(c)), before.entries) && goes_on(before.entries, c)
}

/// What a filter said of the connection stands where it is due, and what is told for it.
fn judgement_right(past: &Past, s: u64, i: u64, c: u64, peer: Peer) -> bool
    ensures { result ≡ judgement_right (plan_of past.now) (record_of past.now) s i c peer }
{
    let refused = has(Query::Deed(Deed::JudgedNo(c)), past.entries);
    once_if(is_known(peer), Query::Deed(Deed::Judged(c)), past.entries)
        && (has_filter(past, s, i) || !refused)
        && once_if(refused, Query::Deed(Deed::Refuse(c)), past.entries)
        && (once_if(!refused, Query::Ask(Ask::Settings(c)), past.entries)
            && times_settings(past, s, i, c) == if refused { 0 } else { 1 })
}

/// Each entry on the connection stands where it is due, once, and not at all elsewhere, where it is known
/// whether the end of the run cut it off.
pub(crate) fn connection_right_by(
    past: &Past,
    cut: bool,
    s: u64,
    i: u64,
    c: u64,
    peer: Peer,
) -> bool
    ensures { result ≡ connection_right_by cut (plan_of past.now) (record_of past.now) (arrival s i c peer) }
{
    judgement_right(past, s, i, c, peer)
        && (once_if(
            has(Query::Answer(Answer::SettingsApplied(c)), past.entries),
            Query::Ask(Ask::Handshake(c)),
            past.entries,
        ) && once_if(
            has(Query::Answer(Answer::HandshakeDone(c)), past.entries),
            Query::Deed(Deed::Serve(c)),
            past.entries,
        ))
        && (once_if(
            has(Query::Answer(Answer::SettingsFailed(c)), past.entries)
                || has(Query::Answer(Answer::HandshakeFailed(c)), past.entries),
            Query::Deed(Deed::Drop(c)),
            past.entries,
        ) && once_if(cut, Query::Deed(Deed::Cut(c)), past.entries))
}

/// Each entry on the connection stands where it is due, once, and not at all elsewhere.
pub(crate) fn connection_right(past: &Past, s: u64, i: u64, c: u64, peer: Peer) -> bool
    requires { IsPast past.now }
    ensures { result ≡ connection_right (plan_of past.now) (record_of past.now) (arrival s i c peer) }
{
    connection_right_by(past, is_cut_off(past, c), s, i, c, peer)
}

/// Loops rest after each failure that asks for it.
pub(crate) fn rests_right(entries: &[Entry]) -> bool
    ensures { result ≡ rests_right entries.now }
{
    times(Query::Order(Order::Rest), entries) == times(Query::News(News::Full), entries)
}

/// A loop rests only after such a failure.
pub(crate) fn rest_due(entry: &Entry, before: &[Entry]) -> bool
    ensures { result ≡ rest_due entry.now before.now }
{
    match entry {
        Entry::Told(Action::Rest(s, i)) => is_full_at(before, u64::from(*s), u64::from(*i)),
        _ => true,
    }
}

/// A loop that rests is of an endpoint of the plan, and what is told of a connection is of one that has
/// arrived.
pub(crate) fn connection_known(entry: &Entry, before: &Past) -> bool
    ensures { result ≡ connection_known (plan_of before.now) entry.now (record_of before.now) }
{
    match entry {
        Entry::Told(Action::Rest(s, i)) => {
            is_endpoint(before.plan, u64::from(*s), u64::from(*i))
        }
        Entry::Told(
            Action::Judged(c, _)
            | Action::Refuse(c)
            | Action::Settings(c, _)
            | Action::Handshake(c)
            | Action::Serve(c)
            | Action::Drop(c)
            | Action::Cut(c),
        ) => has(Query::Answer(Answer::Arrival(*c)), before.entries),
        _ => true,
    }
}
