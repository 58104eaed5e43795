//! The options of sockets.

ghost use Rattle.std.specs.Prelude.{◌≡◌, ◌∷◌, ◌++◌, [], Ok, IfOk, OnOk, IsTrue, false, option_and_then};
ghost use Rattle.std.specs.Option.{option_to_list, option_copied, option_map};
ghost use Rattle.svc_socket.specs.Steps.{given, Sets, Tries, Causes, is_large};
ghost use Rattle.svc_socket.specs.OptionLists.{dscp_step, dscp_end, keepalive_steps, is_large_keepalive, bind_steps, bind_end, is_large_backlog, given_settings, settings_of};

use crate::options::{Family, Options, SockOption};
use std::alloc::Global;
use svc_base::{NoMemory, Setting, Settings, TcpKeepalive};
use thiserror::Error;

/// The greatest value that an option takes.
const MOST: u64 = 2_147_483_647;

/// Why an option wasn't set.
#[derive(Clone, Copy, PartialEq, Eq, Debug, Error)]
pub enum OptionError {
    /// A value, in the unit in which it is set, is over 2,147,483,647. Nothing was set.
    #[error("a value is over 2147483647")]
    TooLarge,
    /// An option of a connection couldn't be set.
    #[error("an option of a connection couldn't be set")]
    ConnectError,
    /// An option of a socket couldn't be set.
    #[error("an option of a socket couldn't be set")]
    SocketError,
    /// An option of a listening socket couldn't be set.
    #[error("an option of a listening socket couldn't be set")]
    BindError,
}

/// The options of a listening TCP socket and of the connections that it accepts. Those that aren't
/// given aren't set.
#[derive(Clone, Copy, PartialEq, Eq, Debug, Default)]
pub struct TcpSocketOptions {
    /// Whether an IPv6 socket takes IPv6 alone.
    pub ipv6_only: Option<bool>,
    /// How many connects that send data with their first segment may wait.
    pub tcp_fastopen: Option<u64>,
    /// The keepalive of accepted connections.
    pub tcp_keepalive: Option<TcpKeepalive>,
    /// The differentiated services byte.
    pub dscp: Option<u8>,
    /// Whether several sockets may listen on the address.
    pub so_reuseport: Option<bool>,
    /// The size of the send buffer of accepted connections, in bytes.
    pub tcp_snd_buf: Option<u64>,
    /// The size of the receive buffer of accepted connections, in bytes.
    pub tcp_recv_buf: Option<u64>,
}

fn is_large(value: u64) -> bool
    ensures { result ≡ is_large value }
{
    value > MOST
}

/// Sets one option, if it is given.
fn set_step<O: Options>(
    o: &mut O,
    step: Option<(SockOption, OptionError)>,
) -> Result<(), OptionError>
    ensures { Sets (option_to_list step) (Ok tt) (O.seen o.old) (O.seen o.new) result }
{
    let Some(given) = step else {
        return Ok(());
    };
    if o.set(given.0) { Ok(()) } else { Err(given.1) }
}

/// Sets those that are given, in order up to the first failure, which is answered by its error.
fn set_given<O: Options>(
    o: &mut O,
    steps: &[Option<(SockOption, OptionError)>],
) -> Result<(), OptionError>
    ensures { Sets (given steps.now) (Ok tt) (O.seen o.old) (O.seen o.new) result }
{
    for step in steps {
        match set_step(o, *step) {
            Ok(()) => {}
            Err(error) => return Err(error),
        }
    }
    Ok(())
}

/// Sets one option whose value has a limit.
fn set_limited<O: Options>(o: &mut O, value: u64, option: SockOption) -> Result<(), OptionError>
    ensures sets { Tries (is_large value) ((option, OptionError.ConnectError) ∷ []) (Ok tt) (O.seen o.old) (O.seen o.new) result }
    ensures nothing { IsTrue (is_large value) → o.new ≡ o.old }
    ensures cause { Causes (is_large value) ⊥ (O.seen o.old).faults (O.seen o.new).faults result }
{
    if is_large(value) {
        return Err(OptionError::TooLarge);
    }
    set_step(o, Some((option, OptionError::ConnectError)))
}

/// Sets the size of the receive buffer, in bytes. `TooLarge` where it is over 2,147,483,647, and
/// `ConnectError` where it couldn't be set.
pub fn set_recv_buf<O: Options>(o: &mut O, val: u64) -> Result<(), OptionError>
    ensures sets { Tries (is_large val) ((SockOption.RcvBuf val, OptionError.ConnectError) ∷ []) (Ok tt) (O.seen o.old) (O.seen o.new) result }
    ensures nothing { IsTrue (is_large val) → o.new ≡ o.old }
    ensures cause { Causes (is_large val) ⊥ (O.seen o.old).faults (O.seen o.new).faults result }
{
    set_limited(o, val, SockOption::RcvBuf(val))
}

/// Sets the size of the send buffer, in bytes. `TooLarge` where it is over 2,147,483,647, and
/// `ConnectError` where it couldn't be set.
pub fn set_snd_buf<O: Options>(o: &mut O, val: u64) -> Result<(), OptionError>
    ensures sets { Tries (is_large val) ((SockOption.SndBuf val, OptionError.ConnectError) ∷ []) (Ok tt) (O.seen o.old) (O.seen o.new) result }
    ensures nothing { IsTrue (is_large val) → o.new ≡ o.old }
    ensures cause { Causes (is_large val) ⊥ (O.seen o.old).faults (O.seen o.new).faults result }
{
    set_limited(o, val, SockOption::SndBuf(val))
}

/// Lets a connect send data with its first segment. `ConnectError` where that couldn't be set.
pub fn set_tcp_fastopen_connect<O: Options>(o: &mut O) -> Result<(), OptionError>
    ensures sets { Sets ((SockOption.FastopenConnect, OptionError.ConnectError) ∷ []) (Ok tt) (O.seen o.old) (O.seen o.new) result }
    ensures cause { Causes false ⊥ (O.seen o.old).faults (O.seen o.new).faults result }
{
    set_step(
        o,
        Some((SockOption::FastopenConnect, OptionError::ConnectError)),
    )
}

/// Sets how many connects that send data with their first segment may wait. `TooLarge` where it is
/// over 2,147,483,647, and `ConnectError` where it couldn't be set.
pub fn set_tcp_fastopen_backlog<O: Options>(o: &mut O, val: u64) -> Result<(), OptionError>
    ensures sets { Tries (is_large val) ((SockOption.FastopenBacklog val, OptionError.ConnectError) ∷ []) (Ok tt) (O.seen o.old) (O.seen o.new) result }
    ensures nothing { IsTrue (is_large val) → o.new ≡ o.old }
    ensures cause { Causes (is_large val) ⊥ (O.seen o.old).faults (O.seen o.new).faults result }
{
    set_limited(o, val, SockOption::FastopenBacklog(val))
}

/// The option that holds the differentiated services byte, where the family has one.
fn dscp_step(family: Family, val: u8) -> Option<(SockOption, OptionError)>
    ensures { result ≡ dscp_step family val }
{
    match family {
        Family::V4 => Some((SockOption::Tos(val), OptionError::SocketError)),
        Family::V6 => Some((SockOption::TClass(val), OptionError::SocketError)),
        Family::Other => None,
    }
}

/// What is answered once the differentiated services byte is set, or can't be.
fn dscp_end(family: Family) -> Result<(), OptionError>
    ensures { result ≡ dscp_end family }
{
    match family {
        Family::V4 | Family::V6 => Ok(()),
        Family::Other => Err(OptionError::SocketError),
    }
}

/// Sets the differentiated services byte, as it is. `SocketError` where it couldn't be set, or where
/// the family is neither IPv4 nor IPv6.
pub fn set_dscp<O: Options>(o: &mut O, val: u8) -> Result<(), OptionError>
    ensures sets { Sets (option_to_list (dscp_step (O.seen o.old).family val)) (dscp_end (O.seen o.old).family) (O.seen o.old) (O.seen o.new) result }
    ensures cause { Causes false ((O.seen o.old).family ≡ Family.Other) (O.seen o.old).faults (O.seen o.new).faults result }
{
    let family = o.family();
    match set_step(o, dscp_step(family, val)) {
        Ok(()) => dscp_end(family),
        Err(error) => Err(error),
    }
}

fn is_large_keepalive(ka: &TcpKeepalive) -> bool
    ensures { result ≡ is_large_keepalive ka.now }
{
    is_large(ka.idle / 1_000_000_000)
        || is_large(ka.interval / 1_000_000_000)
        || is_large(ka.count)
        || is_large(ka.user_timeout / 1_000_000)
}

/// Sets the keepalive: on, then the idle time and the interval in whole seconds, the count, and the
/// user's timeout in whole milliseconds, up to the first failure. `TooLarge` where one of these is over
/// 2,147,483,647, and `ConnectError` where one couldn't be set.
pub fn set_tcp_keepalive<O: Options>(o: &mut O, ka: &TcpKeepalive) -> Result<(), OptionError>
    ensures sets { Tries (is_large_keepalive ka.now) (keepalive_steps ka.now) (Ok tt) (O.seen o.old) (O.seen o.new) result }
    ensures nothing { IsTrue (is_large_keepalive ka.now) → o.new ≡ o.old }
    ensures cause { Causes (is_large_keepalive ka.now) ⊥ (O.seen o.old).faults (O.seen o.new).faults result }
{
    if is_large_keepalive(ka) {
        return Err(OptionError::TooLarge);
    }
    let error = OptionError::ConnectError;
    let steps = [
        Some((SockOption::KeepAlive, error)),
        Some((SockOption::KeepIdle(ka.idle / 1_000_000_000), error)),
        Some((SockOption::KeepInterval(ka.interval / 1_000_000_000), error)),
        Some((SockOption::KeepCount(ka.count), error)),
        Some((SockOption::UserTimeout(ka.user_timeout / 1_000_000), error)),
    ];
    set_given(o, &steps)
}

fn is_large_backlog(opt: &TcpSocketOptions) -> bool
    ensures { result ≡ is_large_backlog opt.now }
{
    match opt.tcp_fastopen {
        Some(backlog) => is_large(backlog),
        None => false,
    }
}

/// What is answered once the options of a listening socket are set.
fn bind_end(family: Family, opt: &TcpSocketOptions) -> Result<(), OptionError>
    ensures { result ≡ bind_end family opt.now }
{
    if opt.dscp.is_some() {
        dscp_end(family)
    } else {
        Ok(())
    }
}

/// Sets the options of a listening socket before it is bound, each if it is given: IPv6 alone, shared
/// ports, the backlog of connects that send data, and the differentiated services byte, up to the
/// first failure. `TooLarge` where the backlog is over 2,147,483,647, `BindError` where one of the
/// first two couldn't be set, and else the error of the call that sets it.
pub fn apply_bind_options<O: Options>(o: &mut O, opt: &TcpSocketOptions) -> Result<(), OptionError>
    ensures sets { Tries (is_large_backlog opt.now) (bind_steps (O.seen o.old).family opt.now) (bind_end (O.seen o.old).family opt.now) (O.seen o.old)
        (O.seen o.new) result }
    ensures nothing { IsTrue (is_large_backlog opt.now) → o.new ≡ o.old }
    ensures cause { Causes (is_large_backlog opt.now) ((O.seen o.old).family ≡ Family.Other) (O.seen o.old).faults (O.seen o.new).faults result }
{
    if is_large_backlog(opt) {
        return Err(OptionError::TooLarge);
    }
    let family = o.family();
    let steps = bind_steps(family, opt);
    match set_given(o, &steps) {
        Ok(()) => bind_end(family, opt),
        Err(error) => Err(error),
    }
}

fn v6_only_step(given: Option<bool>) -> Option<(SockOption, OptionError)>
    ensures { result ≡ option_map (λ only. (SockOption.V6Only only, OptionError.BindError)) given }
{
    given.map(|only| (SockOption::V6Only(only), OptionError::BindError))
}

fn reuse_step(given: Option<bool>) -> Option<(SockOption, OptionError)>
    ensures { result ≡ option_map (λ reuse. (SockOption.ReusePort reuse, OptionError.BindError)) given }
{
    given.map(|reuse| (SockOption::ReusePort(reuse), OptionError::BindError))
}

fn backlog_step(given: Option<u64>) -> Option<(SockOption, OptionError)>
    ensures { result ≡ option_map (λ n. (SockOption.FastopenBacklog n, OptionError.ConnectError)) given }
{
    given.map(|n| (SockOption::FastopenBacklog(n), OptionError::ConnectError))
}

fn given_dscp_step(family: Family, given: Option<u8>) -> Option<(SockOption, OptionError)>
    ensures { result ≡ option_and_then (dscp_step family) given }
{
    match given {
        Some(byte) => dscp_step(family, byte),
        None => None,
    }
}

/// The options of a listening socket, in order.
fn bind_steps(family: Family, opt: &TcpSocketOptions) -> [Option<(SockOption, OptionError)>; 4]
    ensures { given result ≡ bind_steps family opt.now }
{
    [
        v6_only_step(opt.ipv6_only),
        reuse_step(opt.so_reuseport),
        backlog_step(opt.tcp_fastopen),
        given_dscp_step(family, opt.dscp),
    ]
}

/// Appends a setting, if it is given.
fn push_given(
    alloc: Global,
    settings: &mut Settings,
    setting: Option<Setting>,
) -> Result<(), NoMemory>
    ensures { OnOk result (settings.new ≡ settings.old ++ option_to_list setting) }
{
    match setting {
        None => Ok(()),
        Some(setting) => match settings.push(alloc, setting) {
            Ok(()) => Ok(()),
            Err(refused) => Err(refused.reason),
        },
    }
}

fn keepalive_setting(opt: &TcpSocketOptions) -> Option<Setting>
    ensures { result ≡ option_map Setting.KeepAlive opt.now.tcp_keepalive }
{
    opt.tcp_keepalive.map(Setting::KeepAlive)
}

fn dscp_setting(opt: &TcpSocketOptions) -> Option<Setting>
    ensures { result ≡ option_map Setting.Dscp opt.now.dscp }
{
    opt.dscp.map(Setting::Dscp)
}

fn send_setting(opt: &TcpSocketOptions) -> Option<Setting>
    ensures { result ≡ option_map Setting.SndBuf opt.now.tcp_snd_buf }
{
    opt.tcp_snd_buf.map(Setting::SndBuf)
}

fn receive_setting(opt: &TcpSocketOptions) -> Option<Setting>
    ensures { result ≡ option_map Setting.RcvBuf opt.now.tcp_recv_buf }
{
    opt.tcp_recv_buf.map(Setting::RcvBuf)
}

/// Appends what is given.
fn push_settings(
    alloc: Global,
    settings: &mut Settings,
    opt: &TcpSocketOptions,
) -> Result<(), NoMemory>
    ensures { OnOk result (settings.new ≡ settings.old ++ given_settings opt.now) }
{
    push_given(alloc, settings, keepalive_setting(opt))?;
    push_given(alloc, settings, dscp_setting(opt))?;
    push_given(alloc, settings, send_setting(opt))?;
    push_given(alloc, settings, receive_setting(opt))
}

/// What is set on accepted connections: no delay, and then, each if it is given, the keepalive, the
/// differentiated services byte, the send buffer and the receive buffer.
pub fn settings_of(alloc: Global, opt: Option<&TcpSocketOptions>) -> Result<Settings, NoMemory>
    ensures { IfOk result (λ settings. settings ≡ settings_of (option_copied opt.entry)) }
{
    let mut settings = Settings::new(alloc);
    push_given(alloc, &mut settings, Some(Setting::NoDelay))?;
    match opt {
        None => Ok(settings),
        Some(opt) => {
            push_settings(alloc, &mut settings, opt)?;
            Ok(settings)
        }
    }
}
