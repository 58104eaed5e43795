//! How a server becomes a daemon, and how daemon and parent tell each other.

ghost use Rattle.std.specs.Prelude.{◌≡◌, Bool, Option, Some, None, Ok, if◌then◌else◌, IfOk, IfSome, IsErrOf, string_bytes};
ghost use Rattle.svc_proc.specs.Daemons.{old_name, moving, Daemonizes, fork_of, made_of};
ghost use Rattle.svc_proc.specs.ProcessData.{Asks};

use crate::process::{ForkAnswer, Process};
use std::alloc::{AllocError, Global};
use svc_conf::ServerConf;
use thiserror::Error;

mod notify;

pub use notify::{Notified, NotifyNext, NotifyRetry, notify_parent_ready_for_fds};
pub use svc_moments::{ParentEvent, ParentNext, ParentWait};

/// How many seconds a parent waits where nothing sets it.
const DEFAULT_DAEMON_READY_TIMEOUT: u64 = 600;

/// Why a signal wasn't sent.
#[derive(Clone, Copy, PartialEq, Eq, Debug, Error)]
pub enum SignalError {
    /// The process isn't permitted to send it.
    #[error("permission denied (EPERM)")]
    PermissionDenied,
    /// The system answered with this error number.
    #[error("kill failed with errno {0}")]
    OtherSignalError(i32),
}

/// What a daemon knows of its parent.
#[derive(Clone, Copy, PartialEq, Eq, Debug)]
pub struct DaemonizeResult {
    /// The number of the parent's process, where the parent waits to be notified.
    pub notify_parent_pid: Option<u32>,
}

/// Which side of the fork this is.
#[derive(Debug, Drop)]
pub enum Daemonized {
    /// The daemon.
    Child(DaemonizeResult),
    /// The parent, which waits for its daemon.
    Parent(ParentWait),
    /// The parent, which doesn't wait.
    ParentDone,
}

/// Why there is no daemon.
#[derive(Clone, Copy, PartialEq, Eq, Debug, Error)]
pub enum DaemonError {
    /// The fork failed.
    #[error("the process couldn't fork")]
    Fork,
    /// There was no memory.
    #[error("out of memory")]
    NoMemory,
}

impl From<AllocError> for DaemonError {
    ghost use Rattle.svc_proc.specs.declared.server.daemon.DaemonError.TheVariants.{NoMemory};

    ghost from_gives = { λ _ e. e ≡ NoMemory };

    fn from(_: AllocError) -> Self {
        DaemonError::NoMemory
    }
}

/// The name that an older pid file gets.
fn old_name(alloc: Global, path: &str) -> Result<String, AllocError>
    ensures { IfOk result (λ name. string_bytes name ≡ old_name path.now) }
{
    let mut name = String::from_str(alloc, path)?;
    name.push_str(".old")?;
    Ok(name)
}

/// Renames an older pid file, where there is one. That it can't be renamed is passed over.
fn move_old_pid<P: Process>(process: &mut P, path: &str, to: &str)
    requires { to.now ≡ old_name path.now }
    ensures { (renamed : Option Bool) × Asks (P.seen process.old) (P.seen process.new) (moving path.now renamed) }
{
    if process.exists(path) {
        process.rename(path, to);
    }
}

/// The parent, which waits from this moment on where the settings say so.
fn parent_from(conf: &ServerConf, moment: u64) -> Daemonized
    ensures { Ok result ≡ made_of conf.now 0 moment ForkAnswer.Parent }
{
    if !conf.daemon_wait_for_ready {
        return Daemonized::ParentDone;
    }
    let limit = conf
        .daemon_ready_timeout_seconds
        .unwrap_or(DEFAULT_DAEMON_READY_TIMEOUT);
    Daemonized::Parent(ParentWait::new(limit, moment))
}

/// The daemon, which notifies the process of this number where the settings say so.
fn child_of(conf: &ServerConf, pid: u32) -> DaemonizeResult
    ensures { result ≡ record { notify_parent_pid = if conf.now.daemon_wait_for_ready then Some pid else None } }
{
    DaemonizeResult {
        notify_parent_pid: conf.daemon_wait_for_ready.then_some(pid),
    }
}

/// Makes the process a daemon: an older pid file is renamed to its name with `.old`, and then the
/// process forks. `Fork` where it couldn't; `NoMemory` where there is none for the name, and then the
/// process wasn't asked anything.
pub fn daemonize<P: Process>(
    alloc: Global,
    conf: &ServerConf,
    process: &mut P,
) -> Result<Daemonized, DaemonError>
    ensures asks { IfSome (fork_of result) (Daemonizes conf.now.pid_file (P.seen process.old) (P.seen process.new)) }
    ensures answer { IfSome (fork_of result) (λ fork. result ≡ made_of conf.now (P.seen process.old).number (P.seen process.new).moment fork) }
    ensures memory { IsErrOf result DaemonError.NoMemory → process.new ≡ process.old }
{
    let path = conf.pid_file.as_str();
    let old = old_name(alloc, path)?;
    let pid = process.pid();
    move_old_pid(process, path, old.as_str());
    match process.fork() {
        ForkAnswer::Child => Ok(Daemonized::Child(child_of(conf, pid))),
        ForkAnswer::Parent => Ok(parent_from(conf, process.now())),
        ForkAnswer::Failed => Err(DaemonError::Fork),
    }
}
