//! Signals, and a daemon with its parent.

use crate::checking::{holds, prints, same};
use std::process::Abort;
use svc_base::Text;
use svc_conf::ServerConf;
use svc_proc::{
    DaemonError, Daemonized, ForkAnswer, MemoryProcess, Notified, NotifyNext, NotifyRetry,
    ParentEvent, ParentNext, ParentWait, Process, ProcessCall, ShutdownSignal, ShutdownSignalWatch,
    SignalAnswer, SignalError, SteadyProcess, UnixShutdownSignalWatch, daemonize,
    notify_parent_ready_for_fds,
};

fn configuration<R: Abort + AllocGlobal>(rt: &R) -> ServerConf {
    ServerConf::default(rt.alloc()).expect(rt, "a configuration")
}

/// A process of the number 7 that fails at these calls.
fn process<R: Abort + AllocGlobal>(rt: &R, failing: &[u64]) -> MemoryProcess {
    let failing = failing.to_vec(rt.alloc()).expect(rt, "numbers");
    MemoryProcess::new(rt.alloc(), 8, 7, failing).expect(rt, "a process")
}

#[test]
fn the_first_signal_is_kept(rt: HostRuntime) {
    let rt = &rt;
    let mut watch = UnixShutdownSignalWatch::new();
    for (number, signal) in [
        (3, Some(ShutdownSignal::GracefulUpgrade)),
        (15, Some(ShutdownSignal::GracefulTerminate)),
        (2, Some(ShutdownSignal::FastShutdown)),
        (9, None),
    ] {
        watch.raise(1);
        watch.raise(number);
        watch.raise(if signal.is_some() { 15 } else { 9 });
        same(rt, watch.poll_recv(), signal);
        same(rt, watch.poll_recv(), None);
    }
}

#[test]
fn a_parent_waits_for_its_limit(rt: HostRuntime) {
    let rt = &rt;
    let mut wait = ParentWait::new(2, 500);
    for (event, next) in [
        (ParentEvent::Moment(2499), ParentNext::Wait),
        (ParentEvent::Moment(2500), ParentNext::Exit(1)),
        (ParentEvent::Ready, ParentNext::Exit(0)),
        (ParentEvent::Gone, ParentNext::Exit(1)),
        (ParentEvent::DropFailed, ParentNext::Exit(1)),
    ] {
        same(rt, wait.step(event), next);
    }
    let mut retry = NotifyRetry::new(1, 7);
    holds(rt, retry.next(1006));
    holds(rt, !retry.next(1007));
    for (answer, next) in [
        (SignalAnswer::Denied, NotifyNext::Again),
        (SignalAnswer::Sent, NotifyNext::Done),
        (SignalAnswer::Other(3), NotifyNext::GaveUp(3)),
    ] {
        same(rt, retry.step(answer), next);
    }
}

#[test]
fn a_parent_is_notified(rt: HostRuntime) {
    let rt = &rt;
    let mut process = process(rt, &[]);
    holds(rt, process.answers.push(SignalAnswer::Denied).is_ok());
    let notified = notify_parent_ready_for_fds(&mut process, 1, 60);
    same(rt, notified, Notified::Sent);
    let calls = [
        ProcessCall::Notify(1, SignalAnswer::Denied),
        ProcessCall::Rest(100),
        ProcessCall::Notify(1, SignalAnswer::Sent),
    ];
    same(rt, process.calls.told(), Some(calls.as_slice()));
    for (answer, seconds, notified) in [
        (SignalAnswer::Other(3), 60, Notified::Other(3)),
        (SignalAnswer::Denied, 0, Notified::Denied),
    ] {
        holds(rt, process.answers.push(answer).is_ok());
        let got = notify_parent_ready_for_fds(&mut process, 1, seconds);
        same(rt, got, notified);
    }
}

#[test]
fn a_child_knows_the_parent_that_waits(rt: HostRuntime) {
    let rt = &rt;
    let mut conf = configuration(rt);
    for (waits, parent) in [(false, None), (true, Some(7))] {
        conf.daemon_wait_for_ready = waits;
        let mut process = process(rt, &[]);
        process.child = Some(8);
        match daemonize(rt.alloc(), &conf, &mut process) {
            Ok(Daemonized::Child(child)) => same(rt, child.notify_parent_pid, parent),
            _ => holds(rt, false),
        }
        same(rt, process.pid(), 8);
        let calls = process.calls.told().expect(rt, "calls");
        let fork = ProcessCall::Fork(ForkAnswer::Child);
        same(rt, calls.last(), Some(&fork));
    }
}

#[test]
fn a_parent_waits_where_it_is_set(rt: HostRuntime) {
    let rt = &rt;
    let mut conf = configuration(rt);
    let mut process = process(rt, &[]);
    process.clock = 500;
    let done = daemonize(rt.alloc(), &conf, &mut process);
    holds(rt, matches!(done, Ok(Daemonized::ParentDone)));
    conf.daemon_wait_for_ready = true;
    for (seconds, last) in [(None, 600_499), (Some(2), 2499)] {
        conf.daemon_ready_timeout_seconds = seconds;
        match daemonize(rt.alloc(), &conf, &mut process) {
            Ok(Daemonized::Parent(mut wait)) => {
                same(rt, wait.step(ParentEvent::Moment(last)), ParentNext::Wait);
                let next = wait.step(ParentEvent::Moment(last + 1));
                same(rt, next, ParentNext::Exit(1));
            }
            _ => holds(rt, false),
        }
    }
}

#[test]
fn an_older_pid_file_is_renamed(rt: HostRuntime) {
    let rt = &rt;
    let mut process = process(rt, &[2]);
    let file = Text::new(rt.alloc(), "/tmp/pingora.pid").expect(rt, "a path");
    holds(rt, process.files.push(file).is_ok());
    let refused = daemonize(rt.alloc(), &configuration(rt), &mut process);
    holds(rt, matches!(refused, Err(DaemonError::Fork)));
    same(rt, process.faults(), 1);
    holds(rt, process.exists("/tmp/pingora.pid.old"));
    holds(rt, !process.exists("/tmp/pingora.pid"));
}

#[test]
fn a_steady_process_never_fails(rt: HostRuntime) {
    let rt = &rt;
    let mut process = SteadyProcess::new(rt.alloc(), 8, 7).expect(rt, "a process");
    process.child = Some(8);
    holds(
        rt,
        daemonize(rt.alloc(), &configuration(rt), &mut process).is_ok(),
    );
    let notified = notify_parent_ready_for_fds(&mut process, 7, 60);
    same(rt, notified, Notified::Sent);
    holds(rt, process.rename("a", "b"));
    process.rest(5);
    same(rt, process.now(), 5);
    same(rt, process.pid(), 8);
    same(rt, process.faults(), 0);
    let calls = process.calls.told().expect(rt, "calls");
    same(rt, calls.len(), 5);
}

#[test]
fn errors_have_texts(rt: HostRuntime) {
    let rt = &rt;
    prints(
        rt,
        SignalError::PermissionDenied,
        "permission denied (EPERM)",
    );
    prints(
        rt,
        SignalError::OtherSignalError(3),
        "kill failed with errno 3",
    );
    prints(rt, DaemonError::Fork, "the process couldn't fork");
    prints(rt, DaemonError::NoMemory, "out of memory");
}
