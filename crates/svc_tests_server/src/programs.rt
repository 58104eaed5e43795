//! The program over a source and a sink that fail, and over texts that no row can hold.

ghost use Rattle.std.specs.Prelude.{◌<◌};

use crate::checking::{holds, same};
use std::process::Abort;
use std::rc::RcStr;
use svc_base::{MemorySink, MemorySource, Status};
use svc_main::serve_script;

/// Reads have at most so many bytes.
const READ: usize = 7;

/// Writes have at most so many bytes.
const WRITE: usize = 5;

/// One call with the word `run` over this text, with a source and a sink in memory whose calls with these
/// numbers fail.
fn serve<R: Abort + AllocGlobal>(
    rt: &R,
    text: &[u8],
    reads: &[u64],
    writes: &[u64],
) -> (Status, Vec<u8>) {
    let mut words = Vec::new(rt.alloc());
    let run = RcStr::from_str(rt.alloc(), "run").expect(rt, "a word");
    assert!(rt; words.push(run).is_ok());
    let text = text.to_vec(rt.alloc()).expect(rt, "a text");
    let reads = reads.to_vec(rt.alloc()).expect(rt, "numbers");
    let writes = writes.to_vec(rt.alloc()).expect(rt, "numbers");
    let mut source = MemorySource::new(text, READ, reads);
    let mut sink = MemorySink::new(rt.alloc(), WRITE, writes);
    let status = serve_script(rt.alloc(), &words, &mut source, &mut sink);
    (status, sink.bytes)
}

#[test]
fn faults_have_their_statuses(rt: HostRuntime) {
    let rt = &rt;
    let text = b"%conf\n%services\n%events\nsignal fast\n";
    for (reads, writes, code, out) in [
        ([0u64].as_slice(), [].as_slice(), 5, "status read fault\n"),
        ([2].as_slice(), [].as_slice(), 5, "status read fault\n"),
        ([].as_slice(), [0u64].as_slice(), 6, ""),
        ([].as_slice(), [2].as_slice(), 6, "phase Runn"),
    ] {
        let (status, bytes) = serve(rt, text, reads, writes);
        same(rt, status, Status(code));
        same(rt, bytes.as_slice(), out.as_bytes());
    }
}

/// A usual server: a health check, a proxy that waits for it, and an endpoint for metrics.
const USUAL: &str =
    "%conf\nversion: 1\nthreads: 2\npid_file: /run/svc.pid\nupgrade_sock: /run/svc.sock\nuser: www\ngrace_period_seconds: 30\ngraceful_shutdown_timeout_seconds: 10\n%services\nhealth notify\nproxy plain after 0 tcp 0.0.0.0:80 tcp 0.0.0.0:443\nmetrics plain tcp 127.0.0.1:9090\n%events\nbound 2 0 5\nready 0\nbound 1 0 6\nbound 1 1 8\narrived 1 1 1 10.0.0.9:5000\nset 1 ok\nshaken 1 ok\nsignal terminate\nfinished 1\nloopended 1 0 0\nloopended 1 1 0\nloopended 2 0 0\nmoment 30000\n";

/// What its run prints.
const PRINTED: &str =
    "start 0\nstart 2\nbind 2 0\nphase Running 0\ngot bound 2 0 5\ngot ready 0\nstart 1\nbind 1 0\ngot bound 1 0 6\nbind 1 1\ngot bound 1 1 8\ngot arrived 1 1 1 10.0.0.9:5000\njudged 1 yes\nsettings 1 nodelay\ngot set 1 ok\nhandshake 1\ngot shaken 1 ok\nserve 1\ngot signal terminate\nbroadcast\nphase GracefulTerminate 0\nphase ShutdownStarted 0\nphase ShutdownGracePeriod 0\ngot finished 1\ngot loopended 1 0 0\nclose 6\ngot loopended 1 1 0\nclose 8\ngot loopended 2 0 0\nclose 5\ngot moment 30000\nphase ShutdownRuntimes 30000\nstop 10\nphase Terminated 30000\nstatus served\n";

/// How many calls so many bytes take.
fn calls(length: usize, most: usize) -> u64
    requires { 0 < most }
{
    length.div_ceil(most) as u64
}

#[test]
fn any_read_may_fail(rt: HostRuntime) {
    let rt = &rt;
    let text = USUAL.as_bytes();
    // One read more than the bytes take finds the end.
    for k in 0..=calls(text.len(), READ) {
        let (status, bytes) = serve(rt, text, &[k], &[]);
        same(rt, status, Status(5));
        same(rt, bytes.as_slice(), b"status read fault\n".as_slice());
    }
    let unreached = calls(text.len(), READ).saturating_add(1);
    let (status, bytes) = serve(rt, text, &[unreached], &[]);
    same(rt, status, Status(0));
    same(rt, bytes.as_slice(), PRINTED.as_bytes());
}

#[test]
fn any_write_may_fail(rt: HostRuntime) {
    let rt = &rt;
    let text = USUAL.as_bytes();
    let printed = PRINTED.as_bytes();
    for k in 0..calls(printed.len(), WRITE) {
        let (status, bytes) = serve(rt, text, &[], &[k]);
        same(rt, status, Status(6));
        same(rt, bytes.len() as u64, k.saturating_mul(WRITE as u64));
        holds(rt, printed.starts_with(&bytes));
    }
    let (status, bytes) = serve(rt, text, &[], &[calls(printed.len(), WRITE)]);
    same(rt, status, Status(0));
    same(rt, bytes.as_slice(), printed);
}

#[test]
fn texts_that_are_cut_off_or_broken_are_refused(rt: HostRuntime) {
    let rt = &rt;
    for (text, out) in [
        (b"".as_slice(), "status line 1\n"),
        (b"%conf\n%services\na plain\n", "status line 4\n"),
        (
            b"%conf\n%services\na plain\nb\xff plain\n%events\nsignal fast\n",
            "status line 4\n",
        ),
    ] {
        let (status, bytes) = serve(rt, text, &[], &[]);
        same(rt, status, Status(3));
        same(rt, bytes.as_slice(), out.as_bytes());
    }
}
