//! The gate of address ranges.

use crate::checking::{holds, prints, same};
use std::fmt::Write;
use std::process::Abort;
use std::rc::RcStr;
use svc_base::{MemorySink, MemorySource, Status};
use svc_gate::{Gate, GateError, read_rules, serve_gate};
use svc_socket::PeerAddr;
use svc_streams::ConnectionFilter;

/// One call over a source and a sink in memory, whose calls with these numbers fail. The words stand
/// between blanks.
fn serve<R: Abort + AllocGlobal>(
    rt: &R,
    rules: &[u8],
    words: &str,
    read_fails: &[u64],
    write_fails: &[u64],
) -> (Status, Vec<u8>) {
    let alloc = rt.alloc();
    let mut all = Vec::new(alloc);
    for word in words.split_whitespace() {
        let word = RcStr::from_str(alloc, word).expect(rt, "a word");
        all.push(word).expect(rt, "memory");
    }
    let rules = rules.to_vec(alloc).expect(rt, "bytes");
    let read_fails = read_fails.to_vec(alloc).expect(rt, "numbers");
    let write_fails = write_fails.to_vec(alloc).expect(rt, "numbers");
    let mut source = MemorySource::new(rules, 7, read_fails);
    let mut sink = MemorySink::new(alloc, 5, write_fails);
    let status = serve_gate(alloc, &all, &mut source, &mut sink);
    (status, sink.bytes)
}

#[test]
fn comments_blanks_and_carriage_returns_are_read(rt: HostRuntime) {
    let rt = &rt;
    let rules = b"# two families\r\n\r\n  deny\t 2001:DB8::/32\r\n".as_slice();
    let (status, out) = serve(rt, rules, "2001:db8:: ::1", &[], &[]);
    same(rt, status, Status(0));
    let answer = b"2001:db8:: no\n::1 yes\nstatus checked\n".as_slice();
    same(rt, out.as_slice(), answer);
}

#[test]
fn a_line_that_is_not_text_is_refused(rt: HostRuntime) {
    let rt = &rt;
    let (status, out) = serve(rt, b"nothing\n\xff\n", "::1", &[], &[]);
    same(rt, status, Status(3));
    same(rt, out.as_slice(), b"status line 2\n".as_slice());
}

#[test]
fn faults_have_their_statuses(rt: HostRuntime) {
    let rt = &rt;
    let (status, out) = serve(rt, b"deny ::/0", "::1", &[1], &[]);
    same(rt, status, Status(5));
    same(rt, out.as_slice(), b"status read fault\n".as_slice());
    let (status, out) = serve(rt, b"deny ::/0", "::1", &[], &[1]);
    same(rt, status, Status(6));
    same(rt, out.as_slice(), b"::1 n".as_slice());
}

#[test]
fn one_rule_too_many_is_refused(rt: HostRuntime) {
    let rt = &rt;
    let mut text = String::new(rt.alloc());
    for _ in 0..4096 {
        text.push_str("deny ::1\n").expect(rt, "a text");
    }
    holds(rt, read_rules(rt.alloc(), text.as_str()).is_ok());
    let more = "\ndeny ::2\nnothing\n";
    text.push_str(more).expect(rt, "a text");
    let refused = read_rules(rt.alloc(), text.as_str()).err();
    same(rt, refused, Some(GateError::TooMany(4098)));
}

#[test]
fn errors_are_told(rt: HostRuntime) {
    let rt = &rt;
    for (error, text) in [
        (GateError::Line(3), "line 3 isn't one of rules"),
        (GateError::TooMany(4098), "line 4098 has one rule too many"),
        (GateError::NoMemory, "out of memory"),
    ] {
        prints(rt, error, text);
    }
}

/// What a filter says.
fn asks<F: ConnectionFilter>(filter: &mut F, peer: Option<&PeerAddr>) -> bool {
    filter.should_accept(peer)
}

#[test]
fn a_gate_is_a_filter_of_connections(rt: HostRuntime) {
    let rt = &rt;
    let rules = read_rules(rt.alloc(), "deny 0.0.0.0-0.0.0.9\ndeny 0.0.0.10\n");
    let gate = Gate::new(rt.alloc(), &rules.expect(rt, "rules"));
    let mut gate = gate.expect(rt, "a gate");
    same(rt, gate.ranges(), 3);
    holds(rt, asks(&mut gate, None));
    let denied = asks(&mut gate, Some(&PeerAddr::V4 { ip: 10, port: 1 }));
    holds(rt, !denied);
    let allowed = asks(&mut gate, Some(&PeerAddr::V4 { ip: 11, port: 1 }));
    holds(rt, allowed);
    let other = asks(
        &mut gate,
        Some(&PeerAddr::V6 {
            high: 0,
            low: 10,
            port: 1,
        }),
    );
    holds(rt, other);
}
