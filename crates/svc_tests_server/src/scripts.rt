//! Refused scripts, by their line.

use crate::checking::{holds, prints, same};
use std::process::Abort;
use svc_text::{ScriptError, event_of_line, parse};

/// The first refused line of a text, if it isn't a script.
fn refused_line<R: AllocGlobal>(rt: &R, bytes: &[u8]) -> Option<usize> {
    match parse(rt.alloc(), bytes) {
        Err(ScriptError::Line(n)) => Some(n),
        _ => None,
    }
}

#[test]
fn parts_are_refused_at_their_line(rt: HostRuntime) {
    let rt = &rt;
    for (text, line) in [
        (b"".as_slice(), 1),
        (b"x\n%conf\n", 1),
        (b"%services\n%conf\n%events\n", 1),
        (b"%conf \n%services\n%events\n", 1),
        (b"%conf\n%conf\n%services\n%events\n", 2),
        (b"%conf\n# \xff\n%services\n%events\n", 2),
        (b"%conf\n%services\na plain\n", 4),
        (b"%conf\n%services\n%events\n%events\n", 4),
        (b"%conf\nversion: 1\nversion: 1\n%services\n%events\n", 3),
        (b"\n#\n%conf\n\nthreads: 03\n%services\nx\n%events\n", 5),
        (b"%conf\nclient_bind_to_ipv4:\n%services\n- a\n%events\n", 2),
        (b"%conf\nversion: 1\n\xff\nx\n", 3),
        (b"%conf\nversion: 1\r", 2),
        (b"%conf\nversion: 1\n%events\n", 3),
    ] {
        same(rt, refused_line(rt, text), Some(line));
    }
}

/// The text of a script of these service lines.
fn script_of<R: Abort + AllocGlobal>(rt: &R, lines: &[u8]) -> Vec<u8> {
    let mut text = b"%conf\n%services\n"
        .to_vec(rt.alloc())
        .expect(rt, "a text");
    assert!(rt; text.extend_from_slice(lines).is_ok());
    assert!(rt; text.extend_from_slice(b"\n%events\n").is_ok());
    text
}

/// The first refused line of the script of these service lines.
fn refused_of<R: Abort + AllocGlobal>(rt: &R, lines: &[u8]) -> Option<usize> {
    refused_line(rt, &script_of(rt, lines))
}

#[test]
fn service_lines_are_refused(rt: HostRuntime) {
    let rt = &rt;
    for (line, refused) in [
        (b"a".as_slice(), Some(3)),
        (b"a boot", Some(3)),
        (b"%a plain", Some(3)),
        (b"eager\n\teager ", Some(4)),
        (b"eager x", Some(3)),
        (b"eager plain", None),
        (b"a plain tcp", Some(3)),
        (b"a plain TCP x", Some(3)),
        (b"a plain after 01", Some(3)),
        (b"a plain after 0,", Some(3)),
        (b"a plain after 0 after 0", Some(3)),
        (b"a plain after 4294967296", Some(3)),
        (b"a bootstrap tcp x", Some(3)),
        (b"a bootstrap undeclared", Some(3)),
        (b"a plain undeclared undeclared", Some(3)),
        (b"a plain tcp x after 0 unix y", None),
        (b"a plain dscp 1 tcp x", Some(3)),
        (b"a plain unix x dscp 1", Some(3)),
        (b"a plain tcp x dscp 1 unix y sndbuf 1 dscp 1", Some(3)),
        (b"a plain tcp x dscp 256", Some(3)),
        (b"a plain tcp x keepalive 1,2,3", Some(3)),
        (b"a plain block 256.0.0.1", Some(3)),
        (b"a plain block 0:0:0:0:0:0:0:1", None),
    ] {
        same(rt, refused_of(rt, line), refused);
    }
}

/// The front, so many equal bytes, and the end.
fn long<R: Abort + AllocGlobal>(rt: &R, front: &[u8], count: usize, end: &[u8]) -> Vec<u8> {
    let mut line = front.to_vec(rt.alloc()).expect(rt, "a text");
    for _ in 0..count {
        assert!(rt; line.push(b'a').is_ok());
    }
    assert!(rt; line.extend_from_slice(end).is_ok());
    line
}

#[test]
fn names_and_addresses_have_limits(rt: HostRuntime) {
    let rt = &rt;
    for (front, most, end) in [
        (b"".as_slice(), 255, b" plain tcp a".as_slice()),
        (b"n plain tcp ", 4096, b""),
        (b"n plain claim ", 4096, b""),
        (b"n plain tcp x unix ", 4096, b""),
    ] {
        same(rt, refused_of(rt, &long(rt, front, most, end)), None);
        same(rt, refused_of(rt, &long(rt, front, most + 1, end)), Some(3));
    }
}

/// So many times the same part.
fn repeated<R: Abort + AllocGlobal>(rt: &R, part: &[u8], count: usize) -> Vec<u8> {
    let mut text = Vec::new(rt.alloc());
    for _ in 0..count {
        assert!(rt; text.extend_from_slice(part).is_ok());
    }
    text
}

#[test]
fn services_and_endpoints_have_limits(rt: HostRuntime) {
    let rt = &rt;
    let most = repeated(rt, b"s plain\n", 1024);
    same(rt, refused_of(rt, &most), None);
    let more = repeated(rt, b"s plain\n", 1025);
    same(rt, refused_of(rt, &more), Some(1027));
    for (count, refused) in [(64, None), (65, Some(3))] {
        let endpoints = repeated(rt, b" tcp x", count);
        let line = long(rt, b"a plain", 0, &endpoints);
        same(rt, refused_of(rt, &line), refused);
    }
}

#[test]
fn events_are_refused(rt: HostRuntime) {
    let rt = &rt;
    for line in [
        b"inuse 1".as_slice(),
        b"inuse 1 2 3",
        b"inuse 4294967296 0",
        b"bindfailed 0 01",
        b"adoptfailed +0 0",
        b"acceptfailed 0 0 4294967296",
        b"bound 0 0 18446744073709551616",
        b"moment",
        b"arrived 0 0 1",
        b"arrived 0 0 1 127.0.0.1",
        b"received -",
        b"received 0A -",
        b"received 0 -",
        b"received - 1,",
        b"set 1 yes",
        b"signal now",
        b"side both",
        b"nosender 1",
        b"judged 1 yes",
        b"fault",
    ] {
        let found = event_of_line(rt.alloc(), line).expect(rt, "an answer");
        holds(rt, found.is_none());
    }
}

#[test]
fn messages_have_at_most_32_descriptors(rt: HostRuntime) {
    let rt = &rt;
    for (count, is_event) in [(31, true), (32, false)] {
        let more = repeated(rt, b",1", count);
        let line = long(rt, b"received - 1", 0, &more);
        let found = event_of_line(rt.alloc(), &line).expect(rt, "an answer");
        same(rt, found.is_some(), is_event);
    }
}

#[test]
fn events_print_as_they_are_read(rt: HostRuntime) {
    let rt = &rt;
    for line in [
        "moment 18446744073709551615",
        "adopted 4294967295 0",
        "adoptfailed 3 4",
        "received 00ff7a 0,1,18446744073709551615",
        "connecting",
        "connectfailed",
        "arrived 0 0 1 [1:0:0:0:0:0:0:a0ff]:65535",
        "acceptfailed 1 0 4294967295",
        "loopended 0 0 3",
        "dropfailed",
    ] {
        let found = event_of_line(rt.alloc(), line.as_bytes()).expect(rt, "an answer");
        prints(rt, found.expect(rt, "an event"), line);
    }
}
