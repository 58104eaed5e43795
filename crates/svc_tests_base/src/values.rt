//! Sources, sinks, lists, texts, and what an object in memory was asked.

use crate::checking::{holds, prints, same};
use std::cmp::Ordering;
use std::process::Abort;
use svc_base::{
    Calls, MemorySink, MemorySource, NoMemory, Numbers, ReadAllError, Reading, Reserved, Sink,
    Source, SteadySink, SteadySource, Text, WriteFault, Writing, read_all, write_all,
};

/// A source gives these bytes, and has counted no fault.
fn gives<R: Abort + AllocGlobal, S: Source + Drop>(rt: &R, mut source: S, wanted: &[u8]) {
    let bytes = read_all(rt.alloc(), &mut source).expect(rt, "no fault");
    assert_eq!(rt; bytes.as_slice(), wanted);
    assert_eq!(rt; source.faults(), 0);
}

#[test]
fn sources_are_read_to_the_end(rt: HostRuntime) {
    let rt = &rt;
    let bytes = b"hello world".to_vec(rt.alloc()).expect(rt, "bytes");
    let none = Vec::new(rt.alloc());
    gives(rt, MemorySource::new(bytes, 4, none), b"hello world");
    let bytes = b"steady".to_vec(rt.alloc()).expect(rt, "bytes");
    gives(rt, SteadySource::new(bytes), b"steady");
    gives(rt, Reading::new(b"a slice".as_slice()), b"a slice");
}

#[test]
fn faults_are_counted(rt: HostRuntime) {
    let rt = &rt;
    let bytes = b"hello world".to_vec(rt.alloc()).expect(rt, "bytes");
    let failing = [1u64].to_vec(rt.alloc()).expect(rt, "numbers");
    let mut source = MemorySource::new(bytes, 4, failing);
    let refused = read_all(rt.alloc(), &mut source).err();
    same(rt, refused, Some(ReadAllError::Fault));
    same(rt, source.faults(), 1);
    let failing = [1u64].to_vec(rt.alloc()).expect(rt, "numbers");
    let mut sink = MemorySink::new(rt.alloc(), 4, failing);
    same(rt, write_all(&mut sink, b"hello world"), Err(WriteFault));
    same(rt, sink.bytes.as_slice(), b"hell".as_slice());
    same(rt, sink.faults(), 1);
}

#[test]
fn sinks_take_all(rt: HostRuntime) {
    let rt = &rt;
    let mut sink = SteadySink::new(rt.alloc());
    same(rt, write_all(&mut sink, b"hello world"), Ok(()));
    same(rt, sink.bytes.as_slice(), b"hello world".as_slice());
    same(rt, sink.faults(), 0);
    let mut sink = Writing::new(Vec::new(rt.alloc()));
    same(rt, write_all(&mut sink, b"hello world"), Ok(()));
    same(rt, sink.inner.as_slice(), b"hello world".as_slice());
    same(rt, sink.faults(), 0);
}

#[test]
fn lists_take_and_give_in_order(rt: HostRuntime) {
    let rt = &rt;
    let mut numbers = Numbers::new(rt.alloc());
    same(rt, numbers.reserve(rt.alloc(), 2), Ok(()));
    for number in [7u32, 9] {
        holds(rt, numbers.push(rt.alloc(), number).is_ok());
    }
    same(rt, numbers.as_slice(), [7u32, 9].as_slice());
    same(rt, numbers.pop_first(), Some(7));
    same(rt, numbers.len(), 1);
    let mut bytes: Reserved<u8> = Reserved::new(rt.alloc());
    bytes.reserve(rt.alloc(), 1).expect(rt, "memory");
    bytes.put(3);
    holds(rt, bytes.push(rt.alloc(), 4).is_ok());
    same(rt, bytes.as_slice(), [3u8, 4].as_slice());
    same(rt, bytes.pop_first(), Some(3));
    same(rt, bytes.len(), 1);
    let mut plain = bytes.into_items();
    same(rt, plain.as_slice(), [4u8].as_slice());
    holds(rt, plain.push(rt.alloc(), 5).is_ok());
    same(rt, plain.into_reserved().as_slice(), [4u8, 5].as_slice());
}

#[test]
fn texts_compare_by_bytes(rt: HostRuntime) {
    let rt = &rt;
    for (a, b, order) in [
        ("a", "ab", Ordering::Less),
        ("b", "ab", Ordering::Greater),
        ("é", "z", Ordering::Greater),
    ] {
        let a = Text::new(rt.alloc(), a).expect(rt, "a text");
        let b = Text::new(rt.alloc(), b).expect(rt, "a text");
        same(rt, a.cmp(&b), order);
        let copy = a.copy(rt.alloc()).expect(rt, "a text");
        holds(rt, copy == a);
    }
}

#[test]
fn a_text_may_be_long(rt: HostRuntime) {
    let rt = &rt;
    let bytes = vec![in rt.alloc(); b'a'; 65_536].expect(rt, "bytes");
    let long = str::from_utf8(&bytes).ok().expect(rt, "a text");
    let text = Text::new(rt.alloc(), long).expect(rt, "a text");
    holds(rt, text.as_str() == long);
    let copy = text.copy(rt.alloc()).expect(rt, "a text");
    holds(rt, copy == text);
}

#[test]
fn calls_are_told_while_there_is_room(rt: HostRuntime) {
    let rt = &rt;
    let mut calls = Calls::new(rt.alloc(), 2).expect(rt, "calls");
    calls.note(7u8);
    calls.note(9);
    same(rt, calls.told(), Some([7u8, 9].as_slice()));
    calls.note(11);
    same(rt, calls.told(), None);
    let mut calls: Calls<u8> = Calls::new(rt.alloc(), 2).expect(rt, "calls");
    calls.lose();
    same(rt, calls.told(), None);
}

#[test]
fn errors_have_texts(rt: HostRuntime) {
    let rt = &rt;
    prints(rt, NoMemory, "out of memory");
    prints(rt, WriteFault, "the sink failed");
    prints(rt, ReadAllError::Fault, "the source failed");
    prints(rt, ReadAllError::TooLong, "over 16777216 bytes");
    prints(rt, ReadAllError::NoMemory, "out of memory");
}
