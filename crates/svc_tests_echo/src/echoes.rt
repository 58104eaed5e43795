//! What echoes, and the slot between two servers.

use crate::checking::{holds, same};
use svc_base::{MemorySink, MemorySource};
use svc_echo::{EchoEnd, Letter, Slot, echo};

#[test]
fn what_comes_is_written_back(rt: HostRuntime) {
    let alloc = rt.alloc();
    let bytes = vec![in alloc; 1u8, 2, 3, 4, 5].expect(&rt, "bytes");
    let mut source = MemorySource::new(bytes, 2, Vec::new(alloc));
    let mut sink = MemorySink::new(alloc, 1, Vec::new(alloc));
    same(&rt, echo(&mut source, &mut sink, 2), EchoEnd::TurnsSpent);
    holds(&rt, sink.bytes.as_slice() == [1u8, 2, 3, 4].as_slice());
    same(&rt, echo(&mut source, &mut sink, 2), EchoEnd::Done);
    holds(&rt, sink.bytes.as_slice() == [1u8, 2, 3, 4, 5].as_slice());
}

#[test]
fn a_letter_is_carried_once(rt: HostRuntime) {
    let alloc = rt.alloc();
    let mut slot = Slot::Missing;
    holds(&rt, !slot.connect());
    holds(&rt, slot.open());
    holds(&rt, slot.connect());
    let letter = Letter {
        bytes: vec![in alloc; 97u8].expect(&rt, "bytes"),
        handed: vec![in alloc; 7u64].expect(&rt, "numbers"),
    };
    holds(&rt, slot.send(letter).is_ok());
    let letter = slot.receive().expect(&rt, "the letter is on its way");
    holds(&rt, letter.handed.as_slice() == [7u64].as_slice());
    holds(&rt, slot.receive().is_none());
}
