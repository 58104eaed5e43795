//! Bytes that go from a source to a sink, either of which may have to be waited for.

ghost use Rattle.std.specs.Prelude.{◌≡◌, ◌<◌, ◌≤◌, [], true, false, length, drop, max, vec_len};

use std::alloc::Global;
use svc_base::{Put, Sink, Source, Taken};

/// What became of bytes that were to go on.
#[derive(Clone, Copy, Debug, PartialEq, Eq)]
pub enum Conveyed {
    /// Some went on, and there may be more.
    More,
    /// The source gave nothing, for now or for ever.
    ReadFault,
    /// The sink took nothing, for now or for ever. What came waits.
    WriteFault,
    /// The source has ended, and all that came went on. The sink is to be told now: this is answered once.
    End,
    /// Nothing goes on any more: the end was answered, or memory was refused before.
    Over,
    /// Memory was refused for what the sink didn't take, so bytes are lost.
    NoMemory,
}

/// What came of a source and waits for its sink: nothing mostly, which takes no memory.
#[derive(Drop)]
pub struct Conveyance {
    bytes: Vec<u8>,
    from: usize,
    is_over: bool,
    ghost in_range: { from ≤ vec_len bytes },
}

impl Conveyance {
    ghost use Rattle.svc_work.specs.Conveying.{waiting, is_last, is_repeated, Conveys, Flushes, Keeps};

    /// Nothing came yet.
    pub fn new(alloc: Global) -> Self
        ensures waiting { waiting result ≡ [] }
        ensures goes_on { result.is_over ≡ false }
    {
        Conveyance {
            bytes: Vec::new(alloc),
            from: 0,
            is_over: false,
        }
    }

    /// Nothing waits any more.
    fn empty(&mut self, alloc: Global)
        ensures waiting { waiting self.new ≡ [] }
        ensures over { self.new.is_over ≡ self.old.is_over }
    {
        self.bytes = Vec::new(alloc);
        self.from = 0;
    }

    /// So many of the bytes that wait went on.
    fn skip(&mut self, alloc: Global, count: usize)
        requires { count ≤ length (waiting self.old) }
        ensures waiting { waiting self.new ≡ drop count (waiting self.old) }
        ensures over { self.new.is_over ≡ self.old.is_over }
    {
        if count >= self.bytes.len() - self.from {
            self.empty(alloc);
        } else {
            self.from += count;
        }
    }

    /// Gives the sink what waits, in one call.
    fn flush<K: Sink>(&mut self, alloc: Global, to: &mut K) -> Conveyed
        requires { 0 < length (waiting self.old) }
        ensures flushes { Flushes (K.written to.old) (K.written to.new) (waiting self.old) (waiting self.new) result }
        ensures over { self.new.is_over ≡ self.old.is_over }
        ensures last { is_last result ≡ false }
    {
        match to.write(&self.bytes[self.from..]) {
            Put::Wrote(count) => {
                self.skip(alloc, count);
                Conveyed::More
            }
            Put::Failed => Conveyed::WriteFault,
        }
    }

    /// Keeps bytes, where none wait. Where there is no memory for them, nothing goes on any more.
    fn keep(&mut self, alloc: Global, rest: &[u8], kept: Conveyed) -> Conveyed
        requires over { self.old.is_over ≡ false }
        requires kept { is_last kept ≡ false }
        ensures keeps { Keeps (waiting self.new) rest.now kept result }
        ensures over { self.new.is_over ≡ is_last result }
    {
        self.from = 0;
        self.bytes.clear();
        if self.bytes.extend_from_slice(rest).is_ok() {
            return kept;
        }
        self.empty(alloc);
        self.is_over = true;
        Conveyed::NoMemory
    }

    /// Gives the sink a piece that came, where none waits. What it doesn't take waits.
    fn put<K: Sink>(&mut self, alloc: Global, to: &mut K, piece: &[u8]) -> Conveyed
        requires some { 0 < length piece.now }
        requires none { waiting self.old ≡ [] }
        requires over { self.old.is_over ≡ false }
        ensures flushes { Flushes (K.written to.old) (K.written to.new) piece.now (waiting self.new) result }
        ensures over { self.new.is_over ≡ is_last result }
    {
        match to.write(piece) {
            Put::Wrote(count) if count >= piece.len() => Conveyed::More,
            Put::Wrote(count) => self.keep(alloc, &piece[count..], Conveyed::More),
            Put::Failed => self.keep(alloc, piece, Conveyed::WriteFault),
        }
    }

    /// One call of the sink, where something waits; else one of the source, and one of the sink for what came.
    fn step<T: Source, K: Sink>(
        &mut self,
        alloc: Global,
        from: &mut T,
        to: &mut K,
        room: &mut [u8],
    ) -> Conveyed
        requires some { 0 < length room.old }
        requires over { self.old.is_over ≡ false }
        ensures conveys { Conveys (T.left from.old) (T.left from.new) (K.written to.old) (K.written to.new) (waiting self.old) (waiting self.new) result }
        ensures bounded { length (waiting self.new) ≤ max (length (waiting self.old)) (length room.old) }
        ensures over { self.new.is_over ≡ is_last result }
        ensures fresh { is_repeated result ≡ false }
    {
        if self.from < self.bytes.len() {
            return self.flush(alloc, to);
        }
        match from.read(room) {
            Taken::Got(count) => self.put(alloc, to, &room[..count]),
            Taken::End => {
                self.is_over = true;
                Conveyed::End
            }
            Taken::Failed => Conveyed::ReadFault,
        }
    }

    /// Bytes go on, in at most so many steps. What goes on is a front of what waited and came, in its order,
    /// and nothing else; the rest waits, and is no more than waited before or than the room takes.
    pub fn convey<T: Source, K: Sink>(
        &mut self,
        alloc: Global,
        from: &mut T,
        to: &mut K,
        room: &mut [u8],
        steps: u32,
    ) -> Conveyed
        requires { 0 < length room.old }
        ensures conveys { Conveys (T.left from.old) (T.left from.new) (K.written to.old) (K.written to.new) (waiting self.old) (waiting self.new) result }
        ensures bounded { length (waiting self.new) ≤ max (length (waiting self.old)) (length room.old) }
        ensures over { self.new.is_over ≡ is_last result }
        ensures once { is_repeated result ≡ self.old.is_over }
    {
        if self.is_over {
            return Conveyed::Over;
        }
        for _step in 0..steps {
            match self.step(alloc, from, to, room) {
                Conveyed::More => {}
                other => return other,
            }
        }
        Conveyed::More
    }
}
