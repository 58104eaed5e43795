//! Bytes that come back.

ghost use Rattle.std.specs.Prelude.{◌≡◌, ℕ, ◌+◌, ◌<◌, ◌≤◌, length, take, OnOk, OnErr};
ghost use Rattle.std.specs.Io.KnownBytes.{Appends};
ghost use Rattle.svc_base.specs.Streams.{Rose};
ghost use Rattle.svc_sockets.specs.Echoing.{IsEchoed};

use svc_base::{Put, Sink, Source, Taken, WriteFault};

/// The most bytes of a piece that is read at once.
pub const PIECE: usize = 4096;

/// Why an echo ended.
#[derive(Clone, Copy, Debug, PartialEq, Eq)]
pub enum EchoEnd {
    /// The source ended, and all that came was written.
    Done,
    /// The source failed. All that came before was written.
    ReadFault,
    /// The sink failed. It has a front of what came.
    WriteFault,
    /// So many pieces were read, and all of them written.
    TurnsSpent,
}

/// Writes a whole piece, or a front of it where the sink failed.
fn put_piece<K: Sink>(sink: &mut K, piece: &[u8]) -> Result<(), WriteFault>
    ensures whole { OnOk result (Appends (K.written sink.old) (K.written sink.new) piece.now) }
    ensures steady { OnOk result (K.faulted sink.new ≡ K.faulted sink.old) }
    ensures front { OnErr result ((n : ℕ) × (n ≤ length piece.now) × Appends (K.written sink.old) (K.written sink.new) (take n piece.now)) }
    ensures fault { OnErr result (Rose (K.faulted sink.old) (K.faulted sink.new)) }
{
    let mut at = 0;
    while at < piece.len() {
        match sink.write(&piece[at..]) {
            Put::Wrote(count) => at += count,
            Put::Failed => return Err(WriteFault),
        }
    }
    Ok(())
}

/// Writes back what comes, piece after piece, for at most so many pieces. Nothing is written but what
/// was read, in its order.
pub fn echo<T: Source, K: Sink>(from: &mut T, to: &mut K, turns: u64) -> EchoEnd
    ensures { IsEchoed (T.left from.old) (T.left from.new) (K.written to.old) (K.written to.new)
        (T.faulted from.old) (T.faulted from.new) (K.faulted to.old) (K.faulted to.new) turns result }
{
    let mut piece = [0u8; PIECE];
    for _turn in 0..turns {
        match from.read(&mut piece) {
            Taken::Got(count) => match put_piece(to, &piece[..count]) {
                Ok(()) => {}
                Err(WriteFault) => return EchoEnd::WriteFault,
            },
            Taken::End => return EchoEnd::Done,
            Taken::Failed => return EchoEnd::ReadFault,
        }
    }
    EchoEnd::TurnsSpent
}
