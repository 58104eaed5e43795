//! A source that tells on standard error how much of it was read, where reading takes over a second.

ghost use Rattle.std.specs.Prelude.{◌≡◌};

use std::rt::Clock;
use std::time::Instant;
use svc_base::{Source, Taken};

/// A source that tells each second on standard error how many bytes were read.
#[derive(Drop)]
pub struct ProgressSource<'a, R: Clock + Eprint, S: Source> {
    rt: &'a R,
    /// The source.
    pub source: S,
    /// When reading began; None where nothing is to be told.
    begun: Option<Instant>,
    /// The seconds after which was told last.
    told: u64,
    /// The bytes that were read.
    read: u64,
}

impl<'a, R: Clock + Eprint, S: Source> ProgressSource<'a, R, S> {
    /// The source, of which nothing was read so far. It tells where it is asked to and there is a clock.
    pub fn new(rt: &'a R, source: S, tells: bool) -> Self
        ensures { result.source ≡ source }
    {
        let begun = if tells { Instant::now(rt).ok() } else { None };
        ProgressSource {
            rt,
            source,
            begun,
            told: 0,
            read: 0,
        }
    }

    /// Tells how many bytes were read, once in a second.
    fn tell(&mut self, count: usize)
        ensures { self.new.source ≡ self.old.source }
    {
        self.read = self.read.saturating_add(count as u64);
        let Some(begun) = self.begun else {
            return;
        };
        let Ok(passed) = begun.elapsed(self.rt) else {
            return;
        };
        if passed.as_secs() > self.told {
            self.told = passed.as_secs();
            let read = self.read;
            let _ = eprint!(self.rt; "\r{read} bytes read");
        }
    }

    /// Tells that all was read, where something was told before.
    fn tell_end(&mut self)
        ensures { self.new.source ≡ self.old.source }
    {
        if self.told > 0 {
            let read = self.read;
            let _ = eprintln!(self.rt; "\r{read} bytes read, running");
        }
    }
}

impl<'a, R: Clock + Eprint, S: Source> Source for ProgressSource<'a, R, S> {
    ghost left = { λ s. S.left s.source };

    ghost faulted = { λ s. S.faulted s.source };

    fn faults(&self) -> u64 {
        self.source.faults()
    }

    fn read(&mut self, buffer: &mut [u8]) -> Taken {
        let taken = self.source.read(buffer);
        match taken {
            Taken::Got(count) => self.tell(count),
            Taken::End | Taken::Failed => self.tell_end(),
        }
        taken
    }
}
