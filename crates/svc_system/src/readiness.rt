//! Which sockets are ready, as the system tells it.

use crate::tokens::Ready;
use mio::unix::SourceFd;
use mio::{Events, Interest, Poll, Token};
use std::alloc::Global;
use std::collections::VecDeque;
use std::io;
use std::net::Net;
use std::os::fd::RawFd;
use std::time::Duration;
use svc_base::NoMemory;

/// So many are told at one wait.
const MOST: usize = 256;

/// What is ready and hasn't had its turn. The system tells each once, until a call on the socket would
/// have waited: so one that is left with work goes to the end of the line.
#[derive(Drop)]
pub(crate) struct Readiness {
    poll: Poll,
    events: Events,
    line: VecDeque<usize>,
    /// So many have their turn before the system is asked again.
    batch: usize,
}

impl Readiness {
    /// Nothing is watched yet.
    pub(crate) fn open<R: Net>(rt: &R, alloc: Global) -> io::Result<Self> {
        let poll = Poll::new(rt)?;
        let events = Events::with_capacity(alloc, MOST)?;
        Ok(Readiness {
            poll,
            events,
            line: VecDeque::new(alloc),
            batch: 0,
        })
    }

    /// Watches a socket. Answers whether that could be had.
    pub(crate) fn watch(&self, fd: RawFd, ready: Ready) -> bool {
        let mut source = SourceFd(&fd);
        self.poll
            .registry()
            .register(
                &mut source,
                Token(ready.token()),
                Interest::READABLE | Interest::WRITABLE,
            )
            .is_ok()
    }

    /// Watches a socket no more.
    pub(crate) fn forget(&self, fd: RawFd) {
        let mut source = SourceFd(&fd);
        let _ = self.poll.registry().deregister(&mut source);
    }

    /// It has a turn once more, at the end of the line.
    pub(crate) fn again(&mut self, ready: Ready) -> Result<(), NoMemory> {
        match self.line.push_back(ready.token()) {
            Ok(()) => Ok(()),
            Err(_) => Err(NoMemory),
        }
    }

    /// Whose turn it is; none where the system is to be asked.
    pub(crate) fn next(&mut self) -> Option<Ready> {
        if self.batch == 0 {
            return None;
        }
        self.batch -= 1;
        match self.line.pop_front() {
            Some(token) => Some(Ready::of(token)),
            None => {
                self.batch = 0;
                None
            }
        }
    }

    /// Nobody is in the line.
    pub(crate) fn is_empty(&self) -> bool {
        self.line.is_empty()
    }

    /// What the last wait found is in the line, behind those who were there. False where there is no memory.
    fn line_up(&mut self) -> bool {
        for event in self.events.iter() {
            if self.line.push_back(event.token().0).is_err() {
                return false;
            }
        }
        self.batch = self.line.len();
        true
    }

    /// Asks the system, and waits so many milliseconds at most, where that is said, and not at all where
    /// somebody is in the line. False where the system can't be asked, or there is no memory.
    pub(crate) fn wait(&mut self, most: Option<u64>) -> bool {
        let most = if self.line.is_empty() { most } else { Some(0) };
        let time = most.map(|ms| Duration::from_millis(ms));
        if self.poll.poll(&mut self.events, time).is_err() {
            return false;
        }
        self.line_up()
    }
}
