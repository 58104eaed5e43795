//! How a server is, in a line.

use crate::endpoints::{Service, Stage};
use std::alloc::Global;
use std::fmt::Write;
use svc_base::NoMemory;
use svc_record::ExecutionPhase;

/// How many services are how far.
#[derive(Clone, Copy)]
struct Counts {
    serving: u64,
    starting: u64,
    waiting: u64,
    failed: u64,
}

/// What became of a server's record.
#[derive(Clone, Copy, PartialEq, Eq, Debug)]
pub enum LogState {
    /// It isn't written.
    Absent,
    /// It is written so far.
    Whole,
    /// It couldn't be written any more from some line on.
    Cut,
}

impl LogState {
    /// Its word.
    fn word(self) -> &'static str {
        match self {
            LogState::Absent => "none",
            LogState::Whole => "whole",
            LogState::Cut => "cut",
        }
    }
}

/// What is counted of a server's sockets.
#[derive(Clone, Copy)]
pub(crate) struct SocketCounts {
    pub listeners: usize,
    pub connections: usize,
    /// So many connections could not go on to where their service forwards.
    pub failed_connects: u64,
}

/// How a server is.
#[derive(Clone, Copy)]
pub(crate) struct Report {
    phase: ExecutionPhase,
    services: Counts,
    sockets: SocketCounts,
    log: LogState,
}

/// How many services are how far.
fn counts_of(services: &[Service]) -> Counts {
    let mut counts = Counts {
        serving: 0,
        starting: 0,
        waiting: 0,
        failed: 0,
    };
    for service in services {
        let count = match service.stage {
            Stage::Started if service.serves() => &mut counts.serving,
            Stage::Started => &mut counts.starting,
            Stage::Waiting => &mut counts.waiting,
            Stage::Failed => &mut counts.failed,
        };
        *count = count.saturating_add(1);
    }
    counts
}

impl Report {
    /// How a server is with these services, sockets and log.
    pub(crate) fn new(
        phase: ExecutionPhase,
        services: &[Service],
        sockets: SocketCounts,
        log: LogState,
    ) -> Self {
        Report {
            phase,
            services: counts_of(services),
            sockets,
            log,
        }
    }

    /// The line.
    pub(crate) fn line(&self, alloc: Global) -> Result<String, NoMemory> {
        let mut text = String::new(alloc);
        let phase = self.phase.word();
        let Counts {
            serving,
            starting,
            waiting,
            failed,
        } = self.services;
        let SocketCounts {
            listeners,
            connections,
            failed_connects,
        } = self.sockets;
        let log = self.log.word();
        write!(
            text,
            "ok phase {phase}; services serving {serving}, starting {starting}, "
        )?;
        write!(text, "waiting {waiting}, failed {failed}; ")?;
        write!(text, "listeners {listeners}; connections {connections}; ")?;
        writeln!(text, "failed connects {failed_connects}; log {log}")?;
        Ok(text)
    }
}
