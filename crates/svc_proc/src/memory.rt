//! Processes in memory.

ghost use Rattle.std.specs.Prelude.{◌≡◌, ◌<◌, [], ◌∷◌, length, Some, IfOk, IfSome};
ghost use Rattle.svc_base.specs.Calls.{told_of, room_of, Adds, Stays};

use crate::process::{ForkAnswer, Process, ProcessCall, SignalAnswer};
use std::alloc::Global;
use svc_base::{Calls, NoMemory, Text};

fn note_exists(alloc: Global, calls: &mut Calls<ProcessCall>, path: &str, there: bool)
    ensures call { Adds (told_of calls.old) (told_of calls.new) (ProcessCall.Exists path.now there ∷ []) }
    ensures stays { Stays (told_of calls.old) (told_of calls.new) (room_of calls.old) (room_of calls.new) }
{
    match Text::new(alloc, path) {
        Ok(path) => calls.note(ProcessCall::Exists(path, there)),
        Err(_) => calls.lose(),
    }
}

fn note_rename(alloc: Global, calls: &mut Calls<ProcessCall>, from: &str, to: &str, renamed: bool)
    ensures call { Adds (told_of calls.old) (told_of calls.new) (ProcessCall.Rename from.now to.now renamed ∷ []) }
    ensures stays { Stays (told_of calls.old) (told_of calls.new) (room_of calls.old) (room_of calls.new) }
{
    match (Text::new(alloc, from), Text::new(alloc, to)) {
        (Ok(from), Ok(to)) => calls.note(ProcessCall::Rename(from, to, renamed)),
        _ => calls.lose(),
    }
}

fn place_of(files: &[Text], path: &str) -> Option<usize>
    ensures { IfSome result (λ at. at < length files.now) }
{
    files.iter().position(|file| file.as_str() == path)
}

/// Gives a file another name, where it is there and there is memory for the name.
fn rename_in(alloc: Global, files: &mut Vec<Text>, from: &str, to: &str) -> bool {
    let Some(at) = place_of(files, from) else {
        return false;
    };
    match Text::new(alloc, to) {
        Ok(name) => {
            files[at] = name;
            true
        }
        Err(_) => false,
    }
}

/// A process in memory. Time passes by its rests alone.
#[derive(Drop)]
pub struct MemoryProcess {
    pub alloc: Global,
    pub calls: Calls<ProcessCall>,
    /// The files that are there.
    pub files: Vec<Text>,
    /// A fork makes it the child, which has this number. Where it has none it is the parent.
    pub child: Option<u32>,
    /// What the next signals are answered, the first one first. Later ones are sent.
    pub answers: Vec<SignalAnswer>,
    /// The numbers, from 0, of the calls that fail where they can: a fork, and a renaming.
    pub failing: Vec<u64>,
    pub asked: u64,
    pub clock: u64,
    pub number: u32,
    pub count: u64,
}

impl MemoryProcess {
    /// A process of this number without files, at the moment 0, that forks as the parent. It tells so
    /// many calls; `NoMemory` where there is none for them.
    pub fn new(alloc: Global, room: u64, number: u32, failing: Vec<u64>) -> Result<Self, NoMemory>
        ensures calls { IfOk result (λ process. told_of process.calls ≡ Some []) }
        ensures room { IfOk result (λ process. room_of process.calls ≡ room) }
        ensures number { IfOk result (λ process. process.number ≡ number) }
        ensures start { IfOk result (λ process. process.clock ≡ 0) }
        ensures count { IfOk result (λ process. process.count ≡ 0) }
    {
        Ok(MemoryProcess {
            alloc,
            calls: Calls::new(alloc, room)?,
            files: Vec::new(alloc),
            child: None,
            answers: Vec::new(alloc),
            failing,
            asked: 0,
            clock: 0,
            number,
            count: 0,
        })
    }

    /// Counts a call, and answers whether it is to fail.
    fn fails(&mut self) -> bool
        ensures { self.new ≡ record self.old { asked = self.new.asked } }
    {
        let call = self.asked;
        self.asked = self.asked.saturating_add(1);
        self.failing.contains(&call)
    }

    fn next_answer(&mut self) -> SignalAnswer
        ensures { self.new ≡ record self.old { answers = self.new.answers } }
    {
        if self.answers.is_empty() {
            SignalAnswer::Sent
        } else {
            self.answers.remove(0)
        }
    }
}

impl Process for MemoryProcess {
    ghost seen = { λ p. record { called = told_of p.calls; room = room_of p.calls; moment = p.clock; number = p.number; faults = p.count } };

    fn faults(&self) -> u64 {
        self.count
    }

    fn exists(&mut self, path: &str) -> bool {
        let _ = self.fails();
        let there = place_of(&self.files, path).is_some();
        note_exists(self.alloc, &mut self.calls, path, there);
        there
    }

    fn rename(&mut self, from: &str, to: &str) -> bool {
        let fails = self.fails();
        let renamed = !fails && rename_in(self.alloc, &mut self.files, from, to);
        note_rename(self.alloc, &mut self.calls, from, to, renamed);
        renamed
    }

    fn fork(&mut self) -> ForkAnswer {
        let answer = if self.fails() {
            self.count = self.count.saturating_add(1);
            ForkAnswer::Failed
        } else if let Some(number) = self.child {
            self.number = number;
            ForkAnswer::Child
        } else {
            ForkAnswer::Parent
        };
        self.calls.note(ProcessCall::Fork(answer));
        answer
    }

    fn notify(&mut self, pid: u32) -> SignalAnswer {
        let _ = self.fails();
        let answer = self.next_answer();
        self.calls.note(ProcessCall::Notify(pid, answer));
        answer
    }

    fn rest(&mut self, ms: u64) {
        let _ = self.fails();
        self.clock = self.clock.saturating_add(ms);
        self.calls.note(ProcessCall::Rest(ms));
    }

    fn now(&self) -> u64 {
        self.clock
    }

    fn pid(&self) -> u32 {
        self.number
    }
}

/// A process in memory that never fails. It has no file, renames and sends whatever it is asked to,
/// and time passes by its rests alone.
#[derive(Drop)]
pub struct SteadyProcess {
    pub alloc: Global,
    pub calls: Calls<ProcessCall>,
    /// A fork makes it the child, which has this number. Where it has none it is the parent.
    pub child: Option<u32>,
    pub clock: u64,
    pub number: u32,
}

impl SteadyProcess {
    /// A process of this number at the moment 0 that forks as the parent. It tells so many calls;
    /// `NoMemory` where there is none for them.
    pub fn new(alloc: Global, room: u64, number: u32) -> Result<Self, NoMemory>
        ensures calls { IfOk result (λ process. told_of process.calls ≡ Some []) }
        ensures room { IfOk result (λ process. room_of process.calls ≡ room) }
        ensures number { IfOk result (λ process. process.number ≡ number) }
        ensures start { IfOk result (λ process. process.clock ≡ 0) }
    {
        Ok(SteadyProcess {
            alloc,
            calls: Calls::new(alloc, room)?,
            child: None,
            clock: 0,
            number,
        })
    }
}

impl Process for SteadyProcess {
    ghost seen = { λ p. record { called = told_of p.calls; room = room_of p.calls; moment = p.clock; number = p.number; faults = 0 } };

    fn faults(&self) -> u64 {
        0
    }

    fn exists(&mut self, path: &str) -> bool {
        note_exists(self.alloc, &mut self.calls, path, false);
        false
    }

    fn rename(&mut self, from: &str, to: &str) -> bool {
        note_rename(self.alloc, &mut self.calls, from, to, true);
        true
    }

    fn fork(&mut self) -> ForkAnswer {
        let answer = match self.child {
            Some(number) => {
                self.number = number;
                ForkAnswer::Child
            }
            None => ForkAnswer::Parent,
        };
        self.calls.note(ProcessCall::Fork(answer));
        answer
    }

    fn notify(&mut self, pid: u32) -> SignalAnswer {
        self.calls
            .note(ProcessCall::Notify(pid, SignalAnswer::Sent));
        SignalAnswer::Sent
    }

    fn rest(&mut self, ms: u64) {
        self.clock = self.clock.saturating_add(ms);
        self.calls.note(ProcessCall::Rest(ms));
    }

    fn now(&self) -> u64 {
        self.clock
    }

    fn pid(&self) -> u32 {
        self.number
    }
}
