//! Files that are read whole.

ghost use Rattle.std.specs.Prelude.{◌≡◌, ◌∷◌, [], true, None, IfOk, OnOk, OnErr};
ghost use Rattle.svc_base.specs.Calls.{Adds};
ghost use Rattle.svc_base.specs.FileCalls.{FilesData, IsRead, told};

use crate::memory::NoMemory;
use crate::source::{ReadAllError, Reading, read_all};
use crate::text::Text;
use std::alloc::Global;
use std::io::Read;
use std::mem::drop;
use std::{fs, str};
use thiserror::Error;

/// Why a file isn't read.
#[derive(Clone, Copy, PartialEq, Eq, Debug, Error)]
pub enum FileError {
    /// It can't be read, isn't UTF-8 or has over 16,777,216 bytes.
    #[error("the file can't be read")]
    Failed,
    /// There was no memory.
    #[error("out of memory")]
    NoMemory,
}

impl From<NoMemory> for FileError {
    ghost use Rattle.std.specs.Prelude.{◌≡◌};
    ghost use Rattle.svc_base.specs.declared.files.FileError.TheVariants.{NoMemory};

    ghost from_gives = { λ _ e. e ≡ NoMemory };

    fn from(_: NoMemory) -> Self {
        FileError::NoMemory
    }
}

/// A call of `read`: its path, and what it answered.
#[derive(Drop)]
pub struct FileCall {
    pub path: Text,
    pub answer: Result<Text, FileError>,
}

/// Files by their paths.
pub trait Files {
    // What contracts see of them.
    ghost seen: { Self → FilesData };

    /// How often a read has failed. The count never falls; at its greatest value it stays.
    fn faults(&self) -> u64
        ensures { result ≡ (seen self.now).faults };

    /// The text of a file. What was told stays told, but where memory runs out.
    fn read(&mut self, alloc: Global, path: &str) -> Result<Text, FileError>
        ensures { IsRead (seen self.old) (seen self.new) path.now result };
}

/// A file in memory.
#[derive(Drop)]
pub struct MemoryFile {
    pub path: Text,
    pub text: Text,
}

fn find<'a>(files: &'a [MemoryFile], path: &str) -> Option<&'a MemoryFile> {
    files.iter().find(|file| file.path.as_str() == path)
}

/// The text of a file in memory. One that isn't there can't be read.
fn text_at(alloc: Global, files: &[MemoryFile], path: &str) -> Result<Text, FileError> {
    match find(files, path) {
        Some(file) => Ok(file.text.copy(alloc)?),
        None => Err(FileError::Failed),
    }
}

/// A copy of an answer.
fn same_answer(
    alloc: Global,
    answer: &Result<Text, FileError>,
) -> Result<Result<Text, FileError>, NoMemory>
    ensures { IfOk result (λ copy. copy ≡ answer.now) }
{
    match answer {
        Ok(text) => Ok(Ok(text.copy(alloc)?)),
        Err(error) => Ok(Err(*error)),
    }
}

fn new_call(
    alloc: Global,
    path: &str,
    answer: &Result<Text, FileError>,
) -> Result<FileCall, NoMemory>
    ensures { IfOk result (λ call. call ≡ record { path = path.now; answer = answer.now }) }
{
    Ok(FileCall {
        path: Text::new(alloc, path)?,
        answer: same_answer(alloc, answer)?,
    })
}

/// Files in memory. The calls whose numbers, from 0, are listed fail, and so does a path that isn't
/// there. They tell their calls until they find no memory for one, which is answered as `NoMemory`.
#[derive(Drop)]
pub struct MemoryFiles {
    pub files: Vec<MemoryFile>,
    pub failing: Vec<u64>,
    pub calls: Vec<FileCall>,
    pub whole: bool,
    pub asked: u64,
    pub count: u64,
}

impl MemoryFiles {
    /// These files, of which the calls with these numbers fail.
    pub fn new(alloc: Global, files: Vec<MemoryFile>, failing: Vec<u64>) -> Self
        ensures calls { result.calls.items ≡ [] }
        ensures whole { result.whole ≡ true }
        ensures count { result.count ≡ 0 }
    {
        MemoryFiles {
            files,
            failing,
            calls: Vec::new(alloc),
            whole: true,
            asked: 0,
            count: 0,
        }
    }

    fn fails(&mut self) -> bool
        ensures { self.new ≡ record self.old { asked = self.new.asked } }
    {
        let call = self.asked;
        self.asked = self.asked.saturating_add(1);
        self.failing.contains(&call)
    }

    /// Notes a call. Where there is no memory for it no call is told any more.
    fn note(
        &mut self,
        alloc: Global,
        path: &str,
        answer: &Result<Text, FileError>,
    ) -> Result<(), NoMemory>
        ensures called { Adds (told self.old.whole self.old.calls.items) (told self.new.whole self.new.calls.items)
            (record { path = path.now; answer = answer.now } ∷ []) }
        ensures stays { OnOk result (self.new.whole ≡ self.old.whole) }
        ensures lost { OnErr result (told self.new.whole self.new.calls.items ≡ None) }
        ensures count { self.new.count ≡ self.old.count }
    {
        let noted = match new_call(alloc, path, answer) {
            Ok(call) => self.calls.push(call).map_err(NoMemory::from),
            Err(error) => Err(error),
        };
        if noted.is_err() {
            self.whole = false;
        }
        noted
    }

    fn answer(&mut self, alloc: Global, path: &str) -> Result<Text, FileError>
        ensures { self.new ≡ record self.old { asked = self.new.asked } }
    {
        if self.fails() {
            return Err(FileError::Failed);
        }
        text_at(alloc, self.files.as_slice(), path)
    }
}

impl Files for MemoryFiles {
    ghost seen = { λ f. record { called = told f.whole f.calls.items; faults = f.count } };

    fn faults(&self) -> u64 {
        self.count
    }

    fn read(&mut self, alloc: Global, path: &str) -> Result<Text, FileError> {
        let answer = self.answer(alloc, path);
        if self.note(alloc, path, &answer).is_err() {
            return Err(FileError::NoMemory);
        }
        if let Err(FileError::Failed) = answer {
            self.count = self.count.saturating_add(1);
        }
        answer
    }
}

/// Files that never fail: one text stands at every path. They tell no calls.
#[derive(Drop)]
pub struct SteadyFiles {
    pub text: Text,
}

impl Files for SteadyFiles {
    ghost seen = { λ _. record { called = None; faults = 0 } };

    fn faults(&self) -> u64 {
        0
    }

    fn read(&mut self, alloc: Global, _path: &str) -> Result<Text, FileError> {
        Ok(self.text.copy(alloc)?)
    }
}

/// The files of the system. They tell no calls.
#[derive(Drop)]
pub struct SystemFiles<'a, R: fs::Files> {
    pub system: &'a R,
    pub count: u64,
}

impl<'a, R: fs::Files> SystemFiles<'a, R> {
    /// The files of `system`, none read yet.
    pub fn new(system: &'a R) -> Self
        ensures { result.count ≡ 0 }
    {
        SystemFiles { system, count: 0 }
    }
}

/// The bytes as a text, where they are one.
fn text_in(alloc: Global, bytes: &[u8]) -> Result<Text, FileError> {
    match str::from_utf8(bytes) {
        Ok(text) => Ok(Text::new(alloc, text)?),
        Err(_) => Err(FileError::Failed),
    }
}

/// The text of a reader.
fn read_text<R: Read + Drop>(alloc: Global, reader: R) -> Result<Text, FileError> {
    let mut source = Reading::new(reader);
    let read = read_all(alloc, &mut source);
    drop(source);
    match read {
        Ok(bytes) => text_in(alloc, &bytes),
        Err(ReadAllError::NoMemory) => Err(FileError::NoMemory),
        Err(ReadAllError::Fault | ReadAllError::TooLong) => Err(FileError::Failed),
    }
}

fn read_system<R: fs::Files>(alloc: Global, system: &R, path: &str) -> Result<Text, FileError> {
    match fs::open(system, path) {
        Ok(file) => read_text(alloc, file),
        Err(_) => Err(FileError::Failed),
    }
}

impl<R: fs::Files> Files for SystemFiles<'_, R> {
    ghost seen = { λ f. record { called = None; faults = f.count } };

    fn faults(&self) -> u64 {
        self.count
    }

    fn read(&mut self, alloc: Global, path: &str) -> Result<Text, FileError> {
        let answer = read_system(alloc, self.system, path);
        if let Err(FileError::Failed) = answer {
            self.count = self.count.saturating_add(1);
        }
        answer
    }
}
