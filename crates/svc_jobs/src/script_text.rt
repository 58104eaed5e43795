//! The script that a text of jobs is read as.

ghost use Rattle.std.specs.Prelude.{◌≡◌, ◌++◌, ◌∷◌, [], OnOk, IfOk, ◌+◌, ◌<◌, ◌^◌};
ghost use Rattle.std.specs.Str.Lines.{lines};
ghost use Rattle.svc_text.specs.Script.{is_header};
ghost use Rattle.svc_main.specs.TextLines.{part_with};
ghost use Rattle.svc_jobs.specs.JobTexts.{script_line, script_lines, said_period, periods_from};

use crate::job_line::job_of_line;
use crate::script_line::script_line;
use std::alloc::Global;
use svc_base::{NoMemory, split_line};
use svc_main::{is_header, is_skipped};

/// The script that the lines so far are read as.
#[derive(Drop)]
pub(crate) struct ScriptText {
    pub text: Vec<u8>,
    /// How many parts have begun.
    pub part: usize,
    /// The jobs' periods, in milliseconds.
    pub periods: Vec<u64>,
}

impl ScriptText {
    /// Appends the period that a line says, which begins a part or not.
    #[tactic(auto, unfolding(crate::specs::JobTexts::said_period))]
    fn add_period(&mut self, begins: bool, line: &[u8]) -> Result<(), NoMemory>
        ensures periods { OnOk result (self.new.periods.items ≡ self.old.periods.items ++ said_period self.old.part begins line.now) }
        ensures text { self.new.text ≡ self.old.text }
        ensures part { self.new.part ≡ self.old.part }
    {
        if self.part != 2 || begins || is_skipped(line) {
            return Ok(());
        }
        if let Some(job) = job_of_line(line) {
            self.periods.push(job.every)?;
        }
        Ok(())
    }

    /// Takes one more line.
    fn take_line(&mut self, alloc: Global, line: &[u8]) -> Result<(), NoMemory>
        requires { self.old.part + 1 < 2 ^ 64 }
        ensures text { OnOk result (self.new.text.items ≡ self.old.text.items ++ (script_line self.old.part line.now ++ 13 ∷ 10 ∷ [])) }
        ensures part { OnOk result (self.new.part ≡ part_with self.old.part (script_line self.old.part line.now)) }
        ensures periods { OnOk result (self.new.periods.items
            ≡ self.old.periods.items ++ said_period self.old.part (is_header (script_line self.old.part line.now)) line.now) }
    {
        let script = script_line(alloc, self.part, line)?;
        let begins = is_header(&script);
        self.add_period(begins, line)?;
        self.text.extend_from_slice(&script)?;
        self.text.extend_from_slice(b"\r\n")?;
        if begins {
            self.part += 1;
        }
        Ok(())
    }
}

/// The script that a text of jobs is read as, and the jobs' periods. Each line ends with a carriage
/// return and a line feed, so that one that ends with a carriage return keeps it.
pub(crate) fn script_text(alloc: Global, bytes: &[u8]) -> Result<ScriptText, NoMemory>
    ensures lines { IfOk result (λ script. lines script.text.items ≡ script_lines bytes.now) }
    ensures periods { IfOk result (λ script. script.periods.items ≡ periods_from 0 (lines bytes.now)) }
{
    let mut script = ScriptText {
        text: Vec::new(alloc),
        part: 0,
        periods: Vec::new(alloc),
    };
    let mut rest = bytes;
    while let Some((line, after)) = split_line(rest) {
        script.take_line(alloc, line)?;
        rest = after;
    }
    Ok(script)
}
