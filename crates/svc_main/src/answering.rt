//! What is answered to a script, and by the generator.

ghost use Rattle.std.specs.Prelude.{◌≡◌, ◌≤◌, ◌++◌, [], length, map, reverse, List, All, IfOk, OnOk, string_bytes};
ghost use Rattle.svc_record.specs.Text.{text_of, EntryFits};
ghost use Rattle.svc_text.specs.Accepted.{AreAccepted, BringsFew};
ghost use Rattle.svc_conf.specs.declared.server.configuration.Opt.{Opt};
ghost use Rattle.svc_text.specs.declared.service.ServiceLine.{ServiceLine};
ghost use Rattle.svc_text.specs.Script.{Parts};
ghost use Rattle.svc_text.specs.Outcome.{parts_of};
ghost use Rattle.svc_server.specs.Servers.{answers_of};
ghost use Rattle.svc_main.specs.declared.outcome.RunEnd.{RunEnd};
ghost use Rattle.svc_main.specs.declared.outcome.RunEnd.TheVariants.{Served};
ghost use Rattle.svc_main.specs.declared.outcome.StatusLine.TheVariants.{Run as RunLine};
ghost use Rattle.svc_main.specs.Status.{status_line, StatusFits};
ghost use Rattle.svc_services.specs.Services.{HasLines, IsServerOf};
ghost use Rattle.svc_record.specs.declared.item.Item.TheVariants as item;
ghost use Rattle.svc_main.specs.Counts.{summary, FitCounts};
ghost use Rattle.svc_main.specs.Generator.{made_events, made_parts, no_flags};
ghost use Rattle.svc_main.specs.Program.{IsRunOf, RanText, CountsText, AnswersScript};

use crate::counting::RecordCounts;
use crate::generator::{made_items, made_services, no_flags};
use crate::outcome::{RunEnd, StatusLine};
use crate::recorder::Recorder;
use crate::recording_host::RecordingHost;
use crate::runs::run_items;
use std::alloc::Global;
use std::fmt::Write;
use std::mem::drop;
use svc_base::NoMemory;
use svc_conf::{Opt, ServerConf};
use svc_graph::services::ServiceWithDependents;
use svc_server::Server;
use svc_services::{ScriptFilter, ScriptService, configured, server_of_script, server_of_services};
use svc_text::{RecordText, Script, ScriptError, ScriptItems};

/// So many bytes of a record are reckoned for each item of a script.
const LINES: usize = 48;

/// For so many items at most memory is taken before the run.
const MOST_ROOM: usize = 1 << 20;

/// A status line, and what is to be written with it.
#[derive(Debug, Drop)]
pub(crate) struct Answer {
    pub line: StatusLine,
    pub text: String,
}

/// A status line alone.
pub(crate) fn said(alloc: Global, line: StatusLine) -> Result<Answer, NoMemory>
    ensures { IfOk result (λ a. (a.line ≡ line) × (string_bytes a.text ≡ status_line line)) }
{
    let mut text = String::new(alloc);
    writeln!(text, "{line}")?;
    Ok(Answer { line, text })
}

/// The number of a status line is one of its type.
fn read_line(line: StatusLine)
    ensures { StatusFits line }
{}

/// The text of the record of a run, and its status line.
fn ran(end: RunEnd, lines: RecordText) -> Result<Answer, NoMemory>
    ensures text { IfOk result (λ a. (a.line ≡ RunLine end) × (string_bytes a.text ≡ text_of (reverse lines) ++ status_line (RunLine end))) }
    ensures numbers { OnOk result (All EntryFits (reverse lines) × StatusFits (RunLine end)) }
{
    let line = StatusLine::Run(end);
    read_line(line);
    let mut text = lines.into_text()?;
    writeln!(text, "{line}")?;
    Ok(Answer { line, text })
}

/// What the run of a server leaves.
#[derive(Drop)]
struct FinishedRun<R> {
    end: RunEnd,
    recorder: R,
}

/// Runs a server over these items, and shows its record to the recorder.
fn run_over<R: Recorder + Drop>(
    alloc: Global,
    server: Server<ScriptService, ScriptFilter>,
    items: ScriptItems,
    recorder: R,
) -> Result<FinishedRun<R>, NoMemory>
    requires few { All BringsFew items }
    requires first { R.shown recorder ≡ [] }
    requires lines { (services : List ServiceLine) × HasLines services (length services) server.dependencies server.filters
        (answers_of ⟦<ScriptService as ServiceWithDependents>⟧ server.services.items) }
    ensures { (opt : Opt) (parts : Parts) → IsServerOf opt parts server.configuration server.options server.eager
        server.dependencies server.filters (answers_of ⟦<ScriptService as ServiceWithDependents>⟧ server.services.items)
        → parts.items ≡ items → IfOk result (λ left. IsRunOf opt parts left.end (R.shown left.recorder)) }
{
    // No list has so many items that there isn't one turn more.
    let Some(turns) = (items.len() as u64).checked_add(1) else {
        drop(server);
        drop(items);
        drop(recorder);
        return Err(NoMemory);
    };
    let mut host = RecordingHost::new(items, recorder);
    match run_items(alloc, server, turns, &mut host) {
        Ok(end) => {
            let recorder = host.into_recorder();
            Ok(FinishedRun { end, recorder })
        }
        Err(NoMemory) => {
            drop(host);
            Err(NoMemory)
        }
    }
}

/// Runs the server of a script over the script's items, and prints its record.
fn run_script(
    alloc: Global,
    server: Server<ScriptService, ScriptFilter>,
    items: ScriptItems,
) -> Result<Answer, NoMemory>
    requires few { All BringsFew items }
    requires lines { (services : List ServiceLine) × HasLines services (length services) server.dependencies server.filters
        (answers_of ⟦<ScriptService as ServiceWithDependents>⟧ server.services.items) }
    ensures { (opt : Opt) (parts : Parts) → IsServerOf opt parts server.configuration server.options server.eager
        server.dependencies server.filters (answers_of ⟦<ScriptService as ServiceWithDependents>⟧ server.services.items)
        → parts.items ≡ items
        → IfOk result (λ a. (end : RunEnd) × (a.line ≡ RunLine end) × RanText opt parts end (string_bytes a.text)) }
{
    let lines = RecordText::new(alloc, items.len().min(MOST_ROOM) * LINES);
    let left = run_over(alloc, server, items, lines)?;
    ran(left.end, left.recorder)
}

/// The counts of the record of a run, and its status line.
fn counted(alloc: Global, end: RunEnd, counts: &RecordCounts) -> Result<Answer, NoMemory>
    requires { FitCounts counts.now }
    ensures { IfOk result (λ a. (a.line ≡ RunLine end) × (string_bytes a.text ≡ summary counts.now ++ status_line (RunLine end))) }
{
    let line = StatusLine::Run(end);
    let mut text = counts.summary(alloc)?;
    writeln!(text, "{line}")?;
    Ok(Answer { line, text })
}

/// Runs the server of n services of the generator over its events, and counts what its record tells.
fn run_made(
    alloc: Global,
    n: u32,
    server: Server<ScriptService, ScriptFilter>,
    items: ScriptItems,
) -> Result<Answer, NoMemory>
    requires size { n ≤ 1024 }
    requires few { All BringsFew items }
    requires lines { (services : List ServiceLine) × HasLines services (length services) server.dependencies server.filters
        (answers_of ⟦<ScriptService as ServiceWithDependents>⟧ server.services.items) }
    requires server { IsServerOf no_flags (made_parts n) server.configuration server.options server.eager
        server.dependencies server.filters (answers_of ⟦<ScriptService as ServiceWithDependents>⟧ server.services.items) }
    requires items { items ≡ map item.Event (made_events n) }
    ensures { IfOk result (λ a. (a.line ≡ RunLine Served) × CountsText n (string_bytes a.text)) }
{
    let left = run_over(alloc, server, items, RecordCounts::new())?;
    counted(alloc, left.end, &left.recorder)
}

/// The counts of the run of n services of the generator.
pub(crate) fn answer_made(alloc: Global, n: u32) -> Result<Answer, NoMemory>
    requires { n ≤ 1024 }
    ensures { IfOk result (λ a. (a.line ≡ RunLine Served) × CountsText n (string_bytes a.text)) }
{
    let services = made_services(alloc, n)?;
    let server = match server_of_services(alloc, services.as_slice()) {
        Ok(server) => server,
        Err(NoMemory) => {
            drop(services);
            return Err(NoMemory);
        }
    };
    drop(services);
    let conf = match ServerConf::default(alloc) {
        Ok(conf) => conf,
        Err(NoMemory) => {
            drop(server);
            return Err(NoMemory);
        }
    };
    let server = configured(server, conf, no_flags(), false);
    match made_items(alloc, n) {
        Ok(items) => run_made(alloc, n, server, items),
        Err(NoMemory) => {
            drop(server);
            Err(NoMemory)
        }
    }
}

/// The answer to a script with these flags.
pub(crate) fn answer_script(alloc: Global, opt: Opt, script: Script) -> Result<Answer, NoMemory>
    requires accepted { AreAccepted script.services.items }
    requires few { All BringsFew script.items }
    requires lines { length script.lines.items ≡ length script.services.items }
    ensures { IfOk result (λ a. AnswersScript opt (parts_of script) script.lines.items a.line (string_bytes a.text)) }
{
    match server_of_script(alloc, &script) {
        Ok(server) => {
            let Script {
                conf,
                services,
                eager,
                items,
                lines,
            } = script;
            drop(services);
            drop(lines);
            let server = configured(server, conf, opt, eager);
            run_script(alloc, server, items)
        }
        Err(ScriptError::Line(n)) => {
            drop(opt);
            drop(script);
            said(alloc, StatusLine::Line(n as u64))
        }
        Err(ScriptError::NoMemory) => {
            drop(opt);
            drop(script);
            Err(NoMemory)
        }
    }
}
