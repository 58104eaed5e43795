//! What is answered to an input.

ghost use Rattle.std.specs.Prelude.{◌≡◌, ◌<◌, ◌≤◌, ◌++◌, [], length, All, List, IfOk, string_bytes};
ghost use Rattle.svc_generations.specs.declared.outcome.ChainLine.TheVariants.{Unbegun};
ghost use Rattle.svc_generations.specs.BlockReadings.{IsBlock};
ghost use Rattle.svc_generations.specs.ChainStatus.{status_line, line_of};
ghost use Rattle.svc_generations.specs.Serving.{chain_text};
ghost use Rattle.svc_generations.specs.ChainPrograms.{AnswersInput, PrintsChain};
ghost use Rattle.svc_generations.specs.Inputs.{BlockParts, input_parts_of};
ghost use Rattle.svc_generations.specs.PlanReadings.{HasPlans, MayServe};
ghost use Rattle.svc_generations.specs.Servings.{IsServing, IsOpen};

use crate::input::Input;
use crate::outcome::{ChainLine, StepRefusal};
use crate::plans::{Plans, plans_of};
use crate::printing::chain_text;
use crate::serving::Serving;
use crate::steps::Step;
use std::alloc::Global;
use std::fmt::Write;
use std::mem::drop;
use svc_base::NoMemory;
use svc_main::{RunEnd, StatusLine};
use svc_supervisor::Chain;
use svc_text::ScriptError;

/// A status line, and what is to be written with it.
#[derive(Debug, Drop)]
pub(crate) struct Answer {
    pub line: ChainLine,
    pub text: String,
}

/// A status line alone: nothing has begun.
pub(crate) fn said(alloc: Global, line: StatusLine) -> Result<Answer, NoMemory>
    ensures { IfOk result (λ a. (a.line ≡ Unbegun line) × (string_bytes a.text ≡ status_line (Unbegun line))) }
{
    let line = ChainLine::Unbegun(line);
    let mut text = String::new(alloc);
    writeln!(text, "{line}")?;
    Ok(Answer { line, text })
}

/// A finished chain, and its status line.
fn printed(alloc: Global, chain: &Chain, line: ChainLine) -> Result<Answer, NoMemory>
    ensures { IfOk result (λ a. (a.line ≡ line) × (string_bytes a.text ≡ chain_text 0 chain.now.generations ++ status_line line)) }
{
    let mut text = chain_text(alloc, chain)?;
    writeln!(text, "{line}")?;
    Ok(Answer { line, text })
}

/// The status line, by how the steps ended.
fn line_of(end: Option<(u64, StepRefusal)>) -> ChainLine
    ensures { result ≡ line_of end }
{
    match end {
        None => ChainLine::Chained,
        Some((k, refusal)) => ChainLine::Step(k, refusal),
    }
}

/// Takes the steps, closes all that is open, and prints the chain and its status line.
fn finished(alloc: Global, serving: &mut Serving, steps: &[Step]) -> Result<Answer, NoMemory>
    requires { IsOpen serving.old }
    ensures { (blocks : List BlockParts) → IsServing blocks [] serving.old
        → IfOk result (λ a. PrintsChain (record { blocks = blocks; steps = steps.now }) a.line (string_bytes a.text)) }
{
    let line = line_of(serving.take_all(alloc, steps)?);
    serving.chain.finish()?;
    printed(alloc, &serving.chain, line)
}

/// Serves the plans: takes the steps, closes all that is open, and prints the chain and its status line.
fn serve_steps(alloc: Global, plans: Plans, steps: &[Step]) -> Result<Answer, NoMemory>
    requires { MayServe plans.plans }
    ensures { (blocks : List BlockParts) → HasPlans blocks plans
        → IfOk result (λ a. PrintsChain (record { blocks = blocks; steps = steps.now }) a.line (string_bytes a.text)) }
{
    let mut serving = Serving::new(alloc, plans)?;
    let answer = finished(alloc, &mut serving, steps);
    drop(serving);
    answer
}

/// The answer to an input.
pub(crate) fn answer_input(alloc: Global, input: Input) -> Result<Answer, NoMemory>
    requires blocks { All IsBlock input.blocks }
    requires some { 0 < length input.blocks }
    requires few { length input.blocks ≤ 64 }
    ensures { IfOk result (λ a. AnswersInput (input_parts_of input) a.line (string_bytes a.text)) }
{
    let Input { blocks, steps } = input;
    match plans_of(alloc, blocks) {
        Ok(plans) => match plans.refused {
            Some(key) => {
                drop(plans);
                drop(steps);
                said(alloc, StatusLine::Run(RunEnd::Config(key)))
            }
            None => {
                let answer = serve_steps(alloc, plans, &steps);
                drop(steps);
                answer
            }
        },
        Err(ScriptError::Line(n)) => {
            drop(steps);
            said(alloc, StatusLine::Line(n as u64))
        }
        Err(ScriptError::NoMemory) => {
            drop(steps);
            Err(NoMemory)
        }
    }
}
