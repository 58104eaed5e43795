//! What the program writes.

ghost use Rattle.std.specs.Prelude.{◌≡◌, IfOk, string_bytes};
ghost use Rattle.svc_echo.specs.Reports.{end_name, report_text};

use std::alloc::Global;
use std::fmt::Write;
use svc_base::NoMemory;
use svc_desk::WorkEnd;

/// The name of a worker's end.
fn end_name(end: WorkEnd) -> &'static str
    ensures { result.now ≡ end_name end }
{
    match end {
        WorkEnd::Over => "Over",
        WorkEnd::Closed => "Closed",
        WorkEnd::Full => "Full",
        WorkEnd::TurnsSpent => "TurnsSpent",
        WorkEnd::Fault => "Fault",
        WorkEnd::NoMemory => "NoMemory",
    }
}

/// How many posts there were, and how the run ended.
pub(crate) fn report_text(
    alloc: Global,
    posts: usize,
    served: bool,
    left: WorkEnd,
    right: WorkEnd,
) -> Result<String, NoMemory>
    ensures { IfOk result (λ text. string_bytes text ≡ report_text posts served left right) }
{
    let mut text = String::new(alloc);
    writeln!(text, "posts {posts}")?;
    if served {
        writeln!(text, "status served")?;
    } else {
        let left = end_name(left);
        let right = end_name(right);
        writeln!(text, "status {left} {right}")?;
    }
    Ok(text)
}
