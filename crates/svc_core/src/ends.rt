//! How a step leaves a run.

ghost use Rattle.std.specs.Prelude.{◌≡◌};
ghost use Rattle.svc_core.specs.CoreData.{is_on, is_served};

use svc_record::StepEnd;

/// The run goes on.
pub(crate) fn is_on(end: StepEnd) -> bool
    ensures { result ≡ is_on end }
{
    matches!(end, StepEnd::On)
}

/// The run went through its shutdown.
pub(crate) fn is_served(end: StepEnd) -> bool
    ensures { result ≡ is_served end }
{
    matches!(end, StepEnd::Served)
}
