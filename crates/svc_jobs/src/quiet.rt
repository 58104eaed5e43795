//! A job that does nothing by itself.

ghost use Rattle.std.specs.Prelude.{None};

use svc_job_host::Job;

/// A job of a text: its runs are kept by its host.
#[derive(Drop)]
pub(crate) struct QuietJob;

impl Job for QuietJob {
    ghost told = { λ _. None };

    fn run(&mut self, _due: u64) {}
}
