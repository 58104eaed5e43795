//! What a job does.

ghost use Rattle.std.specs.Prelude.{◌≡◌, ℕ, List, [], ◌∷◌, ◌++◌, Option};
ghost use Rattle.std.specs.Option.{option_map};

/// What runs periodically.
pub trait Job: Drop {
    // The numbers of due moments that it was told, the oldest first, where it tells them.
    ghost told: { Self → Option (List ℕ) };

    /// Runs, for this number of due moments: those since it was started or ran last.
    fn run(&mut self, due: u64)
        ensures { told self.new ≡ option_map (λ numbers. numbers ++ due ∷ []) (told self.old) };
}

/// A job in a box is a job.
impl Job for Box<dyn Job> {
    ghost told = { λ b. (Job-box b).told b.value };

    fn run(&mut self, due: u64) {
        (**self).run(due);
    }
}
