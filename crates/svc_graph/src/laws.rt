//! Laws of marks, over the definitions alone.

ghost use Rattle.std.specs.Prelude.{◌≡◌, ◌<◌, ◌≤◌, ◌+◌, ℕ, true, false, length, slice_set};
ghost use Rattle.svc_graph.specs.Marks.{is_marked};
ghost use Rattle.svc_graph.specs.WaitingData.{WaitingData};
ghost use Rattle.svc_graph.specs.Waitings.{dependents_of, steps_of, edges_of};

/// Over any number of marks of one graph the steps are at most its edges: there are none at first,
/// each mark takes as many as it adds to them, and they are never more than the edges, which stay.
pub fn steps_within_edges()
    ensures none { (w : WaitingData) → ((s : ℕ) → is_marked w.marks s ≡ false) → steps_of w ≡ 0 }
    ensures each { (w v : WaitingData) (s : ℕ) → s < length w.marks → is_marked w.marks s ≡ false
        → v.depends ≡ w.depends → v.marks ≡ slice_set w.marks s true
        → (steps_of v ≡ steps_of w + dependents_of w s) × (edges_of v ≡ edges_of w) }
    ensures most { (w : WaitingData) → steps_of w ≤ edges_of w }
{}
