//! Where an address stands in a table.

ghost use Rattle.std.specs.Prelude.{◌≡◌, ◌+◌, ◌-◌, ◌*◌, ◌^◌, ◌<◌, ◌≤◌, ℕ, Some, length, slice_get, slice_set};
ghost use Rattle.std.specs.Cmp.Lexicographic.{slice_cmp};
ghost use Rattle.std.specs.Ordering.{nat_cmp};
ghost use Rattle.svc_fds.specs.Tables.{IsAscending};
ghost use Rattle.svc_fds.specs.Places.{PlaceFits};

use crate::fd::Fd;
use std::cmp::Ordering;
use std::marker::Brand;
use std::mem;
use std::sync::ledger::{Blank, Ledger};
use svc_base::Text;
use svc_history::Steps;

/// Where an address stands among others that ascend, or where it would stand.
#[derive(Clone, Copy)]
pub(crate) enum Place {
    /// It stands at this index.
    Held(usize),
    /// It is missing, and would stand at this index.
    Free(usize),
}

/// How the address of an entry stands to another: one comparison of two texts, which takes a step.
fn compare<L: Ledger>(entry: &(Text, Fd), bind: &[u8], steps: &mut Steps<L>) -> Ordering
    ensures answer { result ≡ slice_cmp nat_cmp entry.now.0 bind.now }
    ensures step { steps.new ≡ steps.old + 1 }
{
    steps.tick();
    entry.0.as_str().as_bytes().cmp(bind)
}

/// Looks for an address by halving.
pub(crate) fn counted_place<L: Ledger>(
    entries: &[(Text, Fd)],
    bind: &[u8],
    steps: &mut Steps<L>,
) -> Place
    requires { IsAscending entries.now }
    ensures place { PlaceFits bind.now entries.now result }
    ensures counted { steps.old ≤ steps.new }
    ensures cost { 2 ^ (steps.new - steps.old) ≤ 2 * length entries.now + 1 }
{
    let mut low = 0;
    let mut high = entries.len();
    while low < high {
        let middle = low + (high - low) / 2;
        match compare(&entries[middle], bind, steps) {
            Ordering::Less => low = middle + 1,
            Ordering::Equal => return Place::Held(middle),
            Ordering::Greater => high = middle,
        }
    }
    Place::Free(low)
}

/// Looks for an address where no one counts.
fn uncounted_place<L: Ledger>(entries: &[(Text, Fd)], bind: &[u8], blank: Blank) -> Place
    requires ascending { IsAscending entries.now }
    requires name { blank.name ≡ L.name }
    requires parts { blank.parts ≡ L.parts }
    requires some { 0 < blank.parts }
    ensures { PlaceFits bind.now entries.now result }
{
    let mut steps = Steps::<L>::new(blank);
    counted_place(entries, bind, &mut steps)
}

/// Where an address stands, or would stand.
pub(crate) fn place_of(entries: &[(Text, Fd)], bind: &str) -> Place
    requires { IsAscending entries.now }
    ensures { PlaceFits bind.now entries.now result }
{
    uncounted_place::<Brand>(entries, bind.as_bytes(), Blank::new(1))
}

/// Puts a descriptor in the place of another, which comes back.
pub(crate) fn replace_at(entries: &mut [(Text, Fd)], at: usize, fd: Fd) -> Fd
    requires { at < length entries.old }
    ensures old { (bind : _) (held : ℕ) → slice_get entries.old at ≡ Some (bind, held)
        → result ≡ held }
    ensures now { (bind : _) (held : ℕ) → slice_get entries.old at ≡ Some (bind, held)
        → entries.new ≡ slice_set entries.old at (bind, fd) }
{
    let entry = &mut entries[at];
    mem::replace(&mut entry.1, fd)
}
