//! For each sum of an address the least number of the live descriptors with it, and how many they are.

ghost use Rattle.std.specs.Prelude.{◌≡◌, ◌+◌, ◌<◌, ◌≤◌, ◌^◌, ℕ, List, Some, IfSome, IfNone, true, min};
ghost use Rattle.svc_base.specs.Items.{list_of, spare};
ghost use Rattle.svc_endpoints.specs.declared.table.Open.{Open};
ghost use Rattle.svc_endpoints.specs.Sums.{sum_of};
ghost use Rattle.svc_endpoints.specs.Firsts.{AreFirsts, Notes, Forgets, are_from, count_with};

use crate::sums::sum_of;
use svc_base::{Blocks, Keyed, Text};

/// What is known of the live descriptors whose addresses have the sum.
#[derive(Clone, Copy, Drop)]
pub(crate) struct First {
    pub sum: u64,
    /// None of them has a lesser number.
    pub fd: u64,
    /// So many they are.
    pub live: u64,
}

impl Keyed for First {
    ghost key_of = { λ f. f.sum };

    fn key(&self) -> u64 {
        self.sum
    }
}

/// The least number of the descriptors with the sum, or a lesser one, if there are any.
pub(crate) fn least(firsts: &Blocks<First>, sum: u64) -> Option<u64>
    ensures found { IfSome result (λ fd. (table : List Open) → AreFirsts (list_of firsts.now) table → are_from sum fd table ≡ true) }
    ensures absent { IfNone result ((table : List Open) → AreFirsts (list_of firsts.now) table → count_with sum table ≡ 0) }
{
    match firsts.find(sum) {
        Some(first) => Some(first.fd),
        None => None,
    }
}

/// What is known with one more descriptor of this number.
fn with_one(first: Option<First>, sum: u64, fd: u64) -> First
    ensures more { IfSome first (λ f. f.live < 2 ^ 60 → result ≡ record { sum = sum; fd = min f.fd fd; live = f.live + 1 }) }
    ensures one { IfNone first (result ≡ record { sum = sum; fd = fd; live = 1 }) }
{
    match first {
        Some(first) => First {
            sum,
            fd: first.fd.min(fd),
            live: first.live.saturating_add(1),
        },
        None => First { sum, fd, live: 1 },
    }
}

/// Takes a descriptor with the sum.
fn note_sum(firsts: &mut Blocks<First>, sum: u64, fd: u64)
    requires { 0 < spare firsts.old }
    ensures firsts { (a : List ℕ) → sum ≡ sum_of a → Notes (Some a) fd (list_of firsts.old) (list_of firsts.new) }
    ensures room { spare firsts.old ≤ spare firsts.new + 1 }
{
    let was = firsts.remove(sum);
    firsts.insert(with_one(was, sum, fd));
}

/// One of the descriptors with the sum goes.
fn forget_sum(firsts: &mut Blocks<First>, sum: u64)
    ensures firsts { (a : List ℕ) → sum ≡ sum_of a → Forgets (Some a) (list_of firsts.old) (list_of firsts.new) }
    ensures room { spare firsts.new ≡ spare firsts.old }
{
    if let Some(first) = firsts.find(sum) {
        let first = *first;
        if first.live > 1 {
            firsts.replace(First {
                sum,
                fd: first.fd,
                live: first.live - 1,
            });
        } else {
            let _ = firsts.remove(sum);
        }
    }
}

/// Takes a descriptor with the address, if it has one.
pub(crate) fn note(firsts: &mut Blocks<First>, address: &Option<Text>, fd: u64)
    requires { 0 < spare firsts.old }
    ensures firsts { Notes address.now fd (list_of firsts.old) (list_of firsts.new) }
    ensures room { spare firsts.old ≤ spare firsts.new + 1 }
{
    if let Some(text) = address {
        note_sum(firsts, sum_of(text.as_str()), fd);
    }
}

/// One of the descriptors with the address goes, if it has one.
pub(crate) fn forget(firsts: &mut Blocks<First>, address: &Option<Text>)
    ensures firsts { Forgets address.now (list_of firsts.old) (list_of firsts.new) }
    ensures room { spare firsts.new ≡ spare firsts.old }
{
    if let Some(text) = address {
        forget_sum(firsts, sum_of(text.as_str()));
    }
}
