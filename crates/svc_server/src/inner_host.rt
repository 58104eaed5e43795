//! What a host does by itself, while its account is kept for it.

ghost use Rattle.std.specs.Prelude.{◌≡◌, ◌+◌, ◌<◌, ◌≤◌, ◌∷◌, ℕ, List, Option, None, IfSome, OnOk};
ghost use Rattle.svc_record.specs.declared.entry.Entry.TheVariants.{Told};
ghost use Rattle.svc_record.specs.declared.item.Item.{Item};
ghost use Rattle.svc_record.specs.Record.{Record};
ghost use Rattle.svc_server.specs.Hosts.{AheadAfter, HostMake};
ghost use Rattle.svc_server.specs.InnerHosts.{record_with, faults_with, idles_with};
ghost use Rattle.svc_server.specs.ScriptHosts.{GivesFew};

use std::alloc::Global;
use svc_base::NoMemory;
use svc_record::{Action, Item};

/// What a host does by itself: it gives items, and is shown the actions. `AccountHost` makes a host
/// of it, which keeps the account.
///
/// What it keeps may speak of the record, and of how often it failed and nothing came: each call goes
/// on from any record that it kept.
pub trait InnerHost {
    // What it keeps with a record, the count of faults and that of answers that nothing comes.
    ghost keeps: { Self → Record → ℕ → ℕ → Type 0 };

    // For how many more items and actions there is memory.
    ghost spare: { Self → ℕ };

    // What it will give, where that is known beforehand.
    ghost ahead: { Self → Option (List Item) } = { λ _. None };

    // What it was made of, where it tells that: it stays with whatever record it keeps.
    ghost made_of: { Self → Option HostMake } = { λ _. None };

    /// Makes room for `n` items and actions together.
    fn reserve(&mut self, alloc: Global, n: u64) -> Result<(), NoMemory>
        ensures room { OnOk result (n ≤ spare self.new) }
        ensures kept { spare self.old ≤ spare self.new }
        ensures keeps { (q : Record) (faults idles : ℕ) → keeps self.old q faults idles → keeps self.new q faults idles }
        ensures ahead { ahead self.new ≡ ahead self.old }
        ensures made { (q : Record) (faults idles : ℕ) → keeps self.old q faults idles → made_of self.new ≡ made_of self.old };

    /// Whether it wants to be told before each item until when no moment is due, as `Host::asks_due`.
    fn asks_due(&self) -> bool {
        false
    }

    /// Is told the least moment at which the event `Moment` tells something, as `Host::wait_until`.
    fn wait_until(&mut self, _due: Option<u64>)
        ensures room { spare self.old ≤ spare self.new }
        ensures keeps { (q : Record) (faults idles : ℕ) → keeps self.old q faults idles → keeps self.new q faults idles }
        ensures ahead { ahead self.new ≡ ahead self.old }
        ensures made { (q : Record) (faults idles : ℕ) → keeps self.old q faults idles → made_of self.new ≡ made_of self.old }
    {}

    /// Gives the next item, if one comes. It needs room for one, and uses it. An event brings at most
    /// 32 descriptors.
    fn give(&mut self) -> Option<Item>
        requires room { 0 < spare self.old }
        ensures room { spare self.old ≤ spare self.new + 1 }
        ensures few { IfSome result GivesFew }
        ensures keeps { (q : Record) (faults idles : ℕ) → keeps self.old q faults idles
            → keeps self.new (record_with result q) (faults_with result faults) (idles_with result idles) }
        ensures ahead { AheadAfter result (ahead self.old) (ahead self.new) }
        ensures made { (q : Record) (faults idles : ℕ) → keeps self.old q faults idles → made_of self.new ≡ made_of self.old };

    /// Is shown an action that is told. It needs room for one, and uses it.
    fn note(&mut self, action: &Action)
        requires room { 0 < spare self.old }
        ensures room { spare self.old ≤ spare self.new + 1 }
        ensures keeps { (q : Record) (faults idles : ℕ) → keeps self.old q faults idles → keeps self.new (Told action.now ∷ q) faults idles }
        ensures ahead { ahead self.new ≡ ahead self.old }
        ensures made { (q : Record) (faults idles : ℕ) → keeps self.old q faults idles → made_of self.new ≡ made_of self.old };
}
