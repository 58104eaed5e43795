//! A host that knows whether it is about to wait, and what an operator asked for.

ghost use Rattle.std.specs.Prelude.{◌≡◌, ◌≤◌, ℕ};
ghost use Rattle.svc_record.specs.Record.{Record};

use svc_base::Text;
use svc_server::InnerHost;
use svc_system::{LogState, UpgradeAnswer};

/// A host that knows whether it is about to wait, says what it is told of the log, and whether an operator asked for
/// an upgrade.
pub trait Waiting: InnerHost {
    /// What is ready has its turn, until there is an item to give or nothing is ready.
    fn advance(&mut self)
        ensures room { Self.spare self.old ≤ Self.spare self.new }
        ensures keeps { (q : Record) (faults idles : ℕ) → Self.keeps self.old q faults idles → Self.keeps self.new q faults idles }
        ensures ahead { Self.ahead self.new ≡ Self.ahead self.old }
        ensures made { (q : Record) (faults idles : ℕ) → Self.keeps self.old q faults idles → Self.made_of self.new ≡ Self.made_of self.old };

    /// Nothing is ready: what comes next has to be waited for.
    fn is_at_rest(&self) -> bool;

    /// Is told what became of the record that was shown so far.
    fn tell_log(&mut self, log: LogState)
        ensures room { Self.spare self.old ≤ Self.spare self.new }
        ensures keeps { (q : Record) (faults idles : ℕ) → Self.keeps self.old q faults idles → Self.keeps self.new q faults idles }
        ensures ahead { Self.ahead self.new ≡ Self.ahead self.old }
        ensures made { (q : Record) (faults idles : ℕ) → Self.keeps self.old q faults idles → Self.made_of self.new ≡ Self.made_of self.old };

    /// The file that an operator asks to be upgraded to, told once. The answer is owed from then on.
    fn take_upgrade(&mut self) -> Option<Text>
        ensures room { Self.spare self.old ≤ Self.spare self.new }
        ensures keeps { (q : Record) (faults idles : ℕ) → Self.keeps self.old q faults idles → Self.keeps self.new q faults idles }
        ensures ahead { Self.ahead self.new ≡ Self.ahead self.old }
        ensures made { (q : Record) (faults idles : ℕ) → Self.keeps self.old q faults idles → Self.made_of self.new ≡ Self.made_of self.old };

    /// Is told what was begun for that, which the operator hears.
    fn answer_upgrade(&mut self, answer: UpgradeAnswer)
        ensures room { Self.spare self.old ≤ Self.spare self.new }
        ensures keeps { (q : Record) (faults idles : ℕ) → Self.keeps self.old q faults idles → Self.keeps self.new q faults idles }
        ensures ahead { Self.ahead self.new ≡ Self.ahead self.old }
        ensures made { (q : Record) (faults idles : ℕ) → Self.keeps self.old q faults idles → Self.made_of self.new ≡ Self.made_of self.old };
}
