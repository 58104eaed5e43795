//! The rules of a gate.

ghost use Rattle.std.specs.Prelude.{◌≡◌};
ghost use Rattle.svc_gate.specs.Rules.{is_of};

use svc_base::Items;

/// What is said of the addresses of one family from a first to a last one. Numbers of IPv4 addresses
/// are below 2^32.
#[derive(Clone, Copy, Debug, PartialEq, Eq)]
pub struct GateRule {
    /// Whether it is of the addresses of 128 bits (IPv6), and not of those of 32 (IPv4).
    pub v6: bool,
    /// The first address.
    pub from: u128,
    /// The last address. A rule whose last address is below its first holds none.
    pub to: u128,
    /// Whether the addresses are allowed.
    pub allow: bool,
}

/// Rules, in order: the first one that holds an address decides.
pub type GateRuleList = Items<GateRule>;

/// Rules, in order, and what is said where none of them holds an address.
#[derive(Debug, Drop)]
pub struct GateRules {
    /// The rules. A text has at most 4,096.
    pub rules: GateRuleList,
    /// Whether an address is allowed that no rule holds.
    pub default_allow: bool,
}

/// Whether the rule is one of the family.
pub(crate) fn is_of(rule: &GateRule, v6: bool) -> bool
    ensures { result ≡ is_of v6 rule.now }
{
    rule.v6 == v6
}
