// Rule sets: what positions mean, by four questions against a finite tree.

#![tactic(auto)]

mod rule_set;

pub use rule_set::RuleSet;
