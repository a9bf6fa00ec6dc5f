//! Slots that no rule tells apart: two slots of one day are alike where they have the same minutes, the same fixed option
//! or none, and rooms that suit the same specialties. A canonical cycle is a legal one that gives the slots that are alike
//! their options in rising order, and each legal cycle has a canonical one of equal census. docs/MODEL.md tells the rules
//! in words.
#![tactic(auto)]

mod arranging;
mod canonical;
mod order;
mod rooms;
mod rule_set;
mod slots;

pub use arranging::canonical_of;
pub use canonical::Canonical;
pub use rule_set::RuleSet;
pub use slots::alike;
