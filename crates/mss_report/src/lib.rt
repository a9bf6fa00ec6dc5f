//! The texts that the commands print, byte for byte.
//!
//! Each text is a list of lines, and each line of numbers holds of the exact model: the definitions in `specs/` say
//! which numbers a line prints and what they promise. docs/FORMATS.md has the texts in words.
#![tactic(auto)]

mod block;
mod certificate;
mod evaluation;
mod fault;
mod json;
mod plain;
mod plan;
mod report;

pub use block::block_text;
pub use certificate::{cert_fault_text, verdict_text};
pub use evaluation::{evaluate_json, evaluate_text};
pub use fault::{cycle_fault_text, rule_text, table_fault_text};
pub use plan::{PlanSummary, plan_text};
