//! The commands `plan` and `plan alike`: the legal cycle with the least peak that a search finds, and the certificate of its
//! lower number.
#![tactic(auto)]

mod legal_search;
mod plan_files;
mod planning;

pub use legal_search::{planned, summary_of};
pub use planning::Planning;
