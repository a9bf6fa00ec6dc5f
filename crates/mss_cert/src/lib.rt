//! The certificate of a plan: the search tree with its lower number, its text, and what a checker says of it.
//!
//! docs/FORMATS.md tells the format of the text and its faults.
#![tactic(auto)]

mod certificate;
mod faults;
mod lines;
mod reading;
mod verdict;
mod writing;

pub use certificate::{Certificate, End, Line, MOST_CERTIFICATE_BYTES};
pub use faults::{CertFault, CertKind, CertRefusal};
pub use lines::Lines;
pub use reading::read;
pub use verdict::{Reason, Verdict};
pub use writing::write;
