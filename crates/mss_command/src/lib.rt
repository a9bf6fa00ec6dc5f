//! What the commands have in common: reading their files, what they come to, and its delivery.
//!
//! A command only reads and comes to a reply; `carry_out` delivers the reply, and its contract says for every command
//! and every desk what was put and said at each status. A question about the tables says only what it answers under
//! tables that are accepted; `ask` makes a command of it, and `judge_cycle` gives those about cycle.csv its legal cycle.
//! `words` and `exit_code` are what a program does before and after its top call.
#![tactic(auto)]

mod command;
mod deliver;
mod gather;
mod legal_cycle;
mod number;
mod program;
mod question;
mod reading;
mod refusal;
mod reply;
mod status;
mod tables;
mod usage;

pub use command::{Command, carry_out};
pub use legal_cycle::{JudgedCycle, judge_cycle};
pub use number::number_of;
pub use program::{exit_code, words};
pub use question::{Question, ask};
pub use reading::{Contents, fetch};
pub use refusal::{long_refusal, table_refusal};
pub use reply::{Put, Reply, Stop};
pub use status::Status;
pub use usage::Usage;
