//! The commands of the second program, `mss_improve`, over any desk: a better timetable for a hospital of real size, by
//! local search, and a lower number of all timetables, which weights show.
//!
//! The contract of `run` says for every list of words and every desk what was put and said at each status. What a search
//! comes to is a heuristic's matter, and what is said of it is proved: the put cycle is legal, its peak is told as a
//! report tells it, and every legal cycle peaks at least at the lower number. `check` knows nothing of either search.
#![tactic(auto)]

mod check;
mod check_texts;
mod files;
mod from_nothing;
mod from_today;
mod improved;
mod lower;
mod request;
mod summary;
mod top;

pub use check::WeightsCheck;
pub use from_nothing::FromNothing;
pub use from_today::FromToday;
pub use mss_command::Status;
pub use mss_local::{Effort, Progress, Silent};
pub use summary::Summary;
pub use top::run;
