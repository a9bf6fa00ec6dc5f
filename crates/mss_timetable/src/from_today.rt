//! The command `cycle`: a better timetable than that of today.
ghost use Rattle.std.specs.Prelude.{◌≡◌, Some, IfOk, IsTrue};
ghost use Rattle.mss_model.specs.PartsOf.{parts_of};
ghost use Rattle.mss_command.specs.Answers.{Prepares};
ghost use Rattle.mss_command.specs.Cycles.{cycle_file};
ghost use Rattle.mss_command.specs.Fetched.{IsWithin, fetched_of, file_limit};
ghost use Rattle.mss_command.specs.Outcome.{outcome_of};
ghost use Rattle.mss_command.specs.Questions.{AskLacks, Asks, may_end_asking};
ghost use Rattle.mss_command.specs.Status.{ends_by};
ghost use Rattle.mss_timetable.specs.Improves.{TodayDefines, TodayPromised, today_may_answer};
ghost use Rattle.mss_timetable.specs.ImproveLaws.{today_keeps};

use crate::improved::improved_reply;
use mss_command::{Command, Contents, JudgedCycle, Question, Reply, Stop, ask, judge_cycle};
use mss_desk::Desk;
use mss_enclose::Kernel;
use mss_local::{Effort, Progress};
use mss_model::{MOST_BYTES, NoMemory, Tables};
use std::alloc::Global;

/// The best cycle that a local search finds from the legal one of cycle.csv, with its report.
#[derive(Drop)]
pub struct FromToday<'p, P> {
    pub effort: Effort,
    /// Who is told how far the search is.
    pub progress: &'p P,
}

impl<'p, P: Progress> Question for FromToday<'p, P> {
    ghost name = { λ question. Some cycle_file };

    ghost limit = { λ question. file_limit };

    ghost Answers = { λ question. TodayDefines question.effort.tries };

    ghost may_answer = { λ question. today_may_answer };

    fn file(&self) -> Option<&'static str> {
        Some("cycle.csv")
    }

    fn most_bytes(&self) -> usize {
        MOST_BYTES
    }

    fn answer<K: Kernel>(
        &self,
        alloc: Global,
        kernel: &K,
        tables: &Tables,
        contents: &Contents,
    ) -> Result<Reply, NoMemory> {
        match judge_cycle(alloc, tables, contents)? {
            JudgedCycle::Legal(start) => {
                improved_reply(alloc, kernel, tables, &start, self.effort, self.progress)
            }
            JudgedCycle::Refused(reply) => Ok(reply),
        }
    }
}

impl<'p, P: Progress> Command for FromToday<'p, P> {
    ghost Defines = { λ command. Asks (TodayDefines command.effort.tries) (Some cycle_file) file_limit };

    ghost Lacks = { λ command. AskLacks (Some cycle_file) file_limit };

    ghost may_end = { λ command. may_end_asking today_may_answer };

    ghost Promised = { λ command. TodayPromised command.effort.tries };

    fn prepare<D: Desk, K: Kernel>(
        &self,
        alloc: Global,
        desk: &mut D,
        kernel: &K,
    ) -> Result<Reply, Stop> {
        ask(alloc, self, desk, kernel)
    }

    ghost keeps = { λ command o c d known did. today_keeps command.effort.tries o c d did known };
}
