//! The command `new`: a timetable from nothing.
ghost use Rattle.std.specs.Prelude.{◌≡◌, None, IfOk, IsTrue};
ghost use Rattle.mss_model.specs.PartsOf.{parts_of};
ghost use Rattle.mss_command.specs.Answers.{Prepares};
ghost use Rattle.mss_command.specs.Fetched.{IsWithin, fetched_of};
ghost use Rattle.mss_command.specs.Outcome.{outcome_of, saying};
ghost use Rattle.mss_command.specs.Questions.{AskLacks, Asks, may_end_asking};
ghost use Rattle.mss_command.specs.Status.{ends_by};
ghost use Rattle.mss_timetable.specs.Improves.{NewDefines, NewPromised, new_may_answer, no_first_text};
ghost use Rattle.mss_timetable.specs.ImproveLaws.{new_keeps};

use crate::improved::improved_reply;
use mss_command::{Command, Contents, Question, Reply, Status, Stop, ask};
use mss_desk::Desk;
use mss_enclose::Kernel;
use mss_local::{Effort, Progress, first_cycle};
use mss_model::{NoMemory, Tables, Text};
use mss_rules::Legal;
use std::alloc::Global;

/// The best cycle that a local search finds from a first legal one of its own, with its report.
#[derive(Drop)]
pub struct FromNothing<'p, P> {
    pub effort: Effort,
    /// Who is told how far the search is.
    pub progress: &'p P,
}

/// The most dives for a first cycle.
const DIVES: u32 = 1000;

impl<'p, P: Progress> Question for FromNothing<'p, P> {
    ghost name = { λ question. None };

    ghost limit = { λ question. 0 };

    ghost Answers = { λ question. NewDefines question.effort.tries };

    ghost may_answer = { λ question. new_may_answer };

    fn file(&self) -> Option<&'static str> {
        None
    }

    fn most_bytes(&self) -> usize {
        0
    }

    fn answer<K: Kernel>(
        &self,
        alloc: Global,
        kernel: &K,
        tables: &Tables,
        _contents: &Contents,
    ) -> Result<Reply, NoMemory> {
        match first_cycle(alloc, tables, &Legal, self.effort.number, DIVES)? {
            Some(start) => improved_reply(
                alloc,
                kernel,
                tables,
                &start,
                self.effort,
                self.progress,
            ),
            None => no_first_reply(alloc),
        }
    }
}

impl<'p, P: Progress> Command for FromNothing<'p, P> {
    ghost Defines = { λ command. Asks (NewDefines command.effort.tries) None 0 };

    ghost Lacks = { λ command. AskLacks None 0 };

    ghost may_end = { λ command. may_end_asking new_may_answer };

    ghost Promised = { λ command. NewPromised command.effort.tries };

    fn prepare<D: Desk, K: Kernel>(
        &self,
        alloc: Global,
        desk: &mut D,
        kernel: &K,
    ) -> Result<Reply, Stop> {
        ask(alloc, self, desk, kernel)
    }

    ghost keeps = { λ command o c d known did. new_keeps command.effort.tries o c d did known };
}

/// The reply where no dive came to a first cycle.
fn no_first_reply(alloc: Global) -> Result<Reply, NoMemory>
    ensures outcome { IfOk result (λ reply. outcome_of reply ≡ saying Status.SpentWithout no_first_text) }
    ensures status { IfOk result (λ reply. reply.status ≡ Status.SpentWithout) }
{
    let mut text = Text::make(alloc);
    text.push(b"no first cycle found in 1000 dives\n")?;
    Ok(Reply::saying(alloc, Status::SpentWithout, text))
}
