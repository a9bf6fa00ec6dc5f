//! The commands `evaluate` and `evaluate json`: the report of a cycle in one form or the other.
ghost use Rattle.std.specs.Prelude.{◌≡◌, ◌<◌, length, Some, IfOk, IsTrue};
ghost use Rattle.std.specs.List.{All};
ghost use Rattle.mss_model.specs.PartsOf.{parts_of};
ghost use Rattle.mss_model.specs.TableWords.{option_count, slot_count};
ghost use Rattle.mss_command.specs.Answers.{Prepares};
ghost use Rattle.mss_command.specs.Cycles.{cycle_file};
ghost use Rattle.mss_command.specs.Fetched.{IsWithin, fetched_of, file_limit};
ghost use Rattle.mss_command.specs.Outcome.{outcome_of};
ghost use Rattle.mss_command.specs.Promised.{SaysOnly};
ghost use Rattle.mss_command.specs.Questions.{AskLacks, Asks, may_end_asking};
ghost use Rattle.mss_report.specs.Evaluation.{Prints};
ghost use Rattle.mss_evaluate.specs.Evaluate.{CycleDefines, PrintedEvaluation, evaluation_may_answer, text_in};
ghost use Rattle.mss_evaluate.specs.EvaluateLaws.{evaluation_keeps};

use mss_command::{
    Command, Contents, JudgedCycle, Question, Reply, Status, Stop, ask, judge_cycle,
};
use mss_desk::Desk;
use mss_enclose::Kernel;
use mss_model::{Cycle, MOST_BYTES, NoMemory, Tables, Text};
use mss_report::{evaluate_json, evaluate_text};
use std::alloc::Global;

/// In which form a report is said.
#[derive(Clone, Copy, Debug, PartialEq, Eq)]
pub enum Form {
    Plain,
    Json,
}

/// The peak of the cycle of cycle.csv, and its census, admissions and discharges ward by ward and day by day.
#[derive(Clone, Copy, Debug)]
pub struct Evaluation {
    pub form: Form,
}

impl Question for Evaluation {
    ghost name = { λ question. Some cycle_file };

    ghost limit = { λ question. file_limit };

    ghost Answers = { λ question. CycleDefines (text_in question.form) };

    ghost may_answer = { λ question. evaluation_may_answer };

    fn file(&self) -> Option<&'static str> {
        Some("cycle.csv")
    }

    fn most_bytes(&self) -> usize {
        MOST_BYTES
    }

    fn answer<K: Kernel>(
        &self,
        alloc: Global,
        kernel: &K,
        tables: &Tables,
        contents: &Contents,
    ) -> Result<Reply, NoMemory> {
        match judge_cycle(alloc, tables, contents)? {
            JudgedCycle::Legal(cycle) => {
                let text = text_of(alloc, kernel, tables, &cycle, self.form)?;
                Ok(Reply::saying(alloc, Status::Done, text))
            }
            JudgedCycle::Refused(reply) => Ok(reply),
        }
    }
}

impl Command for Evaluation {
    ghost Defines = { λ command. Asks (CycleDefines (text_in command.form)) (Some cycle_file) file_limit };

    ghost Lacks = { λ command. AskLacks (Some cycle_file) file_limit };

    ghost may_end = { λ command. may_end_asking evaluation_may_answer };

    ghost Promised = { λ command. SaysOnly (PrintedEvaluation (text_in command.form)) };

    fn prepare<D: Desk, K: Kernel>(
        &self,
        alloc: Global,
        desk: &mut D,
        kernel: &K,
    ) -> Result<Reply, Stop> {
        ask(alloc, self, desk, kernel)
    }

    ghost keeps = { λ command. evaluation_keeps (text_in command.form) };
}

/// The text of the evaluation of a cycle, in this form.
fn text_of<K: Kernel>(
    alloc: Global,
    kernel: &K,
    tables: &Tables,
    cycle: &Cycle,
    form: Form,
) -> Result<Text, NoMemory>
    requires slots { length cycle.now ≡ slot_count (parts_of tables.now) }
    requires options { All (λ option. option < option_count (parts_of tables.now)) cycle.now }
    ensures { IfOk result (λ text. Prints (text_in form) (parts_of tables.now) cycle.now text) }
{
    match form {
        Form::Plain => evaluate_text(alloc, kernel, tables, cycle),
        Form::Json => evaluate_json(alloc, kernel, tables, cycle),
    }
}
