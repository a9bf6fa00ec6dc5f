//! The command `check`: what the weights of weights.txt prove of all legal cycles.
ghost use Rattle.std.specs.Prelude.{◌≡◌, Some, IfOk, IsTrue};
ghost use Rattle.mss_model.specs.PartsOf.{parts_of};
ghost use Rattle.mss_command.specs.Answers.{Prepares};
ghost use Rattle.mss_command.specs.Checks.{check_may_answer};
ghost use Rattle.mss_command.specs.Fetched.{IsWithin, fetched_of};
ghost use Rattle.mss_command.specs.Outcome.{outcome_of, saying};
ghost use Rattle.mss_command.specs.Promised.{SaysOnly};
ghost use Rattle.mss_command.specs.Questions.{AskLacks, Asks, may_end_asking};
ghost use Rattle.mss_timetable.specs.Check.{CheckDefines, SaysLower, VerdictDefines};
ghost use Rattle.mss_timetable.specs.CheckLaws.{check_keeps};
ghost use Rattle.mss_timetable.specs.CheckTexts.{fault_text_of};
ghost use Rattle.mss_timetable.specs.Lower.{weights_file, weights_limit};

use crate::check_texts::{accepted_text, fault_text, not_shown_text};
use mss_command::{Command, Contents, Question, Reply, Status, Stop, ask};
use mss_desk::Desk;
use mss_enclose::Kernel;
use mss_model::{NoMemory, Tables};
use mss_weights::{
    MOST_WEIGHTS_BYTES, Weights, WeightsFault, WeightsKind, WeightsRefusal, check_weights,
    read_weights,
};
use std::alloc::Global;

/// Whether the weights of weights.txt show their number under the tables. It knows nothing of how they were found.
#[derive(Clone, Copy, Debug)]
pub struct WeightsCheck;

/// The fault of a file that is longer than its limit.
const TOO_LONG: WeightsFault = WeightsFault {
    line: 0,
    kind: WeightsKind::TooLong,
};

impl Question for WeightsCheck {
    ghost name = { λ question. Some weights_file };

    ghost limit = { λ question. weights_limit };

    ghost Answers = { λ question. CheckDefines };

    ghost may_answer = { λ question. check_may_answer };

    fn file(&self) -> Option<&'static str> {
        Some("weights.txt")
    }

    fn most_bytes(&self) -> usize {
        MOST_WEIGHTS_BYTES
    }

    fn answer<K: Kernel>(
        &self,
        alloc: Global,
        kernel: &K,
        tables: &Tables,
        contents: &Contents,
    ) -> Result<Reply, NoMemory> {
        let bytes = match contents {
            Contents::Bytes(bytes) => bytes,
            Contents::TooLong => return fault_reply(alloc, &TOO_LONG),
        };
        match read_weights(alloc, bytes) {
            Ok(weights) => verdict_reply(alloc, kernel, tables, &weights),
            Err(WeightsRefusal::Fault(fault)) => fault_reply(alloc, &fault),
            Err(WeightsRefusal::NoMemory) => Err(NoMemory),
        }
    }
}

impl Command for WeightsCheck {
    ghost Defines = { λ command. Asks CheckDefines (Some weights_file) weights_limit };

    ghost Lacks = { λ command. AskLacks (Some weights_file) weights_limit };

    ghost may_end = { λ command. may_end_asking check_may_answer };

    ghost Promised = { λ command. SaysOnly SaysLower };

    fn prepare<D: Desk, K: Kernel>(
        &self,
        alloc: Global,
        desk: &mut D,
        kernel: &K,
    ) -> Result<Reply, Stop> {
        ask(alloc, self, desk, kernel)
    }

    ghost keeps = { λ command. check_keeps };
}

/// The reply to a fault of the text.
fn fault_reply(alloc: Global, fault: &WeightsFault) -> Result<Reply, NoMemory>
    ensures outcome { IfOk result (λ reply. outcome_of reply ≡ saying Status.Certificate (fault_text_of fault.now)) }
    ensures status { IfOk result (λ reply. IsTrue (check_may_answer reply.status)) }
{
    Ok(Reply::saying(alloc, Status::Certificate, fault_text(alloc, fault)?))
}

/// The reply to weights under these tables: their number where they show it.
fn verdict_reply<K: Kernel>(
    alloc: Global,
    kernel: &K,
    tables: &Tables,
    weights: &Weights,
) -> Result<Reply, NoMemory>
    ensures defines { IfOk result (λ reply. VerdictDefines (parts_of tables.now) weights.now (outcome_of reply)) }
    ensures status { IfOk result (λ reply. IsTrue (check_may_answer reply.status)) }
{
    if check_weights(alloc, kernel, tables, weights)? {
        let text = accepted_text(alloc, weights.number)?;
        Ok(Reply::saying(alloc, Status::Done, text))
    } else {
        Ok(Reply::saying(alloc, Status::Certificate, not_shown_text(alloc)?))
    }
}
