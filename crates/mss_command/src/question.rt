//! Questions about the tables, as commands.
ghost use Rattle.std.specs.Prelude.{◌≡◌, ◌⊎◌, ◌≤◌, ℕ, Bool, List, Option, Err, IfOk, IsTrue, option_map};
ghost use Rattle.mss_model.specs.PartsOf.{parts_of};
ghost use Rattle.mss_model.specs.declared.parts.TableParts.{TableParts};
ghost use Rattle.mss_desk.specs.Desk.{IfTold, Rose};
ghost use Rattle.mss_command.specs.Answers.{IsLacking, Prepares};
ghost use Rattle.mss_command.specs.Fetched.{Fetched, IsWithin, fetched_of};
ghost use Rattle.mss_command.specs.Outcome.{Outcome, outcome_of};
ghost use Rattle.mss_command.specs.Questions.{AskLacks, Asks, AsksUnder, WantedLacks, may_end_asking, wanted};
ghost use Rattle.mss_command.specs.Status.{ends_by};
ghost use Rattle.mss_command.specs.declared.status.Status.{Status};

use crate::reading::{Contents, fetch};
use crate::reply::{Reply, Stop};
use crate::tables::{Judged, judge_tables};
use mss_desk::Desk;
use mss_enclose::Kernel;
use mss_model::{NoMemory, Tables};
use std::alloc::Global;

/// A question about tables, which may read one file beside them.
pub trait Question {
    // the name of the file that is read beside the tables, if there is one, and its most bytes
    ghost name: { Self → Option (List ℕ) };

    ghost limit: { Self → ℕ };

    // what is said under these tables where that file was read like this
    ghost Answers: { Self → TableParts → Fetched → Outcome → Type 0 };

    // the statuses of the answers
    ghost may_answer: { Self → Status → Bool };

    /// The name of the file that is read beside the tables.
    fn file(&self) -> Option<&'static str>
        ensures { option_map (λ name. name.now) result ≡ name self.now };

    /// The most bytes of that file.
    fn most_bytes(&self) -> usize
        ensures { result ≡ limit self.now };

    /// The answer under these tables, from what the file holds (no bytes where none is read).
    fn answer<K: Kernel>(
        &self,
        alloc: Global,
        kernel: &K,
        tables: &Tables,
        contents: &Contents,
    ) -> Result<Reply, NoMemory>
        requires { IsWithin (limit self.now) contents.now }
        ensures answers { IfOk result (λ reply. Answers self.now (parts_of tables.now) (fetched_of contents.now) (outcome_of reply)) }
        ensures status { IfOk result (λ reply. IsTrue (ends_by (may_answer self.now) reply.status)) };
}

/// Reads the tables, and then the file of the question where they are accepted, and replies with its answer, or with
/// the first fault of the tables.
pub fn ask<D: Desk, K: Kernel, Q: Question>(
    alloc: Global,
    question: &Q,
    desk: &mut D,
    kernel: &K,
) -> Result<Reply, Stop>
    ensures { Prepares (Asks (Q.Answers question.now) (Q.name question.now) (Q.limit question.now))
        (AskLacks (Q.name question.now) (Q.limit question.now)) (may_end_asking (Q.may_answer question.now))
        (D.seen desk.old) (D.seen desk.new) result }
{
    let judged = judge_tables(alloc, desk)?;
    match judged {
        Judged::Tables(tables) => {
            let reply = answer_under(alloc, question, desk, kernel, &tables);
            // (as a call, so that the proof of this body doesn't take the tables apart)
            drop(tables);
            reply
        }
        Judged::Refused(reply) => Ok(reply),
    }
}

/// Reads the file of the question, and replies with its answer under these tables.
fn answer_under<D: Desk, K: Kernel, Q: Question>(
    alloc: Global,
    question: &Q,
    desk: &mut D,
    kernel: &K,
    tables: &Tables,
) -> Result<Reply, Stop>
    ensures { Prepares (AsksUnder (Q.Answers question.now) (parts_of tables.now) (Q.name question.now) (Q.limit question.now))
        (WantedLacks (Q.name question.now) (Q.limit question.now)) (Q.may_answer question.now)
        (D.seen desk.old) (D.seen desk.new) result }
{
    let contents = fetch_wanted(alloc, desk, question.file(), question.most_bytes())?;
    Ok(question.answer(alloc, kernel, tables, &contents)?)
}

/// Reads the file that is wanted; no bytes where none is.
fn fetch_wanted<D: Desk>(
    alloc: Global,
    desk: &mut D,
    name: Option<&'static str>,
    limit: usize,
) -> Result<Contents, Stop>
    ensures contents { IfTold (D.seen desk.old).told (λ c. IfOk result (λ r. wanted (option_map (λ text. text.now) name.entry) limit c.files ≡ fetched_of r)) }
    ensures within { IfOk result (IsWithin limit) }
    ensures content { (D.seen desk.new).told ≡ (D.seen desk.old).told }
    ensures write_faults { (D.seen desk.new).write_faults ≡ (D.seen desk.old).write_faults }
    ensures later { (D.seen desk.old).read_faults ≤ (D.seen desk.new).read_faults }
    ensures cause { result ≡ Err Stop.Read → Rose (D.seen desk.old).read_faults (D.seen desk.new).read_faults ⊎ IsLacking (WantedLacks (option_map (λ text. text.now) name.entry) limit) (D.seen desk.old).told }
{
    match name {
        Some(name) => fetch(alloc, desk, name, limit),
        None => Ok(Contents::Bytes(Vec::new(alloc))),
    }
}
