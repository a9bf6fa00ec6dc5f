//! Commands, and how one is carried out.
ghost use Rattle.std.specs.Prelude.{◌≡◌, Bool};
ghost use Rattle.mss_desk.specs.Desk.{Content, Files};
ghost use Rattle.mss_command.specs.Answers.{EndsAs, EndsForMemory, EndsInReadFault, EndsInWriteFault, EndsPlainly, IsComplete, KeepsPromise, Prepares};
ghost use Rattle.mss_command.specs.Outcome.{Did, Outcome};
ghost use Rattle.mss_command.specs.declared.status.Status.{Status};

use crate::deliver::deliver;
use crate::reply::{Reply, Stop};
use crate::status::Status;
use mss_desk::{Desk, WriteAnswer};
use mss_enclose::Kernel;
use std::alloc::Global;

/// A command, which reads files and comes to a reply.
pub trait Command {
    // what the command comes to over these files
    ghost Defines: { Self → Files → Outcome → Type 0 };

    // a file that the command reads in its turn isn't there
    ghost Lacks: { Self → Files → Type 0 };

    // the statuses with which the command may end, beside faults of reading and writing and want of memory
    ghost may_end: { Self → Status → Bool };

    // what is promised of the contents before and after, by the status, in the words of the exact model alone
    ghost Promised: { Self → Status → Content → Content → Type 0 };

    /// What the command comes to. Nothing is put or said.
    fn prepare<D: Desk, K: Kernel>(
        &self,
        alloc: Global,
        desk: &mut D,
        kernel: &K,
    ) -> Result<Reply, Stop>
        ensures { Prepares (Defines self.now) (Lacks self.now) (may_end self.now) (D.seen desk.old) (D.seen desk.new) result };

    // What is put and said of an outcome keeps the promise.
    ghost keeps: { (command : Self) (o : Outcome) (c d : Content) → Defines command c.files o → Did o c d → Promised command o.status c d };
}

/// Carries out a command: reads its files, puts and says what it comes to, and answers how it ended. The kernel makes
/// the convolutions.
pub fn carry_out<D: Desk, K: Kernel, C: Command>(
    alloc: Global,
    command: &C,
    desk: &mut D,
    kernel: &K,
) -> Status
    ensures promise { KeepsPromise (C.Promised command.now) (D.seen desk.old) (D.seen desk.new) result }
    ensures plain { EndsPlainly (C.Defines command.now) (D.seen desk.old) (D.seen desk.new) result }
    ensures ends { EndsAs (C.may_end command.now) result }
    ensures read_fault { EndsInReadFault (C.Lacks command.now) (D.seen desk.old) (D.seen desk.new) result }
    ensures write_fault { EndsInWriteFault (C.Defines command.now) (D.seen desk.old) (D.seen desk.new) result }
    ensures memory { EndsForMemory (C.Defines command.now) (D.seen desk.old) (D.seen desk.new) result }
    ensures complete { IsComplete (C.Defines command.now) (C.Lacks command.now) (D.seen desk.old) (D.seen desk.new) result }
{
    match command.prepare(alloc, desk, kernel) {
        Err(Stop::Read) => Status::ReadFault,
        Err(Stop::Memory) => Status::NoMemory,
        Ok(reply) => match deliver(desk, &reply) {
            WriteAnswer::Done => reply.status,
            WriteAnswer::Failed => Status::WriteFault,
            WriteAnswer::NoMemory => Status::NoMemory,
        },
    }
}
