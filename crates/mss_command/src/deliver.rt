//! The one place that writes.
ghost use Rattle.std.specs.Prelude.{◌≡◌, ◌≤◌};
ghost use Rattle.mss_desk.specs.Desk.{BothTold, Rose};
ghost use Rattle.mss_command.specs.Outcome.{outcome_of, Delivers};

use crate::reply::Reply;
use mss_desk::{Desk, WriteAnswer};

/// Puts the files of a reply in their order, and then says its text. After a failure nothing more is called.
pub(crate) fn deliver<D: Desk>(desk: &mut D, reply: &Reply) -> WriteAnswer
    ensures content { BothTold (D.seen desk.old).told (D.seen desk.new).told (Delivers (outcome_of reply.now) result) }
    ensures read_faults { (D.seen desk.new).read_faults ≡ (D.seen desk.old).read_faults }
    ensures later { (D.seen desk.old).write_faults ≤ (D.seen desk.new).write_faults }
    ensures cause { result ≡ WriteAnswer.Failed → Rose (D.seen desk.old).write_faults (D.seen desk.new).write_faults }
{
    for put in &reply.puts {
        match desk.put(put.name, put.bytes.bytes()) {
            WriteAnswer::Done => {}
            WriteAnswer::Failed => return WriteAnswer::Failed,
            WriteAnswer::NoMemory => return WriteAnswer::NoMemory,
        }
    }
    desk.say(reply.text.bytes())
}
