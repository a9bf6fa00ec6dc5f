//! The top call.
ghost use Rattle.std.specs.Prelude.{◌≡◌, None};
ghost use Rattle.mss_command.specs.Answers.{EndsAs, EndsForMemory, EndsInReadFault, EndsInWriteFault, EndsPlainly, IsComplete, KeepsPromise};
ghost use Rattle.mss_timetable.specs.Requests.{Defines, Lacks, Promised, may_end, request_in};

use crate::check::WeightsCheck;
use crate::from_nothing::FromNothing;
use crate::from_today::FromToday;
use crate::request::{Request, request_of};
use mss_command::{Status, Usage, carry_out};
use mss_desk::Desk;
use mss_enclose::Kernel;
use mss_local::Progress;
use std::alloc::Global;

const USAGE: &[u8] = b"usage: mss_improve cycle NUMBER TRIES | new NUMBER TRIES | check\n";

/// Runs the command that the words ask for: reads its files, puts and says what it comes to, and answers how it ended.
/// The kernel makes the convolutions. The progress is told after each tenth of the tries; no clause speaks of it.
pub fn run<D: Desk, K: Kernel, P: Progress>(
    alloc: Global,
    words: &[String],
    desk: &mut D,
    kernel: &K,
    progress: &P,
) -> Status
    ensures promise { KeepsPromise (Promised (request_in words.now)) (D.seen desk.old) (D.seen desk.new) result }
    ensures plain { EndsPlainly (Defines (request_in words.now)) (D.seen desk.old) (D.seen desk.new) result }
    ensures ends { EndsAs (may_end (request_in words.now)) result }
    ensures words { result ≡ Status.Words → request_in words.now ≡ None }
    ensures read_fault { EndsInReadFault (Lacks (request_in words.now)) (D.seen desk.old) (D.seen desk.new) result }
    ensures write_fault { EndsInWriteFault (Defines (request_in words.now)) (D.seen desk.old) (D.seen desk.new) result }
    ensures memory { EndsForMemory (Defines (request_in words.now)) (D.seen desk.old) (D.seen desk.new) result }
    ensures complete { IsComplete (Defines (request_in words.now)) (Lacks (request_in words.now)) (D.seen desk.old) (D.seen desk.new) result }
{
    match request_of(words) {
        None => carry_out(alloc, &Usage { text: USAGE }, desk, kernel),
        Some(Request::Cycle(effort)) => {
            carry_out(alloc, &FromToday { effort, progress }, desk, kernel)
        }
        Some(Request::New(effort)) => {
            carry_out(alloc, &FromNothing { effort, progress }, desk, kernel)
        }
        Some(Request::Check) => carry_out(alloc, &WeightsCheck, desk, kernel),
    }
}
