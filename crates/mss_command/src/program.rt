//! What a program does around its top call: it gets its words, and ends with a status.
ghost use Rattle.std.specs.Prelude.{◌≡◌};
ghost use Rattle.std.specs.Process.{exit_status};
ghost use Rattle.mss_command.specs.Status.{status_number};

use crate::status::Status;
use std::env::{Env, args};
use std::io::ErrorKind;
use std::process::ExitCode;

// The system refused the words for another cause than want of memory.
const NO_WORDS: u8 = 11;

/// The words after the program's name. Where the system refuses them, standard error says why, and the program is to
/// end with the given code: that of want of memory, or 11.
pub fn words<R: Env + AllocGlobal + Eprint>(
    rt: &R,
    program: &str,
) -> Result<Vec<String>, ExitCode> {
    match args(rt) {
        Ok(all) => {
            let mut words = Vec::new(rt.alloc());
            for word in all.skip(1) {
                if words.push(word).is_err() {
                    return Err(exit_code(rt, program, Status::NoMemory));
                }
            }
            Ok(words)
        }
        Err(e) if e.kind() == ErrorKind::OutOfMemory => {
            Err(exit_code(rt, program, Status::NoMemory))
        }
        Err(e) => {
            let _ = eprintln!(rt; "{program}: the words of the command line: {e}");
            Err(ExitCode::from(NO_WORDS))
        }
    }
}

/// The code with which the program ends. Want of memory is told on standard error; the desk told of reads and writes
/// that failed.
pub fn exit_code<R: Eprint>(rt: &R, program: &str, status: Status) -> ExitCode
    ensures { exit_status result ≡ status_number status }
{
    if status == Status::NoMemory {
        let _ = eprintln!(rt; "{program}: not enough memory");
    }
    ExitCode::from(status.number())
}
