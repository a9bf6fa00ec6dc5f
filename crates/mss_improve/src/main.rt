//! The program `mss_improve`: runs the command that its words ask for over the files of the current folder and standard
//! output, and ends with the number of its status, or with a number of its own where it got no words. Standard error says
//! after each tenth of the tries how far it is, why a file or the output failed, and that memory was wanting.
#![tactic(auto)]

use mss_command::{exit_code, words};
use mss_desk::FolderDesk;
use mss_enclose::Plain;
use mss_timetable::{Progress, run};
use std::process::ExitCode;

const PROGRAM: &str = "mss_improve";

// A line on standard error after each tenth of the tries.
#[derive(Drop)]
struct Lines<'a, R> {
    rt: &'a R,
}

impl<'a, R: Eprint> Progress for Lines<'a, R> {
    fn tell(&self, percent: u32, upper: u32) {
        let _ = eprintln!(self.rt; "{PROGRAM}: {percent}% upper {upper}");
    }
}

fn main(rt: HostRuntime) -> ExitCode {
    let words = match words(&rt, PROGRAM) {
        Ok(words) => words,
        Err(code) => return code,
    };
    let mut desk = FolderDesk::make(rt, PROGRAM);
    let lines = Lines { rt: &rt };
    let status = run(rt.alloc(), words.as_slice(), &mut desk, &Plain, &lines);
    exit_code(&rt, PROGRAM, status)
}
