//! The program `mss`: runs the command that its words ask for over the files of the current folder and standard output,
//! and ends with the number of its status, or with a number of its own where it got no words. Standard error says why a
//! file or the output failed, and that memory was wanting.
#![tactic(auto)]

use mss_app::run;
use mss_command::{exit_code, words};
use mss_desk::FolderDesk;
use mss_enclose::Plain;
use std::process::ExitCode;

const PROGRAM: &str = "mss";

fn main(rt: HostRuntime) -> ExitCode {
    let words = match words(&rt, PROGRAM) {
        Ok(words) => words,
        Err(code) => return code,
    };
    let mut desk = FolderDesk::make(rt, PROGRAM);
    let status = run(rt.alloc(), words.as_slice(), &mut desk, &Plain);
    exit_code(&rt, PROGRAM, status)
}
