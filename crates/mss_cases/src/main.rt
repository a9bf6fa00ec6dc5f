//! The worked cases of the commands. Each case of the files that the words name is run over a desk in memory, and what
//! comes is compared with what the case says, byte for byte (README.md has the format).
//!
//! The program ends with 0 where each case came as expected, but for those that are wrong on purpose, with 1 where
//! another case came differently or a wrong one as expected, and with 2 where a case can't be read.
#![tactic(auto)]

mod case;
mod difference;
mod expected;
mod files;
mod seam;
mod source;
mod tally;
mod trial;

use crate::case::{Case, CaseFile, read_cases};
use crate::tally::Tally;
use crate::trial::difference_of;
use anyhow::{Context, Result};
use std::env;
use std::process::ExitCode;

fn main(rt: HostRuntime) -> ExitCode {
    match try_files(&rt) {
        Ok(tally) if tally.is_as_marked() => ExitCode::from(0),
        Ok(_) => ExitCode::from(1),
        Err(error) => {
            let _ = eprintln!(rt; "{error:#}");
            ExitCode::from(2)
        }
    }
}

// Tries the cases of all files that the words name.
fn try_files(rt: &HostRuntime) -> Result<Tally> {
    let mut tally = Tally::new();
    for name in env::args(rt)?.skip(1) {
        let file = read_cases(rt, name.as_str())?;
        for case in &file.cases {
            try_case(rt, &file, case, &mut tally)?;
        }
    }
    println!(rt; "{tally}")?;
    Ok(tally)
}

// Tries one case, and prints its line.
fn try_case(rt: &HostRuntime, file: &CaseFile, case: &Case, tally: &mut Tally) -> Result<()> {
    let name = case.name.as_str();
    let difference = difference_of(rt, file, case).context(format_args!("{name}"))?;
    tally.count(difference.is_some(), case.wrong);
    match difference {
        None => println!(rt; "{name}: as expected")?,
        Some(difference) => println!(rt; "{name}: different: {difference}")?,
    }
    Ok(())
}
