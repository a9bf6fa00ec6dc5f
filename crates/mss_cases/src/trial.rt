//! The trial of one case.

use crate::case::{Case, CaseFile};
use crate::difference::{Difference, change_of};
use crate::expected::Expected;
use crate::files::{FileSet, NAMES, files_at_entry, files_at_exit};
use crate::seam::end_of;
use anyhow::{Result, anyhow};
use mss_desk::MemoryDesk;
use std::alloc::{AllocError, Global};

/// Runs a case, and answers how what comes differs from what must come, if it does.
pub fn difference_of(rt: &HostRuntime, file: &CaseFile, case: &Case) -> Result<Option<Difference>> {
    let program = case.program(file)?;
    let words = case.words(file)?;
    let status = case.status(file)?;
    let mut desk = desk_of(rt.alloc(), &files_at_entry(rt, file, case)?, &case.fails)?;
    let ended = end_of(rt.alloc(), program, words, &mut desk);
    match of_status(ended.status, status)
        .or(of_calls(desk.calls(), case.calls(file)))
        .or(of_convolutions(ended.convolutions, case.convolutions))
    {
        Some(difference) => Ok(Some(difference)),
        None => of_bytes(rt, file, case, &desk),
    }
}

// How what was said, or a file, differs.
fn of_bytes(
    rt: &HostRuntime,
    file: &CaseFile,
    case: &Case,
    desk: &MemoryDesk,
) -> Result<Option<Difference>> {
    let expected = Expected::of(rt, file, case)?;
    match expected.difference(rt.alloc(), desk.said_bytes())? {
        Some(difference) => Ok(Some(difference)),
        None => Ok(of_files(rt.alloc(), desk, &files_at_exit(rt, file, case)?)?),
    }
}

// A desk that holds these files, and whose calls with these numbers fail.
fn desk_of(alloc: Global, files: &FileSet, fails: &[u32]) -> Result<MemoryDesk> {
    let mut desk = MemoryDesk::make(alloc);
    for (name, bytes) in files {
        if desk.set_file(name.as_str(), bytes.as_slice()).is_err() {
            return Err(anyhow!("no memory"));
        }
    }
    for call in fails {
        if desk.fail_at(*call).is_err() {
            return Err(anyhow!("no memory"));
        }
    }
    Ok(desk)
}

// How the status differs.
fn of_status(came: u8, wanted: u8) -> Option<Difference> {
    if came == wanted {
        return None;
    }
    Some(Difference::Status { came, wanted })
}

// How the number of calls of the desk differs, where a case says it.
fn of_calls(came: u32, wanted: Option<u32>) -> Option<Difference> {
    match wanted {
        Some(wanted) if wanted != came => Some(Difference::Calls { came, wanted }),
        _ => None,
    }
}

// How the number of calls of the kernel differs, where a case says the least.
fn of_convolutions(came: u32, least: Option<u32>) -> Option<Difference> {
    match least {
        Some(least) if came < least => Some(Difference::Convolutions { came, least }),
        _ => None,
    }
}

// How the files of a desk differ from those that must be there.
fn of_files(
    alloc: Global,
    desk: &MemoryDesk,
    files: &FileSet,
) -> Result<Option<Difference>, AllocError> {
    for name in NAMES {
        let wanted = files.get(name).map(|bytes| bytes.as_slice());
        if let Some(difference) = of_file(alloc, name, desk.file(name), wanted)? {
            return Ok(Some(difference));
        }
    }
    Ok(None)
}

// How one file differs.
fn of_file(
    alloc: Global,
    name: &str,
    came: Option<&[u8]>,
    wanted: Option<&[u8]>,
) -> Result<Option<Difference>, AllocError> {
    let name = String::from_str(alloc, name)?;
    match (came, wanted) {
        (None, None) => Ok(None),
        (None, Some(_)) => Ok(Some(Difference::NoFile(name))),
        (Some(_), None) => Ok(Some(Difference::NewFile(name))),
        (Some(came), Some(wanted)) => match change_of(alloc, came, wanted)? {
            None => Ok(None),
            Some(change) => Ok(Some(Difference::File { name, change })),
        },
    }
}
