//! The files of a case, before and after its run.

use crate::case::{Case, CaseFile};
use crate::source::Source;
use anyhow::{Context, Result, bail};
use std::collections::BTreeMap;
use std::fs;
use std::io::ErrorKind;

/// Files by their names.
pub type FileSet = BTreeMap<String, Vec<u8>>;

/// The names of all files that a command of a program reads or puts.
pub const NAMES: [&str; 16] = [
    "settings.toml",
    "rooms.csv",
    "specialties.csv",
    "patients.csv",
    "stays.csv",
    "equipment.csv",
    "needs.csv",
    "unsuited.csv",
    "fixed.csv",
    "barred.csv",
    "block.csv",
    "cycle.csv",
    "planned.csv",
    "certificate.txt",
    "improved.csv",
    "weights.txt",
];

/// The files at entry: those of the folder, without those that are missing, and those of the case's own.
pub fn files_at_entry(rt: &HostRuntime, file: &CaseFile, case: &Case) -> Result<FileSet> {
    let mut files = BTreeMap::new(rt.alloc());
    if let Some(folder) = case.set(file) {
        add_folder(rt, folder, &mut files)?;
    }
    for name in &case.missing {
        if files.remove(name.as_str()).is_none() {
            bail!("{name} is missing already");
        }
    }
    add_sources(rt, &case.files, &mut files)?;
    Ok(files)
}

/// The files in the end: those at entry, but for those that must be put.
pub fn files_at_exit(rt: &HostRuntime, file: &CaseFile, case: &Case) -> Result<FileSet> {
    let mut files = files_at_entry(rt, file, case)?;
    add_sources(rt, &case.puts, &mut files)?;
    Ok(files)
}

// Adds all files of a folder that a command may read.
fn add_folder(rt: &HostRuntime, folder: &str, files: &mut FileSet) -> Result<()> {
    let before = files.len();
    for name in NAMES {
        let path = format!(in rt.alloc(); "{folder}/{name}")?;
        match fs::read(rt, path.as_str()) {
            Ok(bytes) => {
                files.insert(String::from_str(rt.alloc(), name)?, bytes)?;
            }
            Err(error) if error.kind() == ErrorKind::NotFound => {}
            Err(error) => return Err(error).context(format_args!("{path}")),
        }
    }
    if files.len() == before {
        bail!("{folder} holds no file of a command");
    }
    Ok(())
}

// Adds files, each in place of one of the same name.
fn add_sources(
    rt: &HostRuntime,
    sources: &BTreeMap<String, Source>,
    files: &mut FileSet,
) -> Result<()> {
    for (name, source) in sources {
        if !NAMES.contains(&name.as_str()) {
            bail!("{name} is no file of a command");
        }
        files.insert(name.clone()?, source.bytes(rt)?)?;
    }
    Ok(())
}
