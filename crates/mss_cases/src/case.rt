//! Cases as their files say them.

use crate::seam::Program;
use crate::source::Source;
use anyhow::{Context, Result, anyhow};
use serde::Deserialize;
use std::collections::BTreeMap;
use std::fs;

/// The cases of one file. What stands before the first case holds of all that don't say otherwise.
#[derive(Drop, Deserialize)]
#[serde(deny_unknown_fields)]
pub struct CaseFile {
    program: Option<String>,
    words: Option<Vec<String>>,
    set: Option<String>,
    status: Option<u8>,
    calls: Option<u32>,
    says: Option<Source>,
    #[serde(rename = "case")]
    pub cases: Vec<Case>,
}

/// One case: what a command is given, and what must come.
#[derive(Drop, Deserialize)]
#[serde(deny_unknown_fields)]
pub struct Case {
    /// What the case shows.
    pub name: String,
    /// Whether the case is wrong on purpose, so that it must be told as different.
    #[serde(default)]
    pub wrong: bool,
    /// The program that is run: `mss`, where nothing is said, or `mss_improve`.
    program: Option<String>,
    /// The words after the program's name.
    words: Option<Vec<String>>,
    /// The folder of the files at entry.
    set: Option<String>,
    /// Files that are at entry in place of those of the folder, or beside them.
    #[serde(default)]
    pub files: BTreeMap<String, Source>,
    /// Files of the folder that aren't there at entry.
    #[serde(default)]
    pub missing: Vec<String>,
    /// The numbers of the calls of the desk that fail.
    #[serde(default)]
    pub fails: Vec<u32>,
    /// The number of the status that must come.
    status: Option<u8>,
    /// How many calls of the desk must be made.
    calls: Option<u32>,
    /// The least number of calls of the kernel.
    pub convolutions: Option<u32>,
    /// All that must be said.
    says: Option<Source>,
    /// Lines that must be said in this order, perhaps with others before, between and after them.
    #[serde(default)]
    pub lines: Vec<String>,
    /// Files that must be there in the end. All others must be as at entry.
    #[serde(default)]
    pub puts: BTreeMap<String, Source>,
}

/// The cases of a file.
pub fn read_cases(rt: &HostRuntime, name: &str) -> Result<CaseFile> {
    let text = fs::read_to_string(rt, name).context(format_args!("{name}"))?;
    toml::from_str(rt.alloc(), text.as_str()).context(format_args!("{name}"))
}

impl Case {
    /// The program that is run.
    pub fn program(&self, file: &CaseFile) -> Result<Program> {
        match self.program.as_ref().or(file.program.as_ref()) {
            None => Ok(Program::Mss),
            Some(name) if name.as_str() == "mss" => Ok(Program::Mss),
            Some(name) if name.as_str() == "mss_improve" => Ok(Program::MssImprove),
            Some(name) => Err(anyhow!("{name} is no program")),
        }
    }

    /// The words after the program's name.
    pub fn words<'a>(&'a self, file: &'a CaseFile) -> Result<&'a [String]> {
        match self.words.as_ref().or(file.words.as_ref()) {
            Some(words) => Ok(words.as_slice()),
            None => Err(anyhow!("a case needs words")),
        }
    }

    /// The folder of the files at entry, if any.
    pub fn set<'a>(&'a self, file: &'a CaseFile) -> Option<&'a str> {
        match self.set.as_ref().or(file.set.as_ref()) {
            Some(folder) => Some(folder.as_str()),
            None => None,
        }
    }

    /// The number of the status that must come.
    pub fn status(&self, file: &CaseFile) -> Result<u8> {
        self.status.or(file.status).context("a case needs a status")
    }

    /// How many calls of the desk must be made, where the case says it.
    pub fn calls(&self, file: &CaseFile) -> Option<u32> {
        self.calls.or(file.calls)
    }

    /// All that must be said, where the case says it.
    pub fn says<'a>(&'a self, file: &'a CaseFile) -> Option<&'a Source> {
        self.says.as_ref().or(file.says.as_ref())
    }
}
