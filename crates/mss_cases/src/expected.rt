//! What must be said.

use crate::case::{Case, CaseFile};
use crate::difference::{Difference, change_of};
use anyhow::{Result, bail};
use std::alloc::{AllocError, Global};

/// What must be said: all bytes, or some lines.
#[derive(Drop)]
pub enum Expected<'a> {
    All(Vec<u8>),
    Lines(&'a [String]),
}

impl<'a> Expected<'a> {
    /// What a case says of the text. Its own lines go before what its file says of all cases.
    pub fn of(rt: &HostRuntime, file: &CaseFile, case: &'a Case) -> Result<Expected<'a>> {
        if !case.lines.is_empty() {
            return Ok(Expected::Lines(case.lines.as_slice()));
        }
        match case.says(file) {
            Some(source) => Ok(Expected::All(source.bytes(rt)?)),
            None => bail!("a case needs what is said"),
        }
    }

    /// How a text that was said differs, if it does.
    pub fn difference(&self, alloc: Global, said: &[u8]) -> Result<Option<Difference>, AllocError> {
        match self {
            Expected::All(text) => Ok(change_of(alloc, said, text)?.map(Difference::Said)),
            Expected::Lines(lines) => missing_line(lines, said),
        }
    }
}

// The first of these lines that isn't found after those before it.
fn missing_line(lines: &[String], said: &[u8]) -> Result<Option<Difference>, AllocError> {
    let mut wanted = lines.iter();
    let mut next = wanted.next();
    for line in said.split(|byte| *byte == b'\n') {
        if next.is_some_and(|text| text.as_bytes() == line) {
            next = wanted.next();
        }
    }
    match next {
        None => Ok(None),
        Some(line) => Ok(Some(Difference::Line(line.clone()?))),
    }
}
