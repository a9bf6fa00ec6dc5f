//! Where the bytes of a file or of a text come from.

use anyhow::{Context, Result};
use serde::Deserialize;
use std::fs;

/// Bytes, as a case says them.
#[derive(Drop, Deserialize)]
#[serde(untagged)]
pub enum Source {
    /// The text itself.
    Text(String),
    /// The bytes of a file.
    Stored(Stored),
    /// One byte, many times.
    Repeated(Repeated),
}

#[derive(Drop, Deserialize)]
#[serde(deny_unknown_fields)]
pub struct Stored {
    pub from: String,
    /// Whether only the first half of the bytes is meant.
    #[serde(default)]
    pub half: bool,
}

#[derive(Drop, Deserialize)]
#[serde(deny_unknown_fields)]
pub struct Repeated {
    pub byte: u8,
    pub times: usize,
}

impl Source {
    /// The bytes that are meant.
    pub fn bytes(&self, rt: &HostRuntime) -> Result<Vec<u8>> {
        match self {
            Source::Text(text) => Ok(Vec::from_slice(rt.alloc(), text.as_bytes())?),
            Source::Stored(stored) => stored.bytes(rt),
            Source::Repeated(run) => Ok(vec![in rt.alloc(); run.byte; run.times]?),
        }
    }
}

impl Stored {
    fn bytes(&self, rt: &HostRuntime) -> Result<Vec<u8>> {
        let name = self.from.as_str();
        let mut bytes = fs::read(rt, name).context(format_args!("{name}"))?;
        if self.half {
            let half = bytes.len() / 2;
            bytes.truncate(half);
        }
        Ok(bytes)
    }
}
