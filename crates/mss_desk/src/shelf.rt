//! Files in memory, which contracts see as a finite map from the bytes of a name to the bytes of the file.
ghost use Rattle.std.specs.Prelude.{◌≡◌, ◌≢◌, [], Some, OnOk, OnErr, option_map};
ghost use Rattle.std.specs.FinMap as map;
ghost use Rattle.mss_desk.specs.Desk.{Files, ReadGives, ReadBound};

use crate::ReadAnswer;
use mss_model::NoMemory;
use std::alloc::Global;
use std::collections::BTreeMap;
use std::marker::Model;

#[derive(Drop)]
pub(crate) struct Shelf {
    alloc: Global,
    files: BTreeMap<String, Vec<u8>>,
}

impl Model for Shelf {
    ghost use Rattle.std.specs.FinMap as map;
    ghost use Rattle.mss_desk.specs.Desk.{Files};
    ghost use Rattle.mss_desk.specs.Memory.{bytes_code};

    ghost Value = { Files };

    ghost coded = { map.code bytes_code bytes_code };

    ghost use Rattle.mss_desk.specs.Shelf.{shelved};

    ghost view = { λ s. shelved s.files.entries };
}

impl Shelf {
    /// No file. It takes no memory.
    pub(crate) fn new(alloc: Global) -> Shelf
        ensures { result ≡ map.empty }
    {
        Shelf {
            alloc,
            files: BTreeMap::new(alloc),
        }
    }

    pub(crate) fn get(&self, name: &str) -> Option<&[u8]>
        ensures { option_map (λ b. b.now) result ≡ map.get self.now name.now }
    {
        match self.files.get(name) {
            Some(bytes) => Some(bytes.as_slice()),
            None => None,
        }
    }

    /// Makes the file hold these bytes.
    pub(crate) fn set(&mut self, name: &str, bytes: &[u8]) -> Result<(), NoMemory>
        ensures ok { OnOk result (self.new ≡ map.insert self.old name.now bytes.now) }
        ensures err { OnErr result (self.new ≡ self.old) }
    {
        let key = String::from_str(self.alloc, name)?;
        let value = bytes.to_vec(self.alloc)?;
        self.files.insert(key, value)?;
        Ok(())
    }
}

/// Gives a file's bytes to a reader: all of them, or where they are more than `limit` the first `limit + 1`.
pub(crate) fn give(bytes: &[u8], limit: usize, out: &mut Vec<u8>) -> ReadAnswer
    requires { out.old.items ≡ [] }
    ensures gives { ReadGives (Some bytes.now) limit result out.new.items }
    ensures bound { ReadBound limit result out.new.items }
    ensures whole { result ≢ ReadAnswer.Failed }
{
    if bytes.len() <= limit {
        match out.extend_from_slice(bytes) {
            Ok(()) => ReadAnswer::Done,
            Err(_) => ReadAnswer::NoMemory,
        }
    } else {
        match out.extend_from_slice(&bytes[..limit + 1]) {
            Ok(()) => ReadAnswer::More,
            Err(_) => ReadAnswer::NoMemory,
        }
    }
}
