//! A desk in memory that never fails.
ghost use Rattle.std.specs.Prelude.{◌≡◌, [], OnOk, OnErr, option_map};
ghost use Rattle.std.specs.FinMap as map;
ghost use Rattle.mss_desk.specs.Desk.{Content};
ghost use Rattle.mss_desk.specs.Sure.{sure_seen};

use crate::shelf::{Shelf, give};
use crate::{Desk, ReadAnswer, WriteAnswer};
use mss_model::NoMemory;
use std::alloc::Global;
use std::marker::Model;

/// A desk in memory on which no call fails but the reading of a file that isn't there. Its counts of faults are 0.
#[derive(Drop)]
pub struct SureDesk {
    shelf: Shelf,
    said: Vec<u8>,
}

impl Model for SureDesk {
    ghost use Rattle.mss_desk.specs.Desk.{Content};
    ghost use Rattle.mss_desk.specs.Sure.{content_code};

    ghost Value = { Content };

    ghost coded = { content_code };

    ghost view = { λ d. record { files = d.shelf; said = d.said.items } };
}

impl SureDesk {
    /// A desk without files, on which nothing was said. It takes no memory.
    pub fn make(alloc: Global) -> SureDesk
        ensures files { result.files ≡ map.empty }
        ensures said { result.said ≡ [] }
    {
        SureDesk {
            shelf: Shelf::new(alloc),
            said: Vec::new(alloc),
        }
    }

    /// Makes the file hold these bytes.
    pub fn set_file(&mut self, name: &str, bytes: &[u8]) -> Result<(), NoMemory>
        ensures ok { OnOk result (self.new.files ≡ map.insert self.old.files name.now bytes.now) }
        ensures said { self.new.said ≡ self.old.said }
        ensures err { OnErr result (self.new ≡ self.old) }
    {
        self.shelf.set(name, bytes)
    }

    /// The bytes of a file, or `None` where there is no such file.
    pub fn file(&self, name: &str) -> Option<&[u8]>
        ensures { option_map (λ b. b.now) result ≡ map.get self.now.files name.now }
    {
        self.shelf.get(name)
    }

    /// All that was said.
    pub fn said_bytes(&self) -> &[u8]
        ensures { result.now ≡ self.now.said }
    {
        &self.said
    }
}

impl Desk for SureDesk {
    ghost seen = { sure_seen };

    fn read(&mut self, name: &str, limit: usize, out: &mut Vec<u8>) -> ReadAnswer {
        match self.shelf.get(name) {
            Some(bytes) => give(bytes, limit, out),
            None => ReadAnswer::Failed,
        }
    }

    fn put(&mut self, name: &str, bytes: &[u8]) -> WriteAnswer {
        match self.shelf.set(name, bytes) {
            Ok(()) => WriteAnswer::Done,
            Err(_) => WriteAnswer::NoMemory,
        }
    }

    fn say(&mut self, bytes: &[u8]) -> WriteAnswer {
        match self.said.extend_from_slice(bytes) {
            Ok(()) => WriteAnswer::Done,
            Err(_) => WriteAnswer::NoMemory,
        }
    }
}
