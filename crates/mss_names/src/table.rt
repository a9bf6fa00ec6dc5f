//! A table of names.
ghost use Rattle.std.specs.Prelude.{◌≡◌, ◌↔◌, ℕ, ◌+◌, ◌-◌, ◌<◌, ◌≤◌, [], length, get_or, IfOk, IfErr, IfSome, IsTrue};
ghost use Rattle.mss_model.specs.Limits.{Between, AreNames};
ghost use Rattle.mss_names.specs.NameNumbers.{number_of};
ghost use Rattle.mss_names.specs.Adding.{Adds, Refuses};

use indexmap::IndexSet;
use mss_model::{NoMemory, is_name};
use std::alloc::Global;
use std::marker::Model;

/// Why a name isn't added to a table.
#[derive(Clone, Copy, Debug, PartialEq, Eq)]
pub enum NameRefusal {
    /// It breaks the name rule.
    BadName,
    /// It is new, and the table is full.
    TooMany,
    NoMemory,
}

/// Names in the order in which they were first added, numbered from 1.
#[derive(Drop)]
pub struct NameTable {
    alloc: Global,
    limit: u32,
    set: IndexSet<Vec<u8>>,
}

impl Model for NameTable {
    ghost use Rattle.mss_names.specs.NameNumbers.{NamesView};

    ghost Value = { NamesView };

    ghost use Rattle.mss_names.specs.TableView.{IsTable, view_of};

    ghost view = { view_of };

    ghost invariant = { IsTable };
}

impl NameTable {
    /// The empty table, with room for so many names.
    pub fn make(alloc: Global, limit: u32) -> Result<NameTable, NoMemory>
        ensures { IfOk result (λ table. table ≡ record { limit = limit; names = [] }) }
    {
        Ok(NameTable {
            alloc,
            limit,
            set: IndexSet::with_capacity(alloc, limit as usize)?,
        })
    }

    /// The number of a name, from 1, which is added if it is new.
    pub fn add(&mut self, name: &[u8]) -> Result<u32, NameRefusal>
        ensures ok { IfOk result (λ number. Adds self.old name.now number self.new) }
        ensures err { IfErr result (λ refusal. (self.new ≡ self.old) × Refuses self.old name.now refusal) }
    {
        if !is_name(name) {
            return Err(NameRefusal::BadName);
        }
        if let Some(number) = self.find(name) {
            return Ok(number);
        }
        if self.len() == self.limit {
            return Err(NameRefusal::TooMany);
        }
        let mut bytes = Vec::new(self.alloc);
        let Ok(()) = bytes.extend_from_slice(name) else {
            return Err(NameRefusal::NoMemory);
        };
        let Ok(_) = self.set.insert_full(bytes) else {
            return Err(NameRefusal::NoMemory);
        };
        Ok(self.len())
    }

    /// The number of a name, from 1, if the table has it.
    pub fn find(&self, name: &[u8]) -> Option<u32>
        ensures number { result ≡ number_of self.now.names name.now }
        ensures within { IfSome result (Between 1 (length self.now.names)) }
    {
        match self.set.get_index_of(name) {
            Some(place) => Some(place as u32 + 1),
            None => None,
        }
    }

    pub fn len(&self) -> u32
        ensures value { result ≡ length self.now.names }
        ensures names { AreNames 0 self.now.limit self.now.names }
    {
        self.set.len() as u32
    }

    pub fn is_empty(&self) -> bool
        ensures { IsTrue result ↔ (self.now.names ≡ []) }
    {
        self.set.is_empty()
    }

    /// The name with a number, from 1.
    pub fn name(&self, number: u32) -> &[u8]
        requires { Between 1 (length self.now.names) number }
        ensures { result.now ≡ get_or self.now.names (number - 1) [] }
    {
        &self.set.as_slice()[number as usize - 1]
    }
}
