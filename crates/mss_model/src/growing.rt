//! Lists that grow at their end.
ghost use Rattle.std.specs.Prelude.{◌≡◌, ℕ, ◌<◌, ◌≤◌, List, [], ◌∷◌, ◌++◌, length, map, get_or, IsTrue, ◌↔◌, OnOk, OnErr};

use crate::no_memory::NoMemory;
use std::alloc::Global;
use std::marker::Model;

/// A list of numbers, which grows at its end.
#[derive(Debug, Drop)]
pub struct Numbers {
    numbers: Vec<u32>,
}

impl Model for Numbers {
    ghost Value = { List ℕ };

    ghost view = { λ n. n.numbers.items };
}

impl Numbers {
    /// The empty list. It takes no memory.
    pub fn make(alloc: Global) -> Numbers
        ensures { result ≡ [] }
    {
        Numbers {
            numbers: Vec::new(alloc),
        }
    }

    /// Adds a number at the end.
    pub fn push(&mut self, value: u32) -> Result<(), NoMemory>
        ensures ok { OnOk result (self.new ≡ self.old ++ value ∷ []) }
        ensures err { OnErr result (self.new ≡ self.old) }
    {
        self.numbers.push(value)?;
        Ok(())
    }

    pub fn as_slice(&self) -> &[u32]
        ensures { result.now ≡ self.now }
    {
        &self.numbers
    }
}

/// A text as its bytes, which grows at its end.
#[derive(Debug, Drop)]
pub struct Text {
    bytes: Vec<u8>,
}

impl Model for Text {
    ghost Value = { List ℕ };

    ghost view = { λ t. t.bytes.items };
}

impl Text {
    /// The empty text. It takes no memory.
    pub fn make(alloc: Global) -> Text
        ensures { result ≡ [] }
    {
        Text {
            bytes: Vec::new(alloc),
        }
    }

    /// Adds bytes at the end.
    pub fn push(&mut self, bytes: &[u8]) -> Result<(), NoMemory>
        ensures ok { OnOk result (self.new ≡ self.old ++ bytes.now) }
        ensures err { OnErr result (self.new ≡ self.old) }
    {
        self.bytes.extend_from_slice(bytes)?;
        Ok(())
    }

    pub fn bytes(&self) -> &[u8]
        ensures { result.now ≡ self.now }
    {
        &self.bytes
    }

    /// The bytes alone. It takes no memory.
    pub fn into_bytes(self) -> Vec<u8>
        ensures { result.items ≡ self }
    {
        self.bytes
    }
}

/// The most members of a list whose length is a u32, so that each line of a text on them has a number too.
pub const MOST_MEMBERS: u32 = 4_294_967_292;

/// A list of names, each as its bytes, which grows at its end.
#[derive(Debug, Drop)]
pub struct Names {
    alloc: Global,
    names: Vec<Vec<u8>>,
}

impl Model for Names {
    ghost use Rattle.std.specs.Prelude.{ℕ, ◌≤◌, List, length, map};
    ghost use Rattle.mss_model.specs.declared.growing.TheConstants.{MOST_MEMBERS};

    ghost Value = { List (List ℕ) };

    ghost view = { λ n. map (λ name. name.items) n.names.items };

    ghost invariant = { λ n. length n.names.items ≤ MOST_MEMBERS };
}

impl Names {
    /// The empty list. It takes no memory.
    pub fn make(alloc: Global) -> Names
        ensures { result ≡ [] }
    {
        Names {
            alloc,
            names: Vec::new(alloc),
        }
    }

    /// Adds a name at the end.
    pub fn push(&mut self, name: &[u8]) -> Result<(), NoMemory>
        requires room { length self.old < MOST_MEMBERS }
        ensures ok { OnOk result (self.new ≡ self.old ++ name.now ∷ []) }
        ensures err { OnErr result (self.new ≡ self.old) }
    {
        let mut bytes = Vec::new(self.alloc);
        bytes.extend_from_slice(name)?;
        self.names.push(bytes)?;
        Ok(())
    }

    pub fn len(&self) -> u32
        ensures value { result ≡ length self.now }
        ensures few { result ≤ MOST_MEMBERS }
    {
        self.names.len() as u32
    }

    pub fn is_empty(&self) -> bool
        ensures { IsTrue result ↔ (self.now ≡ []) }
    {
        self.names.is_empty()
    }

    /// The name at a place, from 0.
    pub fn get(&self, place: u32) -> &[u8]
        requires { place < length self.now }
        ensures { result.now ≡ get_or self.now place [] }
    {
        &self.names[place as usize]
    }
}
