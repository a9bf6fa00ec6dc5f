//! A desk in memory, whose calls fail where a test wants it.
ghost use Rattle.std.specs.Prelude.{◌≡◌, ◌≢◌, ◌⊎◌, ◌==◌, ◌+◌, ◌-◌, ◌^◌, ◌≤◌, min, [], ◌∷◌, ◌++◌, None, IsTrue, OnOk, OnErr, option_map, if◌then◌else◌, is_some, ◌&&◌};
ghost use Rattle.std.specs.List.{list_any};
ghost use Rattle.std.specs.FinMap as map;
ghost use Rattle.mss_desk.specs.Desk.{IfTold, BothTold, IsMissing, Rose, ReadGives, ReadBound, Puts, Says};
ghost use Rattle.mss_desk.specs.Memory.{Memory, memory_seen, next_call, fails_next, one_more, half, faults_after};

use crate::shelf::{Shelf, give};
use crate::{Desk, ReadAnswer, WriteAnswer};
use mss_model::NoMemory;
use std::alloc::Global;
use std::marker::Model;

/// A desk in memory that numbers its calls from 1, and fails those whose number was given to `fail_at`.
///
/// A failing put leaves the first half of the bytes in the file, and a failing say adds the first half of its bytes.
/// The number of a call stays at the greatest `u32` once it has reached it.
#[derive(Drop)]
pub struct MemoryDesk {
    shelf: Shelf,
    said: Vec<u8>,
    fails: Vec<u32>,
    calls: u32,
    read_faults: u64,
    write_faults: u64,
}

impl Model for MemoryDesk {
    ghost use Rattle.mss_desk.specs.Memory.{Memory, memory_code};

    ghost Value = { Memory };

    ghost coded = { memory_code };

    ghost view = { λ d. record { files = d.shelf; said = d.said.items; fails = d.fails.items; calls = d.calls; read_faults = d.read_faults; write_faults = d.write_faults } };
}

impl MemoryDesk {
    /// A desk without files, on which nothing was said and no call fails. It takes no memory.
    pub fn make(alloc: Global) -> MemoryDesk
        ensures files { result.files ≡ map.empty }
        ensures said { result.said ≡ [] }
        ensures fails { result.fails ≡ [] }
        ensures calls { result.calls ≡ 0 }
        ensures read_faults { result.read_faults ≡ 0 }
        ensures write_faults { result.write_faults ≡ 0 }
    {
        MemoryDesk {
            shelf: Shelf::new(alloc),
            said: Vec::new(alloc),
            fails: Vec::new(alloc),
            calls: 0,
            read_faults: 0,
            write_faults: 0,
        }
    }

    /// Makes the file hold these bytes. It is no call of the desk.
    pub fn set_file(&mut self, name: &str, bytes: &[u8]) -> Result<(), NoMemory>
        ensures ok { OnOk result (self.new ≡ record self.old { files = map.insert self.old.files name.now bytes.now }) }
        ensures err { OnErr result (self.new ≡ self.old) }
    {
        self.shelf.set(name, bytes)
    }

    /// Makes the call with this number fail.
    pub fn fail_at(&mut self, call: u32) -> Result<(), NoMemory>
        ensures ok { OnOk result (self.new ≡ record self.old { fails = self.old.fails ++ call ∷ [] }) }
        ensures err { OnErr result (self.new ≡ self.old) }
    {
        self.fails.push(call)?;
        Ok(())
    }

    /// The bytes of a file, or `None` where there is no such file.
    pub fn file(&self, name: &str) -> Option<&[u8]>
        ensures { option_map (λ b. b.now) result ≡ map.get self.now.files name.now }
    {
        self.shelf.get(name)
    }

    /// All that was said.
    pub fn said_bytes(&self) -> &[u8]
        ensures { result.now ≡ self.now.said }
    {
        &self.said
    }

    /// The number of the last call of `read`, `put` or `say`.
    pub fn calls(&self) -> u32
        ensures { result ≡ self.now.calls }
    {
        self.calls
    }
}

// Counts a call, and says whether it is one of those that fail.
fn count(fails: &[u32], calls: &mut u32) -> bool
    ensures calls { calls.new ≡ min (calls.old + 1) (2 ^ 32 - 1) }
    ensures fails { result ≡ list_any (λ k. k == min (calls.old + 1) (2 ^ 32 - 1)) fails.now }
{
    *calls = calls.saturating_add(1);
    let call = *calls;
    fails.iter().any(|k| *k == call)
}

impl Desk for MemoryDesk {
    ghost seen = { memory_seen };

    fn read(&mut self, name: &str, limit: usize, out: &mut Vec<u8>) -> ReadAnswer
        // Clauses of the trait.
        requires { out.old.items ≡ [] }
        ensures bytes { IfTold (memory_seen self.old).told (λ c. ReadGives (map.get c.files name.now) limit result out.new.items) }
        ensures bound { ReadBound limit result out.new.items }
        ensures content { (memory_seen self.new).told ≡ (memory_seen self.old).told }
        ensures write_faults { (memory_seen self.new).write_faults ≡ (memory_seen self.old).write_faults }
        ensures later { (memory_seen self.old).read_faults ≤ (memory_seen self.new).read_faults }
        ensures cause { result ≡ ReadAnswer.Failed → Rose (memory_seen self.old).read_faults (memory_seen self.new).read_faults ⊎ IsMissing (memory_seen self.old).told name.now }
        ensures missing { IsMissing (memory_seen self.old).told name.now → (memory_seen self.new).read_faults ≡ (memory_seen self.old).read_faults }

        // The call is counted, and fails exactly where its number was given or there is no such file.
        ensures calls { self.new.calls ≡ next_call self.old }
        ensures fails { self.new.fails ≡ self.old.fails }
        ensures failing { IsTrue (fails_next self.old) → result ≡ ReadAnswer.Failed }
        ensures not_failing { result ≡ ReadAnswer.Failed → IsTrue (fails_next self.old) ⊎ (map.get self.old.files name.now ≡ None) }
        ensures counts { self.new.read_faults ≡ (if fails_next self.old && is_some (map.get self.old.files name.now) then one_more self.old.read_faults else self.old.read_faults) }
    {
        let fails = count(&self.fails, &mut self.calls);
        let Some(bytes) = self.shelf.get(name) else {
            return ReadAnswer::Failed;
        };
        if fails {
            self.read_faults = self.read_faults.saturating_add(1);
            return ReadAnswer::Failed;
        }
        give(bytes, limit, out)
    }

    fn put(&mut self, name: &str, bytes: &[u8]) -> WriteAnswer
        // Clauses of the trait.
        ensures content { BothTold (memory_seen self.old).told (memory_seen self.new).told (Puts name.now bytes.now result) }
        ensures read_faults { (memory_seen self.new).read_faults ≡ (memory_seen self.old).read_faults }
        ensures later { (memory_seen self.old).write_faults ≤ (memory_seen self.new).write_faults }
        ensures cause { result ≡ WriteAnswer.Failed → Rose (memory_seen self.old).write_faults (memory_seen self.new).write_faults }

        // The call is counted, and fails only where its number was given; then half of the bytes are in the file.
        ensures calls { self.new.calls ≡ next_call self.old }
        ensures fails { self.new.fails ≡ self.old.fails }
        ensures failing { IsTrue (fails_next self.old) → result ≢ WriteAnswer.Done }
        ensures not_failing { result ≡ WriteAnswer.Failed → IsTrue (fails_next self.old) }
        ensures half { result ≡ WriteAnswer.Failed → self.new.files ≡ map.insert self.old.files name.now (half bytes.now) }
        ensures counts { self.new.write_faults ≡ faults_after result self.old.write_faults }
    {
        if count(&self.fails, &mut self.calls) {
            return match self.shelf.set(name, &bytes[..bytes.len() / 2]) {
                Ok(()) => {
                    self.write_faults = self.write_faults.saturating_add(1);
                    WriteAnswer::Failed
                }
                Err(_) => WriteAnswer::NoMemory,
            };
        }
        match self.shelf.set(name, bytes) {
            Ok(()) => WriteAnswer::Done,
            Err(_) => WriteAnswer::NoMemory,
        }
    }

    fn say(&mut self, bytes: &[u8]) -> WriteAnswer
        // Clauses of the trait.
        ensures content { BothTold (memory_seen self.old).told (memory_seen self.new).told (Says bytes.now result) }
        ensures read_faults { (memory_seen self.new).read_faults ≡ (memory_seen self.old).read_faults }
        ensures later { (memory_seen self.old).write_faults ≤ (memory_seen self.new).write_faults }
        ensures cause { result ≡ WriteAnswer.Failed → Rose (memory_seen self.old).write_faults (memory_seen self.new).write_faults }

        // The call is counted, and fails only where its number was given; then half of the bytes are said.
        ensures calls { self.new.calls ≡ next_call self.old }
        ensures fails { self.new.fails ≡ self.old.fails }
        ensures failing { IsTrue (fails_next self.old) → result ≢ WriteAnswer.Done }
        ensures not_failing { result ≡ WriteAnswer.Failed → IsTrue (fails_next self.old) }
        ensures half { result ≡ WriteAnswer.Failed → self.new.said ≡ self.old.said ++ half bytes.now }
        ensures counts { self.new.write_faults ≡ faults_after result self.old.write_faults }
    {
        if count(&self.fails, &mut self.calls) {
            return match self.said.extend_from_slice(&bytes[..bytes.len() / 2]) {
                Ok(()) => {
                    self.write_faults = self.write_faults.saturating_add(1);
                    WriteAnswer::Failed
                }
                Err(_) => WriteAnswer::NoMemory,
            };
        }
        match self.said.extend_from_slice(bytes) {
            Ok(()) => WriteAnswer::Done,
            Err(_) => WriteAnswer::NoMemory,
        }
    }
}
