//! The trait of desks, and the answers of its calls.
ghost use Rattle.std.specs.Prelude.{◌≡◌, ◌⊎◌, ◌≤◌, []};
ghost use Rattle.std.specs.FinMap.{get};
ghost use Rattle.mss_desk.specs.Desk.{Seen, IfTold, BothTold, IsMissing, Rose, ReadGives, ReadBound, Puts, Says};

/// What came of a reading.
#[derive(Clone, Copy, Debug, PartialEq, Eq)]
pub enum ReadAnswer {
    /// The whole file was read.
    Done,
    /// The file is longer than the limit.
    More,
    /// There is no such file, or it couldn't be read.
    Failed,
    NoMemory,
}

/// What came of a writing.
#[derive(Clone, Copy, Debug, PartialEq, Eq)]
pub enum WriteAnswer {
    /// All bytes were written.
    Done,
    /// Some of the bytes may have been written.
    Failed,
    /// Nothing was written.
    NoMemory,
}

/// Where a command reads its files, puts its files and says its text.
pub trait Desk {
    /// The files and what was said, where the desk tells them, and how often a reading or a writing failed.
    ghost seen: { Self → Seen };

    /// Reads a file into `out`: the whole of it at `Done`, and its first `limit + 1` bytes at `More`.
    fn read(&mut self, name: &str, limit: usize, out: &mut Vec<u8>) -> ReadAnswer
        requires { out.old.items ≡ [] }
        ensures bytes { IfTold (seen self.old).told (λ c. ReadGives (get c.files name.now) limit result out.new.items) }
        ensures bound { ReadBound limit result out.new.items }
        ensures content { (seen self.new).told ≡ (seen self.old).told }
        ensures write_faults { (seen self.new).write_faults ≡ (seen self.old).write_faults }
        ensures later { (seen self.old).read_faults ≤ (seen self.new).read_faults }
        ensures cause { result ≡ ReadAnswer.Failed → Rose (seen self.old).read_faults (seen self.new).read_faults ⊎ IsMissing (seen self.old).told name.now }
        ensures missing { IsMissing (seen self.old).told name.now → (seen self.new).read_faults ≡ (seen self.old).read_faults };

    /// Makes a file hold these bytes. After a failure nothing is known of this one file.
    fn put(&mut self, name: &str, bytes: &[u8]) -> WriteAnswer
        ensures content { BothTold (seen self.old).told (seen self.new).told (Puts name.now bytes.now result) }
        ensures read_faults { (seen self.new).read_faults ≡ (seen self.old).read_faults }
        ensures later { (seen self.old).write_faults ≤ (seen self.new).write_faults }
        ensures cause { result ≡ WriteAnswer.Failed → Rose (seen self.old).write_faults (seen self.new).write_faults };

    /// Adds these bytes to what was said. After a failure some of the first of them were added.
    fn say(&mut self, bytes: &[u8]) -> WriteAnswer
        ensures content { BothTold (seen self.old).told (seen self.new).told (Says bytes.now result) }
        ensures read_faults { (seen self.new).read_faults ≡ (seen self.old).read_faults }
        ensures later { (seen self.old).write_faults ≤ (seen self.new).write_faults }
        ensures cause { result ≡ WriteAnswer.Failed → Rose (seen self.old).write_faults (seen self.new).write_faults };
}
