//! Reading the ten files of the tables.
ghost use Rattle.std.specs.Prelude.{◌≡◌, ◌⊎◌, ◌≤◌, Err, IfOk};
ghost use Rattle.mss_desk.specs.Desk.{IfTold, Rose};
ghost use Rattle.mss_command.specs.Gathered.{AreWithinLimit, IsOneMissing, gathered, gathered_of};

use crate::reading::{Contents, fetch};
use crate::reply::Stop;
use mss_desk::Desk;
use mss_model::{MOST_BYTES, TABLE_FILES, file_name};
use mss_tables::TableFiles;
use std::alloc::Global;

/// What the reading of the ten files gave.
#[derive(Drop)]
pub(crate) enum Gathering {
    Files(TableFiles),
    /// The number of the first file that is longer than its limit.
    TooLong(u8),
}

/// Reads the ten files in the order of their numbers. Reading ends at the first that fails or is too long.
pub(crate) fn gather<D: Desk>(alloc: Global, desk: &mut D) -> Result<Gathering, Stop>
    ensures gathered { IfTold (D.seen desk.old).told (λ c. IfOk result (λ g. gathered c.files ≡ gathered_of g)) }
    ensures within { IfOk result AreWithinLimit }
    ensures content { (D.seen desk.new).told ≡ (D.seen desk.old).told }
    ensures write_faults { (D.seen desk.new).write_faults ≡ (D.seen desk.old).write_faults }
    ensures later { (D.seen desk.old).read_faults ≤ (D.seen desk.new).read_faults }
    ensures cause { result ≡ Err Stop.Read → Rose (D.seen desk.old).read_faults (D.seen desk.new).read_faults ⊎ IsOneMissing (D.seen desk.old).told }
{
    let mut files = TableFiles::make(alloc);
    for file in 0..TABLE_FILES {
        let Contents::Bytes(bytes) = fetch(alloc, desk, file_name(file), MOST_BYTES)? else {
            return Ok(Gathering::TooLong(file));
        };
        files.set(file, bytes);
    }
    Ok(Gathering::Files(files))
}
