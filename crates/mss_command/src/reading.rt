//! Reading one file of the desk.
ghost use Rattle.std.specs.Prelude.{◌≡◌, ◌⊎◌, ◌≤◌, Err, IfOk};
ghost use Rattle.mss_desk.specs.Desk.{IfTold, IsMissing, Rose};
ghost use Rattle.mss_command.specs.Fetched.{fetched, fetched_of, IsWithin};

use crate::reply::Stop;
use mss_desk::{Desk, ReadAnswer};
use std::alloc::Global;

/// What a reading gave.
#[derive(Drop)]
pub enum Contents {
    Bytes(Vec<u8>),
    /// The file is longer than its limit.
    TooLong,
}

/// Reads a file of at most `limit` bytes.
pub fn fetch<D: Desk>(
    alloc: Global,
    desk: &mut D,
    name: &str,
    limit: usize,
) -> Result<Contents, Stop>
    ensures contents { IfTold (D.seen desk.old).told (λ c. IfOk result (λ r. fetched limit c.files name.now ≡ fetched_of r)) }
    ensures within { IfOk result (IsWithin limit) }
    ensures content { (D.seen desk.new).told ≡ (D.seen desk.old).told }
    ensures write_faults { (D.seen desk.new).write_faults ≡ (D.seen desk.old).write_faults }
    ensures later { (D.seen desk.old).read_faults ≤ (D.seen desk.new).read_faults }
    ensures cause { result ≡ Err Stop.Read → Rose (D.seen desk.old).read_faults (D.seen desk.new).read_faults ⊎ IsMissing (D.seen desk.old).told name.now }
{
    let mut out = Vec::new(alloc);
    match desk.read(name, limit, &mut out) {
        ReadAnswer::Done => Ok(Contents::Bytes(out)),
        ReadAnswer::More => Ok(Contents::TooLong),
        ReadAnswer::Failed => Err(Stop::Read),
        ReadAnswer::NoMemory => Err(Stop::Memory),
    }
}
