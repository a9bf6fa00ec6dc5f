//! The command `block`: the distribution of the patients of one block, age by age.
ghost use Rattle.std.specs.Prelude.{◌≡◌, IfOk, IsTrue};
ghost use Rattle.mss_command.specs.Answers.{Prepares};
ghost use Rattle.mss_command.specs.Fetched.{IsWithin, Missing, fetched, fetched_of, file_limit};
ghost use Rattle.mss_command.specs.Outcome.{outcome_of};
ghost use Rattle.mss_command.specs.Promised.{SaysOnly};
ghost use Rattle.mss_command.specs.Status.{ends_by};
ghost use Rattle.mss_evaluate.specs.Block.{BlockDefines, PrintedBlock, block_file, block_may_end};
ghost use Rattle.mss_evaluate.specs.BlockLaws.{block_keeps};

use mss_command::{Command, Contents, Reply, Status, Stop, fetch, long_refusal, table_refusal};
use mss_desk::Desk;
use mss_enclose::Kernel;
use mss_model::{BLOCK_FILE, MOST_BYTES, NoMemory};
use mss_report::block_text;
use mss_tables::{TableRefusal, read_block};
use std::alloc::Global;

/// The distribution of the patients of the block of block.csv, age by age.
#[derive(Clone, Copy, Debug)]
pub struct BlockReport;

impl Command for BlockReport {
    ghost Defines = { λ command files. BlockDefines (fetched file_limit files block_file) };

    ghost Lacks = { λ command files. fetched file_limit files block_file ≡ Missing };

    ghost may_end = { λ command. block_may_end };

    ghost Promised = { λ command. SaysOnly PrintedBlock };

    fn prepare<D: Desk, K: Kernel>(
        &self,
        alloc: Global,
        desk: &mut D,
        _kernel: &K,
    ) -> Result<Reply, Stop> {
        let contents = fetch(alloc, desk, "block.csv", MOST_BYTES)?;
        Ok(block_reply(alloc, &contents)?)
    }

    ghost keeps = { λ command. block_keeps };
}

/// The reply to what block.csv holds.
fn block_reply(alloc: Global, contents: &Contents) -> Result<Reply, NoMemory>
    requires { IsWithin file_limit contents.now }
    ensures defines { IfOk result (λ reply. BlockDefines (fetched_of contents.now) (outcome_of reply)) }
    ensures status { IfOk result (λ reply. IsTrue (ends_by block_may_end reply.status)) }
{
    let bytes = match contents {
        Contents::Bytes(bytes) => bytes,
        Contents::TooLong => return long_refusal(alloc, BLOCK_FILE),
    };
    match read_block(alloc, bytes) {
        Ok(block) => Ok(Reply::saying(alloc, Status::Done, block_text(alloc, &block)?)),
        Err(TableRefusal::Fault(fault)) => table_refusal(alloc, &fault),
        Err(TableRefusal::NoMemory) => Err(NoMemory),
    }
}
