//! What a command comes to before anything is written, and why it may come to nothing.
ghost use Rattle.std.specs.Prelude.{◌≡◌, [], IfOk};
ghost use Rattle.mss_command.specs.declared.reply.Stop.TheVariants.{Memory};
ghost use Rattle.mss_command.specs.Outcome.{saying, outcome_of};

use crate::status::Status;
use mss_model::{NoMemory, Text};
use std::alloc::{AllocError, AllocFailed, Global};

/// A file to put.
#[derive(Drop)]
pub struct Put {
    pub name: &'static str,
    pub bytes: Text,
}

/// What a command comes to: its status, the files to put, and then the text to say.
#[derive(Drop)]
pub struct Reply {
    pub status: Status,
    pub puts: Vec<Put>,
    pub text: Text,
}

impl Reply {
    /// A reply that only says its text.
    pub fn saying(alloc: Global, status: Status, text: Text) -> Reply
        ensures { outcome_of result ≡ saying status text }
    {
        Reply {
            status,
            puts: Vec::new(alloc),
            text,
        }
    }
}

/// Why a command comes to no reply.
#[derive(Clone, Copy)]
pub enum Stop {
    /// A file couldn't be read.
    Read,
    Memory,
}

impl From<NoMemory> for Stop {
    ghost from_gives = { λ _ e. e ≡ Memory };

    fn from(_: NoMemory) -> Self {
        Stop::Memory
    }
}
