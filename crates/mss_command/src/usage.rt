//! The answer to words that are no command.
ghost use Rattle.mss_command.specs.Usage.{NothingPromised, UsageDefines, usage_may_end};
ghost use Rattle.mss_command.specs.UsageLaws.{usage_keeps};

use crate::command::Command;
use crate::reply::{Reply, Stop};
use crate::status::Status;
use mss_desk::Desk;
use mss_enclose::Kernel;
use mss_model::Text;
use std::alloc::Global;

/// The usage text of a program, which is said where the words are no command of it.
#[derive(Clone, Copy)]
pub struct Usage {
    pub text: &'static [u8],
}

impl Command for Usage {
    ghost Defines = { λ command files. UsageDefines command.text.now };

    ghost Lacks = { λ command files. ⊥ };

    ghost may_end = { λ command. usage_may_end };

    ghost Promised = { λ command. NothingPromised };

    fn prepare<D: Desk, K: Kernel>(
        &self,
        alloc: Global,
        _desk: &mut D,
        _kernel: &K,
    ) -> Result<Reply, Stop> {
        let mut text = Text::make(alloc);
        text.push(self.text)?;
        Ok(Reply::saying(alloc, Status::Words, text))
    }

    ghost keeps = { λ command. usage_keeps command.text.now };
}
