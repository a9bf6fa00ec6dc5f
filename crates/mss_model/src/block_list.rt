//! The list of the blocks, one for each specialty.
ghost use Rattle.std.specs.Prelude.{◌≡◌, ◌<◌, ◌≤◌, List, [], ◌∷◌, ◌++◌, length, get_or, OnOk, IfErr, IsTrue, ◌↔◌};
ghost use Rattle.std.specs.List.{All};
ghost use Rattle.mss_model.specs.BlockAtAge.{BlockView, IsBlock, no_block};

use crate::growing::MOST_MEMBERS;
use crate::one_block::Block;
use std::alloc::Global;
use std::marker::Model;

/// A list of blocks, which grows at its end.
#[derive(Debug, Drop)]
pub struct Blocks {
    blocks: Vec<Block>,
}

impl Model for Blocks {
    ghost use Rattle.std.specs.Prelude.{◌≤◌, List, length};
    ghost use Rattle.std.specs.List.{All};
    ghost use Rattle.mss_model.specs.BlockAtAge.{BlockView, IsBlock};
    ghost use Rattle.mss_model.specs.declared.growing.TheConstants.{MOST_MEMBERS};

    ghost Value = { List BlockView };

    ghost view = { λ b. b.blocks.items };

    ghost invariant = { λ b. (length b.blocks.items ≤ MOST_MEMBERS) × All IsBlock b.blocks.items };
}

impl Blocks {
    /// The empty list. It takes no memory.
    pub fn make(alloc: Global) -> Blocks
        ensures { result ≡ [] }
    {
        Blocks {
            blocks: Vec::new(alloc),
        }
    }

    /// Adds a block at the end. Where memory is wanting, the block comes back.
    pub fn push(&mut self, block: Block) -> Result<(), Block>
        requires room { length self.old < MOST_MEMBERS }
        ensures ok { OnOk result (self.new ≡ self.old ++ block ∷ []) }
        ensures err { IfErr result (λ refused. (refused ≡ block) × (self.new ≡ self.old)) }
    {
        let _good = block.patients();
        match self.blocks.push(block) {
            Ok(()) => Ok(()),
            Err(refused) => Err(refused.value),
        }
    }

    pub fn len(&self) -> u32
        ensures value { result ≡ length self.now }
        ensures few { result ≤ MOST_MEMBERS }
        ensures good { All IsBlock self.now }
    {
        self.blocks.len() as u32
    }

    pub fn is_empty(&self) -> bool
        ensures { IsTrue result ↔ (self.now ≡ []) }
    {
        self.blocks.is_empty()
    }

    /// The block at a place, from 0.
    pub fn get(&self, place: u32) -> &Block
        requires { place < length self.now }
        ensures value { result.now ≡ get_or self.now place no_block }
        ensures good { IsBlock result.now }
    {
        &self.blocks[place as usize]
    }
}
