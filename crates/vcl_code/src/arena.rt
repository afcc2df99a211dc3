// The flat lists, which grow at their ends.
ghost use Rattle.std.specs.Prelude.{◌≡◌, IfOk};
ghost use Rattle.vcl_code.specs.Arenas.{with_node, with_block, with_branch, with_text, with_pattern, at, empty};

use crate::node::{Block, Branch, Node};
use std::alloc::{AllocError, Global};
use units::{Sequence, Text};

/// Nodes, blocks, branches, texts and the sources of patterns, each with its place as its number.
#[derive(Drop)]
pub struct Arena {
    pub nodes: Sequence<Node>,
    pub blocks: Sequence<Block>,
    pub branches: Sequence<Branch>,
    pub texts: Sequence<Text>,
    pub patterns: Sequence<Text>,
}

impl Arena {
    /// Nothing yet but the block of number 0, which has no statement.
    pub fn new(alloc: Global) -> Result<Arena, AllocError>
        ensures { IfOk result (λ arena. arena ≡ empty) }
    {
        let mut blocks = Sequence::new(alloc);
        blocks.push(Block::End)?;
        Ok(Arena {
            nodes: Sequence::new(alloc),
            blocks,
            branches: Sequence::new(alloc),
            texts: Sequence::new(alloc),
            patterns: Sequence::new(alloc),
        })
    }

    pub(crate) fn push_node(&mut self, node: Node) -> Result<usize, AllocError>
        ensures { IfOk result (λ number. with_node node self.old ≡ at number self.new) }
    {
        let number = self.nodes.as_slice().len();
        self.nodes.push(node)?;
        Ok(number)
    }

    pub(crate) fn push_block(&mut self, block: Block) -> Result<usize, AllocError>
        ensures { IfOk result (λ number. with_block block self.old ≡ at number self.new) }
    {
        let number = self.blocks.as_slice().len();
        self.blocks.push(block)?;
        Ok(number)
    }

    pub(crate) fn push_branch(&mut self, branch: Branch) -> Result<usize, AllocError>
        ensures { IfOk result (λ number. with_branch branch self.old ≡ at number self.new) }
    {
        let number = self.branches.as_slice().len();
        self.branches.push(branch)?;
        Ok(number)
    }

    pub(crate) fn push_text(&mut self, text: Text) -> Result<usize, AllocError>
        ensures { IfOk result (λ number. with_text text self.old ≡ at number self.new) }
    {
        let number = self.texts.as_slice().len();
        self.texts.push(text)?;
        Ok(number)
    }

    pub(crate) fn push_pattern(&mut self, source: Text) -> Result<usize, AllocError>
        ensures { IfOk result (λ number. with_pattern source self.old ≡ at number self.new) }
    {
        let number = self.patterns.as_slice().len();
        self.patterns.push(source)?;
        Ok(number)
    }
}
