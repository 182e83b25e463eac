//! A load, whole.

ghost use Rattle.std.specs.Prelude.{IfOk, ◌≡◌};
ghost use Rattle.load_gen.specs.Application.{app_text};
ghost use Rattle.load_gen.specs.Blocks.{load_arrivals, load_blocks};

use crate::application::app_text;
use crate::arrivals::load_arrivals;
use crate::blocks::load_blocks;
use proc_syntax::{Block, Tx};
use rel_base::{List, NoMemory};
use std::alloc::Global;

/// A large valid input.
#[derive(Drop)]
pub struct Load {
    /// The text of the application.
    pub app: List<u8>,
    /// Blocks 1 to 41.
    pub blocks: List<Block>,
    /// For each of three nodes, the transactions that arrive at it, in order.
    pub arrivals: List<List<Tx>>,
}

/// The load of a number: the same for the same number, and the only refusal is out of memory.
pub fn generate(alloc: Global, number: u64) -> Result<Load, NoMemory>
    ensures app { IfOk result (λ load. load.app ≡ app_text) }
    ensures blocks { IfOk result (λ load. load.blocks ≡ load_blocks number) }
    ensures arrivals { IfOk result (λ load. load.arrivals ≡ load_arrivals number) }
{
    Ok(Load {
        app: app_text(alloc)?,
        blocks: load_blocks(alloc, number)?,
        arrivals: load_arrivals(alloc, number)?,
    })
}
