//! A node that runs the blocks of a file by itself: as they are read, each let go once it was run, or once all were read.

ghost use Rattle.std.specs.Prelude.{◌≡◌, IfOk, IfSome, List, None, Option, Some, ℕ, []};
ghost use Rattle.bcdb.specs.Folds.{Folds, HasFolded, HoldsFirst, all_blocks, app_of};
ghost use Rattle.bcdb.specs.Reading.{HasRead};
ghost use Rattle.chain_file.specs.Chain.{chain};
ghost use Rattle.chain_file.specs.Following.{WasFed};
ghost use Rattle.chain_file.specs.Numbered.{NumberedFrom};
ghost use Rattle.edge_traits.specs.Shelf.{Files};
ghost use Rattle.proc_syntax.specs.declared.call.Block.{Block as BlockText};
ghost use Rattle.proc_syntax.specs.declared.chain_fault.ChainFault.{ChainFault as ChainFaultText};

use crate::intake::{Intake, end_fault};
use crate::plain::take_blocks;
use chain_file::laws::files_are_numbered;
use chain_file::{Fed, Reader};
use plain_node::PlainNode;
use proc_check::Checked;
use proc_syntax::{Block, ChainFault};
use rel_base::{List, NoMemory};
use std::alloc::Global;
use std::sync::Arc;
use version_index::IndexVersions;

/// The height that no block is above.
pub const ALL_BLOCKS: u64 = u64::MAX;

/// A node that takes a block file piece by piece, and processes its blocks up to a height. Contracts say that it `HasFolded` the bytes
/// that it took.
#[derive(Drop)]
pub struct Folding {
    reader: Reader,
    node: PlainNode<IndexVersions>,
    height: u64,
    /// How many blocks it was given.
    taken: u64,
}

/// A node that was given the blocks of a file up to its first fault. Contracts say that it `Folds` these.
#[derive(Drop)]
pub struct Folded {
    pub node: PlainNode<IndexVersions>,
    /// How many blocks there are.
    pub taken: u64,
    /// The fault.
    pub fault: Option<ChainFault>,
}

impl Intake for Folding {
    ghost took = { λ folding bytes. HasFolded folding bytes };

    ghost runs = { λ folding. Some (folding.node.chain.app.value.app, folding.height) };

    fn take(&mut self, piece: &[u8]) -> Result<Option<ChainFault>, NoMemory> {
        files_are_numbered();
        let fed = self.reader.feed(piece)?;
        let Fed { blocks, fault } = fed;
        take_blocks(&mut self.node, &mut self.taken, self.height, blocks)?;
        Ok(fault)
    }
}

// The fault of a file that ended, or was stopped at this fault.
fn stop_of(reader: Reader, stop: Option<ChainFault>) -> Option<ChainFault>
    ensures whole { stop ≡ None → (bytes : List ℕ) → WasFed reader bytes → (chain bytes).1 ≡ result }
    ensures stopped { (fault : ChainFaultText) → stop ≡ Some fault → result ≡ Some fault }
{
    match stop {
        None => end_fault(reader),
        Some(fault) => {
            drop(reader);
            Some(fault)
        }
    }
}

impl Folding {
    /// Nothing was taken yet.
    pub fn new(alloc: Global, app: &Arc<Checked>, height: u64) -> Result<Folding, NoMemory>
        ensures took { IfOk result (λ folding. HasFolded folding []) }
        ensures runs { IfOk result (λ folding. (folding.node.chain.app.value.app ≡ app.now.value.app) × (folding.height ≡ height)) }
    {
        let node = PlainNode::new(alloc, app)?;
        Ok(Folding {
            reader: Reader::new(alloc),
            node,
            height,
            taken: 0,
        })
    }

    /// The node that took a file which ended, or was stopped at this fault.
    pub fn end(self, stop: Option<ChainFault>) -> Folded
        ensures app { result.node.chain.app.value.app ≡ self.node.chain.app.value.app }
        ensures folds { (told : Option Files) (name : List ℕ) → HasRead told name (HasFolded self) stop
            → (blocks : List BlockText) × (Folds self.height blocks result × IfSome told (λ files. chain (files name) ≡ (blocks, result.fault))) }
    {
        files_are_numbered();
        let Folding {
            reader,
            node,
            height: _,
            taken,
        } = self;
        let fault = stop_of(reader, stop);
        Folded { node, taken, fault }
    }
}

// A node that was given so many blocks, which end at a fault.
fn end_fold(node: PlainNode<IndexVersions>, taken: u64, fault: Option<ChainFault>) -> Folded
    ensures app { app_of result ≡ node.chain.app.value.app }
    ensures folds { (blocks : List BlockText) → NumberedFrom 1 blocks
        → HoldsFirst all_blocks blocks taken node.chain.app.value.app node.chain.versions.0 node.chain.versions.1.0 node.ids node.chain.blocks → Folds all_blocks blocks result }
    ensures fault { result.fault ≡ fault }
{
    Folded { node, taken, fault }
}

// A node of an application that was given blocks which end at a fault, all of them.
fn fold_list(
    alloc: Global,
    app: &Arc<Checked>,
    blocks: List<Block>,
    fault: Option<ChainFault>,
) -> Result<Folded, NoMemory>
    requires numbered { NumberedFrom 1 blocks }
    ensures app { IfOk result (λ folded. app_of folded ≡ app.now.value.app) }
    ensures folds { IfOk result (λ folded. Folds all_blocks blocks folded) }
    ensures fault { IfOk result (λ folded. folded.fault ≡ fault) }
{
    let mut node = PlainNode::new(alloc, app)?;
    let mut taken: u64 = 0;
    take_blocks(&mut node, &mut taken, ALL_BLOCKS, blocks)?;
    Ok(end_fold(node, taken, fault))
}

/// A node of an application that was given the blocks which were read of a file, all of them. Each is let go once it was run.
pub fn fold_read(alloc: Global, app: Checked, read: Fed) -> Result<Folded, NoMemory>
    requires numbered { NumberedFrom 1 read.blocks }
    ensures app { IfOk result (λ folded. app_of folded ≡ app.app) }
    ensures folds { IfOk result (λ folded. Folds all_blocks read.blocks folded) }
    ensures fault { IfOk result (λ folded. folded.fault ≡ read.fault) }
{
    let Fed { blocks, fault } = read;
    let Ok(app) = Arc::new(alloc, app) else {
        drop(blocks);
        return Err(NoMemory);
    };
    let folded = fold_list(alloc, &app, blocks, fault);
    drop(app);
    folded
}
