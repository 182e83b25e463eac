//! The block file, read piece by piece to its end or to its first fault.

ghost use Rattle.std.specs.Prelude.{◌≡◌, ◌≤◌, ◌<◌, ◌++◌, List, ℕ, [], IfOk, IfSome, OnOk, Option, length};
ghost use Rattle.bcdb.specs.Folds.{Folds};
ghost use Rattle.bcdb.specs.Plan.{AllowsBlocks, Counted};
ghost use Rattle.bcdb.specs.Reading.{HasRead, IsRead, LeadsTo};
ghost use Rattle.chain_file.specs.Chain.{chain};
ghost use Rattle.chain_file.specs.Files.{FaultsLast, FilesAreBounded};
ghost use Rattle.chain_file.specs.Numbered.{NumberedFrom};
ghost use Rattle.edge_traits.specs.Causes.{Keeps, Rose, piece_bytes};
ghost use Rattle.proc_syntax.specs.declared.call.Block.{Block as BlockText};

use crate::fault::FilesFault;
use crate::folding::{Folded, Folding};
use crate::intake::{Gatherer, Intake};
use chain_file::Fed;
use chain_file::laws::{faults_last, files_are_bounded};
use edge_traits::{Shelf, make_buffer};
use proc_check::Checked;
use proc_syntax::ChainFault;
use std::alloc::Global;
use std::sync::Arc;

/// What one more piece of a file came to.
#[derive(Clone, Copy, PartialEq, Eq)]
pub enum ChainPiece {
    /// So many bytes more were read.
    More(usize),
    /// The file has ended.
    End,
    /// The file stopped at a fault.
    Stop(ChainFault),
}

// Reads one more piece of a file, of which so many bytes were read.
#[tactic(auto, using(crate::proofs::Taken::goes_on, crate::proofs::Taken::within, crate::proofs::Taken::stops, crate::proofs::Taken::ends, crate::proofs::Taken::may_go_on))]
fn read_piece<S: Shelf, I: Intake>(
    shelf: &mut S,
    name: &str,
    at: u64,
    buffer: &mut [u8],
    intake: &mut I,
) -> Result<ChainPiece, FilesFault>
    requires read { IsRead (S.told shelf.old) name.now at (I.took intake.old) }
    requires allowed { AllowsBlocks (S.told shelf.old) (S.may_read shelf.old) name.now }
    requires room { length buffer.old ≡ piece_bytes }
    requires bounded { FilesAreBounded }
    requires lasting { FaultsLast }
    ensures told { S.told shelf.new ≡ S.told shelf.old }
    ensures allowed { Keeps (S.may_read shelf.old) (S.may_read shelf.new) }
    ensures counted { Counted result (Rose (S.faults shelf.old name.now) (S.faults shelf.new name.now)) (S.faults shelf.old) (S.faults shelf.new) }
    ensures goes { IfOk result (λ step. LeadsTo step (S.told shelf.old) name.now at (I.took intake.new)) }
    ensures same { OnOk result (I.runs intake.new ≡ I.runs intake.old) }
{
    let Ok(count) = shelf.read_at(name, at, buffer) else {
        return Err(FilesFault::Failed);
    };
    if count == 0 {
        return Ok(ChainPiece::End);
    }
    match intake.take(&buffer[..count])? {
        None => Ok(ChainPiece::More(count)),
        Some(fault) => Ok(ChainPiece::Stop(fault)),
    }
}

// Reads a file from its start, by a buffer that has room, and answers the fault that was met.
fn read_through<S: Shelf, I: Intake>(
    shelf: &mut S,
    name: &str,
    buffer: &mut [u8],
    intake: &mut I,
) -> Result<Option<ChainFault>, FilesFault>
    requires front { I.took intake.old [] }
    requires allowed { AllowsBlocks (S.told shelf.old) (S.may_read shelf.old) name.now }
    requires room { length buffer.old ≡ piece_bytes }
    ensures told { IfOk result (HasRead (S.told shelf.old) name.now (I.took intake.new)) }
    ensures same { OnOk result (I.runs intake.new ≡ I.runs intake.old) }
    ensures counted { Counted result (Rose (S.faults shelf.old name.now) (S.faults shelf.new name.now)) (S.faults shelf.old) (S.faults shelf.new) }
{
    files_are_bounded();
    faults_last();
    let mut at: u64 = 0;
    loop {
        match read_piece(shelf, name, at, buffer, intake)? {
            ChainPiece::More(count) => at += count as u64,
            ChainPiece::End => return Ok(None),
            ChainPiece::Stop(fault) => return Ok(Some(fault)),
        }
    }
}

/// Hands a file piece by piece to what takes it, and answers the fault at which it was stopped, if more bytes could not heal that.
///
/// Each call to the shelf asks for 65,536 bytes, and none is made once the fault is met: a file is asked for no byte after the
/// piece that has its fault. A read that fails is not tried again.
pub fn read_file<S: Shelf, I: Intake>(
    alloc: Global,
    shelf: &mut S,
    name: &str,
    intake: &mut I,
) -> Result<Option<ChainFault>, FilesFault>
    requires front { I.took intake.old [] }
    requires allowed { AllowsBlocks (S.told shelf.old) (S.may_read shelf.old) name.now }
    ensures told { IfOk result (HasRead (S.told shelf.old) name.now (I.took intake.new)) }
    ensures same { OnOk result (I.runs intake.new ≡ I.runs intake.old) }
    ensures counted { Counted result (Rose (S.faults shelf.old name.now) (S.faults shelf.new name.now)) (S.faults shelf.old) (S.faults shelf.new) }
{
    let mut buffer = make_buffer(alloc)?;
    read_through(shelf, name, &mut buffer, intake)
}

/// The blocks of a file up to its first fault, and that fault.
pub fn read_blocks<S: Shelf>(alloc: Global, shelf: &mut S, name: &str) -> Result<Fed, FilesFault>
    requires allowed { AllowsBlocks (S.told shelf.old) (S.may_read shelf.old) name.now }
    ensures told { IfOk result (λ read. IfSome (S.told shelf.old) (λ files. chain (files name.now) ≡ (read.blocks, read.fault))) }
    ensures numbered { IfOk result (λ read. NumberedFrom 1 read.blocks) }
    ensures counted { Counted result (Rose (S.faults shelf.old name.now) (S.faults shelf.new name.now)) (S.faults shelf.old) (S.faults shelf.new) }
{
    let mut gatherer = Gatherer::new(alloc);
    match read_file(alloc, shelf, name, &mut gatherer) {
        Ok(stop) => Ok(gatherer.end(stop)),
        Err(fault) => {
            drop(gatherer);
            Err(fault)
        }
    }
}

/// A node that runs the blocks of a file up to its first fault, and up to a height, while they are read.
pub fn fold_blocks<S: Shelf>(
    alloc: Global,
    shelf: &mut S,
    name: &str,
    app: &Arc<Checked>,
    height: u64,
) -> Result<Folded, FilesFault>
    requires allowed { AllowsBlocks (S.told shelf.old) (S.may_read shelf.old) name.now }
    ensures app { IfOk result (λ folded. folded.node.chain.app.value.app ≡ app.now.value.app) }
    ensures folds { IfOk result (λ folded. (blocks : List BlockText) × (Folds height blocks folded × IfSome (S.told shelf.old) (λ files. chain (files name.now) ≡ (blocks, folded.fault)))) }
    ensures counted { Counted result (Rose (S.faults shelf.old name.now) (S.faults shelf.new name.now)) (S.faults shelf.old) (S.faults shelf.new) }
{
    let mut folding = Folding::new(alloc, app, height)?;
    match read_file(alloc, shelf, name, &mut folding) {
        Ok(stop) => Ok(folding.end(stop)),
        Err(fault) => {
            drop(folding);
            Err(fault)
        }
    }
}
