//! What takes a block file piece by piece.

ghost use Rattle.std.specs.Prelude.{◌≡◌, ◌++◌, List, ℕ, [], None, Option, IfOk, OnOk, IfSome};
ghost use Rattle.bcdb.specs.Reading.{Gathers, HasRead};
ghost use Rattle.chain_file.specs.Chain.{chain, lasting};
ghost use Rattle.chain_file.specs.Following.{WasFed};
ghost use Rattle.chain_file.specs.Numbered.{NumberedFrom};
ghost use Rattle.chain_file.specs.Sealed.{Seals};
ghost use Rattle.edge_traits.specs.Shelf.{Files};
ghost use Rattle.proc_syntax.specs.declared.tree.App.{App};

use chain_file::laws::files_are_numbered;
use chain_file::{Fed, Reader, Sealer};
use proc_syntax::{Block, ChainFault};
use rel_base::{List, NoMemory};
use std::alloc::Global;

/// What takes a block file piece by piece.
pub trait Intake {
    /// It took these bytes, from the start of a file on.
    ghost took: { Self → List ℕ → Type 0 };

    /// The application on which it runs the blocks, and the height up to which it does, if it runs them. They never change.
    ghost runs: { Self → Option (App × ℕ) };

    /// Takes the next piece, and answers the fault that was met in it.
    fn take(&mut self, piece: &[u8]) -> Result<Option<ChainFault>, NoMemory>
        requires took { (bytes : List ℕ) × took self.old bytes }
        ensures follows { (bytes : List ℕ) → took self.old bytes → OnOk result (took self.new (bytes ++ piece.now)) }
        ensures fault { (bytes : List ℕ) → took self.old bytes → IfOk result (λ fault. fault ≡ lasting (chain (bytes ++ piece.now)).1) }
        ensures same { OnOk result (runs self.new ≡ runs self.old) };
}

impl Intake for Sealer {
    ghost took = { λ sealer bytes. Seals sealer bytes };

    ghost runs = { λ sealer. None };

    fn take(&mut self, piece: &[u8]) -> Result<Option<ChainFault>, NoMemory> {
        self.feed(piece)
    }
}

/// Gathers the blocks of a file. Contracts say that it `Gathers` the bytes that it took.
#[derive(Drop)]
pub struct Gatherer {
    reader: Reader,
    blocks: List<Block>,
}

impl Intake for Gatherer {
    ghost took = { λ gatherer bytes. Gathers gatherer bytes };

    ghost runs = { λ gatherer. None };

    fn take(&mut self, piece: &[u8]) -> Result<Option<ChainFault>, NoMemory> {
        let fed = self.reader.feed(piece)?;
        let Fed { blocks, fault } = fed;
        self.blocks.append(blocks)?;
        Ok(fault)
    }
}

/// The fault of a file that ends here.
pub fn end_fault(mut reader: Reader) -> Option<ChainFault>
    ensures { (bytes : List ℕ) → WasFed reader bytes → (chain bytes).1 ≡ result }
{
    let ended = reader.end();
    drop(reader);
    match ended {
        Ok(()) => None,
        Err(fault) => Some(fault),
    }
}

impl Gatherer {
    /// Nothing was taken yet.
    pub fn new(alloc: Global) -> Gatherer
        ensures { Gathers result [] }
    {
        Gatherer {
            reader: Reader::new(alloc),
            blocks: List::new(alloc),
        }
    }

    /// What a file gave that ended, or was stopped at this fault.
    pub fn end(self, stop: Option<ChainFault>) -> Fed
        ensures told { (told : Option Files) (name : List ℕ) → HasRead told name (Gathers self) stop → IfSome told (λ files. chain (files name) ≡ (result.blocks, result.fault)) }
        ensures numbered { (told : Option Files) (name : List ℕ) → HasRead told name (Gathers self) stop → NumberedFrom 1 result.blocks }
    {
        files_are_numbered();
        let Gatherer { reader, blocks } = self;
        let fault = match stop {
            None => end_fault(reader),
            Some(fault) => {
                drop(reader);
                Some(fault)
            }
        };
        Fed { blocks, fault }
    }
}
