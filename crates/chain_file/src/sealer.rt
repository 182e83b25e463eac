//! Block files that are sealed while they are read.

ghost use Rattle.std.specs.Prelude.{◌≡◌, ◌++◌, List, [], ℕ, None, IfOk, OnOk};
ghost use Rattle.chain_file.specs.Chain.{chain, lasting};
ghost use Rattle.chain_file.specs.ChainText.{sealed_text};
ghost use Rattle.chain_file.specs.Headers.{file_form, version_of};
ghost use Rattle.chain_file.specs.Sealed.{Holds, Seals, SealsAs};

use crate::form::{FileForm, FileKind};
use crate::reader::{Fed, Reader};
use crate::sealing::ChainText;
use proc_syntax::{Block, ChainFault};
use rel_base::{List, NoMemory};
use std::alloc::Global;
use tx_text::held::extend;

/// What is written of a file.
#[derive(Drop)]
enum Sealed {
    /// The bytes that were read, in which no header ended.
    Front(List<u8>),
    /// The bytes that were read of a file that begins as a chain. Without a fault it is its own sealed text, so no block is hashed
    /// again.
    Same(List<u8>),
    /// The blocks that were read.
    Anew(ChainText),
}

/// What is written of a file of this form, whose bytes so far have these blocks.
fn begun(
    alloc: Global,
    form: Option<FileForm>,
    text: List<u8>,
    blocks: &List<Block>,
) -> Result<Sealed, NoMemory>
    ensures { form ≡ file_form text → (chain text).0 ≡ blocks.now → IfOk result (λ sealed. Holds sealed text) }
{
    let Some(form) = form else {
        return Ok(Sealed::Front(text));
    };
    match form.kind {
        FileKind::Chain => Ok(Sealed::Same(text)),
        FileKind::Draft => {
            let mut chain = ChainText::new(alloc, form.version)?;
            chain.push_all(blocks.as_slice())?;
            Ok(Sealed::Anew(chain))
        }
    }
}

/// Writes the next piece of a file of this form, in which these blocks ended.
#[tactic(auto, using(crate::proofs::Forms::no_blocks))]
fn keep(
    alloc: Global,
    sealed: &mut Sealed,
    form: Option<FileForm>,
    blocks: &List<Block>,
    piece: &[u8],
) -> Result<(), NoMemory>
    ensures { (bytes : List ℕ) → Holds sealed.old bytes → form ≡ file_form (bytes ++ piece.now) → (chain (bytes ++ piece.now)).0 ≡ (chain bytes).0 ++ blocks.now → OnOk result (Holds sealed.new (bytes ++ piece.now)) }
{
    match sealed {
        Sealed::Front(text) => {
            extend(alloc, text, piece)?;
            let whole = std::mem::replace(text, List::new(alloc));
            *sealed = begun(alloc, form, whole, blocks)?;
        }
        Sealed::Same(text) => extend(alloc, text, piece)?,
        Sealed::Anew(chain) => chain.push_all(blocks.as_slice())?,
    }
    Ok(())
}

/// The chain file of the blocks of a file without a fault.
#[tactic(auto, using(crate::proofs::Written::same_spelled, crate::proofs::Written::none_spelled, crate::proofs::Written::anew_spelled))]
fn finished(alloc: Global, sealed: Sealed) -> List<u8>
    ensures { (bytes : List ℕ) → Holds sealed bytes → (chain bytes).1 ≡ None → result ≡ sealed_text (version_of bytes) (chain bytes).0 }
{
    match sealed {
        Sealed::Front(_) => List::new(alloc),
        Sealed::Same(text) => text,
        Sealed::Anew(chain) => chain.finish(),
    }
}

/// Seals a block file, which it is fed with piece by piece. It keeps no block longer than its piece.
///
/// Contracts say that it `Seals` the bytes that it was fed.
#[derive(Drop)]
pub struct Sealer {
    alloc: Global,
    reader: Reader,
    sealed: Sealed,
}

impl Sealer {
    /// A sealer that was fed with nothing yet.
    pub fn new(alloc: Global) -> Sealer
        ensures { Seals result [] }
    {
        Sealer {
            alloc,
            reader: Reader::new(alloc),
            sealed: Sealed::Front(List::new(alloc)),
        }
    }

    /// Takes the next piece of the file, and answers the fault that was met in it or before. Where memory runs out, what was fed is
    /// lost.
    pub fn feed(&mut self, piece: &[u8]) -> Result<Option<ChainFault>, NoMemory>
        ensures follows { (bytes : List ℕ) → Seals self.old bytes → OnOk result (Seals self.new (bytes ++ piece.now)) }
        ensures fault { (bytes : List ℕ) → Seals self.old bytes → IfOk result (λ fault. fault ≡ lasting (chain (bytes ++ piece.now)).1) }
    {
        let fed = self.reader.feed(piece)?;
        let Fed { blocks, fault } = fed;
        let form = self.reader.form();
        keep(self.alloc, &mut self.sealed, form, &blocks, piece)?;
        Ok(fault)
    }

    /// Ends the file: the chain file of its blocks, of the version that was read, where the bytes so far are a whole file, and else
    /// its first fault.
    pub fn end(self) -> Result<List<u8>, ChainFault>
        ensures { (bytes : List ℕ) → Seals self bytes → SealsAs result (version_of bytes) (chain bytes) }
    {
        let Sealer {
            alloc,
            mut reader,
            sealed,
        } = self;
        match reader.end() {
            Ok(()) => Ok(finished(alloc, sealed)),
            Err(fault) => Err(fault),
        }
    }
}
