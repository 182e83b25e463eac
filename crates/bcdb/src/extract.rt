//! What is drawn from the results of blocks: digests, heads, or the proof of a write.

ghost use Rattle.std.specs.Option.{option_copied};
ghost use Rattle.std.specs.Prelude.{◌≡◌, ◌≤◌, ◌+◌, All, IfOk, IfSome, drop, false, length, map, true};
ghost use Rattle.bcdb.specs.ExtractAnswer.{extracted, hashes_of};
ghost use Rattle.bcdb.specs.FewWrites.{AreFew, HasFewWrites};
ghost use Rattle.bcdb.specs.HistoryParts.{from_block};
ghost use Rattle.checkpoint.specs.Files.{digest_file};
ghost use Rattle.checkpoint.specs.Folded.{digests_of_results};
ghost use Rattle.merkle_proof.specs.Blocks.{heads_of, numbered, proof_of_block, proof_of_write};
ghost use Rattle.merkle_proof.specs.Proofs.{head_of};
ghost use Rattle.provenance.specs.Laws.{RunFromOne};
ghost use Rattle.provenance.specs.Versions.{history_of};
ghost use Rattle.row_sets.specs.BlockWrites.{writes_from};

use checkpoint::write_digests;
use merkle_proof::{head_of, prove, write_proof};
use node_model::KeptResult;
use rel_base::{List, NoMemory, Placed};
use row_sets::{Versions, block_from};
use std::alloc::Global;

/// What is drawn from the results of blocks.
#[derive(Clone, Copy, PartialEq, Eq)]
pub enum Extract {
    /// The digest of each block, or the head of its writes.
    Hashes { heads: bool },
    /// The proof of a write of a block, both by their numbers from 1.
    Proof { block: u64, write: u64 },
}

// The digest of each block.
fn digests_of(alloc: Global, blocks: &[KeptResult]) -> Result<List<[u8; 32]>, NoMemory>
    ensures { IfOk result (λ digests. digests ≡ digests_of_results blocks.now) }
{
    let mut digests = List::new(alloc);
    for block in blocks {
        digests.push(*block.digest())?;
    }
    Ok(digests)
}

// Whether the write of a number, from 0, is in a block before one.
fn is_before<V: Versions>(versions: &V, at: usize, number: u64) -> bool
    ensures before { result ≡ true → from_block number (drop (at + 1) (V.history versions.now)) ≡ from_block number (drop at (V.history versions.now)) }
    ensures other { result ≡ false → from_block number (drop at (V.history versions.now)) ≡ drop at (V.history versions.now) }
{
    match versions.write_at(at) {
        None => false,
        Some(write) => write.block < number,
    }
}

// The number of the first write from one on that is in a block of a number or a later one.
fn first_from<V: Versions>(versions: &V, from: usize, number: u64) -> usize
    ensures { drop result (V.history versions.now) ≡ from_block number (drop from (V.history versions.now)) }
{
    let count = versions.count();
    for at in from..count {
        if !is_before(versions, at, number) {
            return at;
        }
    }
    count
}

// The head of the writes of a block that begin at a number.
fn head_from<V: Versions>(
    alloc: Global,
    versions: &V,
    from: usize,
    number: u64,
) -> Result<[u8; 32], NoMemory>
    requires { AreFew (writes_from number (drop from (V.history versions.now))) }
    ensures { IfOk result (λ head. head ≡ head_of (writes_from number (drop from (V.history versions.now)))) }
{
    let writes = block_from(alloc, versions, from, number)?;
    let head = head_of(alloc, &writes)?;
    Ok(head)
}

// The head of the writes of each block.
fn heads_of<V: Versions>(
    alloc: Global,
    versions: &V,
    blocks: &[KeptResult],
) -> Result<List<[u8; 32]>, NoMemory>
    requires history { V.history versions.now ≡ history_of blocks.now }
    requires numbers { RunFromOne (map (λ block. block.number) blocks.now) }
    requires few { All HasFewWrites blocks.now }
    ensures { IfOk result (λ heads. heads ≡ heads_of blocks.now) }
{
    let mut heads = List::new(alloc);
    let mut from = 0;
    for block in blocks {
        let number = block.number();
        from = first_from(versions, from, number);
        let head = head_from(alloc, versions, from, number)?;
        heads.push(head)?;
    }
    Ok(heads)
}

// The digest of each block, or the head of its writes.
fn hashes_of<V: Versions>(
    alloc: Global,
    versions: &V,
    heads: bool,
    blocks: &[KeptResult],
) -> Result<List<[u8; 32]>, NoMemory>
    requires history { V.history versions.now ≡ history_of blocks.now }
    requires numbers { RunFromOne (map (λ block. block.number) blocks.now) }
    requires few { All HasFewWrites blocks.now }
    ensures { IfOk result (λ hashes. hashes ≡ hashes_of heads blocks.now) }
{
    if heads {
        heads_of(alloc, versions, blocks)
    } else {
        digests_of(alloc, blocks)
    }
}

// Their file.
fn hash_file<V: Versions>(
    alloc: Global,
    versions: &V,
    heads: bool,
    blocks: &[KeptResult],
) -> Result<List<u8>, NoMemory>
    requires history { V.history versions.now ≡ history_of blocks.now }
    requires numbers { RunFromOne (map (λ block. block.number) blocks.now) }
    requires few { All HasFewWrites blocks.now }
    ensures { IfOk result (λ file. file ≡ digest_file heads (hashes_of heads blocks.now)) }
{
    let hashes = hashes_of(alloc, versions, heads, blocks)?;
    let file = write_digests(alloc, heads, &hashes)?;
    Ok(file)
}

// The block of a number.
fn block_at(blocks: &List<KeptResult>, number: u64) -> Option<&KeptResult>
    ensures { option_copied result ≡ numbered blocks.now number }
{
    if number == 0 {
        return None;
    }
    blocks.get(number as usize - 1)
}

// The write of a number.
#[tactic(auto, using(crate::proofs::Numbered::within_told))]
fn write_at(writes: &List<Placed>, number: u64) -> Option<&Placed>
    ensures write { option_copied result ≡ numbered writes.now number }
    ensures within { IfSome result (λ write. (1 ≤ number) × (number ≤ length writes.now)) }
{
    if number == 0 {
        return None;
    }
    writes.get(number as usize - 1)
}

// The proof file of the write of a number, if there is one.
fn prove_in_block(
    alloc: Global,
    writes: &List<Placed>,
    number: u64,
) -> Result<Option<List<u8>>, NoMemory>
    requires { AreFew writes.now }
    ensures { IfOk result (λ file. file ≡ proof_of_block writes.now number) }
{
    let Some(write) = write_at(writes, number) else {
        return Ok(None);
    };
    let proof = prove(alloc, writes, number as u32)?;
    let file = write_proof(alloc, write, &proof)?;
    Ok(Some(file))
}

// The proof file of a write of the block of a number.
fn prove_in_history<V: Versions>(
    alloc: Global,
    versions: &V,
    block: u64,
    write: u64,
) -> Result<Option<List<u8>>, NoMemory>
    requires { AreFew (writes_from block (from_block block (V.history versions.now))) }
    ensures { IfOk result (λ file. file ≡ proof_of_block (writes_from block (from_block block (V.history versions.now))) write) }
{
    let from = first_from(versions, 0, block);
    let writes = block_from(alloc, versions, from, block)?;
    let file = prove_in_block(alloc, &writes, write)?;
    Ok(file)
}

// The proof file of a write of the block of a number, if there are both.
fn prove_write<V: Versions>(
    alloc: Global,
    versions: &V,
    blocks: &List<KeptResult>,
    block: u64,
    write: u64,
) -> Result<Option<List<u8>>, NoMemory>
    requires history { V.history versions.now ≡ history_of blocks.now }
    requires numbers { RunFromOne (map (λ block. block.number) blocks.now) }
    requires few { All HasFewWrites blocks.now }
    ensures { IfOk result (λ file. file ≡ proof_of_write blocks.now block write) }
{
    match block_at(blocks, block) {
        Some(_) => prove_in_history(alloc, versions, block, write),
        None => Ok(None),
    }
}

/// What is drawn from the results of blocks, as a file; none where there is no such write. The writes are taken from the store.
pub fn draw_file<V: Versions>(
    alloc: Global,
    versions: &V,
    wanted: Extract,
    blocks: &List<KeptResult>,
) -> Result<Option<List<u8>>, NoMemory>
    requires history { V.history versions.now ≡ history_of blocks.now }
    requires numbers { RunFromOne (map (λ block. block.number) blocks.now) }
    requires few { All HasFewWrites blocks.now }
    ensures { IfOk result (λ file. file ≡ extracted wanted blocks.now) }
{
    match wanted {
        Extract::Hashes { heads } => {
            Ok(Some(hash_file(alloc, versions, heads, blocks.as_slice())?))
        }
        Extract::Proof { block, write } => prove_write(alloc, versions, blocks, block, write),
    }
}
