//! The reader of a block's result.

ghost use Rattle.std.specs.Prelude.{◌≡◌, cond, Some, None, IfOk, nat_le};
ghost use Rattle.std.specs.Ordering.{is_lt};
ghost use Rattle.canon_code.specs.Parts.{items_at, counted_at};
ghost use Rattle.canon_code.specs.Reads.{Reads, Gives};
ghost use Rattle.node_model.specs.BlockCode.{block_code};
ghost use Rattle.rel_base.specs.Text.{has_id_form};
ghost use Rattle.block_digest.specs.Codable.{IsCodable};
ghost use Rattle.block_digest.specs.Decoding.{Decodes};
ghost use Rattle.block_digest.specs.Grammar.{most_outcomes, most_counted, placed_cmp, HasBlockCode};
ghost use Rattle.block_digest.specs.Readings.{small_at, id_at, told_at, placed_at, rise_behind, rise, outcomes_at, order_at, writes_at, time_at, head_at, block_at};

use crate::items::{Item, read_items};
use crate::positions::{MOST_OUTCOMES, is_position};
use crate::read_outcome::read_outcome;
use canon_code::short::read_short;
use canon_code::{CodeFault, read_u32, read_u64, read_write};
use node_model::{BlockResult, NO_DIGEST, Told};
use rel_base::{Id, List, NameFault, Placed};
use std::alloc::Global;

/// The id of some bytes, if they are one.
#[tactic(auto, using(rel_base::proofs::Utf8::no_id))]
fn id_of(alloc: Global, bytes: &[u8]) -> Result<Id, CodeFault>
    ensures { Gives result (cond (has_id_form bytes.now) (Some bytes.now) None) }
{
    let Ok(text) = std::str::from_utf8(bytes) else {
        return Err(CodeFault::Bad);
    };
    match Id::new(alloc, text) {
        Ok(id) => Ok(id),
        Err(NameFault::NoMemory) => Err(CodeFault::NoMemory),
        Err(NameFault::Bad) => Err(CodeFault::Bad),
    }
}

/// Reads an id.
fn read_id(alloc: Global, bytes: &[u8]) -> Result<(Id, &[u8]), CodeFault>
    ensures { Reads result (id_at bytes.now) }
{
    let (found, rest) = read_short(bytes)?;
    let id = id_of(alloc, found)?;
    Ok((id, rest))
}

/// A transaction: its id and its outcome.
impl Item for Told {
    ghost item_at = { λ count. told_at };

    fn read<'a>(
        alloc: Global,
        _count: usize,
        bytes: &'a [u8],
    ) -> Result<(Told, &'a [u8]), CodeFault> {
        let (id, rest) = read_id(alloc, bytes)?;
        let (outcome, rest) = read_outcome(alloc, rest)?;
        Ok((Told { id, outcome }, rest))
    }
}

/// Reads so many transactions, if they are few enough for a block.
fn read_few_told(alloc: Global, count: u32, bytes: &[u8]) -> Result<(List<Told>, &[u8]), CodeFault>
    ensures { Reads result (cond (nat_le count most_outcomes) (items_at told_at count bytes.now) None) }
{
    if count > MOST_OUTCOMES {
        return Err(CodeFault::Bad);
    }
    read_items(alloc, count as usize, count, bytes)
}

/// Reads the transactions of a block.
fn read_outcomes(alloc: Global, bytes: &[u8]) -> Result<(List<Told>, &[u8]), CodeFault>
    ensures { Reads result (outcomes_at bytes.now) }
{
    let (count, rest) = read_u32(bytes)?;
    read_few_told(alloc, count, rest)
}

/// Reads the order of a block of so many transactions.
fn read_order(alloc: Global, count: usize, bytes: &[u8]) -> Result<(List<u32>, &[u8]), CodeFault>
    ensures { Reads result (order_at count bytes.now) }
{
    let (positions, rest) = read_u32(bytes)?;
    read_items(alloc, count, positions, rest)
}

/// A write by a transaction of a block of so many.
impl Item for Placed {
    ghost item_at = { placed_at };

    fn read<'a>(
        alloc: Global,
        count: usize,
        bytes: &'a [u8],
    ) -> Result<(Placed, &'a [u8]), CodeFault> {
        let (placed, rest) = read_write(alloc, bytes)?;
        if !is_position(count, placed.pos) {
            return Err(CodeFault::Bad);
        }
        Ok((placed, rest))
    }
}

/// Whether a write stands before another: by position, then by table, then by key.
fn stands_before(first: &Placed, second: &Placed) -> bool
    ensures { result ≡ is_lt (placed_cmp first.now second.now) }
{
    let by_position = first.pos.cmp(&second.pos);
    let by_table = first.write.table.cmp(&second.write.table);
    let by_key = first.write.key.cmp(&second.write.key);
    by_position.then(by_table.then(by_key)).is_lt()
}

/// Whether each of some writes stands after the one before it, the first after a given one.
fn rise_behind(last: &Placed, writes: &[Placed]) -> bool
    ensures { result ≡ rise_behind last.now writes.now }
{
    let mut last = last;
    for next in writes {
        if !stands_before(last, next) {
            return false;
        }
        last = next;
    }
    true
}

/// Whether each write stands after the one before it.
fn rise(writes: &[Placed]) -> bool
    ensures { result ≡ rise writes.now }
{
    match writes {
        [first, rest @ ..] => rise_behind(first, rest),
        [] => true,
    }
}

/// Reads writes after their count.
fn read_counted_writes(
    alloc: Global,
    count: usize,
    bytes: &[u8],
) -> Result<(List<Placed>, &[u8]), CodeFault>
    ensures { Reads result (counted_at small_at most_counted (placed_at count) bytes.now) }
{
    let (writes, rest) = read_u32(bytes)?;
    read_items(alloc, count, writes, rest)
}

/// Reads the writes of a block of so many transactions.
fn read_writes(
    alloc: Global,
    count: usize,
    bytes: &[u8],
) -> Result<(List<Placed>, &[u8]), CodeFault>
    ensures { Reads result (writes_at count bytes.now) }
{
    let (writes, rest) = read_counted_writes(alloc, count, bytes)?;
    if !rise(writes.as_slice()) {
        return Err(CodeFault::Bad);
    }
    Ok((writes, rest))
}

/// Reads a time, which is not negative.
fn read_time(bytes: &[u8]) -> Result<(i64, &[u8]), CodeFault>
    ensures { Reads result (time_at bytes.now) }
{
    let (bits, rest) = read_u64(bytes)?;
    let time = bits.cast_signed();
    if time < 0 {
        return Err(CodeFault::Bad);
    }
    Ok((time, rest))
}

/// Reads the number and the time of a block.
fn read_head(bytes: &[u8]) -> Result<((u64, i64), &[u8]), CodeFault>
    ensures { Reads result (head_at bytes.now) }
{
    let (number, rest) = read_u64(bytes)?;
    let (time, rest) = read_time(rest)?;
    Ok(((number, time), rest))
}

/// Reads the block whose code stands at the start of the bytes, and answers what follows it too.
fn read_block(alloc: Global, bytes: &[u8]) -> Result<(BlockResult, &[u8]), CodeFault>
    ensures { Reads result (block_at bytes.now) }
{
    let ((number, time), rest) = read_head(bytes)?;
    let (outcomes, rest) = read_outcomes(alloc, rest)?;
    let (order, rest) = read_order(alloc, outcomes.len(), rest)?;
    let (writes, rest) = read_writes(alloc, outcomes.len(), rest)?;
    let block = BlockResult {
        number,
        time,
        outcomes,
        order,
        writes,
        digest: NO_DIGEST,
    };
    Ok((block, rest))
}

/// The block whose code the bytes are, with a digest of zeros, since a code holds none. `Bad` exactly where the whole
/// of the bytes is no code of a block of the grammar. Memory is taken for what was read alone, whatever the counts say.
pub fn decode(alloc: Global, bytes: &[u8]) -> Result<BlockResult, CodeFault>
    ensures decoded { Decodes block_code HasBlockCode bytes.now result }
    // So what was read can be written again.
    ensures codable { IfOk result IsCodable }
{
    let (block, rest) = read_block(alloc, bytes)?;
    if !rest.is_empty() {
        return Err(CodeFault::Bad);
    }
    Ok(block)
}
