// Draft files, written.
ghost use Rattle.std.specs.Prelude.{◌≡◌, ◌≤◌, ◌++◌, codes, decimal, length, IfOk, OnOk, None};
ghost use Rattle.std.specs.List.{flat_map, AllByRecursion};
ghost use Rattle.tx_text.specs.Lines.{HasLine};
ghost use Rattle.tx_text.specs.Parts.{line_text};
ghost use Rattle.chain_file.specs.Chain.{chain};
ghost use Rattle.chain_file.specs.Numbered.{HaveNoTimes, NumberedFrom};
ghost use Rattle.chain_file.specs.Text.{tx_line};
ghost use Rattle.order_queue.specs.Drafts.{draft_block, draft_text};
ghost use Rattle.proc_syntax.specs.Limits.{most_blocks};

use literals::push_number;
use proc_syntax::{Block, Tx};
use rel_base::{List, NoMemory};
use std::alloc::Global;
use tx_text::push_tx;

// Writes the lines of transactions at the end.
fn push_txs(out: &mut Vec<u8>, txs: &[Tx]) -> Result<(), NoMemory>
    ensures text { OnOk result (out.new.items ≡ out.old.items ++ flat_map tx_line txs.now) }
{
    for tx in txs {
        push_tx(out, tx)?;
        out.push(b'\n')?;
    }
    Ok(())
}

// Writes `block N` at the end.
fn push_first(out: &mut Vec<u8>, number: u64) -> Result<(), NoMemory>
    ensures text { OnOk result (out.new.items ≡ out.old.items ++ line_text (codes "block " ++ decimal number)) }
{
    out.extend_from_slice(b"block ")?;
    push_number(out, number)?;
    out.push(b'\n')?;
    Ok(())
}

// Writes the lines of a block at the end.
fn push_block(out: &mut Vec<u8>, block: &Block) -> Result<(), NoMemory>
    ensures text { OnOk result (out.new.items ≡ out.old.items ++ draft_block block.now) }
{
    push_first(out, block.number)?;
    push_txs(out, block.txs.as_slice())?;
    out.extend_from_slice(b"end\n")?;
    Ok(())
}

// Writes the lines of blocks at the end.
fn push_blocks(out: &mut Vec<u8>, blocks: &[Block]) -> Result<(), NoMemory>
    ensures text { OnOk result (out.new.items ≡ out.old.items ++ flat_map draft_block blocks.now) }
{
    for block in blocks {
        push_block(out, block)?;
    }
    Ok(())
}

/// The draft file of blocks, which is read as these blocks, with no fault. It fails only where memory runs out.
pub fn draft(alloc: Global, blocks: &List<Block>) -> Result<List<u8>, NoMemory>
    requires numbered { NumberedFrom 1 blocks.now }
    requires times { HaveNoTimes blocks.now }
    requires few { length blocks.now ≤ most_blocks }
    requires lines { AllByRecursion (λ block. AllByRecursion HasLine block.txs) blocks.now }
    ensures text { IfOk result (λ text. text ≡ draft_text blocks.now) }
    ensures again { IfOk result (λ text. chain text ≡ (blocks.now, None)) }
{
    let mut out = Vec::from_slice(alloc, b"draft 1\n")?;
    push_blocks(&mut out, blocks.as_slice())?;
    Ok(List::from_vec(out))
}
