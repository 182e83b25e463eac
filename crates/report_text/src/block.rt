//! The lines of blocks.

ghost use Rattle.std.specs.Prelude.{◌≡◌, ◌++◌, ◌+◌, OnOk, flat_map};
ghost use Rattle.report_text.specs.Report.{numbered, tx_line, block_line, block_lines, order_line, digest_line, order_text, shown_if};

use crate::look::Look;
use crate::outcome::push_outcome;
use crate::text::Text;
use node_model::{KeptResult, Told};
use rel_base::{NoMemory, TableDef};

/// A transaction: its position, its id and its outcome.
fn push_tx_line(
    out: &mut Text,
    tables: &[TableDef],
    pos: usize,
    told: &Told,
) -> Result<(), NoMemory>
    ensures { OnOk result (out.new ≡ out.old ++ tx_line tables.now pos told.now) }
{
    out.push("tx ")?;
    out.push_number(pos as u64)?;
    out.push(" ")?;
    out.push(told.id.as_str())?;
    out.push(" ")?;
    push_outcome(out, tables, &told.outcome)?;
    out.push("\n")
}

/// The transactions of a block, at the positions from 1.
fn push_tx_lines(out: &mut Text, tables: &[TableDef], outcomes: &[Told]) -> Result<(), NoMemory>
    ensures { OnOk result (out.new ≡ out.old ++ numbered (tx_line tables.now) 1 outcomes.now) }
{
    for (before, told) in outcomes.iter().enumerate() {
        push_tx_line(out, tables, before + 1, told)?;
    }
    Ok(())
}

/// The line that begins a block.
fn push_block_line(out: &mut Text, block: &KeptResult) -> Result<(), NoMemory>
    ensures { OnOk result (out.new ≡ out.old ++ block_line block.now) }
{
    out.push("block ")?;
    out.push_number(block.number())?;
    out.push("\n")
}

/// Positions, each after a space.
fn push_order_text(out: &mut Text, positions: &[u32]) -> Result<(), NoMemory>
    ensures { OnOk result (out.new ≡ out.old ++ order_text positions.now) }
{
    for position in positions {
        out.push(" ")?;
        out.push_number(u64::from(*position))?;
    }
    Ok(())
}

/// The serial order of a block's committed transactions.
fn push_order_line(out: &mut Text, block: &KeptResult) -> Result<(), NoMemory>
    ensures { OnOk result (out.new ≡ out.old ++ order_line block.now) }
{
    out.push("order")?;
    push_order_text(out, block.order().as_slice())?;
    out.push("\n")
}

/// The digest of a block.
pub fn push_digest_line(out: &mut Text, block: &KeptResult) -> Result<(), NoMemory>
    ensures { OnOk result (out.new ≡ out.old ++ digest_line block.now) }
{
    out.push("digest ")?;
    out.push_digits(block.digest())?;
    out.push("\n")
}

/// The line of the order, if it is asked for.
fn push_order(out: &mut Text, look: &Look, block: &KeptResult) -> Result<(), NoMemory>
    ensures { OnOk result (out.new ≡ out.old ++ shown_if look.now.orders (order_line block.now)) }
{
    if look.orders {
        push_order_line(out, block)
    } else {
        Ok(())
    }
}

/// The line of the digest, if it is asked for.
fn push_digest(out: &mut Text, look: &Look, block: &KeptResult) -> Result<(), NoMemory>
    ensures { OnOk result (out.new ≡ out.old ++ shown_if look.now.digests (digest_line block.now)) }
{
    if look.digests {
        push_digest_line(out, block)
    } else {
        Ok(())
    }
}

/// A block: its number, its transactions, and what else is asked for.
fn push_block(
    out: &mut Text,
    look: &Look,
    tables: &[TableDef],
    block: &KeptResult,
) -> Result<(), NoMemory>
    ensures { OnOk result (out.new ≡ out.old ++ block_lines look.now tables.now block.now) }
{
    push_block_line(out, block)?;
    push_tx_lines(out, tables, block.outcomes().as_slice())?;
    push_order(out, look, block)?;
    push_digest(out, look, block)
}

/// Blocks, in order.
pub fn push_blocks(
    out: &mut Text,
    look: &Look,
    tables: &[TableDef],
    blocks: &[KeptResult],
) -> Result<(), NoMemory>
    ensures { OnOk result (out.new ≡ out.old ++ flat_map (block_lines look.now tables.now) blocks.now) }
{
    for block in blocks {
        push_block(out, look, tables, block)?;
    }
    Ok(())
}
