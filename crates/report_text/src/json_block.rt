//! Blocks as JSON.

ghost use Rattle.std.specs.Prelude.{◌≡◌, ◌++◌, OnOk, codes};
ghost use Rattle.hex.specs.Hex.{encode_lower};
ghost use Rattle.serde_json.specs.Data.{array, string};
ghost use Rattle.report_text.specs.JsonReport.{block_json, count, items_by, tx_json};
ghost use Rattle.report_text.specs.Outcome.{outcome_text};
ghost use Rattle.report_text.specs.JsonTokens.{member_tokens, tokens_if, tokens_of};

use crate::json_text::JsonText;
use crate::look::Look;
use node_model::{KeptResult, Outcome, Told};
use rel_base::{NoMemory, TableDef};

/// The outcome of a transaction.
fn put_outcome(out: &mut JsonText, tables: &[TableDef], outcome: &Outcome) -> Result<(), NoMemory>
    ensures { OnOk result (out.new ≡ out.old ++ member_tokens (codes "outcome") (string (outcome_text tables.now outcome.now))) }
{
    out.key("outcome")?;
    out.outcome(tables, outcome)
}

/// A transaction: its id and its outcome.
fn put_tx(out: &mut JsonText, tables: &[TableDef], told: &Told) -> Result<(), NoMemory>
    ensures { OnOk result (out.new ≡ out.old ++ tokens_of (tx_json tables.now told.now)) }
{
    out.begin_object()?;
    out.text_member("id", told.id.as_str())?;
    put_outcome(out, tables, &told.outcome)?;
    out.end_object()
}

/// The transactions of a block, in order.
fn put_txs(out: &mut JsonText, tables: &[TableDef], outcomes: &[Told]) -> Result<(), NoMemory>
    ensures { OnOk result (out.new ≡ out.old ++ member_tokens (codes "txs") (array (items_by (tx_json tables.now) outcomes.now))) }
{
    out.key("txs")?;
    out.begin_array()?;
    for told in outcomes {
        put_tx(out, tables, told)?;
    }
    out.end_array()
}

/// Positions, in the order of the list.
fn put_positions(out: &mut JsonText, positions: &[u32]) -> Result<(), NoMemory>
    ensures { OnOk result (out.new ≡ out.old ++ tokens_of (array (items_by count positions.now))) }
{
    out.begin_array()?;
    for position in positions {
        out.count(u64::from(*position))?;
    }
    out.end_array()
}

/// The serial order of a block's committed transactions, if it is asked for.
fn put_order(out: &mut JsonText, look: &Look, positions: &[u32]) -> Result<(), NoMemory>
    ensures { OnOk result (out.new ≡ out.old ++ tokens_if look.now.orders (member_tokens (codes "order") (array (items_by count positions.now)))) }
{
    if !look.orders {
        return Ok(());
    }
    out.key("order")?;
    put_positions(out, positions)
}

/// The digest of a block, if it is asked for.
fn put_digest(out: &mut JsonText, look: &Look, digest: &[u8; 32]) -> Result<(), NoMemory>
    ensures { OnOk result (out.new ≡ out.old ++ tokens_if look.now.digests (member_tokens (codes "digest") (string (encode_lower digest.now)))) }
{
    if !look.digests {
        return Ok(());
    }
    out.key("digest")?;
    out.digits(digest)
}

/// A block: its number, its transactions, and what else is asked for.
fn put_block(
    out: &mut JsonText,
    look: &Look,
    tables: &[TableDef],
    block: &KeptResult,
) -> Result<(), NoMemory>
    ensures { OnOk result (out.new ≡ out.old ++ tokens_of (block_json look.now tables.now block.now)) }
{
    out.begin_object()?;
    put_digest(out, look, block.digest())?;
    out.count_member("number", block.number())?;
    put_order(out, look, block.order().as_slice())?;
    put_txs(out, tables, block.outcomes().as_slice())?;
    out.end_object()
}

/// The blocks of a node, in order.
pub fn put_blocks(
    out: &mut JsonText,
    look: &Look,
    tables: &[TableDef],
    blocks: &[KeptResult],
) -> Result<(), NoMemory>
    ensures { OnOk result (out.new ≡ out.old ++ member_tokens (codes "blocks") (array (items_by (block_json look.now tables.now) blocks.now))) }
{
    out.key("blocks")?;
    out.begin_array()?;
    for block in blocks {
        put_block(out, look, tables, block)?;
    }
    out.end_array()
}
