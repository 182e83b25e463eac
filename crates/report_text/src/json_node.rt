//! The report as JSON.

ghost use Rattle.std.specs.Prelude.{◌≡◌, ◌++◌, ◌+◌, OnOk, IfOk, Some, None, codes};
ghost use Rattle.std.specs.Option.{option_copied};
ghost use Rattle.serde_json.specs.Data.{array};
ghost use Rattle.report_text.specs.JsonReport.{fault_json, items_from, json_line, node_json, report_json};
ghost use Rattle.report_text.specs.JsonTokens.{member_tokens, tokens_of};

use crate::ending::kind_text;
use crate::json_block::put_blocks;
use crate::json_table::put_tables;
use crate::json_text::JsonText;
use crate::look::Look;
use crate::text::Text;
use node_model::NodeResult;
use proc_syntax::ChainFault;
use rel_base::{NoMemory, TableDef};
use std::alloc::Global;

/// A node: its blocks, its height, its number, and its tables.
fn put_node(
    out: &mut JsonText,
    look: &Look,
    tables: &[TableDef],
    number: usize,
    node: &NodeResult,
) -> Result<(), NoMemory>
    ensures { OnOk result (out.new ≡ out.old ++ tokens_of (node_json look.now tables.now number node.now)) }
{
    let blocks = node.blocks.as_slice();
    out.begin_object()?;
    put_blocks(out, look, tables, blocks)?;
    out.count_member("height", blocks.len() as u64)?;
    out.count_member("node", number as u64)?;
    put_tables(out, tables, node.tables.as_slice())?;
    out.end_object()
}

/// Nodes, numbered from 1.
fn put_nodes(
    out: &mut JsonText,
    look: &Look,
    tables: &[TableDef],
    nodes: &[NodeResult],
) -> Result<(), NoMemory>
    ensures { OnOk result (out.new ≡ out.old ++ member_tokens (codes "nodes") (array (items_from (node_json look.now tables.now) 1 nodes.now))) }
{
    out.key("nodes")?;
    out.begin_array()?;
    for (before, node) in nodes.iter().enumerate() {
        put_node(out, look, tables, before + 1, node)?;
    }
    out.end_array()
}

/// Where a block file stopped, and why.
fn put_fault(out: &mut JsonText, fault: &ChainFault) -> Result<(), NoMemory>
    ensures { OnOk result (out.new ≡ out.old ++ tokens_of (fault_json fault.now)) }
{
    out.begin_object()?;
    out.text_member("kind", kind_text(fault.kind))?;
    out.count_member("line", fault.line)?;
    out.end_object()
}

/// A whole file: that it was read to its end, and the nodes.
fn put_done(
    out: &mut JsonText,
    look: &Look,
    tables: &[TableDef],
    nodes: &[NodeResult],
) -> Result<(), NoMemory>
    ensures { OnOk result (out.new ≡ out.old ++ tokens_of (report_json look.now tables.now nodes.now None)) }
{
    out.begin_object()?;
    out.key("done")?;
    out.boolean(true)?;
    put_nodes(out, look, tables, nodes)?;
    out.end_object()
}

/// A file with a fault: the nodes, and where it stopped.
fn put_stopped(
    out: &mut JsonText,
    look: &Look,
    tables: &[TableDef],
    nodes: &[NodeResult],
    fault: &ChainFault,
) -> Result<(), NoMemory>
    ensures { OnOk result (out.new ≡ out.old ++ tokens_of (report_json look.now tables.now nodes.now (Some fault.now))) }
{
    out.begin_object()?;
    put_nodes(out, look, tables, nodes)?;
    out.key("stopped")?;
    put_fault(out, fault)?;
    out.end_object()
}

/// The report.
fn put_report(
    out: &mut JsonText,
    look: &Look,
    tables: &[TableDef],
    nodes: &[NodeResult],
    stop: Option<&ChainFault>,
) -> Result<(), NoMemory>
    ensures { OnOk result (out.new ≡ out.old ++ tokens_of (report_json look.now tables.now nodes.now (option_copied stop.entry))) }
{
    match stop {
        None => put_done(out, look, tables, nodes),
        Some(fault) => put_stopped(out, look, tables, nodes, fault),
    }
}

/// The report as one line of JSON, with its newline.
pub fn json_line(
    alloc: Global,
    look: &Look,
    tables: &[TableDef],
    nodes: &[NodeResult],
    stop: Option<&ChainFault>,
) -> Result<Text, NoMemory>
    ensures { IfOk result (λ out. out ≡ json_line look.now tables.now nodes.now (option_copied stop.entry)) }
{
    let mut json = JsonText::new(alloc);
    put_report(&mut json, look, tables, nodes, stop)?;
    let mut out = json.into_text();
    out.push("\n")?;
    Ok(out)
}
