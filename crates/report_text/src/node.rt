//! Reports of nodes.

ghost use Rattle.std.specs.Prelude.{◌≡◌, ◌++◌, ◌+◌, OnOk, IfOk};
ghost use Rattle.std.specs.Option.{option_copied};
ghost use Rattle.report_text.specs.Report.{numbered, height_line, node_line, node_lines, report_lines, report_text, text_lines};

use crate::block::push_blocks;
use crate::ending::push_end;
use crate::journal_lines::push_journals;
use crate::json_node::json_line;
use crate::look::Look;
use crate::table::push_tables;
use crate::text::Text;
use node_model::{KeptResult, NodeResult};
use proc_syntax::ChainFault;
use rel_base::{List, NoMemory, TableDef};
use std::alloc::Global;

/// The line that begins a node.
fn push_node_line(out: &mut Text, number: usize) -> Result<(), NoMemory>
    ensures { OnOk result (out.new ≡ out.old ++ node_line number) }
{
    out.push("node ")?;
    out.push_number(number as u64)?;
    out.push("\n")
}

/// The height of a node, which is the number of its blocks.
fn push_height_line(out: &mut Text, blocks: &[KeptResult]) -> Result<(), NoMemory>
    ensures { OnOk result (out.new ≡ out.old ++ height_line blocks.now) }
{
    out.push("height ")?;
    out.push_number(blocks.len() as u64)?;
    out.push("\n")
}

/// A node: its blocks, its tables after the last of them, and its height.
fn push_node(
    out: &mut Text,
    look: &Look,
    tables: &[TableDef],
    number: usize,
    node: &NodeResult,
) -> Result<(), NoMemory>
    ensures { OnOk result (out.new ≡ out.old ++ node_lines look.now tables.now number node.now) }
{
    push_node_line(out, number)?;
    push_blocks(out, look, tables, node.blocks.as_slice())?;
    push_tables(out, tables, node.tables.as_slice())?;
    push_height_line(out, node.blocks.as_slice())
}

/// Nodes, numbered from 1.
fn push_nodes(
    out: &mut Text,
    look: &Look,
    tables: &[TableDef],
    nodes: &[NodeResult],
) -> Result<(), NoMemory>
    ensures { OnOk result (out.new ≡ out.old ++ numbered (node_lines look.now tables.now) 1 nodes.now) }
{
    for (before, node) in nodes.iter().enumerate() {
        push_node(out, look, tables, before + 1, node)?;
    }
    Ok(())
}

/// The lines of the nodes, and the line that ends them.
fn text_lines(
    alloc: Global,
    look: &Look,
    tables: &[TableDef],
    nodes: &[NodeResult],
    stop: Option<&ChainFault>,
) -> Result<Text, NoMemory>
    ensures { IfOk result (λ out. out ≡ text_lines look.now tables.now nodes.now (option_copied stop.entry)) }
{
    let mut out = Text::new(alloc);
    push_nodes(&mut out, look, tables, nodes)?;
    push_end(&mut out, stop)?;
    Ok(out)
}

/// The report in the form that is asked for, without journals.
fn report_lines(
    alloc: Global,
    look: &Look,
    tables: &[TableDef],
    nodes: &[NodeResult],
    stop: Option<&ChainFault>,
) -> Result<Text, NoMemory>
    ensures { IfOk result (λ out. out ≡ report_lines look.now tables.now nodes.now (option_copied stop.entry)) }
{
    if look.json {
        json_line(alloc, look, tables, nodes, stop)
    } else {
        text_lines(alloc, look, tables, nodes, stop)
    }
}

/// The report of the nodes. As text it has for each node in turn its blocks with the outcome of every transaction and the lines that
/// the look asks for, its tables with their rows, and its height; after the last node the line `done`, or `stopped LINE KIND` where the
/// block file stopped at a fault. As JSON it is one line that says the same. After either stand the journals, if the look asks for them.
/// Every line ends with a newline.
///
/// A table is shown by its name in the declarations; a number that none of them has is shown as an empty name. The only
/// error is out of memory.
pub fn report(
    alloc: Global,
    tables: &List<TableDef>,
    nodes: &List<NodeResult>,
    stop: Option<&ChainFault>,
    look: &Look,
) -> Result<List<u8>, NoMemory>
    ensures { IfOk result (λ bytes. bytes ≡ report_text look.now tables.now nodes.now (option_copied stop.entry)) }
{
    let mut out = report_lines(alloc, look, tables.as_slice(), nodes.as_slice(), stop)?;
    push_journals(&mut out, look, nodes.as_slice())?;
    Ok(List::from_vec(out.into_bytes()))
}
