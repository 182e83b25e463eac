//! What arrives at the nodes of a run, or what the clients of an order submit: a file for each, read one after another.

ghost use Rattle.std.specs.Prelude.{◌≡◌, All, IfOk, IfSome, IsErrOf, length};
ghost use Rattle.bcdb.specs.ArrivalFiles.{all_arrived, arrived_in, file_at, node_file};
ghost use Rattle.bcdb.specs.Plan.{AllowsPlan, CallsFile, Counted, RoseAt, RoseIn, arrivals_plan, planned_if};
ghost use Rattle.edge_traits.specs.Causes.{Keeps};
ghost use Rattle.order_queue.specs.Orders.{IsSubmission};

use crate::arrivals::read_arrivals;
use crate::fault::FilesFault;
use crate::refusal::BadArrivals;
use cli_words::Word;
use edge_traits::Shelf;
use itoa::Buffer;
use proc_syntax::Tx;
use rel_base::{List, NoMemory};
use std::alloc::Global;

/// The name of the file of a node, a client or a peer, by its number.
pub fn node_file(alloc: Global, prefix: &str, node: u32) -> Result<Word, NoMemory>
    ensures { IfOk result (λ name. name ≡ node_file prefix.now node) }
{
    let mut digits = Buffer::new();
    let mut name = String::from_str(alloc, prefix)?;
    name.push_str(digits.format(node))?;
    Word::new(alloc, name.as_str())
}

// The name of the file of what arrives at a node, if the words name such files by the prefix of their names.
fn arrivals_name(alloc: Global, prefix: &Option<Word>, node: u32) -> Result<Option<Word>, NoMemory>
    ensures { IfOk result (λ name. name ≡ file_at prefix.now node) }
{
    match prefix {
        None => Ok(None),
        Some(prefix) => Ok(Some(node_file(alloc, prefix.as_str(), node)?)),
    }
}

// What arrives at one node: its transactions, or the first line of its file with a fault.
fn read_node<S: Shelf>(
    alloc: Global,
    shelf: &mut S,
    prefix: &Option<Word>,
    node: u32,
) -> Result<Result<List<Tx>, u64>, FilesFault>
    requires allowed { AllowsPlan (planned_if CallsFile (file_at prefix.now node)) (S.told shelf.old) (S.may_read shelf.old) }
    ensures told { IfOk result (λ read. IfSome (S.told shelf.old) (λ files. arrived_in (file_at prefix.now node) files ≡ read)) }
    ensures submission { IfOk result (λ read. IfOk read IsSubmission) }
    ensures same { S.told shelf.new ≡ S.told shelf.old }
    ensures allowed { Keeps (S.may_read shelf.old) (S.may_read shelf.new) }
    ensures counted { Counted result (RoseAt (planned_if CallsFile (file_at prefix.now node)) (S.faults shelf.old) (S.faults shelf.new)) (S.faults shelf.old) (S.faults shelf.new) }
{
    let name = arrivals_name(alloc, prefix, node)?;
    read_arrivals(alloc, shelf, &name)
}

/// What arrives at each node of a run, in the order of the nodes; or the first node whose file has a fault, with the line.
///
/// A file is read only once those of the nodes before it have no fault, and none after the first fault. A read that fails is not
/// tried again.
pub fn read_all_arrivals<S: Shelf>(
    alloc: Global,
    shelf: &mut S,
    prefix: &Option<Word>,
    nodes: u32,
) -> Result<Result<List<List<Tx>>, BadArrivals>, FilesFault>
    requires allowed { AllowsPlan (arrivals_plan prefix.now 1 nodes) (S.told shelf.old) (S.may_read shelf.old) }
    ensures told { IfOk result (λ read. IfSome (S.told shelf.old) (λ files. all_arrived prefix.now 1 nodes files ≡ read)) }
    ensures all { IfOk result (λ read. IfOk read (λ txs. length txs ≡ nodes)) }
    ensures submissions { IfOk result (λ read. IfOk read (All IsSubmission)) }
    ensures same { S.told shelf.new ≡ S.told shelf.old }
    ensures allowed { Keeps (S.may_read shelf.old) (S.may_read shelf.new) }
    ensures turn { IsErrOf result FilesFault.Failed → IfSome (S.told shelf.old) (λ files. RoseIn (arrivals_plan prefix.now 1 nodes) files (S.faults shelf.old) (S.faults shelf.new)) }
    ensures counted { Counted result (RoseAt (arrivals_plan prefix.now 1 nodes) (S.faults shelf.old) (S.faults shelf.new)) (S.faults shelf.old) (S.faults shelf.new) }
{
    let mut all = List::new(alloc);
    for node in 1..=nodes {
        match read_node(alloc, shelf, prefix, node)? {
            Ok(txs) => all.push(txs)?,
            Err(line) => {
                drop(all);
                return Ok(Err(BadArrivals { node, line }));
            }
        }
    }
    Ok(Ok(all))
}
