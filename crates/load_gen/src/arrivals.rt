//! What arrives at the nodes of a load.

ghost use Rattle.std.specs.Prelude.{IfOk, OnOk, cond, ◌+◌, ◌++◌, ◌<◌, ◌^◌, ◌∷◌, ◌≡◌, []};
ghost use Rattle.load_gen.specs.Blocks.{arrivals_among, goes_to, load_arrivals};

use crate::blocks::DRAWN;
use crate::txs::Drawn;
use proc_syntax::Tx;
use rel_base::{List, NoMemory};
use std::alloc::Global;

/// Whether a transaction goes to a node: of each three one after another, two do.
fn goes_to(node: u64, number: u64) -> bool
    requires { number + node < 2 ^ 64 }
    ensures { result ≡ goes_to node number }
{
    !(number + node).is_multiple_of(3)
}

/// Puts a transaction of a number at the end of what arrives at a node, where it goes to that node.
fn arrive(arrivals: &mut List<Tx>, node: u64, number: u64, tx: Tx) -> Result<(), NoMemory>
    requires { number + node < 2 ^ 64 }
    ensures { OnOk result (arrivals.new ≡ arrivals.old ++ cond (goes_to node number) (tx ∷ []) []) }
{
    if goes_to(node, number) {
        arrivals.push(tx)?;
    }
    Ok(())
}

/// What arrives at a node, in order.
fn arrivals_of(alloc: Global, load: u64, node: u64) -> Result<List<Tx>, NoMemory>
    requires { node < 2 ^ 16 }
    ensures { IfOk result (λ made. made ≡ arrivals_among load node 2000) }
{
    let mut arrivals = List::new(alloc);
    let mut drawn = Drawn::new(load);
    for _ in 0..DRAWN {
        let number = drawn.next;
        let tx = drawn.next_tx(alloc)?;
        arrive(&mut arrivals, node, number, tx)?;
    }
    Ok(arrivals)
}

/// What arrives at each of the three nodes.
pub fn load_arrivals(alloc: Global, load: u64) -> Result<List<List<Tx>>, NoMemory>
    ensures { IfOk result (λ made. made ≡ load_arrivals load) }
{
    let first = arrivals_of(alloc, load, 1)?;
    let second = arrivals_of(alloc, load, 2)?;
    let third = arrivals_of(alloc, load, 3)?;
    let nodes = vec![in alloc; first, second, third]?;
    Ok(List::from_vec(nodes))
}
