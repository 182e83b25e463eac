//! The node in its lock.

ghost use Rattle.std.specs.Prelude.{◌≡◌, IfOk};

use node_core::NodeCore;
use node_model::Entry;
use proc_syntax::App;
use rel_base::{NoMemory, Storied};
use row_sets::Versions;
use std::alloc::Global;
use std::marker::Model;

/// A node on the heap, so that a turn moves a pointer and not all that a node has. Contracts see the node.
#[derive(Drop)]
pub struct HeldNode<V: Versions> {
    node: Box<NodeCore<V>>,
}

impl<V: Versions> Model for HeldNode<V> {
    ghost use Rattle.std.specs.Coded.{codes};
    ghost use Rattle.node_model.specs.contracts.journal.Entry as entry_code;
    ghost use Rattle.proc_syntax.specs.contracts.tree.App as app_code;
    ghost use Rattle.node_core.specs.Core.{Core};

    ghost Value = { Core };

    ghost coded = { Prim.hlevel (codes, app_code.the_row.coded, entry_code.the_row.coded) };

    ghost view = { λ held. held.node.value };
}

impl<V: Versions> Storied for HeldNode<V> {
    type Base = App;

    type Entry = Entry;

    ghost base = { λ core. core.app };

    ghost story = { λ core. core.journal };

    ghost actor = { λ entry. entry.actor };

    fn story_len(&self) -> u64 {
        self.node.journal_len() as u64
    }
}

impl<V: Versions> HeldNode<V> {
    /// A node in memory of its own. Where memory runs out it is dropped.
    pub fn new(alloc: Global, core: NodeCore<V>) -> Result<HeldNode<V>, NoMemory>
        ensures { IfOk result (λ held. held ≡ core) }
    {
        Ok(HeldNode {
            node: Box::new(alloc, core)?,
        })
    }

    /// A node that is on the heap.
    pub fn of(node: Box<NodeCore<V>>) -> HeldNode<V>
        ensures { result ≡ node.value }
    {
        HeldNode { node }
    }

    /// The node, where it is on the heap.
    pub fn into_node(self) -> Box<NodeCore<V>>
        ensures { result.value ≡ self }
    {
        let HeldNode { node } = self;
        node
    }
}
