//! The node.

use crate::delivered_block::DeliveredBlock;
use crate::jobs::Jobs;
use block_work::{Chain, IdIndex};
use node_model::{Entry, KeptResult};
use proc_check::Checked;
use proc_syntax::App;
use rel_base::{List, NoMemory, Storied};
use row_sets::Versions;
use std::alloc::Global;
use std::marker::Model;
use std::sync::Arc;

/// A node: the sealed blocks with their writes, the ids that were decided, the block in work, the jobs and the journal.
///
/// Contracts see its application and its journal. All else that a caller may know of it is the state that this journal comes to, and
/// each call that may change it is a step in that state.
#[derive(Drop)]
pub struct NodeCore<V: Versions> {
    pub(crate) chain: Chain<V>,
    pub(crate) ids: IdIndex,
    pub(crate) work: Option<DeliveredBlock>,
    pub(crate) jobs: Jobs,
    pub(crate) journal: Vec<Entry>,
    pub(crate) alloc: Global,
}

impl<V: Versions> Model for NodeCore<V> {
    ghost use Rattle.std.specs.Prelude.{◌+◌, ◌≤◌, vec_capacity, vec_len};
    ghost use Rattle.std.specs.Coded.{codes};
    ghost use Rattle.node_model.specs.contracts.journal.Entry as entry_code;
    ghost use Rattle.proc_syntax.specs.contracts.tree.App as app_code;
    ghost use Rattle.node_core.specs.Core.{Core};

    ghost Value = { Core };

    ghost coded = { Prim.hlevel (codes, app_code.the_row.coded, entry_code.the_row.coded) };

    ghost use Rattle.node_core.specs.Kept.{IsNode};
    ghost use Rattle.node_core.specs.Rows.{count_held};

    ghost view = { λ node. record { app = node.chain.app.value.app; journal = node.journal.items } };

    ghost invariant = { λ node. IsNode (record {
      app = node.chain.app.value.app;
      tables = V.tables node.chain.versions;
      history = V.history node.chain.versions;
      results = node.chain.blocks;
      ids = node.ids;
      work = node.work;
      rows = node.jobs;
      journal = node.journal.items;
    }) × (vec_len node.journal + count_held node.jobs ≤ vec_capacity node.journal) };
}

impl<V: Versions> Storied for NodeCore<V> {
    type Base = App;

    type Entry = Entry;

    ghost base = { λ core. core.app };

    ghost story = { λ core. core.journal };

    ghost actor = { λ entry. entry.actor };

    fn story_len(&self) -> u64 {
        self.journal.len() as u64
    }
}

impl<V: Versions> NodeCore<V> {
    ghost use Rattle.std.specs.Prelude.{◌≡◌, ◌<◌, ◌^◌, [], IfOk, length};
    ghost use Rattle.node_core.specs.Core.{results_in, world_of};
    ghost use Rattle.node_model.specs.Journals.{IsLegal};

    /// A node of an application, to which nothing has happened.
    pub fn new(alloc: Global, app: &Arc<Checked>) -> Result<NodeCore<V>, NoMemory>
        ensures { IfOk result (λ node. node ≡ record { app = app.now.value.app; journal = [] }) }
    {
        Ok(NodeCore {
            chain: Chain::new(alloc, app)?,
            ids: IdIndex::new(alloc),
            work: None,
            jobs: Jobs::new(alloc),
            journal: Vec::new(alloc),
            alloc,
        })
    }

    /// The number of entries. The journal is one that steps can make.
    pub fn journal_len(&self) -> usize
        ensures len { result ≡ length self.now.journal }
        ensures few { length self.now.journal < 2 ^ 64 }
        ensures legal { IsLegal self.now.app self.now.journal }
    {
        self.journal.len()
    }

    /// How many blocks are sealed.
    pub fn height(&self) -> u64
        ensures { result ≡ length (world_of self.now).sealed }
    {
        self.chain.height()
    }

    /// The results of the sealed blocks.
    pub fn blocks(&self) -> &List<KeptResult>
        ensures { result.now ≡ results_in self.now }
    {
        &self.chain.blocks
    }
}
