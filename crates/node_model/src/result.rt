//! Results of blocks, and of a node.

ghost use Rattle.std.specs.Prelude.{◌≡◌};
ghost use Rattle.node_model.specs.History.{placed_of};

use crate::journal::Entry;
use crate::outcome::Outcome;
use rel_base::{Id, List, Made, NoMemory, Placed, Row, Twin, Write};
use std::alloc::Global;
use std::marker::Model;
use std::snapshot::Snapshot;

/// A transaction's id and what became of it.
#[derive(Drop)]
pub struct Told {
    pub id: Id,
    pub outcome: Outcome,
}

/// A committed transaction: its position in the block, from 1, its reads in program order and its net writes in
/// (table, key) order.
#[derive(Drop)]
pub struct Committed {
    pub pos: u32,
    pub reads: List<Made>,
    pub writes: List<Write>,
}

/// The digest before the first block.
pub const NO_DIGEST: [u8; 32] = [0; 32];

/// The result of a block.
#[derive(Drop)]
pub struct BlockResult {
    pub number: u64,
    /// In whole seconds, as the block says.
    pub time: i64,
    /// An outcome for each transaction in order.
    pub outcomes: List<Told>,
    /// The positions of the committed transactions, from 1, in their serial order.
    pub order: List<u32>,
    /// The net writes of the committed transactions by position, table and key.
    pub writes: List<Placed>,
    /// The SHA-256 of the digest of the block before and of the code of this result, in which the digest has no part.
    pub digest: [u8; 32],
}

/// The result of a block as a node keeps it, without its writes: these stand in the node's store of versions already. Contracts see
/// the whole result, the writes with it.
#[derive(Drop)]
pub struct KeptResult {
    number: u64,
    time: i64,
    outcomes: List<Told>,
    order: List<u32>,
    /// The committed transactions when the block was sealed. Only proofs see them.
    committed: Snapshot<Vec<Committed>>,
    digest: [u8; 32],
}

impl Model for KeptResult {
    ghost use Rattle.node_model.specs.History.{placed_of};
    ghost use Rattle.node_model.specs.declared.result.BlockResult.{BlockResult as Content};
    ghost use Rattle.node_model.specs.contracts.result.BlockResult as content_code;

    ghost Value = { Content };

    ghost coded = { content_code.the_row.coded };

    ghost view = { λ kept. record {
      number = kept.number;
      time = kept.time;
      outcomes = kept.outcomes;
      order = kept.order;
      writes = placed_of kept.committed.value.items;
      digest = kept.digest;
    } };
}

impl KeptResult {
    /// The result of a block that committed these transactions, with its digest.
    pub fn new(
        number: u64,
        time: i64,
        outcomes: List<Told>,
        order: List<u32>,
        committed: &Vec<Committed>,
        digest: [u8; 32],
    ) -> KeptResult
        ensures { result ≡ record {
          number = number;
          time = time;
          outcomes = outcomes;
          order = order;
          writes = placed_of committed.now.items;
          digest = digest;
        } }
    {
        KeptResult {
            number,
            time,
            outcomes,
            order,
            committed: Snapshot::of(committed),
            digest,
        }
    }

    /// The block's number.
    pub fn number(&self) -> u64
        ensures { result ≡ self.now.number }
    {
        self.number
    }

    /// In whole seconds, as the block says.
    pub fn time(&self) -> i64
        ensures { result ≡ self.now.time }
    {
        self.time
    }

    /// An outcome for each transaction in order.
    pub fn outcomes(&self) -> &List<Told>
        ensures { result.now ≡ self.now.outcomes }
    {
        &self.outcomes
    }

    /// The positions of the committed transactions, from 1, in their serial order.
    pub fn order(&self) -> &List<u32>
        ensures { result.now ≡ self.now.order }
    {
        &self.order
    }

    /// The SHA-256 of the digest of the block before and of the code of this result, in which the digest has no part.
    pub fn digest(&self) -> &[u8; 32]
        ensures { result.now ≡ self.now.digest }
    {
        &self.digest
    }
}

/// The rows of a table in key order.
#[derive(Drop)]
pub struct TableRows {
    pub table: u32,
    pub rows: List<Row>,
}

/// What a node reports: the results of its blocks, its tables after the last block, in declaration order, and the journal of its events,
/// which is empty where a node has one thread and no events. Only contracts see the writes of its blocks.
#[derive(Drop)]
pub struct NodeResult {
    pub blocks: List<KeptResult>,
    pub tables: List<TableRows>,
    pub journal: List<Entry>,
}

impl Twin for Told {
    fn copy(&self, alloc: Global) -> Result<Self, NoMemory> {
        Ok(Told {
            id: self.id.copy(alloc)?,
            outcome: self.outcome.copy(alloc)?,
        })
    }
}
