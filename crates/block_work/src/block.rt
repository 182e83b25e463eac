//! The block in work.

ghost use Rattle.std.specs.Prelude.{◌≡◌, ◌<◌, List, OnOk, length};
ghost use Rattle.block_work.specs.Block.{CanCommitWith, HasRoomForOne, IsConsistent, IsSameWork, work_of, work_with};
ghost use Rattle.block_work.specs.Causes.{IsCause};
ghost use Rattle.node_model.specs.Fold.{no_work};
ghost use Rattle.node_model.specs.declared.outcome.Outcome.TheVariants as outcome;
ghost use Rattle.proc_syntax.specs.declared.run.Ran.{Ran};
ghost use Rattle.rel_base.specs.declared.schema.TableDef.{TableDef};
ghost use Rattle.proc_syntax.specs.Limits.{most_transactions};

use conflict_rules::Directory;
use node_model::{Committed, Outcome, Told};
use proc_syntax::Block;
use proc_syntax::run::Ran;
use rel_base::{Id, NoMemory};
use rw_graph::{EdgeSet, Edges, room_for};
use std::alloc::Global;

/// A block whose transactions are decided one after another: its number and its time, the outcomes so far, and the transactions that
/// committed, with a directory of what they read and wrote and the edges between them.
///
/// A transaction joins it in two steps: `reserve` takes the room and may want memory, and `abort` or `commit` can not fail.
#[derive(Drop)]
pub struct BlockInWork {
    pub number: u64,
    pub time: i64,
    pub outcomes: Vec<Told>,
    pub committed: Vec<Committed>,
    pub directory: Directory,
    pub edges: EdgeSet,
}

impl BlockInWork {
    /// A block of which no transaction is decided, with room for all of them where there is memory for it.
    pub fn new(alloc: Global, block: &Block) -> BlockInWork
        ensures number { result.number ≡ block.now.number }
        ensures time { result.time ≡ block.now.time }
        ensures work { work_of result ≡ no_work }
        ensures consistent { (tables : List TableDef) → IsConsistent tables result }
    {
        let count = block.txs.len();
        BlockInWork {
            number: block.number,
            time: block.time,
            outcomes: room_for(alloc, count),
            committed: room_for(alloc, count),
            directory: Directory::with_room(alloc, count),
            edges: EdgeSet::with_room(alloc, count),
        }
    }

    /// Takes room for one more transaction. Nothing else changes, whether memory runs out or not.
    pub fn reserve(&mut self) -> Result<(), NoMemory>
        requires few { length self.old.outcomes.items < most_transactions }
        ensures same { IsSameWork self.old self.new }
        ensures consistent { (tables : List TableDef) → IsConsistent tables self.old → IsConsistent tables self.new }
        ensures room { OnOk result (HasRoomForOne self.new) }
    {
        let pos = self.outcomes.len() as u32 + 1;
        self.outcomes.reserve(1)?;
        self.committed.reserve(1)?;
        self.directory.reserve(self.committed.len())?;
        self.edges.reserve(pos)
    }

    /// Adds the outcome of a transaction that is aborted for a cause. Takes no memory.
    pub fn abort(&mut self, id: Id, cause: Outcome)
        requires room { HasRoomForOne self.old }
        requires cause { IsCause cause }
        ensures number { self.new.number ≡ self.old.number }
        ensures time { self.new.time ≡ self.old.time }
        ensures work { (ran : Ran) → work_of self.new ≡ work_with (work_of self.old) id ran cause }
        ensures consistent { (tables : List TableDef) → IsConsistent tables self.old → IsConsistent tables self.new }
    {
        self.outcomes.push_reserved(Told { id, outcome: cause });
    }

    /// Adds a transaction that commits with a run, and its edges to and from those that committed before it. Takes no memory.
    pub fn commit(&mut self, id: Id, ran: Ran, edges: &Edges)
        requires few { length self.old.outcomes.items < most_transactions }
        requires room { HasRoomForOne self.old }
        requires can { (tables : List TableDef) × CanCommitWith tables self.old ran edges.now }
        ensures number { self.new.number ≡ self.old.number }
        ensures time { self.new.time ≡ self.old.time }
        ensures work { work_of self.new ≡ work_with (work_of self.old) id ran outcome.Committed }
        ensures consistent { (tables : List TableDef) → CanCommitWith tables self.old ran edges.now → IsConsistent tables self.new }
    {
        let pos = self.outcomes.len() as u32 + 1;
        self.edges.add_reserved(pos, edges);
        let number = self.committed.len();
        self.directory.add(number, &ran.reads, &ran.writes);
        self.committed.push_reserved(Committed {
            pos,
            reads: ran.reads,
            writes: ran.writes,
        });
        self.outcomes.push_reserved(Told {
            id,
            outcome: Outcome::Committed,
        });
    }
}
