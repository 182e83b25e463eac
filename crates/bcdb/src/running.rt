//! Blocks that nodes run side by side, or one node by itself.

ghost use Rattle.std.specs.Prelude.{◌≡◌, ◌≤◌, ◌∷◌, IfOk, IfSome, IsErrOf, List, None, [], false, length, true};
ghost use Rattle.bcdb.specs.Accepted.{accepted};
ghost use Rattle.bcdb.specs.Folds.{Folds, HoldsFirst, all_blocks, app_of};
ghost use Rattle.bcdb.specs.Given.{AreFolded, AreGiven};
ghost use Rattle.bcdb.specs.Plan.{AllowsPlan, Counted, RoseAt, RoseIn, sources_plan};
ghost use Rattle.bcdb.specs.Reply.{is_answer};
ghost use Rattle.bcdb.specs.Traced.{RepliesNodes, RepliesRun};
ghost use Rattle.bcdb.specs.declared.sources.Sources.{Sources as SourceNames};
ghost use Rattle.chain_file.specs.Numbered.{NumberedFrom};
ghost use Rattle.edge_traits.specs.Shelf.{Files};
ghost use Rattle.node_model.specs.Fold.{node_result};
ghost use Rattle.proc_syntax.specs.Limits.{most_executors, most_nodes};
ghost use Rattle.proc_syntax.specs.declared.call.Block.{Block as BlockText};
ghost use Rattle.proc_syntax.specs.declared.call.Tx.{Tx as TxText};

use crate::fault::FilesFault;
use crate::folding::{ALL_BLOCKS, Folded, fold_read};
use crate::given::{BadSource, Given, fold_given, read_given};
use crate::loops::call_loops;
use crate::reply::{Reply, refuse_app, refuse_arrivals, refuse_schedule, report_nodes};
use crate::sources::Sources;
use chain_file::Fed;
use cluster_run::{Gate, SharedBlock, run_cluster, share_blocks};
use edge_traits::Shelf;
use node_model::NodeResult;
use plain_node::PlainNode;
use proc_check::Checked;
use proc_syntax::{Block, Tx};
use rel_base::{List, NoMemory};
use report_text::Look;
use std::alloc::Global;
use std::mem::forget;
use std::sync::{Arc, Wait};
use std::thread::Threads;
use version_index::IndexVersions;

// One node without executors runs on one thread, where its journal is not asked for: what arrives there changes nothing of its results.
fn runs_alone(asked: &Sources, executors: u32, look: &Look) -> bool
    ensures one { result ≡ true → asked.now.nodes ≡ 1 }
    ensures silent { result ≡ true → look.now.trace ≡ false }
{
    asked.nodes == 1 && executors == 0 && !look.trace
}

// What a node that was given the blocks of a file reports.
#[tactic(auto, using(crate::proofs::Processed::all_held))]
fn close_node(
    alloc: Global,
    node: PlainNode<IndexVersions>,
    taken: u64,
) -> Result<List<NodeResult>, NoMemory>
    requires { (blocks : List BlockText) × HoldsFirst all_blocks blocks taken node.chain.app.value.app node.chain.versions.0 node.chain.versions.1.0 node.ids node.chain.blocks }
    ensures { IfOk result (λ nodes. (blocks : List BlockText) → HoldsFirst all_blocks blocks taken node.chain.app.value.app node.chain.versions.0 node.chain.versions.1.0 node.ids node.chain.blocks
        → nodes ≡ node_result node.chain.app.value.app blocks ∷ []) }
{
    let (result, versions) = node.close()?;
    // The process ends with this reply, and the system takes the memory of the store back at once.
    versions.leave();
    let mut nodes = List::new(alloc);
    nodes.push(result)?;
    Ok(nodes)
}

// The reply that reports a node which has run by itself.
#[tactic(auto, using(crate::proofs::Clustered::reply_folded))]
fn report_folded(alloc: Global, look: &Look, folded: Folded) -> Result<Reply, NoMemory>
    requires silent { look.now.trace ≡ false }
    requires folds { (blocks : List BlockText) × Folds all_blocks blocks folded }
    ensures replies { IfOk result (λ reply. (blocks : List BlockText) (arrivals : List (List TxText)) → Folds all_blocks blocks folded
        → RepliesNodes look.now 1 (app_of folded) blocks arrivals folded.fault reply) }
    ensures kind { IfOk result (λ reply. is_answer reply.status ≡ true) }
{
    let Folded { node, taken, fault } = folded;
    let app = node.chain.app.clone()?;
    match close_node(alloc, node, taken) {
        Ok(alone) => {
            let reply = report_nodes(alloc, look, app.tables(), &alone, &fault);
            drop(app);
            // The process ends with this reply, and the system takes the memory of all results back at once.
            forget(alone);
            reply
        }
        Err(refused) => {
            drop(app);
            Err(refused)
        }
    }
}

// The reply to what the files of one node came to, which runs by itself.
#[tactic(auto, using(crate::proofs::Clustered::replies_fold, crate::proofs::Clustered::alone_app, crate::proofs::Clustered::alone_arrivals, crate::proofs::Clustered::alone_schedule))]
fn answer_folded(
    alloc: Global,
    look: &Look,
    read: Result<Folded, BadSource>,
) -> Result<Reply, NoMemory>
    requires silent { look.now.trace ≡ false }
    requires folds { IfOk read (λ folded. (blocks : List BlockText) × Folds all_blocks blocks folded) }
    ensures replies { IfOk result (λ reply. (asked : SourceNames) (files : Files) → asked.nodes ≡ 1 → asked.schedule ≡ None → AreFolded all_blocks read asked files
        → RepliesRun look.now asked (accepted (files asked.app)) files reply) }
    ensures kind { IfOk result (λ reply. is_answer reply.status ≡ true) }
{
    match read {
        Ok(folded) => report_folded(alloc, look, folded),
        Err(BadSource::App(refusal)) => refuse_app(alloc, refusal),
        Err(BadSource::Arrivals(bad)) => refuse_arrivals(alloc, bad),
        Err(BadSource::Schedule(line)) => refuse_schedule(alloc, line),
    }
}

// The reply to a run of one node on one thread. What arrives is read, and changes nothing.
#[tactic(auto, using(crate::proofs::Clustered::alone_told))]
fn answer_alone<S: Shelf>(
    alloc: Global,
    shelf: &mut S,
    look: &Look,
    asked: &Sources,
) -> Result<Reply, FilesFault>
    requires one { asked.now.nodes ≡ 1 }
    requires silent { look.now.trace ≡ false }
    requires unscheduled { asked.now.schedule ≡ None }
    requires allowed { AllowsPlan (sources_plan asked.now) (S.told shelf.old) (S.may_read shelf.old) }
    ensures told { IfOk result (λ reply. IfSome (S.told shelf.old) (λ files. RepliesRun look.now asked.now (accepted (files asked.now.app)) files reply)) }
    ensures turn { IsErrOf result FilesFault.Failed → IfSome (S.told shelf.old) (λ files. RoseIn (sources_plan asked.now) files (S.faults shelf.old) (S.faults shelf.new)) }
    ensures counted { Counted result (RoseAt (sources_plan asked.now) (S.faults shelf.old) (S.faults shelf.new)) (S.faults shelf.old) (S.faults shelf.new) }
    ensures kind { IfOk result (λ reply. is_answer reply.status ≡ true) }
{
    let read = fold_given(alloc, shelf, asked, ALL_BLOCKS)?;
    let reply = answer_folded(alloc, look, read)?;
    Ok(reply)
}

/// An application and blocks in memory that nodes may share. The list of the blocks is let go meanwhile.
pub fn share_both(
    alloc: Global,
    app: Checked,
    blocks: List<Block>,
) -> Result<(Arc<Checked>, List<SharedBlock>), NoMemory>
    ensures app { IfOk result (λ shared. shared.0.value ≡ app) }
    ensures blocks { IfOk result (λ shared. shared.1 ≡ blocks) }
{
    let app = Arc::new(alloc, app)?;
    let blocks = share_blocks(alloc, blocks)?;
    Ok((app, blocks))
}

// The reply that reports nodes, which run side by side and share the blocks.
#[tactic(auto, using(crate::proofs::Clustered::reply_nodes))]
fn run_side_by_side<R: Threads + Wait + Sync, G: Gate>(
    rt: &R,
    alloc: Global,
    look: &Look,
    executors: u32,
    given: Given,
    gate: &G,
) -> Result<Reply, NoMemory>
    requires nodes { (1 ≤ length given.arrivals) × (length given.arrivals ≤ most_nodes) }
    requires executors { executors ≤ most_executors }
    requires numbered { NumberedFrom 1 given.read.blocks }
    ensures replies { IfOk result (RepliesNodes look.now (length given.arrivals) given.app.app given.read.blocks given.arrivals given.read.fault) }
    ensures kind { IfOk result (λ reply. is_answer reply.status ≡ true) }
{
    let Given {
        app,
        arrivals,
        schedule,
        read,
    } = given;
    drop(schedule);
    let Fed { blocks, fault } = read;
    let Ok((app, blocks)) = share_both(alloc, app, blocks) else {
        drop(arrivals);
        return Err(NoMemory);
    };
    match run_cluster::<IndexVersions, G, R>(
        rt,
        alloc,
        &app,
        blocks.as_slice(),
        arrivals.as_slice(),
        executors,
        gate,
    ) {
        Ok(nodes) => {
            let reply = report_nodes(alloc, look, app.tables(), &nodes, &fault);
            drop(app);
            // As above.
            forget(nodes);
            drop(arrivals);
            drop(blocks);
            reply
        }
        Err(refused) => {
            drop(app);
            drop(arrivals);
            drop(blocks);
            Err(refused)
        }
    }
}

// Whether something arrives at one of these nodes.
fn something_arrives(arrivals: &[List<Tx>]) -> bool {
    for txs in arrivals {
        if !txs.is_empty() {
            return true;
        }
    }
    false
}

// Whether executors may gain on what was read: they run what arrives before its block, and calls that take longer than to be handed over.
// It is a guess of what is faster, of which nothing is promised: both ways come to the same reply.
fn may_gain(given: &Given) -> bool {
    something_arrives(given.arrivals.as_slice())
        || call_loops(
            given.app.app().procs.as_slice(),
            given.read.blocks.as_slice(),
        )
}

// Whether one node may as well run by itself: its journal is not asked for, and executors would gain nothing.
fn gains_nothing(look: &Look, given: &Given) -> bool
    ensures one { result ≡ true → length given.now.arrivals ≡ 1 }
    ensures silent { result ≡ true → look.now.trace ≡ false }
{
    given.arrivals.len() == 1 && !look.trace && !may_gain(given)
}

// The reply that reports one node, which runs by itself over the blocks that were read.
#[tactic(auto, using(crate::proofs::Clustered::reply_read))]
fn run_by_itself(alloc: Global, look: &Look, given: Given) -> Result<Reply, NoMemory>
    requires one { length given.arrivals ≡ 1 }
    requires silent { look.now.trace ≡ false }
    requires numbered { NumberedFrom 1 given.read.blocks }
    ensures replies { IfOk result (RepliesNodes look.now (length given.arrivals) given.app.app given.read.blocks given.arrivals given.read.fault) }
    ensures kind { IfOk result (λ reply. is_answer reply.status ≡ true) }
{
    let Given {
        app,
        arrivals,
        schedule,
        read,
    } = given;
    drop(arrivals);
    drop(schedule);
    let folded = fold_read(alloc, app, read)?;
    report_folded(alloc, look, folded)
}

// The reply that reports nodes to which the files were given. Executors start only where they may gain.
fn run_given<R: Threads + Wait + Sync, G: Gate>(
    rt: &R,
    alloc: Global,
    look: &Look,
    executors: u32,
    given: Given,
    gate: &G,
) -> Result<Reply, NoMemory>
    requires nodes { (1 ≤ length given.arrivals) × (length given.arrivals ≤ most_nodes) }
    requires executors { executors ≤ most_executors }
    requires numbered { NumberedFrom 1 given.read.blocks }
    ensures replies { IfOk result (RepliesNodes look.now (length given.arrivals) given.app.app given.read.blocks given.arrivals given.read.fault) }
    ensures kind { IfOk result (λ reply. is_answer reply.status ≡ true) }
{
    if gains_nothing(look, &given) {
        return run_by_itself(alloc, look, given);
    }
    run_side_by_side(rt, alloc, look, executors, given, gate)
}

// The reply to what the files came to of nodes.
#[tactic(auto, using(crate::proofs::Clustered::replies_run, crate::proofs::Clustered::replies_app, crate::proofs::Clustered::replies_arrivals))]
fn answer_given<R: Threads + Wait + Sync, G: Gate>(
    rt: &R,
    alloc: Global,
    look: &Look,
    asked: &Sources,
    executors: u32,
    read: Result<Given, BadSource>,
    gate: &G,
) -> Result<Reply, NoMemory>
    requires nodes { (1 ≤ asked.now.nodes) × (asked.now.nodes ≤ most_nodes) }
    requires executors { executors ≤ most_executors }
    requires unscheduled { asked.now.schedule ≡ None }
    requires all { IfOk read (λ given. length given.arrivals ≡ asked.now.nodes) }
    requires numbered { IfOk read (λ given. NumberedFrom 1 given.read.blocks) }
    ensures replies { IfOk result (λ reply. (files : Files) → AreGiven read asked.now files → RepliesRun look.now asked.now (accepted (files asked.now.app)) files reply) }
    ensures kind { IfOk result (λ reply. is_answer reply.status ≡ true) }
{
    match read {
        Ok(given) => run_given(rt, alloc, look, executors, given, gate),
        Err(BadSource::App(refusal)) => refuse_app(alloc, refusal),
        Err(BadSource::Arrivals(bad)) => refuse_arrivals(alloc, bad),
        Err(BadSource::Schedule(line)) => refuse_schedule(alloc, line),
    }
}

/// The reply to a run of nodes: the report of them all, and their journals if these are asked for. No node runs before each file was
/// read and none of them is refused.
#[tactic(auto, using(crate::proofs::Clustered::replies_told))]
pub fn answer_run<R: Threads + Wait + Sync, S: Shelf, G: Gate>(
    rt: &R,
    alloc: Global,
    shelf: &mut S,
    look: &Look,
    asked: &Sources,
    executors: u32,
    gate: &G,
) -> Result<Reply, FilesFault>
    requires nodes { (1 ≤ asked.now.nodes) × (asked.now.nodes ≤ most_nodes) }
    requires executors { executors ≤ most_executors }
    requires unscheduled { asked.now.schedule ≡ None }
    requires allowed { AllowsPlan (sources_plan asked.now) (S.told shelf.old) (S.may_read shelf.old) }
    ensures told { IfOk result (λ reply. IfSome (S.told shelf.old) (λ files. RepliesRun look.now asked.now (accepted (files asked.now.app)) files reply)) }
    ensures turn { IsErrOf result FilesFault.Failed → IfSome (S.told shelf.old) (λ files. RoseIn (sources_plan asked.now) files (S.faults shelf.old) (S.faults shelf.new)) }
    ensures counted { Counted result (RoseAt (sources_plan asked.now) (S.faults shelf.old) (S.faults shelf.new)) (S.faults shelf.old) (S.faults shelf.new) }
    ensures kind { IfOk result (λ reply. is_answer reply.status ≡ true) }
{
    if runs_alone(asked, executors, look) {
        return answer_alone(alloc, shelf, look, asked);
    }
    let read = read_given(alloc, shelf, asked)?;
    let reply = answer_given(rt, alloc, look, asked, executors, read, gate)?;
    Ok(reply)
}
