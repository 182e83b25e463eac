//! Blocks that a node runs as a schedule says.

ghost use Rattle.std.specs.Prelude.{◌≡◌, ◌∷◌, IfOk, IfSome, IsErrOf, [], length, slice_index_or, true};
ghost use Rattle.std.specs.List.{AllByRecursion};
ghost use Rattle.bcdb.specs.Accepted.{accepted};
ghost use Rattle.bcdb.specs.Given.{AreGiven};
ghost use Rattle.bcdb.specs.Plan.{AllowsPlan, Counted, RoseAt, RoseIn, sources_plan};
ghost use Rattle.bcdb.specs.ProgramAnswer.{says, status_of};
ghost use Rattle.bcdb.specs.Reply.{Means, is_answer};
ghost use Rattle.bcdb.specs.SimulationAnswer.{over_node, over_simulation};
ghost use Rattle.edge_traits.specs.Shelf.{Files};
ghost use Rattle.report_text.specs.Report.{report_text};
ghost use Rattle.schedule_sim.specs.Running.{simulated};
ghost use Rattle.schedule_sim.specs.Steps.{IsStep};

use crate::fault::FilesFault;
use crate::given::{BadSource, Given, read_given};
use crate::reply::{
    Reply, refuse_app, refuse_arrivals, refuse_schedule, refuse_short, report_nodes,
};
use crate::sources::Sources;
use chain_file::Fed;
use edge_traits::Shelf;
use node_model::NodeResult;
use proc_check::Checked;
use proc_syntax::{ChainFault, Tx};
use rel_base::{List, NoMemory, TableDef};
use report_text::Look;
use schedule_sim::{Schedule, SimFault, simulate};
use std::alloc::Global;
use std::sync::Arc;
use version_index::IndexVersions;

// The reply that reports one node.
fn report_node(
    alloc: Global,
    look: &Look,
    tables: &List<TableDef>,
    node: NodeResult,
    stop: &Option<ChainFault>,
) -> Result<Reply, NoMemory>
    ensures means { IfOk result (λ reply. Means (says (status_of stop.now) (report_text look.now tables.now (node ∷ []) stop.now)) reply) }
    ensures kind { IfOk result (λ reply. is_answer reply.status ≡ true) }
{
    let mut nodes = List::new(alloc);
    nodes.push(node)?;
    let reply = report_nodes(alloc, look, tables, &nodes, stop);
    drop(nodes);
    reply
}

// The reply over what the files gave, to the schedule.
#[tactic(auto, using(crate::proofs::Simulated::falls_short))]
fn carry_out(
    alloc: Global,
    look: &Look,
    app: &Arc<Checked>,
    arrivals: &[Tx],
    schedule: &Schedule,
    read: &Fed,
) -> Result<Reply, NoMemory>
    requires actors { AllByRecursion IsStep schedule.now.steps }
    ensures means { IfOk result (λ reply. Means (over_node look.now app.now.value.app read.now.fault
        (simulated (record { app = app.now.value.app; blocks = read.now.blocks; arrivals = arrivals.now }) schedule.now.steps)) reply) }
    ensures kind { IfOk result (λ reply. is_answer reply.status ≡ true) }
{
    let blocks = read.blocks.as_slice();
    match simulate::<IndexVersions>(alloc, app, blocks, arrivals, schedule) {
        Ok(node) => report_node(alloc, look, app.tables(), node, &read.fault),
        Err(SimFault::Short { sealed }) => refuse_short(alloc, sealed),
        Err(SimFault::NoMemory) => Err(NoMemory),
    }
}

// The reply to a schedule over an application, blocks and what arrives at one node.
#[tactic(auto, using(crate::proofs::Simulated::at_first))]
fn simulate_given(alloc: Global, look: &Look, given: Given) -> Result<Reply, NoMemory>
    requires one { length given.arrivals ≡ 1 }
    requires actors { AllByRecursion IsStep given.schedule.steps }
    ensures means { IfOk result (λ reply. Means (over_node look.now given.app.app given.read.fault
        (simulated (record { app = given.app.app; blocks = given.read.blocks; arrivals = slice_index_or given.arrivals 0 [] }) given.schedule.steps)) reply) }
    ensures kind { IfOk result (λ reply. is_answer reply.status ≡ true) }
{
    let Given {
        app,
        arrivals,
        schedule,
        read,
    } = given;
    let Ok(app) = Arc::new(alloc, app) else {
        drop(arrivals);
        drop(schedule);
        drop(read);
        return Err(NoMemory);
    };
    let txs = arrivals.as_slice()[0].as_slice();
    let reply = carry_out(alloc, look, &app, txs, &schedule, &read);
    drop(app);
    drop(arrivals);
    drop(schedule);
    drop(read);
    reply
}

// The reply to what the files came to.
#[tactic(auto, using(crate::proofs::Simulated::simulation_means, crate::proofs::Simulated::app_means, crate::proofs::Simulated::arrivals_mean, crate::proofs::Simulated::schedule_means))]
fn answer_given(
    alloc: Global,
    look: &Look,
    read: Result<Given, BadSource>,
) -> Result<Reply, NoMemory>
    requires one { IfOk read (λ given. length given.arrivals ≡ 1) }
    requires actors { IfOk read (λ given. AllByRecursion IsStep given.schedule.steps) }
    ensures means { IfOk result (λ reply. (asked : Sources) (files : Files) → asked.nodes ≡ 1 → AreGiven read asked files
        → Means (over_simulation look.now asked (accepted (files asked.app)) files) reply) }
    ensures kind { IfOk result (λ reply. is_answer reply.status ≡ true) }
{
    match read {
        Ok(given) => simulate_given(alloc, look, given),
        Err(BadSource::App(refusal)) => refuse_app(alloc, refusal),
        Err(BadSource::Arrivals(bad)) => refuse_arrivals(alloc, bad),
        Err(BadSource::Schedule(line)) => refuse_schedule(alloc, line),
    }
}

/// The reply to a simulation: the report of its node, and its journal if that is asked for.
#[tactic(auto, using(crate::proofs::Simulated::means_told))]
pub fn answer_simulation<S: Shelf>(
    alloc: Global,
    shelf: &mut S,
    look: &Look,
    asked: &Sources,
) -> Result<Reply, FilesFault>
    requires one { asked.now.nodes ≡ 1 }
    requires allowed { AllowsPlan (sources_plan asked.now) (S.told shelf.old) (S.may_read shelf.old) }
    ensures told { IfOk result (λ reply. IfSome (S.told shelf.old) (λ files. Means (over_simulation look.now asked.now (accepted (files asked.now.app)) files) reply)) }
    ensures turn { IsErrOf result FilesFault.Failed → IfSome (S.told shelf.old) (λ files. RoseIn (sources_plan asked.now) files (S.faults shelf.old) (S.faults shelf.new)) }
    ensures counted { Counted result (RoseAt (sources_plan asked.now) (S.faults shelf.old) (S.faults shelf.new)) (S.faults shelf.old) (S.faults shelf.new) }
    ensures kind { IfOk result (λ reply. is_answer reply.status ≡ true) }
{
    let read = read_given(alloc, shelf, asked)?;
    let reply = answer_given(alloc, look, read)?;
    Ok(reply)
}
