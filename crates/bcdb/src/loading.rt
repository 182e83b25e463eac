//! Loads: blocks that are generated from a number, and what became of their transactions.

ghost use Rattle.std.specs.Prelude.{◌≡◌, IfOk, length, true};
ghost use Rattle.bcdb.specs.Accepted.{accepted};
ghost use Rattle.bcdb.specs.LoadAnswer.{over_load};
ghost use Rattle.bcdb.specs.ProgramAnswer.{says};
ghost use Rattle.bcdb.specs.Reply.{Means, is_answer};
ghost use Rattle.chain_file.specs.Numbered.{NumberedFrom};
ghost use Rattle.load_gen.specs.Application.{app_text};
ghost use Rattle.node_model.specs.Fold.{node_result};
ghost use Rattle.report_text.specs.Summary.{summary_text};

use crate::application::read_application;
use crate::reply::Reply;
use crate::running::share_both;
use crate::status::Status;
use cluster_run::{Gate, run_cluster};
use load_gen::{Load, generate};
use proc_check::Checked;
use rel_base::NoMemory;
use report_text::summary;
use std::alloc::Global;
use std::sync::Wait;
use std::thread::Threads;
use version_index::IndexVersions;

/// How many executors a node of a load has.
pub const LOAD_EXECUTORS: u32 = 4;

// The reply to the load of a number, over its application: three nodes run its blocks, and the first is reported.
#[tactic(auto, using(crate::proofs::Clustered::first_tells))]
fn run_load<R: Threads + Wait + Sync, G: Gate>(
    rt: &R,
    alloc: Global,
    number: u64,
    app: Checked,
    load: Load,
    gate: &G,
) -> Result<Reply, NoMemory>
    requires blocks { NumberedFrom 1 load.blocks }
    requires nodes { length load.arrivals ≡ 3 }
    ensures means { IfOk result (λ reply. Means (says Status.Done (summary_text number (node_result app.app load.blocks).blocks)) reply) }
    ensures kind { IfOk result (λ reply. is_answer reply.status ≡ true) }
{
    let Load {
        app: text,
        blocks,
        arrivals,
    } = load;
    drop(text);
    let (app, blocks) = share_both(alloc, app, blocks)?;
    let nodes = run_cluster::<IndexVersions, G, R>(
        rt,
        alloc,
        &app,
        blocks.as_slice(),
        arrivals.as_slice(),
        LOAD_EXECUTORS,
        gate,
    );
    drop(app);
    drop(blocks);
    drop(arrivals);
    let nodes = nodes?;
    let bytes = summary(alloc, number, &nodes.as_slice()[0].blocks);
    drop(nodes);
    Ok(Reply {
        status: Status::Done,
        bytes: bytes?,
    })
}

/// The reply to the load of a number. Its application is read as that of a file, and never refused.
#[tactic(auto, using(crate::proofs::Loads::loads_numbered))]
pub fn answer_load<R: Threads + Wait + Sync, G: Gate>(
    rt: &R,
    alloc: Global,
    number: u64,
    gate: &G,
) -> Result<Reply, NoMemory>
    ensures means { IfOk result (λ reply. Means (over_load number (accepted app_text)) reply) }
    ensures kind { IfOk result (λ reply. is_answer reply.status ≡ true) }
{
    let load = generate(alloc, number)?;
    match read_application(alloc, load.app.as_slice()) {
        Ok(app) => run_load(rt, alloc, number, app, load, gate),
        // The application of a load is accepted, so memory ran out.
        Err(_) => {
            drop(load);
            Err(NoMemory)
        }
    }
}
