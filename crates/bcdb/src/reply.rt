//! Replies: answers in memory.

ghost use Rattle.std.specs.Prelude.{◌≡◌, ◌++◌, IfOk, OnOk, true};
ghost use Rattle.bcdb.specs.ProgramAnswer.{look_of, says, status_of};
ghost use Rattle.bcdb.specs.Refusals.{arrivals_refusal, digests_refusal, order_refusal, proof_refusal, query_refusal, refusal_line, schedule_refusal, short_refusal};
ghost use Rattle.bcdb.specs.Reply.{Means, is_answer};
ghost use Rattle.bcdb.specs.RowsAnswer.{ask_refusal};
ghost use Rattle.report_text.specs.Ending.{end_line};
ghost use Rattle.report_text.specs.Report.{report_text};

use crate::refusal::{
    BadArrivals, BadDigests, Refusal, arrivals_refusal, ask_refusal, digests_refusal,
    order_refusal, proof_refusal, query_refusal, refusal_line, schedule_refusal, short_refusal,
};
use crate::status::Status;
use cli_words::Flags;
use node_model::NodeResult;
use proc_syntax::ChainFault;
use provenance::QueryFault;
use query_plan::AskFault;
use rel_base::{List, NoMemory, TableDef};
use report_text::{Look, report, stopped_line};
use std::alloc::Global;

/// A status, and what is to be written.
#[derive(Drop)]
pub struct Reply {
    pub status: Status,
    pub bytes: List<u8>,
}

/// What the flags ask the report to show.
pub fn look_of(flags: Flags) -> Look
    ensures { result ≡ look_of flags }
{
    Look {
        orders: flags.orders,
        digests: flags.digests,
        json: flags.json,
        trace: flags.trace,
    }
}

/// The status of an answer over a block file: whether the file was read to its end.
pub fn status_of(fault: Option<ChainFault>) -> Status
    ensures { result ≡ status_of fault }
{
    match fault {
        None => Status::Done,
        Some(_) => Status::ChainRefused,
    }
}

/// The reply that refuses an application.
pub fn refuse_app(alloc: Global, refusal: Refusal) -> Result<Reply, NoMemory>
    ensures means { IfOk result (λ reply. Means (says Status.AppRefused (refusal_line refusal)) reply) }
    ensures kind { IfOk result (λ reply. is_answer reply.status ≡ true) }
{
    let bytes = refusal_line(alloc, refusal)?;
    Ok(Reply {
        status: Status::AppRefused,
        bytes,
    })
}

/// The reply that refuses what arrives at a node, or what a client submits.
pub fn refuse_arrivals(alloc: Global, bad: BadArrivals) -> Result<Reply, NoMemory>
    ensures means { IfOk result (λ reply. Means (says Status.ArrivalRefused (arrivals_refusal bad)) reply) }
    ensures kind { IfOk result (λ reply. is_answer reply.status ≡ true) }
{
    let bytes = arrivals_refusal(alloc, bad)?;
    Ok(Reply {
        status: Status::ArrivalRefused,
        bytes,
    })
}

/// The reply that refuses a schedule for its first bad line.
pub fn refuse_schedule(alloc: Global, line: u64) -> Result<Reply, NoMemory>
    ensures means { IfOk result (λ reply. Means (says Status.ScheduleRefused (schedule_refusal line)) reply) }
    ensures kind { IfOk result (λ reply. is_answer reply.status ≡ true) }
{
    let bytes = schedule_refusal(alloc, line)?;
    Ok(Reply {
        status: Status::ScheduleRefused,
        bytes,
    })
}

/// The reply that refuses a schedule that seals so many blocks, and not all.
pub fn refuse_short(alloc: Global, sealed: u64) -> Result<Reply, NoMemory>
    ensures means { IfOk result (λ reply. Means (says Status.ScheduleRefused (short_refusal sealed)) reply) }
    ensures kind { IfOk result (λ reply. is_answer reply.status ≡ true) }
{
    let bytes = short_refusal(alloc, sealed)?;
    Ok(Reply {
        status: Status::ScheduleRefused,
        bytes,
    })
}

/// The reply that refuses an order which needs so many blocks.
pub fn refuse_order(alloc: Global, needed: u64) -> Result<Reply, NoMemory>
    ensures means { IfOk result (λ reply. Means (says Status.OrderRefused (order_refusal needed)) reply) }
    ensures kind { IfOk result (λ reply. is_answer reply.status ≡ true) }
{
    let bytes = order_refusal(alloc, needed)?;
    Ok(Reply {
        status: Status::OrderRefused,
        bytes,
    })
}

/// The reply that refuses a query, or the place of a write.
pub fn refuse_query(alloc: Global, fault: QueryFault) -> Result<Reply, NoMemory>
    ensures means { IfOk result (λ reply. Means (says Status.QueryRefused (query_refusal fault)) reply) }
    ensures kind { IfOk result (λ reply. is_answer reply.status ≡ true) }
{
    let bytes = query_refusal(alloc, fault)?;
    Ok(Reply {
        status: Status::QueryRefused,
        bytes,
    })
}

/// The reply that refuses a query of the tables.
pub fn refuse_ask(alloc: Global, fault: AskFault) -> Result<Reply, NoMemory>
    ensures means { IfOk result (λ reply. Means (says Status.QueryRefused (ask_refusal fault)) reply) }
    ensures kind { IfOk result (λ reply. is_answer reply.status ≡ true) }
{
    let bytes = ask_refusal(alloc, fault)?;
    Ok(Reply {
        status: Status::QueryRefused,
        bytes,
    })
}

/// The reply that refuses the digest file of a peer.
pub fn refuse_digests(alloc: Global, bad: BadDigests) -> Result<Reply, NoMemory>
    ensures means { IfOk result (λ reply. Means (says Status.DigestRefused (digests_refusal bad)) reply) }
    ensures kind { IfOk result (λ reply. is_answer reply.status ≡ true) }
{
    let bytes = digests_refusal(alloc, bad)?;
    Ok(Reply {
        status: Status::DigestRefused,
        bytes,
    })
}

/// The reply that refuses a proof file for a line.
pub fn refuse_proof(alloc: Global, line: u64) -> Result<Reply, NoMemory>
    ensures means { IfOk result (λ reply. Means (says Status.ProofRefused (proof_refusal line)) reply) }
    ensures kind { IfOk result (λ reply. is_answer reply.status ≡ true) }
{
    let bytes = proof_refusal(alloc, line)?;
    Ok(Reply {
        status: Status::ProofRefused,
        bytes,
    })
}

/// The reply that reports nodes.
pub fn report_nodes(
    alloc: Global,
    look: &Look,
    tables: &List<TableDef>,
    nodes: &List<NodeResult>,
    stop: &Option<ChainFault>,
) -> Result<Reply, NoMemory>
    ensures means { IfOk result (λ reply. Means (says (status_of stop.now) (report_text look.now tables.now nodes.now stop.now)) reply) }
    ensures kind { IfOk result (λ reply. is_answer reply.status ≡ true) }
{
    let bytes = report(alloc, tables, nodes, stop.as_ref(), look)?;
    Ok(Reply {
        status: status_of(*stop),
        bytes,
    })
}

/// Puts the line after others that tells how the block file ended.
pub fn push_end(
    alloc: Global,
    lines: &mut List<u8>,
    stop: &Option<ChainFault>,
) -> Result<(), NoMemory>
    ensures { OnOk result (lines.new ≡ lines.old ++ end_line stop.now) }
{
    let end = match stop {
        None => List::from_vec(b"done\n".to_vec(alloc)?),
        Some(fault) => stopped_line(alloc, fault)?,
    };
    lines.append(end)
}
