//! The answer to a checkpoint, and to the proof of a write: what is drawn from the fold of the blocks of a file.

ghost use Rattle.std.specs.Prelude.{◌≡◌, ◌++◌, IfOk, IfSome, IsErrOf, List, None, OnOk, true};
ghost use Rattle.bcdb.specs.Accepted.{accepted};
ghost use Rattle.bcdb.specs.ExtractAnswer.{extracted, folded, over_extract, over_file, over_results, stop_text};
ghost use Rattle.bcdb.specs.Folds.{Folds, all_blocks, app_of};
ghost use Rattle.bcdb.specs.Given.{AreFolded};
ghost use Rattle.bcdb.specs.Plan.{AllowsPlan, Counted, RoseAt, RoseIn, sources_plan};
ghost use Rattle.bcdb.specs.ProgramAnswer.{says, status_of};
ghost use Rattle.bcdb.specs.Reply.{Means, is_answer};
ghost use Rattle.edge_traits.specs.Shelf.{Files};
ghost use Rattle.proc_syntax.specs.declared.call.Block.{Block as BlockText};

use crate::extract::{Extract, draw_file};
use crate::fault::FilesFault;
use crate::folding::{ALL_BLOCKS, Folded};
use crate::given::{BadSource, fold_given};
use crate::reply::{Reply, refuse_app, refuse_arrivals, refuse_query, refuse_schedule, status_of};
use crate::sources::Sources;
use edge_traits::Shelf;
use proc_syntax::ChainFault;
use provenance::QueryFault;
use rel_base::{List, NoMemory};
use report_text::stopped_line;
use std::alloc::Global;

// What is drawn from the results of a file.
fn extract_folded(
    alloc: Global,
    made: &Folded,
    wanted: Extract,
) -> Result<Option<List<u8>>, NoMemory>
    requires { (blocks : List BlockText) × Folds all_blocks blocks made.now }
    ensures { IfOk result (λ file. (blocks : List BlockText) → Folds all_blocks blocks made.now → file ≡ extracted wanted (folded (app_of made.now) blocks)) }
{
    let node = &made.node;
    draw_file(alloc, node.versions(), wanted, node.blocks())
}

// Puts the line after a file that says where the block file stopped, if it has a fault.
fn push_stop(alloc: Global, file: &mut List<u8>, stop: &Option<ChainFault>) -> Result<(), NoMemory>
    ensures { OnOk result (file.new ≡ file.old ++ stop_text stop.now) }
{
    match stop {
        None => Ok(()),
        Some(fault) => file.append(stopped_line(alloc, fault)?),
    }
}

// The reply that is a file.
fn write_file(alloc: Global, file: List<u8>, stop: &Option<ChainFault>) -> Result<Reply, NoMemory>
    ensures means { IfOk result (λ reply. Means (says (status_of stop.now) (file ++ stop_text stop.now)) reply) }
    ensures kind { IfOk result (λ reply. is_answer reply.status ≡ true) }
{
    let mut bytes = file;
    push_stop(alloc, &mut bytes, stop)?;
    Ok(Reply {
        status: status_of(*stop),
        bytes,
    })
}

// The reply to what is wanted of the blocks before the first fault of a file. Where there is no such write, that is refused also where the
// file has a fault.
fn answer_folded(alloc: Global, wanted: Extract, made: &Folded) -> Result<Reply, NoMemory>
    requires { (blocks : List BlockText) × Folds all_blocks blocks made.now }
    ensures means { IfOk result (λ reply. (blocks : List BlockText) → Folds all_blocks blocks made.now → Means (over_results wanted (app_of made.now) blocks made.now.fault) reply) }
    ensures kind { IfOk result (λ reply. is_answer reply.status ≡ true) }
{
    match extract_folded(alloc, made, wanted)? {
        Some(file) => write_file(alloc, file, &made.fault),
        None => refuse_query(alloc, QueryFault::BadRange),
    }
}

// The reply to what the files came to.
#[tactic(auto, using(crate::proofs::Extracts::app_means, crate::proofs::Extracts::arrivals_mean, crate::proofs::Extracts::schedule_means))]
fn answer_given(
    alloc: Global,
    wanted: Extract,
    read: Result<Folded, BadSource>,
) -> Result<Reply, NoMemory>
    requires { IfOk read (λ made. (blocks : List BlockText) × Folds all_blocks blocks made) }
    ensures means { IfOk result (λ reply. (asked : Sources) (files : Files) → asked.nodes ≡ 0 → asked.schedule ≡ None → AreFolded all_blocks read asked files
        → Means (over_extract wanted (accepted (files asked.app)) (files asked.blocks)) reply) }
    ensures kind { IfOk result (λ reply. is_answer reply.status ≡ true) }
{
    match read {
        Ok(made) => {
            let reply = answer_folded(alloc, wanted, &made);
            drop(made);
            reply
        }
        Err(BadSource::App(refusal)) => refuse_app(alloc, refusal),
        Err(BadSource::Arrivals(bad)) => refuse_arrivals(alloc, bad),
        Err(BadSource::Schedule(line)) => refuse_schedule(alloc, line),
    }
}

/// The reply to what is wanted of the fold of the blocks of a file on an application.
pub fn answer_extract<S: Shelf>(
    alloc: Global,
    shelf: &mut S,
    asked: &Sources,
    wanted: Extract,
) -> Result<Reply, FilesFault>
    requires none { asked.now.nodes ≡ 0 }
    requires unscheduled { asked.now.schedule ≡ None }
    requires allowed { AllowsPlan (sources_plan asked.now) (S.told shelf.old) (S.may_read shelf.old) }
    ensures told { IfOk result (λ reply. IfSome (S.told shelf.old) (λ files. Means (over_extract wanted (accepted (files asked.now.app)) (files asked.now.blocks)) reply)) }
    ensures turn { IsErrOf result FilesFault.Failed → IfSome (S.told shelf.old) (λ files. RoseIn (sources_plan asked.now) files (S.faults shelf.old) (S.faults shelf.new)) }
    ensures counted { Counted result (RoseAt (sources_plan asked.now) (S.faults shelf.old) (S.faults shelf.new)) (S.faults shelf.old) (S.faults shelf.new) }
    ensures kind { IfOk result (λ reply. is_answer reply.status ≡ true) }
{
    let read = fold_given(alloc, shelf, asked, ALL_BLOCKS)?;
    let reply = answer_given(alloc, wanted, read)?;
    Ok(reply)
}
