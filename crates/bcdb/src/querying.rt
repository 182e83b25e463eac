//! Queries about the versions that blocks make.

ghost use Rattle.std.specs.Prelude.{◌≡◌, ◌++◌, Err, IfOk, IfSome, IsErrOf, List, None, Some, true};
ghost use Rattle.bcdb.specs.Accepted.{accepted};
ghost use Rattle.bcdb.specs.Folds.{Folds, all_blocks, app_of};
ghost use Rattle.bcdb.specs.Given.{AreFolded, IsBad};
ghost use Rattle.bcdb.specs.Plan.{AllowsPlan, Counted, RoseAt, RoseIn, sources_plan};
ghost use Rattle.bcdb.specs.ProgramAnswer.{says, status_of};
ghost use Rattle.bcdb.specs.Refusals.{query_refusal};
ghost use Rattle.bcdb.specs.Reply.{Means, is_answer};
ghost use Rattle.bcdb.specs.Selected.{Tells, selected};
ghost use Rattle.bcdb.specs.VersionsAnswer.{over_blocks, over_query};
ghost use Rattle.bcdb.specs.declared.status.Status.TheVariants.{QueryRefused};
ghost use Rattle.edge_traits.specs.Shelf.{Files};
ghost use Rattle.proc_syntax.specs.declared.call.Block.{Block as BlockText};
ghost use Rattle.provenance.specs.Asked.{Asks};
ghost use Rattle.provenance.specs.Grammar.{query_of};
ghost use Rattle.report_text.specs.Ending.{end_line};
ghost use Rattle.report_text.specs.Versions.{versions_text};

use crate::fault::FilesFault;
use crate::folding::{ALL_BLOCKS, Folded};
use crate::given::{BadSource, fold_given};
use crate::reply::{
    Reply, push_end, refuse_app, refuse_arrivals, refuse_query, refuse_schedule, status_of,
};
use crate::sources::Sources;
use edge_traits::Shelf;
use node_model::Version;
use proc_syntax::ChainFault;
use provenance::{Query, QueryFault, answer, parse_query};
use rel_base::{List, NoMemory, TableDef};
use report_text::versions;
use std::alloc::Global;

// The versions that a query, which this text is, selects among those that a file comes to, or why it selects none.
#[tactic(auto, using(crate::proofs::Queries::tells_folds))]
fn select(
    alloc: Global,
    folded: &Folded,
    text: &str,
    query: &Query,
) -> Result<List<Version>, QueryFault>
    requires folds { (blocks : List BlockText) × Folds all_blocks blocks folded.now }
    requires reads { query_of text.now ≡ Some query.now }
    ensures { (blocks : List BlockText) → Folds all_blocks blocks folded.now → Tells result (selected (app_of folded.now) blocks (query_of text.now)) }
{
    let _text = text;
    let node = &folded.node;
    let tables = node.chain.app.tables();
    answer(alloc, tables, node.versions(), node.blocks(), query)
}

// The reply that lists versions.
fn list_versions(
    alloc: Global,
    tables: &List<TableDef>,
    list: &List<Version>,
    stop: &Option<ChainFault>,
) -> Result<Reply, NoMemory>
    ensures means { IfOk result (λ reply. Means (says (status_of stop.now) (versions_text tables.now list.now ++ end_line stop.now)) reply) }
    ensures kind { IfOk result (λ reply. is_answer reply.status ≡ true) }
{
    let mut bytes = versions(alloc, tables, list)?;
    push_end(alloc, &mut bytes, stop)?;
    Ok(Reply {
        status: status_of(*stop),
        bytes,
    })
}

// The reply to a query, which this text is, over what the files came to. A query is refused where the block file has a fault, too.
fn query_folded(
    alloc: Global,
    text: &str,
    query: &Query,
    folded: &Folded,
) -> Result<Reply, NoMemory>
    requires folds { (blocks : List BlockText) × Folds all_blocks blocks folded.now }
    requires reads { query_of text.now ≡ Some query.now }
    ensures means { IfOk result (λ reply. (blocks : List BlockText) → Folds all_blocks blocks folded.now → Means (over_blocks text.now (app_of folded.now) blocks folded.now.fault) reply) }
    ensures kind { IfOk result (λ reply. is_answer reply.status ≡ true) }
{
    match select(alloc, folded, text, query) {
        Ok(list) => {
            let reply = list_versions(alloc, folded.node.chain.app.tables(), &list, &folded.fault);
            drop(list);
            reply
        }
        Err(QueryFault::NoMemory) => Err(NoMemory),
        Err(fault) => refuse_query(alloc, fault),
    }
}

// The reply to a file before the blocks that is refused.
#[tactic(auto, using(crate::proofs::Queries::app_means, crate::proofs::Queries::arrivals_mean, crate::proofs::Queries::schedule_means))]
fn refuse_source(alloc: Global, text: &str, bad: BadSource) -> Result<Reply, NoMemory>
    ensures means { IfOk result (λ reply. (asked : Sources) (files : Files) → asked.nodes ≡ 0 → asked.schedule ≡ None → IsBad bad asked files
        → Means (over_query text.now (accepted (files asked.app)) (files asked.blocks)) reply) }
    ensures kind { IfOk result (λ reply. is_answer reply.status ≡ true) }
{
    let _text = text;
    match bad {
        BadSource::App(refusal) => refuse_app(alloc, refusal),
        BadSource::Arrivals(bad) => refuse_arrivals(alloc, bad),
        BadSource::Schedule(line) => refuse_schedule(alloc, line),
    }
}

// The reply to a query, which this text is, by what the files came to.
fn answer_given(
    alloc: Global,
    text: &str,
    query: &Query,
    read: Result<Folded, BadSource>,
) -> Result<Reply, NoMemory>
    requires folds { IfOk read (λ folded. (blocks : List BlockText) × Folds all_blocks blocks folded) }
    requires reads { query_of text.now ≡ Some query.now }
    ensures means { IfOk result (λ reply. (asked : Sources) (files : Files) → asked.nodes ≡ 0 → asked.schedule ≡ None → AreFolded all_blocks read asked files
        → Means (over_query text.now (accepted (files asked.app)) (files asked.blocks)) reply) }
    ensures kind { IfOk result (λ reply. is_answer reply.status ≡ true) }
{
    match read {
        Ok(folded) => {
            let reply = query_folded(alloc, text, query, &folded);
            drop(folded);
            reply
        }
        Err(bad) => refuse_source(alloc, text, bad),
    }
}

// The reply that refuses a text for a fault, if memory suffices.
fn refuse_fault(alloc: Global, text: &str, fault: QueryFault) -> Result<Reply, NoMemory>
    requires reads { Asks (Err fault) (query_of text.now) }
    ensures means { IfOk result (λ reply. (query_of text.now ≡ None) × Means (says QueryRefused (query_refusal QueryFault.BadQuery)) reply) }
    ensures kind { IfOk result (λ reply. is_answer reply.status ≡ true) }
{
    let _text = text;
    match fault {
        QueryFault::NoMemory => Err(NoMemory),
        other => refuse_query(alloc, other),
    }
}

// The reply to a text that is no query, by what the files came to: a fault of these comes first.
fn refuse_given(
    alloc: Global,
    text: &str,
    fault: QueryFault,
    read: Result<Folded, BadSource>,
) -> Result<Reply, NoMemory>
    requires reads { Asks (Err fault) (query_of text.now) }
    ensures means { IfOk result (λ reply. (asked : Sources) (files : Files) → asked.nodes ≡ 0 → asked.schedule ≡ None → AreFolded 0 read asked files
        → Means (over_query text.now (accepted (files asked.app)) (files asked.blocks)) reply) }
    ensures kind { IfOk result (λ reply. is_answer reply.status ≡ true) }
{
    match read {
        Ok(folded) => {
            drop(folded);
            refuse_fault(alloc, text, fault)
        }
        Err(bad) => refuse_source(alloc, text, bad),
    }
}

// The reply to a query, which this text is, over an application and blocks.
fn answer_read<S: Shelf>(
    alloc: Global,
    shelf: &mut S,
    asked: &Sources,
    text: &str,
    query: &Query,
) -> Result<Reply, FilesFault>
    requires none { asked.now.nodes ≡ 0 }
    requires unscheduled { asked.now.schedule ≡ None }
    requires allowed { AllowsPlan (sources_plan asked.now) (S.told shelf.old) (S.may_read shelf.old) }
    requires reads { query_of text.now ≡ Some query.now }
    ensures told { IfOk result (λ reply. IfSome (S.told shelf.old) (λ files. Means (over_query text.now (accepted (files asked.now.app)) (files asked.now.blocks)) reply)) }
    ensures turn { IsErrOf result FilesFault.Failed → IfSome (S.told shelf.old) (λ files. RoseIn (sources_plan asked.now) files (S.faults shelf.old) (S.faults shelf.new)) }
    ensures counted { Counted result (RoseAt (sources_plan asked.now) (S.faults shelf.old) (S.faults shelf.new)) (S.faults shelf.old) (S.faults shelf.new) }
    ensures kind { IfOk result (λ reply. is_answer reply.status ≡ true) }
{
    let read = fold_given(alloc, shelf, asked, ALL_BLOCKS)?;
    let reply = answer_given(alloc, text, query, read)?;
    Ok(reply)
}

// The reply to a text that is no query. The files are read for their faults, which come first, and no block is run.
fn refuse_text<S: Shelf>(
    alloc: Global,
    shelf: &mut S,
    asked: &Sources,
    text: &str,
    fault: QueryFault,
) -> Result<Reply, FilesFault>
    requires none { asked.now.nodes ≡ 0 }
    requires unscheduled { asked.now.schedule ≡ None }
    requires allowed { AllowsPlan (sources_plan asked.now) (S.told shelf.old) (S.may_read shelf.old) }
    requires reads { Asks (Err fault) (query_of text.now) }
    ensures told { IfOk result (λ reply. IfSome (S.told shelf.old) (λ files. Means (over_query text.now (accepted (files asked.now.app)) (files asked.now.blocks)) reply)) }
    ensures turn { IsErrOf result FilesFault.Failed → IfSome (S.told shelf.old) (λ files. RoseIn (sources_plan asked.now) files (S.faults shelf.old) (S.faults shelf.new)) }
    ensures counted { Counted result (RoseAt (sources_plan asked.now) (S.faults shelf.old) (S.faults shelf.new)) (S.faults shelf.old) (S.faults shelf.new) }
    ensures kind { IfOk result (λ reply. is_answer reply.status ≡ true) }
{
    let read = fold_given(alloc, shelf, asked, 0)?;
    let reply = refuse_given(alloc, text, fault, read)?;
    Ok(reply)
}

/// The reply to the text of a query over an application and blocks. The text is parsed before any file is read.
pub fn answer_query<S: Shelf>(
    alloc: Global,
    shelf: &mut S,
    asked: &Sources,
    query: &str,
) -> Result<Reply, FilesFault>
    requires none { asked.now.nodes ≡ 0 }
    requires unscheduled { asked.now.schedule ≡ None }
    requires allowed { AllowsPlan (sources_plan asked.now) (S.told shelf.old) (S.may_read shelf.old) }
    ensures told { IfOk result (λ reply. IfSome (S.told shelf.old) (λ files. Means (over_query query.now (accepted (files asked.now.app)) (files asked.now.blocks)) reply)) }
    ensures turn { IsErrOf result FilesFault.Failed → IfSome (S.told shelf.old) (λ files. RoseIn (sources_plan asked.now) files (S.faults shelf.old) (S.faults shelf.new)) }
    ensures counted { Counted result (RoseAt (sources_plan asked.now) (S.faults shelf.old) (S.faults shelf.new)) (S.faults shelf.old) (S.faults shelf.new) }
    ensures kind { IfOk result (λ reply. is_answer reply.status ≡ true) }
{
    match parse_query(alloc, query) {
        Ok(parsed) => {
            let reply = answer_read(alloc, shelf, asked, query, &parsed);
            drop(parsed);
            reply
        }
        Err(fault) => refuse_text(alloc, shelf, asked, query, fault),
    }
}
