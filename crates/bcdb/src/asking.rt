//! Queries of the tables as they were after a block.

ghost use Rattle.std.specs.Prelude.{◌≡◌, ◌≤◌, ◌++◌, Err, IfOk, IfSome, IsErrOf, List, None, Ok, Option, Result, length, true};
ghost use Rattle.bcdb.specs.Accepted.{accepted};
ghost use Rattle.bcdb.specs.Folds.{Folds, app_of};
ghost use Rattle.bcdb.specs.Given.{AreInputs, IsBad};
ghost use Rattle.bcdb.specs.Plan.{AllowsPlan, BlocksFile, Counted, RoseAt, RoseIn, planned, sources_plan};
ghost use Rattle.bcdb.specs.ProgramAnswer.{says, status_of};
ghost use Rattle.bcdb.specs.Reply.{Means, is_answer};
ghost use Rattle.bcdb.specs.RowsAnswer.{over_ask, over_asked, over_rows, rows_asked};
ghost use Rattle.block_work.specs.Chain.{StoreFits};
ghost use Rattle.edge_traits.specs.Shelf.{Files};
ghost use Rattle.proc_syntax.specs.Declaring.{tables_of};
ghost use Rattle.proc_syntax.specs.declared.call.Block.{Block as BlockText};
ghost use Rattle.proc_syntax.specs.declared.chain_fault.ChainFault.{ChainFault as ChainFaultText};
ghost use Rattle.query_plan.specs.Answer.{Answers};
ghost use Rattle.query_plan.specs.declared.fault.AskFault.{AskFault as AskFaultText};
ghost use Rattle.rel_base.specs.declared.value.Value.{Value};
ghost use Rattle.query_plan.specs.Fits.{IsSelectOver};
ghost use Rattle.query_text.specs.Answered.{answered};
ghost use Rattle.query_text.specs.Walk.{select_of};
ghost use Rattle.report_text.specs.Answers.{answers_text};
ghost use Rattle.report_text.specs.Ending.{end_line};

use crate::fault::FilesFault;
use crate::folding::Folded;
use crate::given::{BadSource, Inputs, fold_inputs, read_inputs};
use crate::reply::{
    Reply, push_end, refuse_app, refuse_arrivals, refuse_ask, refuse_schedule, status_of,
};
use crate::sources::Sources;
use edge_traits::Shelf;
use plain_node::PlainNode;
use proc_syntax::ChainFault;
use query_plan::{AskFault, Select, ask};
use query_text::parse_select;
use rel_base::{List, NoMemory, Row};
use report_text::answers;
use row_sets::Versions;
use std::alloc::Global;

/// What is asked: a text, over the tables after the block of a height.
#[derive(Clone, Copy)]
pub struct Question<'a> {
    pub height: u64,
    pub text: &'a str,
}

// The answer to a question, whose text is this query, from what a node holds, where so many blocks are sealed in all. That there are 2 ^ 63
// blocks can not happen.
fn ask_node<V: Versions>(
    alloc: Global,
    node: &PlainNode<V>,
    sealed: u64,
    question: Question<'_>,
    select: &Select,
) -> Result<List<Row>, AskFault>
    requires store { StoreFits node.now.chain.app.value.app (V.tables node.now.chain.versions) (V.history node.now.chain.versions) node.now.chain.blocks }
    requires among { length node.now.chain.blocks ≤ sealed }
    requires over { IsSelectOver (tables_of node.now.chain.app.value.app) select.now }
    requires reads { select_of (tables_of node.now.chain.app.value.app) question.text.now ≡ Ok select.now }
    ensures { Answers result (answered (tables_of node.now.chain.app.value.app) question.entry.text.now (V.history node.now.chain.versions) sealed question.entry.height) }
{
    if sealed > i64::MAX as u64 {
        return Err(AskFault::NoMemory);
    }
    ask(
        alloc,
        node.chain.app.tables(),
        select,
        node.versions(),
        sealed,
        question.height,
    )
}

// The answer to a question, whose text is this query, over the tables that the blocks of a file make.
fn ask_folded(
    alloc: Global,
    folded: &Folded,
    question: Question<'_>,
    select: &Select,
) -> Result<List<Row>, AskFault>
    requires folds { (blocks : List BlockText) × Folds question.height blocks folded.now }
    requires over { IsSelectOver (tables_of (app_of folded.now)) select.now }
    requires reads { select_of (tables_of (app_of folded.now)) question.text.now ≡ Ok select.now }
    ensures { (blocks : List BlockText) → Folds question.entry.height blocks folded.now → Answers result (rows_asked question.entry.height question.entry.text.now (app_of folded.now) blocks) }
{
    ask_node(alloc, &folded.node, folded.taken, question, select)
}

// The reply that lists the rows of an answer.
fn list_rows(alloc: Global, rows: &List<Row>, stop: &Option<ChainFault>) -> Result<Reply, NoMemory>
    ensures means { IfOk result (λ reply. Means (says (status_of stop.now) (answers_text rows.now ++ end_line stop.now)) reply) }
    ensures kind { IfOk result (λ reply. is_answer reply.status ≡ true) }
{
    let mut bytes = answers(alloc, rows)?;
    push_end(alloc, &mut bytes, stop)?;
    Ok(Reply {
        status: status_of(*stop),
        bytes,
    })
}

// The reply that refuses a question for a fault, if memory suffices.
fn refuse_fault(alloc: Global, fault: AskFault) -> Result<Reply, NoMemory>
    ensures means { IfOk result (λ reply. (meant : Result (List (List Value)) AskFaultText) (stop : Option ChainFaultText) → Answers (Err fault) meant → Means (over_rows stop meant) reply) }
    ensures kind { IfOk result (λ reply. is_answer reply.status ≡ true) }
{
    match fault {
        AskFault::NoMemory => Err(NoMemory),
        other => refuse_ask(alloc, other),
    }
}

// The reply to a question, whose text is this query, over what the files came to. It is refused where the block file has a fault, too.
fn list_folded(
    alloc: Global,
    folded: &Folded,
    question: Question<'_>,
    select: &Select,
) -> Result<Reply, NoMemory>
    requires folds { (blocks : List BlockText) × Folds question.height blocks folded.now }
    requires over { IsSelectOver (tables_of (app_of folded.now)) select.now }
    requires reads { select_of (tables_of (app_of folded.now)) question.text.now ≡ Ok select.now }
    ensures means { IfOk result (λ reply. (blocks : List BlockText) → Folds question.entry.height blocks folded.now
        → Means (over_asked question.entry.height question.entry.text.now (app_of folded.now) blocks folded.now.fault) reply) }
    ensures kind { IfOk result (λ reply. is_answer reply.status ≡ true) }
{
    match ask_folded(alloc, folded, question, select) {
        Ok(rows) => {
            let reply = list_rows(alloc, &rows, &folded.fault);
            drop(rows);
            reply
        }
        Err(AskFault::NoMemory) => Err(NoMemory),
        Err(fault) => refuse_ask(alloc, fault),
    }
}

// The reply to a question, whose text is this query, once all but the blocks was read: these are run up to its height.
fn answer_select<S: Shelf>(
    alloc: Global,
    shelf: &mut S,
    asked: &Sources,
    inputs: Inputs,
    question: Question<'_>,
    select: &Select,
) -> Result<Reply, FilesFault>
    requires allowed { AllowsPlan (planned BlocksFile asked.now.blocks) (S.told shelf.old) (S.may_read shelf.old) }
    requires over { IsSelectOver (tables_of inputs.app.app) select.now }
    requires reads { select_of (tables_of inputs.app.app) question.text.now ≡ Ok select.now }
    ensures told { IfOk result (λ reply. IfSome (S.told shelf.old) (λ files. AreInputs (Ok inputs) asked.now files → Means (over_ask question.entry.height question.entry.text.now (accepted (files asked.now.app)) (files asked.now.blocks)) reply)) }
    ensures counted { Counted result (RoseAt (planned BlocksFile asked.now.blocks) (S.faults shelf.old) (S.faults shelf.new)) (S.faults shelf.old) (S.faults shelf.new) }
    ensures kind { IfOk result (λ reply. is_answer reply.status ≡ true) }
{
    let folded = fold_inputs(alloc, shelf, asked, inputs, question.height)?;
    let listed = list_folded(alloc, &folded, question, select);
    drop(folded);
    let reply = listed?;
    Ok(reply)
}

// The reply to a question whose text is no query, once all but the blocks was read. These are read for their faults, which come first, and
// none is run.
fn refuse_text<S: Shelf>(
    alloc: Global,
    shelf: &mut S,
    asked: &Sources,
    inputs: Inputs,
    question: Question<'_>,
    fault: AskFault,
) -> Result<Reply, FilesFault>
    requires allowed { AllowsPlan (planned BlocksFile asked.now.blocks) (S.told shelf.old) (S.may_read shelf.old) }
    requires reads { Answers (Err fault) (select_of (tables_of inputs.app.app) question.text.now) }
    ensures told { IfOk result (λ reply. IfSome (S.told shelf.old) (λ files. AreInputs (Ok inputs) asked.now files → Means (over_ask question.entry.height question.entry.text.now (accepted (files asked.now.app)) (files asked.now.blocks)) reply)) }
    ensures counted { Counted result (RoseAt (planned BlocksFile asked.now.blocks) (S.faults shelf.old) (S.faults shelf.new)) (S.faults shelf.old) (S.faults shelf.new) }
    ensures kind { IfOk result (λ reply. is_answer reply.status ≡ true) }
{
    let folded = fold_inputs(alloc, shelf, asked, inputs, 0)?;
    drop(folded);
    let reply = refuse_fault(alloc, fault)?;
    Ok(reply)
}

// The reply to a question once all but the blocks was read: its text is parsed before these.
fn answer_inputs<S: Shelf>(
    alloc: Global,
    shelf: &mut S,
    asked: &Sources,
    inputs: Inputs,
    question: Question<'_>,
) -> Result<Reply, FilesFault>
    requires allowed { AllowsPlan (planned BlocksFile asked.now.blocks) (S.told shelf.old) (S.may_read shelf.old) }
    ensures told { IfOk result (λ reply. IfSome (S.told shelf.old) (λ files. AreInputs (Ok inputs) asked.now files → Means (over_ask question.entry.height question.entry.text.now (accepted (files asked.now.app)) (files asked.now.blocks)) reply)) }
    ensures counted { Counted result (RoseAt (planned BlocksFile asked.now.blocks) (S.faults shelf.old) (S.faults shelf.new)) (S.faults shelf.old) (S.faults shelf.new) }
    ensures kind { IfOk result (λ reply. is_answer reply.status ≡ true) }
{
    match parse_select(alloc, inputs.app.tables(), question.text) {
        Ok(select) => {
            let reply = answer_select(alloc, shelf, asked, inputs, question, &select);
            drop(select);
            reply
        }
        Err(fault) => refuse_text(alloc, shelf, asked, inputs, question, fault),
    }
}

// The reply to a file before the blocks that is refused.
#[tactic(auto, using(crate::proofs::Asked::app_means, crate::proofs::Asked::arrivals_mean, crate::proofs::Asked::schedule_means))]
fn refuse_source(alloc: Global, question: Question<'_>, bad: BadSource) -> Result<Reply, NoMemory>
    ensures means { IfOk result (λ reply. (asked : Sources) (files : Files) → asked.nodes ≡ 0 → asked.schedule ≡ None → IsBad bad asked files
        → Means (over_ask question.entry.height question.entry.text.now (accepted (files asked.app)) (files asked.blocks)) reply) }
    ensures kind { IfOk result (λ reply. is_answer reply.status ≡ true) }
{
    let _question = question;
    match bad {
        BadSource::App(refusal) => refuse_app(alloc, refusal),
        BadSource::Arrivals(bad) => refuse_arrivals(alloc, bad),
        BadSource::Schedule(line) => refuse_schedule(alloc, line),
    }
}

/// The reply to a question over an application and blocks.
pub fn answer_ask<S: Shelf>(
    alloc: Global,
    shelf: &mut S,
    asked: &Sources,
    question: Question<'_>,
) -> Result<Reply, FilesFault>
    requires none { asked.now.nodes ≡ 0 }
    requires unscheduled { asked.now.schedule ≡ None }
    requires allowed { AllowsPlan (sources_plan asked.now) (S.told shelf.old) (S.may_read shelf.old) }
    ensures told { IfOk result (λ reply. IfSome (S.told shelf.old) (λ files. Means (over_ask question.entry.height question.entry.text.now (accepted (files asked.now.app)) (files asked.now.blocks)) reply)) }
    ensures turn { IsErrOf result FilesFault.Failed → IfSome (S.told shelf.old) (λ files. RoseIn (sources_plan asked.now) files (S.faults shelf.old) (S.faults shelf.new)) }
    ensures counted { Counted result (RoseAt (sources_plan asked.now) (S.faults shelf.old) (S.faults shelf.new)) (S.faults shelf.old) (S.faults shelf.new) }
    ensures kind { IfOk result (λ reply. is_answer reply.status ≡ true) }
{
    match read_inputs(alloc, shelf, asked) {
        Ok(Ok(inputs)) => answer_inputs(alloc, shelf, asked, inputs, question),
        Ok(Err(bad)) => {
            let reply = refuse_source(alloc, question, bad)?;
            Ok(reply)
        }
        Err(fault) => Err(fault),
    }
}
