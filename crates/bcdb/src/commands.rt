//! What is meant to be answered, from the shelf alone: each command by its settings.
ghost use Rattle.std.specs.Prelude.{◌≡◌, IfOk, IfSome, IsErrOf, Some, true};
ghost use Rattle.bcdb.specs.Plan.{AllowsPlan, Counted, RoseAt, RoseIn, plan_of};
ghost use Rattle.bcdb.specs.Reply.{is_answer};
ghost use Rattle.bcdb.specs.Traced.{Replies};
ghost use Rattle.cli_words.specs.Language.{AreWithin};

use crate::asking::{Question, answer_ask};
use crate::comparing::answer_comparison;
use crate::extract::Extract;
use crate::extracting::answer_extract;
use crate::fault::FilesFault;
use crate::loading::answer_load;
use crate::ordering::answer_order;
use crate::querying::answer_query;
use crate::reply::{Reply, look_of};
use crate::running::answer_run;
use crate::sealing::seal_file;
use crate::simulating::answer_simulation;
use crate::sources::Sources;
use crate::verifying::answer_verification;
use cli_words::Settings;
use cluster_run::Gate;
use edge_traits::Shelf;
use std::alloc::Global;
use std::sync::Wait;
use std::thread::Threads;

/// What is meant to be answered to these settings over this shelf. No read that failed is tried again: the counts of failed
/// reads are as they were, unless the answer is that one failed.
#[tactic(auto, using(crate::proofs::Replying::replies_told))]
pub fn reply_to<R: Threads + Wait + Sync, S: Shelf, G: Gate>(
    rt: &R,
    alloc: Global,
    settings: Settings,
    shelf: &mut S,
    gate: &G,
) -> Result<Reply, FilesFault>
    requires within { AreWithin settings }
    requires allowed { AllowsPlan (plan_of (Some settings)) (S.told shelf.old) (S.may_read shelf.old) }
    ensures told { IfOk result (λ reply. IfSome (S.told shelf.old) (λ files. Replies (Some settings) files reply)) }
    ensures turn { IsErrOf result FilesFault.Failed → IfSome (S.told shelf.old) (λ files. RoseIn (plan_of (Some settings)) files (S.faults shelf.old) (S.faults shelf.new)) }
    ensures counted { Counted result (RoseAt (plan_of (Some settings)) (S.faults shelf.old) (S.faults shelf.new)) (S.faults shelf.old) (S.faults shelf.new) }
    ensures kind { IfOk result (λ reply. is_answer reply.status ≡ true) }
{
    match settings {
        Settings::Run {
            app,
            blocks,
            arrivals,
            nodes,
            executors,
            flags,
        } => {
            let asked = Sources::of_run(app, blocks, arrivals, nodes);
            let reply = answer_run(rt, alloc, shelf, &look_of(flags), &asked, executors, gate);
            drop(asked);
            reply
        }
        Settings::Simulate {
            app,
            blocks,
            schedule,
            arrivals,
            flags,
        } => {
            let asked = Sources::of_simulation(app, blocks, schedule, arrivals);
            let reply = answer_simulation(alloc, shelf, &look_of(flags), &asked);
            drop(asked);
            reply
        }
        Settings::Provenance { app, blocks, query } => {
            let asked = Sources::of_query(app, blocks);
            let reply = answer_query(alloc, shelf, &asked, query.as_str());
            drop(asked);
            drop(query);
            reply
        }
        Settings::Seal { blocks } => seal_file(alloc, shelf, blocks.as_str()),
        Settings::Load { number } => Ok(answer_load(rt, alloc, number, gate)?),
        Settings::Order {
            clients,
            count,
            most,
        } => {
            let prefix = Some(clients);
            let reply = answer_order(rt, alloc, shelf, &prefix, count, most);
            drop(prefix);
            reply
        }
        Settings::Checkpoint { app, blocks, heads } => {
            let asked = Sources::of_query(app, blocks);
            let reply = answer_extract(alloc, shelf, &asked, Extract::Hashes { heads });
            drop(asked);
            reply
        }
        Settings::Compare { files, count } => {
            answer_comparison(alloc, shelf, files.as_str(), count)
        }
        Settings::Prove {
            app,
            blocks,
            block,
            write,
        } => {
            let asked = Sources::of_query(app, blocks);
            let reply = answer_extract(alloc, shelf, &asked, Extract::Proof { block, write });
            drop(asked);
            reply
        }
        Settings::Verify { proof, head } => {
            answer_verification(alloc, shelf, proof.as_str(), &head)
        }
        Settings::Query {
            app,
            blocks,
            height,
            text,
        } => {
            let asked = Sources::of_query(app, blocks);
            let question = Question {
                height,
                text: text.as_str(),
            };
            let reply = answer_ask(alloc, shelf, &asked, question);
            drop(asked);
            drop(text);
            reply
        }
    }
}
