//! What a command is given: its files, read one after another, each only once the one before it is what it must be.

ghost use Rattle.std.specs.Prelude.{◌≡◌, IfOk, IfSome, IsErrOf, List, Ok, length};
ghost use Rattle.std.specs.List.{AllByRecursion};
ghost use Rattle.bcdb.specs.Accepted.{accepted};
ghost use Rattle.bcdb.specs.ArrivalFiles.{all_arrived};
ghost use Rattle.bcdb.specs.Folds.{Folds, app_of};
ghost use Rattle.bcdb.specs.Given.{AreFolded, AreGiven, AreInputs};
ghost use Rattle.bcdb.specs.Plan.{AllowsPlan, BlocksFile, Counted, RoseAt, RoseIn, plan_from_arrivals, plan_from_schedule, planned, sources_plan};
ghost use Rattle.bcdb.specs.Taking.{GivesApp};
ghost use Rattle.chain_file.specs.Numbered.{NumberedFrom};
ghost use Rattle.proc_syntax.specs.declared.call.Block.{Block as BlockText};
ghost use Rattle.schedule_sim.specs.Steps.{IsStep};

use crate::application::fetch_application;
use crate::blocks::{fold_blocks, read_blocks};
use crate::fault::FilesFault;
use crate::folding::Folded;
use crate::node_arrivals::read_all_arrivals;
use crate::refusal::{BadArrivals, Refusal};
use crate::schedule::read_steps;
use crate::sources::Sources;
use chain_file::Fed;
use edge_traits::Shelf;
use proc_check::Checked;
use proc_syntax::Tx;
use rel_base::List;
use schedule_sim::Schedule;
use std::alloc::Global;
use std::sync::Arc;

/// What was read of the files of a command before its blocks.
#[derive(Drop)]
pub struct Inputs {
    pub app: Checked,
    /// For each node, what arrives at it.
    pub arrivals: List<List<Tx>>,
    /// The steps of the schedule, which are none where no schedule is named.
    pub schedule: Schedule,
}

/// What was read of the files of a command, with all blocks.
#[derive(Drop)]
pub struct Given {
    pub app: Checked,
    /// For each node, what arrives at it.
    pub arrivals: List<List<Tx>>,
    /// The steps of the schedule, which are none where no schedule is named.
    pub schedule: Schedule,
    /// The blocks of the block file before its first fault, and that fault.
    pub read: Fed,
}

/// Which file is refused first, and why.
#[derive(Clone, Copy, PartialEq, Eq)]
pub enum BadSource {
    App(Refusal),
    Arrivals(BadArrivals),
    /// The schedule, for its first bad line.
    Schedule(u64),
}

// What is read before the blocks besides an application and what arrives: the schedule.
fn read_from_schedule<S: Shelf>(
    alloc: Global,
    shelf: &mut S,
    asked: &Sources,
    app: Checked,
    arrivals: List<List<Tx>>,
) -> Result<Result<Inputs, BadSource>, FilesFault>
    requires allowed { AllowsPlan (plan_from_schedule asked.now) (S.told shelf.old) (S.may_read shelf.old) }
    ensures told { IfOk result (λ read. IfSome (S.told shelf.old) (λ files. accepted (files asked.now.app) ≡ Ok app.app
        → all_arrived asked.now.arrivals 1 asked.now.nodes files ≡ Ok arrivals → AreInputs read asked.now files)) }
    ensures all { IfOk result (λ read. IfOk read (λ inputs. length inputs.arrivals ≡ length arrivals)) }
    ensures actors { IfOk result (λ read. IfOk read (λ inputs. AllByRecursion IsStep inputs.schedule.steps)) }
    ensures same { S.told shelf.new ≡ S.told shelf.old }
    ensures next { IfOk result (λ read. IfOk read (λ inputs. AllowsPlan (planned BlocksFile asked.now.blocks) (S.told shelf.new) (S.may_read shelf.new))) }
    ensures turn { IsErrOf result FilesFault.Failed → IfSome (S.told shelf.old) (λ files. RoseIn (plan_from_schedule asked.now) files (S.faults shelf.old) (S.faults shelf.new)) }
    ensures counted { Counted result (RoseAt (plan_from_schedule asked.now) (S.faults shelf.old) (S.faults shelf.new)) (S.faults shelf.old) (S.faults shelf.new) }
{
    match read_steps(alloc, shelf, &asked.schedule) {
        Ok(Ok(schedule)) => Ok(Ok(Inputs {
            app,
            arrivals,
            schedule,
        })),
        Ok(Err(line)) => {
            drop(app);
            drop(arrivals);
            Ok(Err(BadSource::Schedule(line)))
        }
        Err(fault) => {
            drop(app);
            drop(arrivals);
            Err(fault)
        }
    }
}

// What is read before the blocks besides an accepted application: what arrives, and then the schedule.
fn read_from_arrivals<S: Shelf>(
    alloc: Global,
    shelf: &mut S,
    asked: &Sources,
    app: Checked,
) -> Result<Result<Inputs, BadSource>, FilesFault>
    requires allowed { AllowsPlan (plan_from_arrivals asked.now) (S.told shelf.old) (S.may_read shelf.old) }
    ensures told { IfOk result (λ read. IfSome (S.told shelf.old) (λ files. accepted (files asked.now.app) ≡ Ok app.app → AreInputs read asked.now files)) }
    ensures all { IfOk result (λ read. IfOk read (λ inputs. length inputs.arrivals ≡ asked.now.nodes)) }
    ensures actors { IfOk result (λ read. IfOk read (λ inputs. AllByRecursion IsStep inputs.schedule.steps)) }
    ensures same { S.told shelf.new ≡ S.told shelf.old }
    ensures next { IfOk result (λ read. IfOk read (λ inputs. AllowsPlan (planned BlocksFile asked.now.blocks) (S.told shelf.new) (S.may_read shelf.new))) }
    ensures turn { IsErrOf result FilesFault.Failed → IfSome (S.told shelf.old) (λ files. RoseIn (plan_from_arrivals asked.now) files (S.faults shelf.old) (S.faults shelf.new)) }
    ensures counted { Counted result (RoseAt (plan_from_arrivals asked.now) (S.faults shelf.old) (S.faults shelf.new)) (S.faults shelf.old) (S.faults shelf.new) }
{
    match read_all_arrivals(alloc, shelf, &asked.arrivals, asked.nodes) {
        Ok(Ok(arrivals)) => read_from_schedule(alloc, shelf, asked, app, arrivals),
        Ok(Err(bad)) => {
            drop(app);
            Ok(Err(BadSource::Arrivals(bad)))
        }
        Err(fault) => {
            drop(app);
            Err(fault)
        }
    }
}

/// What is read before the blocks, or the first file that is refused: the application, what arrives at each node and the schedule are read
/// one after another, each only once the one before it is what it must be.
pub fn read_inputs<S: Shelf>(
    alloc: Global,
    shelf: &mut S,
    asked: &Sources,
) -> Result<Result<Inputs, BadSource>, FilesFault>
    requires allowed { AllowsPlan (sources_plan asked.now) (S.told shelf.old) (S.may_read shelf.old) }
    ensures told { IfOk result (λ read. IfSome (S.told shelf.old) (λ files. AreInputs read asked.now files)) }
    ensures all { IfOk result (λ read. IfOk read (λ inputs. length inputs.arrivals ≡ asked.now.nodes)) }
    ensures actors { IfOk result (λ read. IfOk read (λ inputs. AllByRecursion IsStep inputs.schedule.steps)) }
    ensures same { S.told shelf.new ≡ S.told shelf.old }
    ensures next { IfOk result (λ read. IfOk read (λ inputs. AllowsPlan (planned BlocksFile asked.now.blocks) (S.told shelf.new) (S.may_read shelf.new))) }
    ensures turn { IsErrOf result FilesFault.Failed → IfSome (S.told shelf.old) (λ files. RoseIn (sources_plan asked.now) files (S.faults shelf.old) (S.faults shelf.new)) }
    ensures counted { Counted result (RoseAt (sources_plan asked.now) (S.faults shelf.old) (S.faults shelf.new)) (S.faults shelf.old) (S.faults shelf.new) }
{
    match fetch_application(alloc, shelf, asked.app.as_str()) {
        Ok(Ok(app)) => read_from_arrivals(alloc, shelf, asked, app),
        Ok(Err(refusal)) => Ok(Err(BadSource::App(refusal))),
        Err(fault) => Err(fault),
    }
}

// What is given once all but the blocks was read.
fn read_last<S: Shelf>(
    alloc: Global,
    shelf: &mut S,
    asked: &Sources,
    inputs: Inputs,
) -> Result<Result<Given, BadSource>, FilesFault>
    requires allowed { AllowsPlan (planned BlocksFile asked.now.blocks) (S.told shelf.old) (S.may_read shelf.old) }
    ensures told { IfOk result (λ read. IfSome (S.told shelf.old) (λ files. AreInputs (Ok inputs) asked.now files → AreGiven read asked.now files)) }
    ensures all { IfOk result (λ read. IfOk read (λ given. length given.arrivals ≡ length inputs.arrivals)) }
    ensures actors { IfOk result (λ read. IfOk read (λ given. given.schedule ≡ inputs.schedule)) }
    ensures numbered { IfOk result (λ read. IfOk read (λ given. NumberedFrom 1 given.read.blocks)) }
    ensures counted { Counted result (RoseAt (planned BlocksFile asked.now.blocks) (S.faults shelf.old) (S.faults shelf.new)) (S.faults shelf.old) (S.faults shelf.new) }
{
    let Inputs {
        app,
        arrivals,
        schedule,
    } = inputs;
    match read_blocks(alloc, shelf, asked.blocks.as_str()) {
        Ok(read) => Ok(Ok(Given {
            app,
            arrivals,
            schedule,
            read,
        })),
        Err(fault) => {
            drop(app);
            drop(arrivals);
            drop(schedule);
            Err(fault)
        }
    }
}

/// What the blocks come to on its application up to a height, once all but these was read.
pub fn fold_inputs<S: Shelf>(
    alloc: Global,
    shelf: &mut S,
    asked: &Sources,
    inputs: Inputs,
    height: u64,
) -> Result<Folded, FilesFault>
    requires allowed { AllowsPlan (planned BlocksFile asked.now.blocks) (S.told shelf.old) (S.may_read shelf.old) }
    ensures told { IfOk result (λ folded. IfSome (S.told shelf.old) (λ files. AreInputs (Ok inputs) asked.now files → AreFolded height (Ok folded) asked.now files)) }
    ensures app { IfOk result (λ folded. app_of folded ≡ inputs.app.app) }
    ensures folds { IfOk result (λ folded. (blocks : List BlockText) × Folds height blocks folded) }
    ensures counted { Counted result (RoseAt (planned BlocksFile asked.now.blocks) (S.faults shelf.old) (S.faults shelf.new)) (S.faults shelf.old) (S.faults shelf.new) }
{
    let Inputs {
        app,
        arrivals,
        schedule,
    } = inputs;
    drop(arrivals);
    drop(schedule);
    let Ok(app) = Arc::new(alloc, app) else {
        return Err(FilesFault::NoMemory);
    };
    let folded = fold_blocks(alloc, shelf, asked.blocks.as_str(), &app, height);
    drop(app);
    folded
}

// The same as it is given.
fn fold_last<S: Shelf>(
    alloc: Global,
    shelf: &mut S,
    asked: &Sources,
    inputs: Inputs,
    height: u64,
) -> Result<Result<Folded, BadSource>, FilesFault>
    requires allowed { AllowsPlan (planned BlocksFile asked.now.blocks) (S.told shelf.old) (S.may_read shelf.old) }
    ensures told { IfOk result (λ read. IfSome (S.told shelf.old) (λ files. AreInputs (Ok inputs) asked.now files → AreFolded height read asked.now files)) }
    ensures folds { IfOk result (λ read. IfOk read (λ folded. (blocks : List BlockText) × Folds height blocks folded)) }
    ensures counted { Counted result (RoseAt (planned BlocksFile asked.now.blocks) (S.faults shelf.old) (S.faults shelf.new)) (S.faults shelf.old) (S.faults shelf.new) }
{
    let folded = fold_inputs(alloc, shelf, asked, inputs, height)?;
    Ok(Ok(folded))
}

/// What a command is given that asks for all blocks, or the first of its files that is refused. The blocks are read last, only once
/// each file before them is what it must be.
pub fn read_given<S: Shelf>(
    alloc: Global,
    shelf: &mut S,
    asked: &Sources,
) -> Result<Result<Given, BadSource>, FilesFault>
    requires allowed { AllowsPlan (sources_plan asked.now) (S.told shelf.old) (S.may_read shelf.old) }
    ensures told { IfOk result (λ read. IfSome (S.told shelf.old) (λ files. AreGiven read asked.now files)) }
    ensures all { IfOk result (λ read. IfOk read (λ given. length given.arrivals ≡ asked.now.nodes)) }
    ensures actors { IfOk result (λ read. IfOk read (λ given. AllByRecursion IsStep given.schedule.steps)) }
    ensures numbered { IfOk result (λ read. IfOk read (λ given. NumberedFrom 1 given.read.blocks)) }
    ensures turn { IsErrOf result FilesFault.Failed → IfSome (S.told shelf.old) (λ files. RoseIn (sources_plan asked.now) files (S.faults shelf.old) (S.faults shelf.new)) }
    ensures counted { Counted result (RoseAt (sources_plan asked.now) (S.faults shelf.old) (S.faults shelf.new)) (S.faults shelf.old) (S.faults shelf.new) }
{
    match read_inputs(alloc, shelf, asked) {
        Ok(Ok(inputs)) => read_last(alloc, shelf, asked, inputs),
        Ok(Err(bad)) => Ok(Err(bad)),
        Err(fault) => Err(fault),
    }
}

/// What the blocks of a command come to on its application up to a height, or the first of its files that is refused. The blocks are
/// read last, as by `read_given`, and each is run once it was read, and let go.
pub fn fold_given<S: Shelf>(
    alloc: Global,
    shelf: &mut S,
    asked: &Sources,
    height: u64,
) -> Result<Result<Folded, BadSource>, FilesFault>
    requires allowed { AllowsPlan (sources_plan asked.now) (S.told shelf.old) (S.may_read shelf.old) }
    ensures told { IfOk result (λ read. IfSome (S.told shelf.old) (λ files. AreFolded height read asked.now files)) }
    ensures folds { IfOk result (λ read. IfOk read (λ folded. (blocks : List BlockText) × Folds height blocks folded)) }
    ensures turn { IsErrOf result FilesFault.Failed → IfSome (S.told shelf.old) (λ files. RoseIn (sources_plan asked.now) files (S.faults shelf.old) (S.faults shelf.new)) }
    ensures counted { Counted result (RoseAt (sources_plan asked.now) (S.faults shelf.old) (S.faults shelf.new)) (S.faults shelf.old) (S.faults shelf.new) }
{
    match read_inputs(alloc, shelf, asked) {
        Ok(Ok(inputs)) => fold_last(alloc, shelf, asked, inputs, height),
        Ok(Err(bad)) => Ok(Err(bad)),
        Err(fault) => Err(fault),
    }
}
