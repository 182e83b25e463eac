//! A schedule, carried out from its first step to the results.

ghost use Rattle.std.specs.Prelude.{◌≡◌, IfOk, []};
ghost use Rattle.std.specs.List.{AllByRecursion};
ghost use Rattle.node_model.specs.Fold.{node_result};
ghost use Rattle.node_model.specs.Journals.{IsLegal, delivered};
ghost use Rattle.schedule_sim.specs.Bare.{Tells};
ghost use Rattle.schedule_sim.specs.Running.{simulated};
ghost use Rattle.schedule_sim.specs.Steps.{IsStep};
ghost use Rattle.serial_laws.specs.InOrder.{EachInOrder};

use crate::simulation::{SimFault, SimulatedNode};
use crate::step::Schedule;
use node_model::NodeResult;
use proc_check::Checked;
use proc_syntax::{Block, Tx};
use row_sets::Versions;
use std::alloc::Global;
use std::sync::Arc;

/// What a node tells that takes the steps of a schedule over the blocks of a chain and what arrives, where the schedule seals all blocks: the
/// results of one fold over the blocks, whatever the schedule, and the journal of the schedule. A step that its actor may not take changes
/// nothing. `Short` tells how many blocks are sealed where not all are.
pub fn simulate<V: Versions>(
    alloc: Global,
    app: &Arc<Checked>,
    blocks: &[Block],
    arrivals: &[Tx],
    schedule: &Schedule,
) -> Result<NodeResult, SimFault>
    requires actors { AllByRecursion IsStep schedule.now.steps }
    ensures told { Tells result (simulated (record { app = app.now.value.app; blocks = blocks.now; arrivals = arrivals.now }) schedule.now.steps) }
    ensures folds { IfOk result (λ made. record made { journal = [] } ≡ node_result app.now.value.app blocks.now) }
    ensures legal { IfOk result (λ made. IsLegal app.now.value.app made.journal) }
    ensures delivers { IfOk result (λ made. delivered made.journal ≡ blocks.now) }
    ensures replays { IfOk result (λ made. EachInOrder app.now.value.app blocks.now made.blocks) }
{
    let mut simulation = SimulatedNode::<V>::new(alloc, app)?;
    simulation.take_lines(blocks, arrivals, schedule.steps.as_slice())?;
    let made = simulation.close(blocks)?;
    Ok(made)
}
